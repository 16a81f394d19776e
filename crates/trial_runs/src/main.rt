// The eighteen trial runs of document 01, one line each: its number, and "ok" or "bad".
// Each compares every value that document 01 names for it; a trial whose set-up is refused is bad too.
#![tactic(auto)]

mod bench;

use crate::bench::{Balance, Bench, KEPT, OUTPUTS, Seen, created, data, diagnosis};
use access::diagnosis::last_diagnostics;
use access::lookup::find;
use answers::reply_answer::ReplyAnswer;
use answers::turn::{Transmission, TurnAnswer};
use fdl::telegram::Telegram;
use payloads::diagnosis::DiagnosticsInfo;
use payloads::request::Request;
use peripheral_set::PeripheralHandle;
use refusals::Refusal;
use station::record::Station;
use station::state::{PeripheralEvent, PeripheralState};
use std::io;

const ADDRESS: u8 = 8;

// When the first global control goes out: the eighth trial counts from here.
const CONTROL: u64 = 1000;

// The configuration of a balance with one byte of input: one identifier byte.
const ONE_INPUT: [u8; 1] = [0x10];

// The configuration of a balance with two bytes of output: one identifier byte.
const TWO_OUTPUTS: [u8; 1] = [0x21];

// The kind of request that a turn sent, if it sent one.
fn asks(answer: TurnAnswer) -> Option<Request> {
    match answer.transmission {
        Transmission::Request { kind, .. } => Some(kind),
        _ => None,
    }
}

// Whether the payload of a turn is this one.
fn is_payload(t: Seen, expected: &[u8]) -> bool {
    t.answer.len == expected.len() && t.payload.starts_with(expected)
}

// A turn, and the reply of the balance at `address`. Where that ends the cycle, one turn more: it only goes back to the first slot.
fn ask(b: &mut Bench, address: u8, telegram: Telegram, payload: &[u8]) {
    b.turn(CONTROL + 1);
    if b.reply(address, telegram, payload).cycle_completed {
        b.turn(CONTROL + 1);
    }
}

// What a balance should answer to its request number `step`: diagnosis, parameters, configuration, diagnosis.
fn right(step: u8) -> Telegram {
    match step {
        1 | 2 => Telegram::ShortConfirmation,
        _ => diagnosis(),
    }
}

// A bench on which one balance was just placed, after the global control and the first `steps` requests, each answered as it should be:
// 0 leaves the balance Offline, 4 in PreDataExchange.
fn bring(b: &mut Bench, steps: u8) {
    b.turn(CONTROL);
    for step in 0..steps {
        ask(
            b,
            ADDRESS,
            right(step),
            &[0x00, 0x00, 0x00, 0x02, 0x12, 0x34],
        );
    }
}

// A balance with an input image of so many bytes and no outputs.
fn plain(address: u8, image: usize) -> Balance {
    Balance {
        address,
        image,
        outputs: 0,
        fail_safe: false,
    }
}

// A balance with no user parameters and no image.
fn add_plain(b: &mut Bench, address: u8) -> Result<PeripheralHandle, Refusal> {
    b.add(plain(address, 0), &[], &[])
}

// One balance with an image of no byte or one, brought so many steps.
fn raised(limit: u8, image: usize, steps: u8, user: &[u8]) -> Result<Bench, Refusal> {
    let mut b = Bench::new(limit);
    b.add(
        plain(ADDRESS, image),
        user,
        parts::part(&ONE_INPUT, 0, image),
    )?;
    bring(&mut b, steps);
    Ok(b)
}

// What a reply shows: the request before it, its answer, the balance before and after it, its last diagnosis and its image.
#[derive(Clone, Copy)]
struct Reading {
    asked: Option<Request>,
    answer: ReplyAnswer,
    before: Station,
    after: Station,
    diagnosis: DiagnosticsInfo,
    image: u8,
}

impl Reading {
    // Whether the state of the balance is this one, by its number: another number counts as Offline, and is none of them.
    fn is_in(self, state: PeripheralState) -> bool {
        self.after.state == u8::from(state)
    }
}

// The trial of one reply: after `steps` answered requests, one more turn, then this reply. The input pool has bytes that it may keep.
fn heard(image: usize, steps: u8, telegram: Telegram, payload: &[u8]) -> Result<Reading, Refusal> {
    let handle = PeripheralHandle {
        slot: 0,
        address: ADDRESS,
    };
    let mut b = raised(1, image, steps, &[])?;
    b.inputs = [KEPT; 8];
    let before = find(&b.unit, handle)?.station;
    let asked = asks(b.turn(CONTROL + 1).answer);
    let answer = b.reply(ADDRESS, telegram, payload);
    Ok(Reading {
        asked,
        answer,
        before,
        after: find(&b.unit, handle)?.station,
        diagnosis: last_diagnostics(&b.unit, handle, &b.diags)?,
        image: b.inputs[0],
    })
}

// 1: watchdog 2, 5, Tsdr 11, ident 0x1234, groups 0, user 00 01 02.
fn parameter_bytes() -> Result<bool, Refusal> {
    let expected = [0x88, 0x02, 0x05, 0x0B, 0x12, 0x34, 0x00, 0x00, 0x01, 0x02];
    let mut b = raised(1, 0, 1, &[0x00, 0x01, 0x02])?;
    Ok(is_payload(b.turn(CONTROL + 1), &expected))
}

// 2: flags 0x0800, master 2, clean.
fn clean_diagnosis() -> Result<bool, Refusal> {
    let h = heard(0, 3, diagnosis(), &[0x00, 0x0C, 0x00, 0x02, 0x12, 0x34])?;
    Ok(
        h.asked == Some(Request::Diagnosis)
            && h.diagnosis.flags == 0x0800
            && h.diagnosis.master_address == 2
            && h.answer.event == PeripheralEvent::Configured
            && h.is_in(PeripheralState::PreDataExchange),
    )
}

// 3: flags 0x0102, no master; in ValidateConfig, WaitForParam.
fn asks_for_parameters() -> Result<bool, Refusal> {
    let h = heard(0, 3, diagnosis(), &[0x02, 0x05, 0x00, 0xFF, 0x12, 0x34])?;
    Ok(
        h.asked == Some(Request::Diagnosis)
            && h.diagnosis.flags == 0x0102
            && h.diagnosis.master_address == 255
            && h.is_in(PeripheralState::WaitForParam),
    )
}

// 4: 5 bytes, not taken.
fn short_diagnosis() -> Result<bool, Refusal> {
    let h = heard(0, 0, diagnosis(), &[0x00, 0x0C, 0x00, 0x02, 0x12])?;
    Ok(
        h.asked == Some(Request::Diagnosis)
            && h.answer.refusal == 0
            && !h.diagnosis.held
            && h.answer.event == PeripheralEvent::NoEvent
            && h.is_in(PeripheralState::Offline),
    )
}

// 5: flags 0x0044, ParameterError.
fn parameter_error() -> Result<bool, Refusal> {
    let h = heard(0, 3, diagnosis(), &[0x44, 0x00, 0x00, 0x02, 0x12, 0x34])?;
    Ok(h.diagnosis.flags == 0x0044 && h.answer.event == PeripheralEvent::ParameterError)
}

// 6: status 10, wrong length: due, bit cycled, no event, image kept.
fn wrong_length() -> Result<bool, Refusal> {
    let h = heard(1, 4, data(10), &[1, 2])?;
    Ok(
        h.asked == Some(Request::Data)
            && h.after.diag_needed
            && h.after.fcb != h.before.fcb
            && h.answer.event == PeripheralEvent::NoEvent
            && h.image == KEPT,
    )
}

// 7: status 1, exchange: count 0, no event.
fn no_data() -> Result<bool, Refusal> {
    let h = heard(1, 4, data(1), &[1])?;
    Ok(
        h.asked == Some(Request::Data)
            && h.answer.refusal == 0
            && h.after.retry_count == 0
            && h.answer.event == PeripheralEvent::NoEvent,
    )
}

// What three turns answer with the balance silent.
fn silent(limit: u8, steps: u8, times: [u64; 3]) -> Result<[TurnAnswer; 3], Refusal> {
    let mut b = raised(limit, 0, steps, &[])?;
    Ok([
        b.turn(times[0]).answer,
        b.turn(times[1]).answer,
        b.turn(times[2]).answer,
    ])
}

// 8: slot time 200, global control at 1,000: at 10,999 not due, at 11,000 due.
fn control_due() -> Result<bool, Refusal> {
    let [first, second, _] = silent(1, 0, [10999, 11000, 11001])?;
    Ok(
        asks(first) == Some(Request::Diagnosis)
            && matches!(second.transmission, Transmission::Control(_)),
    )
}

// 9: limit 1, silent in WaitForParam: sent, sent, Offline.
fn silent_set_up() -> Result<bool, Refusal> {
    let [first, second, third] = silent(1, 1, [1001, 1002, 1003])?;
    Ok(
        asks(first) == Some(Request::Parameters)
            && asks(second) == Some(Request::Parameters)
            && third.event == PeripheralEvent::Offline,
    )
}

// 10: limit 0, Offline and silent: sent, Offline event, sent.
fn silent_offline() -> Result<bool, Refusal> {
    let [first, second, third] = silent(0, 0, [1001, 1002, 1003])?;
    Ok(
        asks(first) == Some(Request::Diagnosis)
            && second.event == PeripheralEvent::Offline
            && asks(third) == Some(Request::Diagnosis),
    )
}

// 11: image 0 bytes, short confirmation: DataExchanged.
fn empty_image() -> Result<bool, Refusal> {
    let h = heard(0, 4, Telegram::ShortConfirmation, &[])?;
    Ok(h.asked == Some(Request::Data) && h.answer.event == PeripheralEvent::DataExchanged)
}

// 12: image 1 byte: no event.
fn one_byte_image() -> Result<bool, Refusal> {
    let h = heard(1, 4, Telegram::ShortConfirmation, &[])?;
    Ok(
        h.asked == Some(Request::Data)
            && h.answer.refusal == 0
            && h.answer.event == PeripheralEvent::NoEvent,
    )
}

// A bench with so many balances, all of which had to be added.
fn filled(count: u8) -> Result<Bench, Refusal> {
    let mut b = Bench::new(1);
    for i in 0..count {
        add_plain(&mut b, 10 + i % 64)?;
    }
    Ok(b)
}

// 13: 32nd add done, 33rd is 5.
fn full_table() -> Result<bool, Refusal> {
    add_plain(&mut filled(31)?, ADDRESS)?;
    Ok(add_plain(&mut filled(32)?, ADDRESS) == Err(Refusal::TableFull))
}

// An add with so many bytes of user parameters.
fn add_with(user: &[u8]) -> Result<PeripheralHandle, Refusal> {
    Bench::new(1).add(plain(ADDRESS, 0), user, &[])
}

// 14: user parameters 237 done, 238 is 7.
fn long_parameters() -> Result<bool, Refusal> {
    add_with(&[0; 237])?;
    Ok(add_with(&[0; 238]) == Err(Refusal::TooLong))
}

// 15: limit 254 done, 255 is 1.
fn highest_limit() -> Result<bool, Refusal> {
    created(254).outcome?;
    Ok(created(255).outcome == Err(Refusal::BadParameter))
}

// 16: two Offline in a turn: two mask bits. Two wrong replies leave both counts above a limit of 0.
fn two_offline() -> Result<bool, Refusal> {
    let mut b = raised(0, 0, 0, &[])?;
    add_plain(&mut b, ADDRESS + 1)?;
    ask(&mut b, ADDRESS, Telegram::ShortConfirmation, &[]);
    ask(&mut b, ADDRESS + 1, Telegram::ShortConfirmation, &[]);
    let answer = b.turn(CONTROL + 1).answer;
    Ok(answer.event == PeripheralEvent::Offline && answer.offline == 3)
}

// What goes out in Clear, after the global control, to a balance with the outputs 01 02.
fn in_clear(fail_safe: bool) -> Result<Seen, Refusal> {
    let balance = Balance {
        address: ADDRESS,
        image: 0,
        outputs: 2,
        fail_safe,
    };
    let mut b = Bench::new(1);
    b.add(balance, &[], &TWO_OUTPUTS)?;
    b.outputs = OUTPUTS;
    bring(&mut b, 4);
    b.clear();
    b.turn(CONTROL + 1);
    Ok(b.turn(CONTROL + 2))
}

// 17: Clear, fail_safe, outputs 01 02: data request, payload empty.
fn clear_signal() -> Result<bool, Refusal> {
    let t = in_clear(true)?;
    Ok(asks(t.answer) == Some(Request::Data) && is_payload(t, &[]))
}

// 18: the same without fail_safe: payload 00 00.
fn clear_zeros() -> Result<bool, Refusal> {
    let t = in_clear(false)?;
    Ok(asks(t.answer) == Some(Request::Data) && is_payload(t, &[0; 2]))
}

fn report(rt: &impl Print, number: usize, trial: Result<bool, Refusal>) -> io::Result<()> {
    let word = if trial == Ok(true) { "ok" } else { "bad" };
    println!(rt; "{number} {word}")
}

fn main(rt: HostRuntime) -> io::Result<()> {
    let trials = [
        parameter_bytes(),
        clean_diagnosis(),
        asks_for_parameters(),
        short_diagnosis(),
        parameter_error(),
        wrong_length(),
        no_data(),
        control_due(),
        silent_set_up(),
        silent_offline(),
        empty_image(),
        one_byte_image(),
        full_table(),
        long_parameters(),
        highest_limit(),
        two_offline(),
        clear_signal(),
        clear_zeros(),
    ];
    for (i, trial) in trials.into_iter().enumerate() {
        report(&rt, i + 1, trial)?;
    }
    Ok(())
}
