// A first program: a unit with one balance, from creation to its first weights. `stdout` has what it writes.
//
// There are twenty turns, 100 microseconds apart. Turn 1 sends the global control; it would be due again after 50 slot times, past the last turn.
// From turn 2 on every second turn asks the balance: diagnosis, parameters, configuration, diagnosis, and then data each time.
// Its reply ends the cycle, since there is no other balance, and the turn after it sends nothing: it takes the place back to the first slot.
//
// The balance is played by `weight`, `telegram` and `payload`. On a real line the header of the request and the first `len` bytes of
// `buf` go out, and what comes back is handed in.
#![tactic(auto)]

ghost use Rattle.std.specs.Prelude.{◌≡◌, [], ◌∷◌};

use answers::reply_answer::ReplyAnswer;
use answers::turn::Transmission;
use fdl::parameters::Parameters;
use fdl::telegram::Telegram;
use master::add::Addition;
use master::unit::DpMaster;
use payloads::options::PeripheralOptions;
use payloads::request::Request;
use station::state::PeripheralEvent;
use std::io;

// The unit. Its pools are as long as the arrays in `main`: a call that is lent another length is refused as 2.
fn parameters() -> Parameters {
    Parameters {
        slot_time: 200,
        setup_pool: 64,
        input_pool: 16,
        output_pool: 16,
        diag_pool: 64,
        address: 2,
        max_retry_limit: 1,
        watchdog: false,
        watchdog_first: 0,
        watchdog_second: 0,
        min_tsdr_bits: 11,
    }
}

// The balance, with four bytes of weight in and two bytes out. The two lengths in the options are not looked at (DECISIONS 28).
fn balance() -> Addition {
    let options = PeripheralOptions {
        ident_number: 0x1234,
        max_tsdr: 0,
        groups: 0,
        sync_mode: false,
        freeze_mode: false,
        fail_safe: false,
        has_user_parameters: true,
        user_parameters: 0,
        has_config: true,
        config: 0,
    };
    Addition {
        address: 5,
        options,
        input_len: 4,
        output_len: 2,
        room: 16,
    }
}

// What lies on the balance at a turn. The last byte is the turn, so that a line shows with which reply its weight came.
fn weight(turn: u8) -> [u8; 4]
    ensures { result ≡ 0 ∷ 0 ∷ 9 ∷ turn ∷ [] }
{
    [0, 0, 9, turn]
}

// What the balance replies to a request: its diagnosis, its weight, or that it took what was sent.
fn telegram(kind: Request) -> Telegram {
    match kind {
        Request::Diagnosis => Telegram::Data {
            dsap: Some(62),
            ssap: Some(60),
            status: 8,
        },
        Request::Data => Telegram::Data {
            dsap: None,
            ssap: None,
            status: 8,
        },
        _ => Telegram::ShortConfirmation,
    }
}

// The bytes that come with that reply; a short confirmation has none.
fn payload<'a>(kind: Request, diagnosis: &'a [u8], weight: &'a [u8]) -> &'a [u8] {
    match kind {
        Request::Diagnosis => diagnosis,
        Request::Data => weight,
        _ => &[],
    }
}

// A line for each event that a sound balance gives. Only DataExchanged says that the image is new: then it is read, by the event's handle.
fn report(
    rt: &impl Print,
    m: &DpMaster,
    answer: ReplyAnswer,
    turn: u8,
    inputs: &[u8],
) -> io::Result<()> {
    match answer.event {
        PeripheralEvent::Online => println!(rt; "turn {turn}: Online"),
        PeripheralEvent::Configured => println!(rt; "turn {turn}: Configured"),
        PeripheralEvent::DataExchanged => {
            print!(rt; "turn {turn}: weight")?;
            for byte in access::images::pi_i(m, answer.handle, inputs) {
                print!(rt; " {byte}")?;
            }
            println!(rt)
        }
        _ => Ok(()),
    }
}

// The pools and the payload buffer are the caller's, and lent to the calls that need them.
fn main(rt: HostRuntime) -> io::Result<()> {
    let mut setup = [0u8; 64];
    let mut inputs = [0u8; 16];
    let mut outputs = [0u8; 16];
    let mut diags = [0u8; 64];
    let mut buf = [0u8; 244];
    let mut m = DpMaster::new(parameters()).master;
    let added = m.add(
        balance(),
        b"\x00",
        b"\x13\x21",
        &mut setup,
        &mut inputs,
        &mut outputs,
        &mut diags,
    );
    let number = match added {
        Ok(_) => 0,
        Err(refusal) => u8::from(refusal),
    };
    println!(rt; "add: number {number}")?;
    m.enter_operate();
    for turn in 1..=20 {
        let time = 100 * u64::from(turn);
        let sent = m.transmit_telegram(time, false, &setup, &outputs, &mut buf);
        // The global control gets no reply.
        if let Transmission::Request { kind, header, .. } = sent.transmission {
            let weight = weight(turn);
            let came = payload(kind, b"\x00\x0C\x00\x02\x12\x34", &weight);
            let answer = m.receive_reply(header.da, telegram(kind), came, &mut inputs, &mut diags);
            report(&rt, &m, answer, turn, &inputs)?;
        }
    }
    Ok(())
}
