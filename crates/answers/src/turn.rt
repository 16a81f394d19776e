// The answer of a turn, and the payload of what it sends.
ghost use Rattle.std.specs.Prelude.{◌≡◌};
ghost use Rattle.answers.specs.Turn.{payload_sent, handle_of, offline_event, completes_of, refused_turn, answer_of, Filling};

use cycle::seen::{Mask, Seen, Sent};
use cycle::state::Step;
use fdl::parameters::Parameters;
use fdl::telegram::DataTelegramHeader;
use payloads::request::Request;
use peripheral::record::Peripheral;
use peripheral_set::PeripheralHandle;
use station::state::PeripheralEvent;

// What a turn sent.
// Three outcomes, of which none is a failure: no `Option`.
#[derive(Clone, Copy)]
pub enum Transmission {
    // No telegram, and the payload buffer is as it was.
    Nothing,
    // The global control, by its header; the payload is 2 bytes.
    Control(DataTelegramHeader),
    // A request to a balance, which is the open one from then on.
    Request {
        // Slot number of the balance, 0 to 31.
        slot: u8,
        // Which of the four it is, as the log needs to know. DECISIONS 13
        kind: Request,
        // Addresses, access points, frame bit and priority.
        header: DataTelegramHeader,
    },
}

// What was sent, and how long its payload is.
#[derive(Clone, Copy)]
pub struct Filled {
    // Length in bytes of the payload at the front of the buffer, 0 to 244; 0 where it does not fit. DECISIONS 25
    pub len: usize,
    // Nothing, the global control or a request.
    pub transmission: Transmission,
}

// The answer of a turn: the first Offline event with its handle, and a bit for every slot reported Offline.
// The number stands beside the rest, and no `Err`, since a refused turn answers length 0 and no event too: document 01, and `refused_turn`.
#[derive(Clone, Copy)]
pub struct TurnAnswer {
    // Number of the refusal, 2 or 3; 0 when done.
    pub refusal: u8,
    // Whether the visits passed the last slot with nothing sent; false when refused.
    pub cycle_completed: bool,
    // Bit s is set where slot s was reported Offline in this turn.
    pub offline: Mask,
    // Offline where a bit of the mask is set, else NoEvent.
    pub event: PeripheralEvent,
    // Slot and address of the first balance reported Offline; 255 and 255 where none was.
    pub handle: PeripheralHandle,
    // Length in bytes of the payload at the front of the buffer, 0 to 244.
    pub len: usize,
    // What goes out; nothing when refused.
    pub transmission: Transmission,
}

impl Filled {
    // Nothing was sent.
    fn nothing() -> Filled
        ensures { result ≡ (record { len = 0; transmission = Transmission.Nothing }) }
    {
        Filled {
            len: 0,
            transmission: Transmission::Nothing,
        }
    }
}

// Puts the payload of what is sent at the front of `buf`; `p` is the balance that it goes to.
pub fn fill(
    step: Step,
    sent: Option<Sent>,
    p: Peripheral,
    u: Parameters,
    clear: bool,
    setup: &[u8],
    outputs: &[u8],
    buf: &mut [u8],
) -> Filled
    ensures { Filling step sent p u (payload_sent step sent p u clear setup.now outputs.now) buf.old buf.new result }
{
    match step {
        Step::Halt | Step::Back => Filled::nothing(),
        Step::Control => Filled {
            len: payloads::write::write_control(clear, buf),
            transmission: Transmission::Control(payloads::request::control_header(u.address)),
        },
        Step::Visits => match sent {
            None => Filled::nothing(),
            Some(Sent { slot, kind }) => Filled {
                len: p.write_payload(kind, u, clear, setup, outputs, buf),
                transmission: Transmission::Request {
                    slot,
                    kind,
                    header: p.header(kind, u.address),
                },
            },
        },
    }
}

// The handle of the first balance that fell; no slot and no address where none did.
fn handle_of(first: Option<u8>, address: u8) -> PeripheralHandle
    ensures { result ≡ handle_of first address }
{
    match first {
        None => PeripheralHandle::none(),
        Some(slot) => PeripheralHandle { slot, address },
    }
}

// The event of a turn: Offline where a balance fell.
fn offline_event(first: Option<u8>) -> PeripheralEvent
    ensures { result ≡ offline_event first }
{
    match first {
        None => PeripheralEvent::NoEvent,
        Some(_) => PeripheralEvent::Offline,
    }
}

// Whether the visits passed the last slot.
fn completes(step: Step, sent: Option<Sent>) -> bool
    ensures { result ≡ completes_of step sent }
{
    match step {
        Step::Visits => sent.is_none(),
        _ => false,
    }
}

impl TurnAnswer {
    // A turn refused with this number: no event, nothing sent, length 0.
    pub fn refused(refusal: u8) -> TurnAnswer
        ensures { result ≡ refused_turn refusal }
    {
        TurnAnswer {
            refusal,
            cycle_completed: false,
            offline: 0,
            event: PeripheralEvent::NoEvent,
            handle: PeripheralHandle::none(),
            len: 0,
            transmission: Transmission::Nothing,
        }
    }

    // The answer of an accepted turn; `address` is that of the first balance reported Offline.
    pub fn of(step: Step, seen: Seen, address: u8, filled: Filled) -> TurnAnswer
        ensures { result ≡ answer_of step seen address filled }
    {
        TurnAnswer {
            refusal: 0,
            cycle_completed: completes(step, seen.sent),
            offline: seen.mask,
            event: offline_event(seen.first),
            handle: handle_of(seen.first, address),
            len: filled.len,
            transmission: filled.transmission,
        }
    }
}
