// A reply judged on the parts of the unit that it touches, and its answer.
ghost use Rattle.std.specs.Prelude.{◌≡◌};
ghost use Rattle.answers.specs.ReplyAnswer.{event_handle, refused_reply, judged_of};

use cycle::state::DpMasterState;
use fdl::parameters::Parameters;
use fdl::telegram::Telegram;
use payloads::request::Request;
use peripheral::record::Peripheral;
use peripheral::response::Keeps;
use peripheral_set::{PeripheralHandle, SLOTS};
use station::state::PeripheralEvent;

// The answer of a reply: the event with its handle.
// The number stands beside the rest, and no `Err`, since a refused reply answers no event and no handle too: document 01, and `refused_reply`.
#[derive(Clone, Copy)]
pub struct ReplyAnswer {
    // Number of the refusal, 2, 9 or 10; 0 when done.
    pub refusal: u8,
    // Whether no occupied slot comes after the one that was asked; false when refused.
    pub cycle_completed: bool,
    // What the balance reports, NoEvent where that is nothing or when refused; never Offline.
    pub event: PeripheralEvent,
    // Slot and address of the balance with the event; 255 and 255 without one.
    pub handle: PeripheralHandle,
}

// The handle of a balance with an event; no slot and no address where there is no event.
fn event_handle(event: PeripheralEvent, slot: u8, address: u8) -> PeripheralHandle
    ensures { result ≡ event_handle event slot address }
{
    match event {
        PeripheralEvent::NoEvent => PeripheralHandle::none(),
        _ => PeripheralHandle { slot, address },
    }
}

impl ReplyAnswer {
    fn refused(refusal: u8) -> ReplyAnswer
        ensures { result ≡ refused_reply refusal }
    {
        ReplyAnswer {
            refusal,
            cycle_completed: false,
            event: PeripheralEvent::NoEvent,
            handle: PeripheralHandle::none(),
        }
    }
}

// What a reply makes of the parts that it touches: what is stored, what is kept, and the answer.
#[derive(Clone, Copy)]
pub struct Judged {
    // The balance with the open request, as the reply leaves it.
    pub peripheral: Peripheral,
    // The master's own state: request closed and place moved on, or as it was when refused.
    pub state: DpMasterState,
    // What of the payload goes to a pool; nothing when refused.
    pub keeps: Keeps,
    // What the caller is told.
    pub answer: ReplyAnswer,
}

// The reply of the balance `p`, which has the open request, in a unit with these parameters, state and marks.
// A refusal hands the parts back as they are.
pub fn judge(
    u: Parameters,
    s: DpMasterState,
    p: Peripheral,
    marks: &[bool; SLOTS],
    address: u8,
    telegram: Telegram,
    payload: &[u8],
    inputs: usize,
    diags: usize,
) -> Judged
    ensures { result ≡ judged_of u s p marks.now address telegram payload.now inputs diags }
{
    let refusal = cycle::refusal::reply_refusal(
        u,
        s,
        p.address(),
        address,
        telegram,
        payload.len(),
        inputs,
        diags,
    );
    if let Err(refusal) = refusal {
        return Judged {
            peripheral: p,
            state: s,
            keeps: Keeps::Neither,
            answer: ReplyAnswer::refused(u8::from(refusal)),
        };
    }
    let r = p.receive_reply(Request::from(s.open_kind), telegram, payload, inputs, diags);
    let next = peripheral_set::next_after(marks, cycle::seen::index(s.open_slot));
    Judged {
        peripheral: r.peripheral,
        state: s.answered(next),
        keeps: r.keeps,
        answer: ReplyAnswer {
            refusal: 0,
            cycle_completed: next.is_none(),
            event: r.event,
            handle: event_handle(r.event, s.open_slot, p.address()),
        },
    }
}
