// The sum over all that is answered.
ghost use Rattle.std.specs.Prelude.{◌≡◌};
ghost use Rattle.speed.specs.Total.{header_fields, sent_fields, turn_numbers, reply_numbers, summed};

use answers::reply_answer::ReplyAnswer;
use answers::turn::{Transmission, TurnAnswer};
use fdl::consts::sap_number;
use fdl::telegram::DataTelegramHeader;
use script_fields::write::{sum_from, sum_step};

fn header(h: u32, d: DataTelegramHeader, to: u8, payload: &[u8]) -> u32
    ensures { result ≡ summed h (header_fields d to payload.now) }
{
    let mut sum = sum_step(h, 1);
    sum = sum_step(sum, u32::from(d.da));
    sum = sum_step(sum, u32::from(d.sa));
    sum = sum_step(sum, u32::from(sap_number(d.dsap)));
    sum = sum_step(sum, u32::from(sap_number(d.ssap)));
    sum = sum_step(sum, u32::from(u8::from(d.req)));
    sum = sum_step(sum, u32::from(u8::from(d.fcb)));
    sum = sum_step(sum, u32::from(to));
    sum_from(sum, payload)
}

fn sent(h: u32, t: Transmission, payload: &[u8]) -> u32
    ensures { result ≡ summed h (sent_fields t payload.now) }
{
    match t {
        Transmission::Nothing => sum_step(h, 0),
        Transmission::Control(d) => header(h, d, 255, payload),
        Transmission::Request {
            slot,
            header: d,
            ..
        } => header(h, d, slot, payload),
    }
}

// The sum with the numbers of a turn's answer mixed in, and the payload that it sent.
#[tactic(auto, unfolding(crate::specs::Total::turn_numbers))]
pub fn turn(h: u32, a: TurnAnswer, buf: &[u8]) -> u32
    ensures { result ≡ summed h (turn_numbers a buf.now) }
{
    let mut sum = sum_step(h, u32::from(a.refusal));
    sum = sum_step(sum, u32::from(a.cycle_completed));
    sum = sum_step(sum, a.offline);
    sum = sum_step(sum, u32::from(u8::from(a.event)));
    sum = sum_step(sum, u32::from(a.handle.slot));
    sum = sum_step(sum, (a.len % 4294967296) as u32);
    sent(sum, a.transmission, parts::part(buf, 0, a.len))
}

// The sum with the four numbers of a reply's answer mixed in.
#[tactic(auto, unfolding(crate::specs::Total::reply_numbers))]
pub fn reply(h: u32, a: ReplyAnswer) -> u32
    ensures { result ≡ summed h (reply_numbers a) }
{
    let mut sum = sum_step(h, u32::from(a.refusal));
    sum = sum_step(sum, u32::from(a.cycle_completed));
    sum = sum_step(sum, u32::from(u8::from(a.event)));
    sum_step(sum, u32::from(a.handle.slot))
}
