// Call scripts as text (docs/SCRIPTS.md): an answer to a line, with its newline.
#![tactic(auto)]

ghost use Rattle.script_fields.specs.Write.{Wrote};
ghost use Rattle.std.specs.Prelude.{◌≡◌};
ghost use Rattle.script_answers.specs.Answer.{bare_text, numbered_text, added_text, header_text, sent_number, transmission_text, turn_text, reply_text, image_text, diagnosis_text, listing_text};

use answers::reply_answer::ReplyAnswer;
use answers::turn::{Transmission, TurnAnswer};
use fdl::consts::sap_number;
use fdl::telegram::DataTelegramHeader;
use payloads::diagnosis::DiagnosticsInfo;
use peripheral_set::PeripheralHandle;
use script_fields::write::{self, Text};

// A letter alone, as `L`, `P`, `F` and `?`.
pub fn bare(text: &mut Text, letter: u8)
    ensures { Wrote (bare_text letter) text.old text.new }
{
    text.put(letter);
    text.put(b'\n');
}

// A letter and a number: N, S, X, Q, W and B, and a refused A.
pub fn numbered(text: &mut Text, letter: u8, n: u64)
    ensures { Wrote (numbered_text letter n) text.old text.new }
{
    text.put(letter);
    text.field(n);
    text.put(b'\n');
}

// A, with the handle where it was done.
pub fn added(text: &mut Text, refusal: u8, handle: PeripheralHandle)
    ensures { Wrote (added_text refusal handle) text.old text.new }
{
    if refusal != 0 {
        return numbered(text, b'A', u64::from(refusal));
    }
    text.put(b'A');
    text.fields(&[0, u64::from(handle.slot), u64::from(handle.address)]);
    text.put(b'\n');
}

// The header of what was sent, the slot that it was sent to, and the payload.
fn header(text: &mut Text, h: DataTelegramHeader, to: u8, payload: &[u8])
    ensures { Wrote (header_text h to payload.now) text.old text.new }
{
    text.fields(&[
        u64::from(h.da),
        u64::from(h.sa),
        u64::from(sap_number(h.dsap)),
        u64::from(sap_number(h.ssap)),
        u64::from(u8::from(h.req)),
        u64::from(u8::from(h.fcb)),
        u64::from(to),
    ]);
    text.bytes(payload);
}

fn sent(t: Transmission) -> u64
    ensures { result ≡ sent_number t }
{
    u64::from(!matches!(t, Transmission::Nothing))
}

// What a turn sent.
fn transmission(text: &mut Text, t: Transmission, payload: &[u8])
    ensures { Wrote (transmission_text t payload.now) text.old text.new }
{
    match t {
        Transmission::Nothing => {}
        Transmission::Control(h) => header(text, h, 255, payload),
        Transmission::Request {
            slot,
            header: h,
            ..
        } => header(text, h, slot, payload),
    }
}

// T; `payload` is the front of the payload array, of the length answered.
pub fn turn(text: &mut Text, a: TurnAnswer, payload: &[u8])
    ensures { Wrote (turn_text a payload.now) text.old text.new }
{
    text.put(b'T');
    text.fields(&[
        u64::from(a.refusal),
        u64::from(a.cycle_completed),
        u64::from(a.offline),
        u64::from(u8::from(a.event)),
        u64::from(a.handle.slot),
        a.len as u64,
        sent(a.transmission),
    ]);
    transmission(text, a.transmission, payload);
    text.put(b'\n');
}

// R: the number, cycle-completed, the event and its slot.
pub fn reply(text: &mut Text, a: ReplyAnswer)
    ensures { Wrote (reply_text a) text.old text.new }
{
    text.put(b'R');
    text.fields(&[
        u64::from(a.refusal),
        u64::from(a.cycle_completed),
        u64::from(u8::from(a.event)),
        u64::from(a.handle.slot),
    ]);
    text.put(b'\n');
}

// I and O: the number, the length of the part, and its bytes.
pub fn image(text: &mut Text, letter: u8, refusal: u8, part: &[u8])
    ensures { Wrote (image_text letter refusal part.now) text.old text.new }
{
    text.put(letter);
    text.fields(&[u64::from(refusal), part.len() as u64]);
    text.bytes(part);
    text.put(b'\n');
}

// G: the number, whether one is held, its flags, ident and master, and the extended part.
pub fn diagnosis(text: &mut Text, refusal: u8, d: DiagnosticsInfo, part: &[u8])
    ensures { Wrote (diagnosis_text refusal d part.now) text.old text.new }
{
    text.put(b'G');
    text.fields(&[
        u64::from(refusal),
        u64::from(d.held),
        u64::from(d.flags),
        u64::from(d.ident_number),
        u64::from(d.master_address),
        part.len() as u64,
    ]);
    text.bytes(part);
    text.put(b'\n');
}

// H; `listed` are the listed entries, three bytes each, and `all` the whole list array.
pub fn listing(text: &mut Text, refusal: u8, listed: &[u8], all: &[u8])
    ensures { Wrote (listing_text refusal listed.now all.now) text.old text.new }
{
    text.put(b'H');
    text.fields(&[u64::from(refusal), (listed.len() / 3) as u64]);
    for &b in listed {
        text.field(u64::from(b));
    }
    text.field(write::sum(all));
    text.put(b'\n');
}
