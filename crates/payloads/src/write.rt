// Payloads written into the lent buffer: its front has the payload and the length is answered, or nothing is written and the answer is 0.
// 0 and no `None`, since a payload that does not fit is one of length 0 in the turn's answer: DECISIONS 25, and `length_in`.
ghost use Rattle.std.specs.Prelude.{◌≡◌, cond, ◌++◌, ◌≤◌};
ghost use Rattle.parts.specs.Parts.{zeros};
ghost use Rattle.payloads.specs.Payload.{param_head, control_payload, Written};

use crate::options::PeripheralOptions;
use fdl::parameters::Parameters;

// `v` where it is on, else 0.
fn bit_if(on: bool, v: u8) -> u8
    ensures { (result ≡ cond on v 0) × (result ≤ v) }
{
    if on { v } else { 0 }
}

// The seven bytes that every parameter telegram begins with.
#[tactic(auto, unfolding(crate::specs::Payload::param_head))]
fn param_head(u: Parameters, o: PeripheralOptions) -> [u8; 7]
    ensures { result ≡ param_head u o }
{
    let [ident_high, ident_low] = o.ident_number.to_be_bytes();
    [
        0x80 + bit_if(o.sync_mode, 0x20) + bit_if(o.freeze_mode, 0x10) + bit_if(u.watchdog, 0x08),
        bit_if(u.watchdog, u.watchdog_first),
        bit_if(u.watchdog, u.watchdog_second),
        u.min_tsdr_bits,
        ident_high,
        ident_low,
        o.groups,
    ]
}

// The seven bytes, then the user data, whose copier is lent the part of the buffer that starts at byte 7.
pub fn write_parameters(u: Parameters, o: PeripheralOptions, user: &[u8], buf: &mut [u8]) -> usize
    ensures { Written (param_head u o ++ user.now) buf.old buf.new result }
{
    let count = user.len();
    if parts::inside(7, count, buf.len()) {
        parts::copy_at(buf, 0, 7, &param_head(u, o));
        parts::copy_at(&mut buf[7..], 0, count, user);
        7 + count
    } else {
        0
    }
}

// Bytes as they are: a configuration, or an output image.
pub fn write_bytes(src: &[u8], buf: &mut [u8]) -> usize
    ensures { Written src.now buf.old buf.new result }
{
    let count = src.len();
    if parts::copy_at(buf, 0, count, src) {
        count
    } else {
        0
    }
}

// So many zeros: an output image in Clear, or no payload at all.
pub fn write_zeros(count: usize, buf: &mut [u8]) -> usize
    ensures { Written (zeros count) buf.old buf.new result }
{
    if parts::clear_at(buf, 0, count) {
        count
    } else {
        0
    }
}

// The payload of the global control, two bytes: 0x02 in Clear, 0x00 in Operate; then 0x00, no group.
#[tactic(auto, unfolding(crate::specs::Payload::control_payload))]
pub fn write_control(clear: bool, buf: &mut [u8]) -> usize
    ensures { Written (control_payload clear) buf.old buf.new result }
{
    write_bytes(&[bit_if(clear, 0x02), 0x00], buf)
}
