// How fast the unit is: turns and replies over a number of balances, and a sum over all that they answer, so that nothing can be left out.
//
// Standard input is one line, `MODE BALANCES ROUNDS` in decimal: in mode 0 every balance answers, in mode 1 only the one in slot 0.
// BALANCES is 1 to 32, ROUNDS below 2^32; any other line is answered with `?`.
//
// The unit has own address 2, retry limit 1, slot time 200, no watchdog, min Tsdr 11 and four pools of 16,384 bytes. Balance k has address 3 + k,
// ident 0x1234, user parameters 00 01 02, configuration 13 23, images of 4 bytes each and room 16; no flags, groups 0. Then Operate is set.
//
// There are 16 * BALANCES + 16 + ROUNDS rounds, the first of which bring the balances up. Round c, from 0 on, is a turn at time 100 * (c + 1);
// where that sends a request to a slot that answers, a reply follows: to a diagnosis request data with DSAP 62, SSAP 60, status 8 and
// 00 0C 00 02 12 34; to parameters and configuration a short confirmation; to data a reply with no DSAP, no SSAP, status 8 and the four bytes
// c mod 256, c / 256 mod 256, slot, 7.
//
// The sum is h = 1, and h = (h * 256 + n) mod 1000000007 for each number n of each answer, in the order of docs/SCRIPTS.md: of a turn the seven
// numbers, and where something was sent the seven behind them and each byte of the payload; of a reply the four; and at the end the four bytes
// of each balance's input image, in the order of the slots. It is written in decimal, with a newline.
#![tactic(auto)]

mod balance;
mod total;

ghost use Rattle.std.specs.Prelude.{◌<◌, ◌≤◌, IfOk, IfSome, length};

use crate::balance::Answer;
use answers::turn::Transmission;
use master::unit::DpMaster;
use peripheral_set::PeripheralHandle;
use script_fields::read::Reader;
use script_fields::write::{Text, sum_from};
use std::io::{self, Read};

// The unit with its pools, the payload buffer, and the sum so far.
#[derive(Drop)]
struct Bench {
    unit: DpMaster,
    setup: [u8; 16384],
    inputs: [u8; 16384],
    outputs: [u8; 16384],
    diags: [u8; 16384],
    buf: [u8; 255],
    sum: u32,
}

// The first byte of a number.
fn low(n: u64) -> u8 {
    (n % 256) as u8
}

impl Bench {
    // A unit with no balance.
    fn new() -> Bench {
        Bench {
            unit: DpMaster::new(balance::parameters()).master,
            setup: [0; 16384],
            inputs: [0; 16384],
            outputs: [0; 16384],
            diags: [0; 16384],
            buf: [0; 255],
            sum: 1,
        }
    }

    // One balance more; the pools have room for 32 of them.
    fn add(&mut self, address: u8) {
        let added = self.unit.add(
            balance::addition(address),
            &[0, 1, 2],
            &[0x13, 0x23],
            &mut self.setup,
            &mut self.inputs,
            &mut self.outputs,
            &mut self.diags,
        );
        drop(added);
    }

    // One turn.
    fn turn(&mut self, time: u64) -> Transmission {
        let a = self
            .unit
            .transmit_telegram(time, false, &self.setup, &self.outputs, &mut self.buf);
        self.sum = total::turn(self.sum, a, &self.buf);
        a.transmission
    }

    // The reply of a balance.
    fn reply(&mut self, r: Answer, payload: &[u8]) {
        let a = self.unit.receive_reply(
            r.address,
            r.telegram,
            payload,
            &mut self.inputs,
            &mut self.diags,
        );
        self.sum = total::reply(self.sum, a);
    }

    // One turn, and the reply to it where there is one, with the payload that belongs to it.
    fn round(&mut self, all: bool, c: u64)
        requires { c < 8589934592 }
    {
        let sent = self.turn(100 * (c + 1));
        let Some(r) = balance::told_by(all, sent) else {
            return;
        };
        if r.data {
            self.reply(r, &[low(c), low(c / 256), r.slot, 7]);
        } else {
            self.reply(r, &[0x00, 0x0C, 0x00, 0x02, 0x12, 0x34]);
        }
    }

    // The input image of the balance in a slot.
    fn image(&mut self, slot: u8) {
        let handle = PeripheralHandle { slot, address: 0 };
        self.sum = sum_from(
            self.sum,
            access::images::pi_i(&self.unit, handle, &self.inputs),
        );
    }
}

// How many rounds there are.
fn count_of(balances: u8, rounds: u32) -> u64
    ensures { result < 8589934592 }
{
    16 * u64::from(balances) + 16 + u64::from(rounds)
}

// The sum over all rounds, and over the input images after them.
fn run(all: bool, balances: u8, rounds: u32) -> u32
    requires { balances ≤ 32 }
{
    let mut b = Bench::new();
    for k in 0..balances {
        b.add(3 + k);
    }
    b.unit.enter_operate();
    for c in 0..count_of(balances, rounds) {
        b.round(all, c);
    }
    for slot in 0..balances {
        b.image(slot);
    }
    b.sum
}

// What a line asks for: the mode, how many balances, at least one, and how many rounds.
fn asked(s: &[u8]) -> Option<(u64, u8, u32)>
    ensures { IfSome result (λ asked. asked.1 ≤ 32) }
{
    let mut r = Reader { line: s, at: 0 };
    let mode = r.digits(1)?;
    let balances = r.number(32)? as u8;
    let rounds = r.number(4294967295)? as u32;
    (r.ends() && balances > 0).then_some((mode, balances, rounds))
}

fn line(s: &[u8], out: &mut Text) {
    let Some((mode, balances, rounds)) = asked(s) else {
        script_answers::bare(out, b'?');
        return;
    };
    out.number(u64::from(run(mode == 0, balances, rounds)));
    out.put(b'\n');
}

// Reads until the buffer is full or the input ends, and answers how many bytes came.
fn read_full(reader: &mut impl Read, buf: &mut [u8]) -> io::Result<usize>
    ensures { IfOk result (λ n. n ≤ length buf.new) }
{
    let mut done = 0;
    while done < buf.len() {
        let n = reader.read(&mut buf[done..])?;
        if n == 0 {
            break;
        }
        done += n;
    }
    Ok(done)
}

fn main(rt: HostRuntime) -> io::Result<()> {
    let mut buf = [0u8; 4096];
    let n = read_full(&mut rt.stdin(), &mut buf)?;
    let mut text = [0u8; 64];
    let mut out = Text {
        out: &mut text,
        at: 0,
    };
    let input = &buf[..n];
    line(input.strip_suffix(b"\n").unwrap_or(input), &mut out);
    let end = out.at;
    rt.write_all(parts::part(&text, 0, end))
}
