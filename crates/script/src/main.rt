// Reads call scripts (docs/SCRIPTS.md) from standard input, makes the calls on a unit and writes the answers.
// What a line does is decided in `script_driver`, with exact contracts; here the lines are read, handed on, and answered.
#![tactic(auto)]

ghost use Rattle.std.specs.Prelude.{◌≡◌, ◌<◌, OnOk, length};
ghost use Rattle.script_driver.specs.Room.{next_at};

use payloads::diagnosis::DiagnosticsInfo;
use refusals::Refusal;
use script_driver::arrays::Arrays;
use script_driver::pieces::Partial;
use script_driver::room::LONGEST;
use script_driver::run::Run;
use script_fields::write::Text;
use script_lines::Call;
use std::io::{self, Read};

// The output has room for four of the longest answers; once there is none left for one more, what waits is written.
const OUTPUT: usize = 4 * LONGEST;

// The number of an outcome: 0 where it is done.
fn number(outcome: Result<(), Refusal>) -> u8 {
    match outcome {
        Ok(()) => 0,
        Err(refusal) => u8::from(refusal),
    }
}

// Whether what an L said ends with a call: with each but these (docs/SCRIPTS.md, "Calls").
fn ends_lending(call: Call) -> bool {
    !matches!(
        call,
        Call::New(_)
            | Call::Lend(_)
            | Call::FillPools(_)
            | Call::FillPayload(_)
            | Call::Dump
            | Call::Payload
    )
}

// T. Each slice by `&mut`, read or written: of two fields behind one `&mut` the check covers no `&` beside a `&mut`.
fn turn(
    run: &mut Run,
    time: u64,
    high_prio_only: bool,
    setup: &mut [u8],
    outputs: &mut [u8],
    payload: &mut [u8],
    out: &mut Text,
) {
    let made = run.turn(time, high_prio_only, setup, outputs, payload);
    script_answers::turn(out, made, parts::part(payload, 0, made.len));
}

// D, with the slices as in T.
fn dump(
    run: &Run,
    setup: &mut [u8],
    inputs: &mut [u8],
    outputs: &mut [u8],
    diags: &mut [u8],
    out: &mut Text,
) {
    let sums = script_driver::arrays::sums(setup, inputs, outputs, diags);
    script_dump::line(out, &run.unit, sums);
}

// A call is made and answered; its bytes stand at the front of `a`, in an add the configuration at that of `b`.
fn answer(
    run: &mut Run,
    arrays: &mut Arrays,
    call: Call,
    a: &[u8; 255],
    b: &[u8; 255],
    out: &mut Text,
) {
    match call {
        Call::New(p) => {
            let made = Run::new(p);
            *run = made.run;
            arrays.clear();
            script_answers::numbered(out, b'N', u64::from(number(made.outcome)));
        }
        Call::Lend(lent) => {
            run.lend(lent);
            script_answers::bare(out, b'L');
        }
        Call::FillPools(byte) => {
            arrays.fill_pools(byte);
            script_answers::bare(out, b'P');
        }
        Call::FillPayload(byte) => {
            arrays.fill_payload(byte);
            script_answers::bare(out, b'F');
        }
        Call::Add {
            addition,
            user,
            config,
        } => {
            let user = parts::part(a, 0, user);
            let config = parts::part(b, 0, config);
            match run.add(
                addition,
                user,
                config,
                arrays.setup,
                arrays.inputs,
                arrays.outputs,
                arrays.diags,
            ) {
                Ok(handle) => script_answers::added(out, 0, handle),
                Err(refusal) => script_answers::numbered(out, b'A', u64::from(u8::from(refusal))),
            }
        }
        Call::State(state) => {
            run.unit.enter_state(state);
            script_answers::numbered(out, b'S', 0);
        }
        Call::Turn {
            time,
            high_prio_only,
        } => {
            turn(
                run,
                time,
                high_prio_only,
                arrays.setup,
                arrays.outputs,
                arrays.payload,
                out,
            );
        }
        Call::Reply {
            address,
            telegram,
            len,
        } => {
            let payload = parts::part(a, 0, len);
            let answered = run.reply(address, telegram, payload, arrays.inputs, arrays.diags);
            script_answers::reply(out, answered);
        }
        Call::Reset { handle, address } => {
            let done = run.unit.reset_address(handle, address);
            script_answers::numbered(out, b'X', u64::from(number(done)));
        }
        Call::Wish(handle) => {
            let done = run.unit.request_diagnostics(handle);
            script_answers::numbered(out, b'Q', u64::from(number(done)));
        }
        Call::Write { handle, len } => {
            let done = run.write(handle, parts::part(a, 0, len), arrays.outputs);
            script_answers::numbered(out, b'W', u64::from(number(done)));
        }
        Call::Inputs(handle) => {
            let refusal = run.inputs_refusal(handle, arrays.inputs);
            let part = run.inputs(handle, arrays.inputs);
            script_answers::image(out, b'I', number(refusal), part);
        }
        Call::Outputs(handle) => {
            let refusal = run.outputs_refusal(handle, arrays.outputs);
            let part = run.outputs(handle, arrays.outputs);
            script_answers::image(out, b'O', number(refusal), part);
        }
        Call::Diagnosis(handle) => {
            let last = run.diagnosis(handle, arrays.diags);
            let part = run.extended(handle, arrays.diags);
            match last {
                Ok(held) => script_answers::diagnosis(out, 0, held, part),
                Err(refusal) => script_answers::diagnosis(
                    out,
                    u8::from(refusal),
                    DiagnosticsInfo::none(),
                    part,
                ),
            }
        }
        Call::Listing => {
            let listed = run.listing(arrays.list);
            let all: &[u8] = arrays.list;
            match listed {
                Ok(len) => script_answers::listing(out, 0, parts::part(all, 0, len), all),
                Err(refusal) => script_answers::listing(out, u8::from(refusal), &[], all),
            }
        }
        Call::Dump => {
            dump(
                run,
                arrays.setup,
                arrays.inputs,
                arrays.outputs,
                arrays.diags,
                out,
            );
        }
        Call::Payload => {
            let sum = script_fields::write::sum(arrays.payload);
            script_answers::numbered(out, b'B', sum);
        }
    }
}

// Writes what waits.
fn flush(rt: &impl Print, out: &Text) -> io::Result<()> {
    rt.write_all(parts::part(out.out, 0, out.at))
}

// Writes what waits where there is no room behind it for every answer: the next one then goes to the front.
fn flushed(rt: &impl Print, out: &mut Text) -> io::Result<()>
    ensures { OnOk result
        (out.new ≡ record out.old { at = next_at (length out.old.out.now) out.old.at }) }
{
    let next = script_driver::room::next_at(out.out.len(), out.at);
    if next < out.at {
        flush(rt, out)?;
    }
    out.at = next;
    Ok(())
}

// What stands between two pieces of the input.
#[derive(Drop)]
struct Driver<'a> {
    run: Run,
    arrays: Arrays<'a>,
    // The array of a line, what came of it at the front.
    text: &'a mut [u8],
    // How much of the line came.
    came: Partial,
}

impl Driver<'_> {
    // The line that came is answered; where it is no call, `?`, and nothing changes.
    fn line(&mut self, out: &mut Text) {
        let mut a = [0u8; 255];
        let mut b = [0u8; 255];
        let filled = self.came.filled;
        let asked = script_lines::parse(parts::part(self.text, 0, filled), &mut a, &mut b);
        match script_driver::run::call_made(self.run.made, self.came.long, asked) {
            Some(call) => {
                answer(&mut self.run, &mut self.arrays, call, &a, &b, out);
                if ends_lending(call) {
                    self.run.after();
                }
            }
            None => script_answers::bare(out, b'?'),
        }
        self.came.filled = 0;
        self.came.long = false;
    }

    // The lines that end in a chunk, and the piece behind them.
    fn lines_of(&mut self, rt: &impl Print, chunk: &[u8], out: &mut Text) -> io::Result<()> {
        let mut i = 0;
        while i < chunk.len() {
            let end = script_driver::pieces::line_end(chunk, i);
            self.came.append(parts::part(chunk, i, end - i), self.text);
            if end < chunk.len() {
                flushed(rt, out)?;
                self.line(out);
            }
            i = end + 1;
        }
        Ok(())
    }

    // Writes what waits; an unfinished last line is no call.
    fn finish(&self, rt: &impl Print, out: &mut Text) -> io::Result<()> {
        if self.came.unfinished() {
            flushed(rt, out)?;
            script_answers::bare(out, b'?');
        }
        flush(rt, out)
    }

    // The whole input. Where a read fails it ends: what waits is written before the error goes up.
    fn all(
        &mut self,
        rt: &impl Print,
        reader: &mut impl Read,
        chunk: &mut [u8],
        out: &mut Text,
    ) -> io::Result<()> {
        for _ in 0..u64::MAX {
            match reader.read(chunk) {
                Ok(0) => break,
                Ok(n) => self.lines_of(rt, parts::part(chunk, 0, n), out)?,
                Err(e) => {
                    self.finish(rt, out)?;
                    return Err(e);
                }
            }
        }
        self.finish(rt, out)
    }
}

fn main(rt: HostRuntime) -> io::Result<()> {
    let arrays = Arrays {
        setup: &mut [0; 16400],
        inputs: &mut [0; 16400],
        outputs: &mut [0; 16400],
        diags: &mut [0; 16400],
        payload: &mut [0; 300],
        list: &mut [0; 120],
    };
    let came = Partial {
        filled: 0,
        long: false,
    };
    let mut driver = Driver {
        run: Run::empty(),
        arrays,
        // a line has at most 2,000 bytes with its newline
        text: &mut [0; 1999],
        came,
    };
    let mut out = Text {
        out: &mut [0; OUTPUT],
        at: 0,
    };
    driver.all(&rt, &mut rt.stdin(), &mut [0; 65536], &mut out)
}
