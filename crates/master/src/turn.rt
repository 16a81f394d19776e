// One turn.
ghost use Rattle.master.specs.Turn.{Turned};

use crate::unit::DpMaster;
use answers::turn::TurnAnswer;
use cycle::seen::Seen;

impl DpMaster {
    // One turn at `time`, in microseconds: what is sent now, if anything; with `high_prio_only` no global control.
    // Refuses: turn_rows.
    // Changes: times, place and open request, and the balances that are visited; the payload at the front of the buffer.
    // Event: Offline, of the first balance reported so, with a bit of the mask for each; or none.
    pub fn transmit_telegram(
        &mut self,
        time: u64,
        high_prio_only: bool,
        setup: &[u8],
        outputs: &[u8],
        buf: &mut [u8],
    ) -> TurnAnswer
        ensures { Turned self.old time high_prio_only setup.now outputs.now buf.old buf.new (record { master = self.new; answer = result }) }
    {
        let u = self.parameters;
        let s = self.state;
        let refusal = cycle::refusal::turn_refusal(
            u,
            s,
            time,
            setup.len(),
            outputs.len(),
            buf.len(),
        );
        if let Err(refusal) = refusal {
            return TurnAnswer::refused(u8::from(refusal));
        }
        let marks = self.occupied;
        let step = s.step(time, high_prio_only, u.slot_time);
        let mut seen = Seen::new();
        let mut next = peripheral_set::at_or_after(&marks, s.start(step));
        // where the visits go on depends on what each one did
        while let Some(i) = next {
            let v = self.peripherals[i].visit(u.max_retry_limit);
            self.peripherals[i] = v.peripheral;
            seen = seen.seen_after(i as u8, v.what);
            next = seen.next(&marks, i);
        }
        self.state = s.after_turn(step, seen.sent, time);
        let first = self.peripherals[seen.first_index()];
        let to = self.peripherals[seen.sent_index()];
        let filled = answers::turn::fill(step, seen.sent, to, u, s.is_clear(), setup, outputs, buf);
        TurnAnswer::of(step, seen, first.address(), filled)
    }
}
