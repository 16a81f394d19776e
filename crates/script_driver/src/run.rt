// The unit and the lent lengths between two lines.
ghost use Rattle.std.specs.Prelude.{◌≡◌};
ghost use Rattle.script_driver.specs.Run.{run_lent, nothing_made, made_of, lend_is, after_call, call_made};

use fdl::parameters::Parameters;
use master::unit::DpMaster;
use refusals::Refusal;
use script_lines::{Call, Lent};

// The unit, whether there was an N yet, the lent lengths as N set them, and those of the next call.
#[derive(Clone, Copy)]
pub struct Run {
    // The unit as the last call left it; before the first N one that is never seen.
    pub unit: DpMaster,
    // Whether there was an N yet; before it every other line is no call.
    pub made: bool,
    // The lent lengths as N set them, to which they go back after each call.
    pub own: Lent,
    // The lent lengths of the next call: `own`, unless an L said others.
    pub lent: Lent,
}

// What an N answers and leaves.
#[derive(Clone, Copy)]
pub struct Made {
    // The new unit with the lent lengths of its record, also where creation is refused.
    pub run: Run,
    // Done, or refused as 1 where a parameter is outside its range.
    pub outcome: Result<(), Refusal>,
}

// The lent lengths of a new unit: the pools of its record, a payload of 255 bytes and 32 entries.
fn lent_of(u: Parameters) -> Lent
    ensures { result ≡ run_lent u }
{
    Lent {
        setup: u.setup_pool,
        inputs: u.input_pool,
        outputs: u.output_pool,
        diags: u.diag_pool,
        payload: 255,
        list: 32,
    }
}

impl Run {
    // Before the first N: no unit was made.
    pub fn empty() -> Run
        ensures { result ≡ nothing_made }
    {
        let low = Parameters::lowest();
        let lent = lent_of(low);
        Run {
            unit: DpMaster::new(low).master,
            made: false,
            own: lent,
            lent,
        }
    }

    // N: a new unit, lent the pools of its record, 255 payload bytes and 32 entries.
    pub fn new(p: Parameters) -> Made
        ensures { result ≡ made_of p }
    {
        let created = DpMaster::new(p);
        let lent = lent_of(created.master.parameters);
        Made {
            run: Run {
                unit: created.master,
                made: true,
                own: lent,
                lent,
            },
            outcome: created.outcome,
        }
    }

    // L: other lent lengths for the next call.
    pub fn lend(&mut self, lent: Lent)
        ensures { self.new ≡ lend_is lent self.old }
    {
        self.lent = lent;
    }

    // After a call: the lent lengths are again as N set them.
    pub fn after(&mut self)
        ensures { self.new ≡ after_call self.old.unit self.old }
    {
        self.lent = self.own;
    }
}

// The call that a line makes: none where the line is too long, nor before the first N, unless it is an N.
pub fn call_made(made: bool, long: bool, call: Option<Call>) -> Option<Call>
    ensures { result ≡ call_made made long call }
{
    call.filter(|c| !long && (made || matches!(c, Call::New(_))))
}
