// The record of the master, its creation, and its operating state.
ghost use Rattle.std.specs.Prelude.{◌≡◌};
ghost use Rattle.cycle.specs.State.{operating_of, entered};
ghost use Rattle.master.specs.Unit.{empty_unit, created_of, creation, state_is};

use cycle::state::{DpMasterState, OperatingState};
use fdl::parameters::Parameters;
use peripheral::record::Peripheral;
use peripheral_set::SLOTS;
use refusals::Refusal;

// The used part of each pool.
#[repr(C)]
#[derive(Clone, Copy)]
pub struct Used {
    // Bytes in use at the front of the pool of set-up data, 0 to its length; the next add goes behind them.
    pub setup: u16,
    // Bytes in use at the front of the pool of input images, 0 to its length.
    pub inputs: u16,
    // Bytes in use at the front of the pool of output images, 0 to its length.
    pub outputs: u16,
    // Bytes in use at the front of the pool of extended diagnosis, 0 to its length.
    pub diags: u16,
}

// The unit: 24 bytes that change with each turn, 20 of parameters, 8 of used lengths, a mark and 36 bytes a slot; 1,240 in all.
// An array of marks beside one of records is document 01's form, and so are 32 slots and no heap.
#[repr(C)]
#[derive(Clone, Copy)]
pub struct DpMaster {
    // Operating state, times, place and open request: what turns and replies change of the master itself.
    pub state: DpMasterState,
    // As creation took them, the watchdog's factors 0 where it is off; no call changes them.
    pub parameters: Parameters,
    // How much of each pool the balances take; only adding changes it.
    pub used: Used,
    // Of each slot whether a balance was added there; no call takes one away.
    pub occupied: [bool; SLOTS],
    // The balance in each slot; a blank record, zeros throughout, in an empty one.
    pub peripherals: [Peripheral; SLOTS],
}

// What a creation leaves, and what it answers.
#[derive(Clone, Copy)]
pub struct Created {
    // The new unit; where the creation is refused an empty one whose parameters are all at their lowest, as document 01 asks.
    pub master: DpMaster,
    // Done, or refused as 1.
    pub outcome: Result<(), Refusal>,
}

// A unit with no balance, and parameters that are in their ranges.
fn empty_unit(parameters: Parameters) -> DpMaster
    ensures { result ≡ empty_unit parameters }
{
    DpMaster {
        state: DpMasterState::new(),
        parameters,
        used: Used {
            setup: 0,
            inputs: 0,
            outputs: 0,
            diags: 0,
        },
        occupied: [false; SLOTS],
        peripherals: [Peripheral::blank(); SLOTS],
    }
}

impl DpMaster {
    // A new unit; where a parameter is outside its range, an empty one whose parameters are all at their lowest.
    // Refuses: creation_rows.
    // Changes: nothing; the unit is new, and no pool is lent.
    pub fn new(parameters: Parameters) -> Created
        ensures { result ≡ creation (created_of parameters) }
    {
        let outcome = parameters.refusal();
        let held = match outcome {
            Ok(()) => parameters.in_force(),
            Err(_) => Parameters::lowest(),
        };
        Created {
            master: empty_unit(held),
            outcome,
        }
    }

    // Stop, Clear or Operate, as it was last set; Stop in a fresh unit.
    // Refuses: nothing.
    // Changes: nothing.
    pub fn operating_state(&self) -> OperatingState
        ensures { result ≡ operating_of self.now.state.operating }
    {
        OperatingState::from(self.state.operating)
    }

    // The operating state is set; the same one counts too. Outside Stop the global control is due from then on.
    // Refuses: nothing.
    // Changes: operating state and global control in the record; the place and an open request stay.
    pub fn enter_state(&mut self, state: OperatingState)
        ensures { self.new ≡ state_is (entered state self.old.state) self.old }
    {
        self.state = self.state.enter(state);
    }

    // As `enter_state` with Stop, by the Rust's name as the next two: turns send nothing.
    // Refuses: nothing.
    // Changes: as `enter_state`.
    pub fn enter_stop(&mut self)
        ensures { self.new ≡ state_is (entered OperatingState.Stop self.old.state) self.old }
    {
        self.enter_state(OperatingState::Stop);
    }

    // As `enter_state` with Clear: data is exchanged, and every balance gets zeros, or nothing where it is marked fail-safe.
    // Refuses: nothing.
    // Changes: as `enter_state`.
    pub fn enter_clear(&mut self)
        ensures { self.new ≡ state_is (entered OperatingState.Clear self.old.state) self.old }
    {
        self.enter_state(OperatingState::Clear);
    }

    // As `enter_state` with Operate: regular operation, outputs go out as they stand in their pool.
    // Refuses: nothing.
    // Changes: as `enter_state`.
    pub fn enter_operate(&mut self)
        ensures { self.new ≡ state_is (entered OperatingState.Operate self.old.state) self.old }
    {
        self.enter_state(OperatingState::Operate);
    }
}
