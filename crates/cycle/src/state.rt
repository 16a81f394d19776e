// The operating state, the cycle, and when the global control is due.
ghost use Rattle.std.specs.Prelude.{◌≡◌, ◌-◌, ◌<◌};
ghost use Rattle.peripheral_set.specs.Marks.{or_slots};
ghost use Rattle.cycle.specs.State.{operating_number, operating_of, fresh_state, entered, is_open, is_clear, control_due, step_of, start_of, closed, place_is, after_turn, answered, closed_for};

use crate::seen::Sent;
use peripheral_set::SLOTS;

// The operating state of the master, which the caller sets.
#[derive(Clone, Copy, Debug, PartialEq, Eq)]
pub enum OperatingState {
    // 0: no data exchange; a turn sends nothing.
    Stop,
    // 1: balances are set up and data is exchanged, but no outputs go out: zeros, or nothing to a balance marked fail-safe.
    Clear,
    // 2: regular operation, data exchange with full inputs and outputs.
    Operate,
}

// What a turn does: one of the four steps of document 01's "One turn".
#[derive(Clone, Copy)]
pub enum Step {
    // Step 1, in Stop: nothing is sent, and the place is kept.
    Halt,
    // Step 2: the global control is due, and is sent to all.
    Control,
    // Step 3, with the cycle completed earlier: nothing is sent, and the place goes back to the first slot.
    Back,
    // Step 4: occupied slots are visited upward from the place, until one sends.
    Visits,
}

// Everything of the master that changes with each turn or reply. An open request has a kind that is not 0.
// Kinds are numbers and marks stand beside their times, and there is no `Option`, since the record has C's layout and every value of it is accepted. DECISIONS 27
#[repr(C)]
#[derive(Clone, Copy, Default)]
pub struct DpMasterState {
    // Time of the last accepted turn in microseconds, 0 before the first.
    pub last_turn: u64,
    // Time of the last global control in microseconds; 0 where none was sent since `operating` was last set.
    pub last_control: u64,
    // The place: slot number from which the next visits start, 0 to 31; 0 while the cycle is completed.
    pub slot: u8,
    // Whether a reply completed the cycle, and no turn took the place back yet.
    pub completed: bool,
    // Slot number of the open request, 0 to 31; 0 where none is open. DECISIONS 26
    pub open_slot: u8,
    // Number of the open request's kind, 1 to 4 as in `Request`; 0 where none is open.
    pub open_kind: u8,
    // Whether a turn was accepted yet, which a first one at time 0 would not show otherwise. DECISIONS 31
    pub has_turned: bool,
    // Whether a global control was sent since `operating` was last set.
    pub controlled: bool,
    // Number of the `OperatingState`, 0 to 2.
    pub operating: u8,
}

// The number that stands for it in a record.
impl From<OperatingState> for u8 {
    ghost from_gives = { λ o n. n ≡ operating_number o };

    fn from(state: OperatingState) -> u8 {
        match state {
            OperatingState::Stop => 0,
            OperatingState::Clear => 1,
            OperatingState::Operate => 2,
        }
    }
}

// The state of a number; a number that stands for none counts as Stop.
impl From<u8> for OperatingState {
    ghost from_gives = { λ n o. o ≡ operating_of n };

    fn from(n: u8) -> OperatingState {
        match n {
            1 => OperatingState::Clear,
            2 => OperatingState::Operate,
            _ => OperatingState::Stop,
        }
    }
}

impl DpMasterState {
    // A fresh unit is in Stop, its place at the first slot, nothing open.
    pub fn new() -> DpMasterState
        ensures { result ≡ fresh_state }
    {
        DpMasterState::default()
    }

    // With this operating state set, also where it is the same one, and the global control due anew.
    pub fn enter(self, state: OperatingState) -> DpMasterState
        ensures { result ≡ entered state self }
    {
        DpMasterState {
            operating: u8::from(state),
            controlled: false,
            last_control: 0,
            ..self
        }
    }

    // Whether a request is open. A slot number that is no slot's counts as none: DECISIONS 27
    pub fn is_open(self) -> bool
        ensures { result ≡ is_open self }
    {
        self.open_kind != 0 && usize::from(self.open_slot) < SLOTS
    }

    // Whether data requests carry no outputs.
    pub fn is_clear(self) -> bool
        ensures { result ≡ is_clear (operating_of self.operating) }
    {
        OperatingState::from(self.operating) == OperatingState::Clear
    }

    // Whether the global control is due.
    pub fn control_due(self, time: u64, high_prio_only: bool, slot_time: u32) -> bool
        ensures { result ≡ control_due time high_prio_only slot_time self }
    {
        if high_prio_only {
            return false;
        }
        !self.controlled || 50 * u64::from(slot_time) <= time.saturating_sub(self.last_control)
    }

    // What a turn at this time does; in Stop nothing, else the first of steps 2 to 4 that applies.
    pub fn step(self, time: u64, high_prio_only: bool, slot_time: u32) -> Step
        ensures { result ≡ step_of (operating_of self.operating) (control_due time high_prio_only slot_time self) self.completed }
    {
        if OperatingState::from(self.operating) == OperatingState::Stop {
            return Step::Halt;
        }
        if self.control_due(time, high_prio_only, slot_time) {
            return Step::Control;
        }
        if self.completed {
            Step::Back
        } else {
            Step::Visits
        }
    }

    // The slot from which a turn visits; SLOTS where it visits none, as `start_of` says: any number is a place to search from. DECISIONS 27
    pub fn start(self, step: Step) -> usize
        ensures { result ≡ start_of step self }
    {
        match step {
            Step::Visits => usize::from(self.slot),
            _ => SLOTS,
        }
    }

    // With no request open. A closed request is (slot 0, kind 0): DECISIONS 26
    fn closed(self) -> DpMasterState
        ensures { result ≡ closed self }
    {
        DpMasterState {
            open_slot: 0,
            open_kind: 0,
            ..self
        }
    }

    // With this place, and the cycle completed or not.
    fn place_is(self, slot: u8, completed: bool) -> DpMasterState
        ensures { result ≡ place_is slot completed self }
    {
        DpMasterState {
            slot,
            completed,
            ..self
        }
    }

    // After an accepted turn, which closes any open request.
    pub fn after_turn(self, step: Step, sent: Option<Sent>, time: u64) -> DpMasterState
        ensures { result ≡ after_turn step sent time self }
    {
        let s = DpMasterState {
            last_turn: time,
            has_turned: true,
            ..self.closed()
        };
        match step {
            Step::Halt => s,
            Step::Control => DpMasterState {
                last_control: time,
                controlled: true,
                ..s
            },
            Step::Back => s.place_is(0, false),
            Step::Visits => match sent {
                None => s.place_is(0, false),
                Some(sent) => DpMasterState {
                    open_slot: sent.slot,
                    open_kind: u8::from(sent.kind),
                    ..s.place_is(sent.slot, false)
                },
            },
        }
    }

    // After an accepted reply, with the next occupied slot if there is one; a number that is no slot's counts as none.
    pub fn answered(self, next: Option<usize>) -> DpMasterState
        ensures { result ≡ answered (or_slots next) self }
    {
        match next {
            Some(slot) if slot < SLOTS => self.closed().place_is(slot as u8, false),
            _ => self.closed().place_is(0, true),
        }
    }

    // With the request to that slot closed, where it is the open one.
    pub fn closed_for(self, slot: u8) -> DpMasterState
        ensures { result ≡ closed_for slot self }
    {
        if self.open_slot == slot {
            self.closed()
        } else {
            self
        }
    }
}
