// The part of a peripheral's record that visits and replies change.
ghost use Rattle.std.specs.Prelude.{◌≡◌, true};
ghost use Rattle.station.specs.Record.{new_station, in_state, counting, cycling, fallen, due_is, is_live, is_running, last_diagnosis, stored_part};

use crate::state::PeripheralState;
use fdl::telegram::FrameCountBit;
use payloads::diagnosis::DiagnosticsInfo;

// A balance as the master sees it; state and frame bit are numbers, since the record has C's layout and every number is accepted. DECISIONS 20
#[repr(C)]
#[derive(Clone, Copy, Default)]
pub struct Station {
    // Station address, 0 to 125 and not the master's; 0 in an empty slot.
    pub address: u8,
    // Number of its `PeripheralState`, 0 to 5.
    pub state: u8,
    // Count of unanswered requests, 0 to the retry limit + 1; above the limit a visit reports Offline.
    pub retry_count: u8,
    // Number of the frame bit that its next request has, 1 to 3, First after a fall; 0 in an empty slot.
    pub fcb: u8,
    // Whether a diagnosis is due, by a wish or by a status 10; the exchange states then ask for it before data.
    pub diag_needed: bool,
    // Length of the stored extended part in bytes, 0 to its room; a diagnosis without one leaves it.
    pub diag_len: u8,
    // The last diagnosis that was taken; none is held right after an add or a reset.
    pub diag: DiagnosticsInfo,
}

impl Station {
    // As newly added: Offline, count 0, frame bit at First, no diagnosis held or due, stored length 0.
    pub fn new(address: u8) -> Station
        ensures { result ≡ new_station address }
    {
        Station {
            address,
            state: u8::from(PeripheralState::Offline),
            retry_count: 0,
            fcb: u8::from(FrameCountBit::First),
            diag_needed: false,
            diag_len: 0,
            diag: DiagnosticsInfo::none(),
        }
    }

    // Whether it responds on the bus: any state but Offline.
    pub fn is_live(self) -> bool
        ensures { result ≡ is_live self }
    {
        PeripheralState::from(self.state).is_live()
    }

    // Whether it exchanges data: DataExchange alone.
    pub fn is_running(self) -> bool
        ensures { result ≡ is_running self }
    {
        PeripheralState::from(self.state).is_running()
    }

    // In another state.
    pub(crate) fn in_state(self, state: PeripheralState) -> Station
        ensures { result ≡ in_state state self }
    {
        Station {
            state: u8::from(state),
            ..self
        }
    }

    // With another count.
    pub(crate) fn counting(self, retry_count: u8) -> Station
        ensures { result ≡ counting retry_count self }
    {
        Station {
            retry_count,
            ..self
        }
    }

    // With the frame bit cycled.
    pub(crate) fn cycled(self) -> Station
        ensures { result ≡ cycling self }
    {
        Station {
            fcb: u8::from(FrameCountBit::from(self.fcb).cycle()),
            ..self
        }
    }

    // As a fall leaves it: Offline, and the frame bit at First, since the standard starts a connection anew.
    pub fn fallen(mut self) -> Station
        ensures { result ≡ fallen self }
    {
        self.state = u8::from(PeripheralState::Offline);
        self.fcb = u8::from(FrameCountBit::First);
        self
    }

    // A wish for a diagnosis: one is due from now on.
    pub fn request_diagnostics(self) -> Station
        ensures { result ≡ due_is true self }
    {
        Station {
            diag_needed: true,
            ..self
        }
    }

    // The diagnosis held; without one, the numbers of none.
    pub fn last_diagnostics(self) -> DiagnosticsInfo
        ensures { result ≡ last_diagnosis self }
    {
        if self.diag.held {
            self.diag
        } else {
            DiagnosticsInfo::none()
        }
    }

    // Length of the stored extended part in bytes, 0 where no diagnosis is held.
    pub fn stored_part(self) -> u8
        ensures { result ≡ stored_part self }
    {
        if self.diag.held { self.diag_len } else { 0 }
    }
}
