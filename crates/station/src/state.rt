// The states of a balance and its events, and the number that stands for each in a record or in an answer.
ghost use Rattle.std.specs.Prelude.{◌≡◌};
ghost use Rattle.station.specs.State.{number_of, state_of, live_state, running_state, event_number};

// How far the set-up of a balance has come; it says what the next visit asks.
#[derive(Clone, Copy, PartialEq, Eq)]
pub enum PeripheralState {
    // It is new, does not respond, or rejected its set-up; a diagnosis is asked for.
    Offline = 0,
    // It responds; parameters (Set_Prm) are sent, and a short confirmation is awaited.
    WaitForParam = 1,
    // Parameters are acknowledged; the configuration (Chk_Cfg) is sent, and a short confirmation awaited.
    WaitForConfig = 2,
    // The configuration is acknowledged, or status 3 came to data; a diagnosis decides how it goes on.
    ValidateConfig = 3,
    // Set-up accepted; data is asked for, and no input image came yet.
    PreDataExchange = 4,
    // Data is asked for, and an input image came since the set-up was accepted.
    DataExchange = 5,
}

// What a visit or a reply reports.
// Nothing to report has a number of its own, 0, by `event_number`, and is no `None`.
#[derive(Clone, Copy, PartialEq, Eq)]
pub enum PeripheralEvent {
    // There is nothing to report.
    NoEvent = 0,
    // It went online: a diagnosis was taken in Offline.
    Online = 1,
    // It accepted parameters and configuration, and is ready for data exchange.
    Configured = 2,
    // It rejected the configuration (0x0004), and is Offline now.
    ConfigError = 3,
    // It rejected the parameters (0x0040), and is Offline now.
    ParameterError = 4,
    // Data exchange with it completed, and what came is the input image.
    DataExchanged = 5,
    // The diagnosis that was due is taken, and can be read.
    Diagnostics = 6,
    // It stopped responding: a visit found its count above the limit.
    Offline = 7,
}

// The number that stands for it in a record.
impl From<PeripheralState> for u8 {
    ghost from_gives = { λ state n. n ≡ number_of state };

    fn from(state: PeripheralState) -> u8 {
        state as u8
    }
}

// The state of a number; a number that stands for none counts as Offline.
impl From<u8> for PeripheralState {
    ghost from_gives = { λ n state. state ≡ state_of n };

    fn from(n: u8) -> PeripheralState {
        match n {
            1 => PeripheralState::WaitForParam,
            2 => PeripheralState::WaitForConfig,
            3 => PeripheralState::ValidateConfig,
            4 => PeripheralState::PreDataExchange,
            5 => PeripheralState::DataExchange,
            _ => PeripheralState::Offline,
        }
    }
}

// The number that stands for it in an answer.
impl From<PeripheralEvent> for u8 {
    ghost from_gives = { λ event n. n ≡ event_number event };

    fn from(event: PeripheralEvent) -> u8 {
        event as u8
    }
}

impl PeripheralState {
    // Whether it responds on the bus: any state but Offline. DECISIONS 5
    pub fn is_live(self) -> bool
        ensures { result ≡ live_state self }
    {
        self != PeripheralState::Offline
    }

    // Whether it exchanges data: DataExchange alone. DECISIONS 5
    pub fn is_running(self) -> bool
        ensures { result ≡ running_state self }
    {
        self == PeripheralState::DataExchange
    }
}
