// The reply that answers a request: what it makes of the station, by what was asked.
ghost use Rattle.std.specs.Prelude.{◌≡◌};
ghost use Rattle.station.specs.State.{state_of};
ghost use Rattle.station.specs.Record.{with_diagnosis};
ghost use Rattle.station.specs.Heard.{reports, by_flags, diagnosis_heard, diagnosis_missed, acknowledgement_heard, exchanged_of, status_heard, data_heard};

use crate::record::Station;
use crate::state::{PeripheralEvent, PeripheralState};
use fdl::telegram::{FrameCountBit, Telegram};
use payloads::diagnosis::{DiagnosticFlags, DiagnosticsInfo};

// The station after a reply, and what is reported.
#[derive(Clone, Copy)]
pub struct Heard {
    // As the reply leaves it.
    pub station: Station,
    // What the reply reports, NoEvent where that is nothing; never Offline.
    pub event: PeripheralEvent,
}

impl Station {
    // With what is reported.
    fn reports(self, event: PeripheralEvent) -> Heard
        ensures { result ≡ reports event self }
    {
        Heard {
            station: self,
            event,
        }
    }

    // ValidateConfig, with a diagnosis taken.
    #[tactic(auto, unfolding(crate::specs::Heard::by_flags))]
    fn by_flags(self, flags: u16) -> Heard
        ensures { result ≡ by_flags flags self }
    {
        if DiagnosticFlags::ParameterFault.is_in(flags) {
            self.fallen().reports(PeripheralEvent::ParameterError)
        } else if DiagnosticFlags::ConfigurationFault.is_in(flags) {
            self.fallen().reports(PeripheralEvent::ConfigError)
        } else if DiagnosticFlags::ParameterRequired.is_in(flags) {
            self.in_state(PeripheralState::WaitForParam)
                .reports(PeripheralEvent::NoEvent)
        } else if DiagnosticFlags::StationNotReady.is_in(flags) {
            self.reports(PeripheralEvent::NoEvent)
        } else {
            self.in_state(PeripheralState::PreDataExchange)
                .reports(PeripheralEvent::Configured)
        }
    }

    // DataExchanged where there is an image.
    fn exchanged(self, fits: bool) -> Heard
        ensures { result ≡ exchanged_of fits self }
    {
        if fits {
            self.in_state(PeripheralState::DataExchange)
                .reports(PeripheralEvent::DataExchanged)
        } else {
            self.reports(PeripheralEvent::NoEvent)
        }
    }

    // Data, by its status.
    fn by_status(self, status: u8, fits: bool) -> Heard
        ensures { result ≡ status_heard status fits self }
    {
        match status {
            0 | 8 => self.exchanged(fits),
            3 => self
                .in_state(PeripheralState::ValidateConfig)
                .reports(PeripheralEvent::NoEvent),
            10 => self.request_diagnostics().exchanged(fits),
            _ => self.reports(PeripheralEvent::NoEvent),
        }
    }

    // A diagnosis was asked for and is taken; `stored` bytes of extended part stand in its room then.
    #[tactic(auto, unfolding(crate::specs::Record::with_diagnosis))]
    pub fn diagnosis_heard(self, diag: DiagnosticsInfo, stored: u8) -> Heard
        ensures { result ≡ diagnosis_heard (state_of self.state) (with_diagnosis diag stored self) }
    {
        let taken = Station {
            diag,
            diag_len: stored,
            ..self.cycled().counting(0)
        };
        match PeripheralState::from(self.state) {
            PeripheralState::Offline => taken
                .in_state(PeripheralState::WaitForParam)
                .reports(PeripheralEvent::Online),
            PeripheralState::ValidateConfig => taken.by_flags(diag.flags),
            PeripheralState::PreDataExchange | PeripheralState::DataExchange => {
                let done = Station {
                    diag_needed: false,
                    ..taken
                };
                done.reports(PeripheralEvent::Diagnostics)
            }
            _ => taken.reports(PeripheralEvent::NoEvent),
        }
    }

    // A diagnosis was asked for and is not taken.
    pub fn diagnosis_missed(self) -> Heard
        ensures { result ≡ diagnosis_missed (state_of self.state) self }
    {
        match PeripheralState::from(self.state) {
            PeripheralState::ValidateConfig => self.counting(0).reports(PeripheralEvent::NoEvent),
            _ => self.reports(PeripheralEvent::NoEvent),
        }
    }

    // Parameters or configuration were sent: a short confirmation gives the next state, else nothing changes.
    pub fn acknowledgement_heard(self, short: bool, next: PeripheralState) -> Heard
        ensures { result ≡ acknowledgement_heard short next self }
    {
        if short {
            self.cycled()
                .counting(0)
                .in_state(next)
                .reports(PeripheralEvent::NoEvent)
        } else {
            self.reports(PeripheralEvent::NoEvent)
        }
    }

    // Data was asked for; what came fits the input image or not.
    pub fn data_heard(self, telegram: Telegram, fits: bool) -> Heard
        ensures { result ≡ data_heard telegram fits self }
    {
        let heard = self.cycled().counting(0);
        match telegram {
            Telegram::ShortConfirmation => heard.exchanged(fits),
            Telegram::Data { status, .. } => heard.by_status(status, fits),
            Telegram::Token | Telegram::Request => heard.reports(PeripheralEvent::NoEvent),
        }
    }
}
