// The request that a state is about, and the visit that a turn makes: what it does, and the station afterwards.
ghost use Rattle.std.specs.Prelude.{◌≡◌};
ghost use Rattle.station.specs.Visit.{request_in, request_of, judged_as, can_send, action_of, visited_of};

use crate::record::Station;
use crate::state::PeripheralState;
use payloads::request::Request;

// What a visit does: sends a request, reports the station Offline, or nothing.
// Three outcomes: skipping puts the count to 0 too, and is no `None`.
#[derive(Clone, Copy)]
pub enum Visited {
    // Sends this request, and adds 1 to the count.
    Sends(Request),
    // Reports it Offline, since its count is above the limit, and puts the count to 0 and the frame bit to First.
    Drops,
    // Does nothing but put the count to 0: Offline with a count, or set-up data absent where needed.
    Skips,
}

impl PeripheralState {
    // The request that the state is about; in the exchange states there are two, a diagnosis and data.
    fn request(self, diagnosis: bool) -> Request
        ensures { result ≡ request_in self diagnosis }
    {
        match self {
            PeripheralState::Offline | PeripheralState::ValidateConfig => Request::Diagnosis,
            PeripheralState::WaitForParam => Request::Parameters,
            PeripheralState::WaitForConfig => Request::Configuration,
            PeripheralState::PreDataExchange | PeripheralState::DataExchange => {
                if diagnosis {
                    Request::Diagnosis
                } else {
                    Request::Data
                }
            }
        }
    }

    // Whether it can be sent; user parameters and configuration are present or not.
    fn can_send(self, count: u8, user: bool, config: bool) -> bool
        ensures { result ≡ can_send self count user config }
    {
        match self {
            PeripheralState::Offline => count == 0,
            PeripheralState::WaitForParam => user,
            PeripheralState::WaitForConfig => config,
            _ => true,
        }
    }
}

impl Station {
    // The request that a visit sends: in the exchange states a diagnosis that is due comes before data.
    fn request(self) -> Request
        ensures { result ≡ request_of self }
    {
        PeripheralState::from(self.state).request(self.diag_needed)
    }

    // The request that a reply is judged to answer, where `asked` was asked: a weight that comes to a data request is never read as a diagnosis.
    pub fn judged_as(self, asked: Request) -> Request
        ensures { result ≡ judged_as asked self }
    {
        PeripheralState::from(self.state).request(!asked.is_data())
    }

    // What a visit does; user parameters and configuration are present or not.
    #[tactic(auto, unfolding(crate::specs::Visit::action_of))]
    pub fn action(self, limit: u8, user: bool, config: bool) -> Visited
        ensures { result ≡ action_of limit user config self }
    {
        if limit < self.retry_count {
            Visited::Drops
        } else if PeripheralState::from(self.state).can_send(self.retry_count, user, config) {
            Visited::Sends(self.request())
        } else {
            Visited::Skips
        }
    }

    // The station after that visit; its count stays at 255.
    pub fn visited(self, what: Visited) -> Station
        ensures { result ≡ visited_of what self }
    {
        match what {
            Visited::Sends(_) => self.counting(self.retry_count.saturating_add(1)),
            Visited::Drops => self.counting(0).fallen(),
            Visited::Skips => self.counting(0),
        }
    }
}
