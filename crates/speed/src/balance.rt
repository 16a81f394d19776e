// The balances of the bench: how each is set up, and what it answers.
ghost use Rattle.std.specs.Prelude.{◌≡◌};
ghost use Rattle.speed.specs.Balance.{unit_parameters, balance_added, said_to, balance_answer};

use answers::turn::Transmission;
use fdl::parameters::Parameters;
use fdl::telegram::Telegram;
use master::add::Addition;
use payloads::options::PeripheralOptions;
use payloads::request::Request;

// The unit's parameters, as the first lines of main.rt tell them.
pub fn parameters() -> Parameters
    ensures { result ≡ unit_parameters }
{
    Parameters {
        slot_time: 200,
        setup_pool: 16384,
        input_pool: 16384,
        output_pool: 16384,
        diag_pool: 16384,
        address: 2,
        max_retry_limit: 1,
        watchdog: false,
        watchdog_first: 0,
        watchdog_second: 0,
        min_tsdr_bits: 11,
    }
}

// A balance at this address, with what the first lines of main.rt tell of each.
pub fn addition(address: u8) -> Addition
    ensures { result ≡ balance_added address }
{
    let options = PeripheralOptions {
        ident_number: 0x1234,
        max_tsdr: 0,
        groups: 0,
        sync_mode: false,
        freeze_mode: false,
        fail_safe: false,
        has_user_parameters: true,
        user_parameters: 0,
        has_config: true,
        config: 0,
    };
    Addition {
        address,
        options,
        input_len: 4,
        output_len: 4,
        room: 16,
    }
}

// What a balance answers: the telegram, where it comes from, and which payload goes with it.
#[derive(Clone, Copy)]
pub struct Answer {
    // The address that the reply comes from: 3 plus the slot.
    pub address: u8,
    // The slot of the balance, which is the third byte of its image.
    pub slot: u8,
    // Whether its image goes with it; else six bytes of a diagnosis do.
    pub data: bool,
    // The reply without its payload.
    pub telegram: Telegram,
}

// To a request of each kind.
fn told_to(kind: Request, address: u8, slot: u8) -> Answer
    ensures { result ≡ said_to kind address slot }
{
    let telegram = match kind {
        Request::Diagnosis => Telegram::Data {
            dsap: Some(62),
            ssap: Some(60),
            status: 8,
        },
        Request::Parameters | Request::Configuration => Telegram::ShortConfirmation,
        Request::Data => Telegram::Data {
            dsap: None,
            ssap: None,
            status: 8,
        },
    };
    Answer {
        address,
        slot,
        data: kind == Request::Data,
        telegram,
    }
}

// To what was sent, where the balance in that slot answers; in the second mode only slot 0 does.
pub fn told_by(all: bool, t: Transmission) -> Option<Answer>
    ensures { result ≡ balance_answer all t }
{
    match t {
        Transmission::Request { slot, kind, header } if all || slot == 0 => {
            Some(told_to(kind, header.da, slot))
        }
        _ => None,
    }
}
