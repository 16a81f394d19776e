// A bench with balances on it: the unit and its pools, and the calls on them.
ghost use Rattle.std.specs.Prelude.{◌≡◌};
ghost use Rattle.master.specs.Unit.{creation};
ghost use Rattle.trial_runs.specs.Bench.{bench_created, empty_bench, clear_bench, diagnosis_telegram, data_telegram, PlacedOn, SeenOn, RepliedOn};

use answers::reply_answer::ReplyAnswer;
use answers::turn::TurnAnswer;
use fdl::parameters::Parameters;
use fdl::telegram::Telegram;
use master::add::Addition;
use master::unit::{Created, DpMaster};
use payloads::options::PeripheralOptions;
use peripheral_set::PeripheralHandle;
use refusals::Refusal;

// What stands in every byte of the input pool before a reply.
pub const KEPT: u8 = 7;

// What stands in the pool of output images at first: the outputs of the last two trials stand at its front.
pub const OUTPUTS: [u8; 8] = [1, 2, 3, 4, 5, 6, 7, 8];

// A balance to be added: its address, the lengths of its images, and whether it is marked fail-safe.
#[derive(Clone, Copy)]
pub struct Balance {
    // Its station address.
    pub address: u8,
    // Bytes of its input image.
    pub image: usize,
    // Bytes of its output image.
    pub outputs: usize,
    // Whether it is marked `fail_safe`.
    pub fail_safe: bool,
}

// The unit and its four pools, as the calls of the trial so far left them.
#[derive(Clone, Copy)]
pub struct Bench {
    // The unit.
    pub unit: DpMaster,
    // The pool of set-up data, 512 bytes, zeros at first.
    pub setup: [u8; 512],
    // The pool of input images, 8 bytes, each `KEPT` at first.
    pub inputs: [u8; 8],
    // The pool of output images, 8 bytes, `OUTPUTS` at first.
    pub outputs: [u8; 8],
    // The pool of extended diagnosis, 8 bytes, zeros at first.
    pub diags: [u8; 8],
}

// What a turn answers, and the payload.
#[derive(Clone, Copy)]
pub struct Seen {
    // The turn's answer: number, what was sent, Offline event and mask.
    pub answer: TurnAnswer,
    // The payload buffer after the turn; before it every byte was 0xFF.
    pub payload: [u8; 244],
}

// A unit with this retry limit, the watchdog and Tsdr of the first trial, the slot time of the eighth.
pub fn created(limit: u8) -> Created
    ensures { result ≡ creation (bench_created limit) }
{
    DpMaster::new(Parameters {
        slot_time: 200,
        setup_pool: 512,
        input_pool: 8,
        output_pool: 8,
        diag_pool: 8,
        address: 2,
        max_retry_limit: limit,
        watchdog: true,
        watchdog_first: 2,
        watchdog_second: 5,
        min_tsdr_bits: 11,
    })
}

// The telegram of a diagnosis reply: DSAP 62, SSAP 60, status 8.
pub fn diagnosis() -> Telegram
    ensures { result ≡ diagnosis_telegram }
{
    Telegram::Data {
        dsap: Some(62),
        ssap: Some(60),
        status: 8,
    }
}

// The telegram of a data reply with this status, and no access points.
pub fn data(status: u8) -> Telegram
    ensures { result ≡ data_telegram status }
{
    Telegram::Data {
        dsap: None,
        ssap: None,
        status,
    }
}

impl Bench {
    // A bench with no balance, in Operate.
    pub fn new(limit: u8) -> Bench
        ensures { result ≡ empty_bench limit }
    {
        let mut unit = created(limit).master;
        unit.enter_operate();
        Bench {
            unit,
            setup: [0; 512],
            inputs: [KEPT; 8],
            outputs: OUTPUTS,
            diags: [0; 8],
        }
    }

    // The bench goes into Clear.
    pub fn clear(&mut self)
        ensures { self.new ≡ clear_bench self.old }
    {
        self.unit.enter_clear();
    }

    // One balance more, with the ident and groups of the first trial.
    pub fn add(
        &mut self,
        balance: Balance,
        user: &[u8],
        config: &[u8],
    ) -> Result<PeripheralHandle, Refusal>
        ensures { PlacedOn self.old balance user.now config.now self.new result }
    {
        let addition = Addition {
            address: balance.address,
            options: PeripheralOptions {
                ident_number: 0x1234,
                max_tsdr: 100,
                groups: 0,
                sync_mode: false,
                freeze_mode: false,
                fail_safe: balance.fail_safe,
                has_user_parameters: true,
                user_parameters: 0,
                has_config: true,
                config: 0,
            },
            input_len: balance.image,
            output_len: balance.outputs,
            room: 0,
        };
        self.unit.add(
            addition,
            user,
            config,
            &mut self.setup,
            &mut self.inputs,
            &mut self.outputs,
            &mut self.diags,
        )
    }

    // One turn with a payload buffer full of 0xFF, so that what is not written shows.
    pub fn turn(&mut self, time: u64) -> Seen
        ensures { SeenOn self.old time self.new result }
    {
        let mut payload = [0xFF; 244];
        let answer = self
            .unit
            .transmit_telegram(time, false, &self.setup, &self.outputs, &mut payload);
        Seen { answer, payload }
    }

    // One reply from `address`.
    pub fn reply(&mut self, address: u8, telegram: Telegram, payload: &[u8]) -> ReplyAnswer
        ensures { RepliedOn self.old address telegram payload.now self.new result }
    {
        self.unit.receive_reply(
            address,
            telegram,
            payload,
            &mut self.inputs,
            &mut self.diags,
        )
    }
}
