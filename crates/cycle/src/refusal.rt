// Which call is refused, and with which number: the rows of each call, in the order of document 01's table.
ghost use Rattle.std.specs.Prelude.{◌≡◌};
ghost use Rattle.refusals.specs.Table.{outcome};
ghost use Rattle.cycle.specs.Refusal.{turn_refusal, reply_refusal, add_refusal};

use crate::state::DpMasterState;
use fdl::parameters::Parameters;
use fdl::telegram::Telegram;
use peripheral_set::SLOTS;
use refusals::{MAX_CONFIG, MAX_IMAGE, MAX_ROOM, MAX_USER, Refusal};

// The lengths of the four lent pools.
#[derive(Clone, Copy)]
pub struct Lent {
    // Bytes lent for user parameters and configurations.
    pub setup: usize,
    // Bytes lent for input images.
    pub inputs: usize,
    // Bytes lent for output images.
    pub outputs: usize,
    // Bytes lent for extended diagnosis.
    pub diags: usize,
}

// The lengths that an add asks for.
#[derive(Clone, Copy)]
pub struct Lengths {
    // Bytes of user parameters, 0 where they are absent; above 237 refused as 7.
    pub user: usize,
    // Bytes of configuration, 0 where it is absent; above 244 refused as 7.
    pub config: usize,
    // Bytes of the input image; above 244 refused as 7.
    pub inputs: usize,
    // Bytes of the output image; above 244 refused as 7.
    pub outputs: usize,
    // Bytes of room for extended diagnosis; above 238 refused as 7.
    pub room: usize,
}

// A turn: what is lent (2), and the time (3).
pub fn turn_refusal(
    u: Parameters,
    s: DpMasterState,
    time: u64,
    setup: usize,
    outputs: usize,
    payload: usize,
) -> Result<(), Refusal>
    ensures { result ≡ outcome (turn_refusal u s time setup outputs payload) }
{
    refusals::lent(setup, u.setup_pool)
        .and(refusals::lent(outputs, u.output_pool))
        .and(refusals::buffer(payload))
        .and(refusals::turn(s.last_turn, time))
}

// A reply: what is lent (2), the open request, to the balance at the address `asked` (9), and the telegram (10).
#[tactic(auto, unfolding(crate::specs::Refusal::reply_refusal, refusals::specs::Table::given))]
pub fn reply_refusal(
    u: Parameters,
    s: DpMasterState,
    asked: u8,
    address: u8,
    telegram: Telegram,
    payload: usize,
    inputs: usize,
    diags: usize,
) -> Result<(), Refusal>
    ensures { result ≡ outcome (reply_refusal u s asked address telegram payload inputs diags) }
{
    refusals::lent(inputs, u.input_pool)
        .and(refusals::lent(diags, u.diag_pool))
        .and(refusals::asked(s.is_open(), address, asked))
        .and(refusals::usable(telegram.is_usable(payload)))
}

// An add without its ranges: what is lent (2), the first empty `slot`, SLOTS for none, as row `full_row` reads it (5), address, and whether it is another balance's (6), lengths (7).
pub fn add_refusal(
    u: Parameters,
    lent: Lent,
    slot: usize,
    address: u8,
    elsewhere: bool,
    l: Lengths,
) -> Result<(), Refusal>
    ensures { result ≡ outcome (add_refusal u lent slot address elsewhere l) }
{
    refusals::lent(lent.setup, u.setup_pool)
        .and(refusals::lent(lent.inputs, u.input_pool))
        .and(refusals::lent(lent.outputs, u.output_pool))
        .and(refusals::lent(lent.diags, u.diag_pool))
        .and(refusals::full(slot, SLOTS))
        .and(refusals::address(address, u.address))
        .and(refusals::shared(elsewhere))
        .and(refusals::length(MAX_USER, l.user))
        .and(refusals::length(MAX_CONFIG, l.config))
        .and(refusals::length(MAX_IMAGE, l.inputs))
        .and(refusals::length(MAX_IMAGE, l.outputs))
        .and(refusals::length(MAX_ROOM, l.room))
}
