// The table of refusals: its numbers and limits by name, and a function for each row but that of a short list, which stands with the list in `forms`.
// Every call's refusal is a run of these rows in the table's order, joined by `and`, so that the first that applies is the answer.
#![tactic(auto)]

ghost use Rattle.std.specs.Prelude.{◌≡◌, cond};
ghost use Rattle.refusals.specs.Table.{refusal_number, outcome, said, parameter_row, lent_row, buffer_row, turn_row, handle_row, full_row, address_row, shared_row, length_row, room_row, asked_row, usable_row, write_row};

// Why a call is refused; its number is that of document 01's table, and 0 stands for done.
#[derive(Clone, Copy, Debug, PartialEq, Eq)]
pub enum Refusal {
    // 1: creation, a parameter outside its range.
    BadParameter,
    // 2: a lent pool's length is not the one at creation, or a payload buffer or list is too short.
    BadLent,
    // 3: turn, a time before that of the last accepted turn.
    EarlyTurn,
    // 4: the handle's slot is empty or above 31.
    BadHandle,
    // 5: add, all 32 slots are occupied.
    TableFull,
    // 6: add or reset, an address above 125, the master's own, or that of another occupied slot.
    BadAddress,
    // 7: add, a length above its limit.
    TooLong,
    // 8: add, one of the four ranges passes its pool's end.
    NoRoom,
    // 9: reply, no request open, or another address than the open one's.
    NotAsked,
    // 10: reply, a token, a request telegram, another status than the nine codes, or a payload over 246 bytes.
    Unusable,
    // 11: output write, the length is not the image's.
    BadLength,
}

// The number that 01 gives it, 1 to 11; 0 stands for done.
impl From<Refusal> for u8 {
    ghost from_gives = { λ r n. n ≡ refusal_number r };

    fn from(refusal: Refusal) -> u8 {
        match refusal {
            Refusal::BadParameter => 1,
            Refusal::BadLent => 2,
            Refusal::EarlyTurn => 3,
            Refusal::BadHandle => 4,
            Refusal::TableFull => 5,
            Refusal::BadAddress => 6,
            Refusal::TooLong => 7,
            Refusal::NoRoom => 8,
            Refusal::NotAsked => 9,
            Refusal::Unusable => 10,
            Refusal::BadLength => 11,
        }
    }
}

// The limits.

// Highest address of a station, of the master as of a balance; the lowest is 0.
pub const MAX_ADDRESS: u8 = 125;

// Highest retry limit, so that a balance's count, at most one above it, is a byte.
pub const MAX_RETRIES: u32 = 254;

// Longest slot time (Tsl) in microseconds; the shortest is 1.
pub const MAX_SLOT_TIME: u32 = 1000000;

// Longest of each of the four pools, in bytes.
pub const MAX_POOL: u32 = 16384;

// Shortest payload buffer in bytes: as long as the longest payload that a turn sends.
pub const MIN_BUFFER: usize = 244;

// Longest user parameters of a balance in bytes; with the seven that go before them 244.
pub const MAX_USER: usize = 237;

// Longest configuration of a balance in bytes.
pub const MAX_CONFIG: usize = 244;

// Longest input image, and longest output image, of a balance in bytes.
pub const MAX_IMAGE: usize = 244;

// Largest room for the extended diagnosis of a balance in bytes; with the six that go before it 244.
pub const MAX_ROOM: usize = 238;

// Longest payload of a reply in bytes.
pub const MAX_PAYLOAD: usize = 246;

// Refuses where the row applies.
fn refuse_if(applies: bool, refusal: Refusal) -> Result<(), Refusal>
    ensures { result ≡ outcome (cond applies (refusal_number refusal) 0) }
{
    if applies { Err(refusal) } else { Ok(()) }
}

// 1: a parameter outside its range.
pub fn parameter(lowest: u32, highest: u32, value: u32) -> Result<(), Refusal>
    ensures { result ≡ outcome (said (parameter_row lowest highest value)) }
{
    refuse_if(value < lowest || highest < value, Refusal::BadParameter)
}

// 2: a lent pool's length is not the one at creation.
pub fn lent(len: usize, pool: u16) -> Result<(), Refusal>
    ensures { result ≡ outcome (said (lent_row len pool)) }
{
    refuse_if(len != usize::from(pool), Refusal::BadLent)
}

// 2: a payload buffer that is too short.
pub fn buffer(len: usize) -> Result<(), Refusal>
    ensures { result ≡ outcome (said (buffer_row len)) }
{
    refuse_if(len < MIN_BUFFER, Refusal::BadLent)
}

// 3: a time before that of the last accepted turn.
pub fn turn(last: u64, time: u64) -> Result<(), Refusal>
    ensures { result ≡ outcome (said (turn_row last time)) }
{
    refuse_if(time < last, Refusal::EarlyTurn)
}

// 4: the handle's slot is empty, or there is none.
pub fn handle(occupied: bool) -> Result<(), Refusal>
    ensures { result ≡ outcome (said (handle_row occupied)) }
{
    refuse_if(!occupied, Refusal::BadHandle)
}

// 5: the first empty slot is none of the table's.
pub fn full(slot: usize, slots: usize) -> Result<(), Refusal>
    ensures { result ≡ outcome (said (full_row slot slots)) }
{
    refuse_if(slots <= slot, Refusal::TableFull)
}

// 6: an address above the highest, or the master's own.
pub fn address(address: u8, own: u8) -> Result<(), Refusal>
    ensures { result ≡ outcome (said (address_row address own)) }
{
    refuse_if(MAX_ADDRESS < address || address == own, Refusal::BadAddress)
}

// 6: the address of another occupied slot.
pub fn shared(elsewhere: bool) -> Result<(), Refusal>
    ensures { result ≡ outcome (said (shared_row elsewhere)) }
{
    refuse_if(elsewhere, Refusal::BadAddress)
}

// 7: a length above its limit.
pub fn length(limit: usize, len: usize) -> Result<(), Refusal>
    ensures { result ≡ outcome (said (length_row limit len)) }
{
    refuse_if(limit < len, Refusal::TooLong)
}

// 8: a range that passes its pool's end.
pub fn room(start: u16, len: usize, pool: u16) -> Result<(), Refusal>
    ensures { result ≡ outcome (said (room_row start len pool)) }
{
    let fits = parts::inside(usize::from(start), len, usize::from(pool));
    refuse_if(!fits, Refusal::NoRoom)
}

// 9: no request open, or another address than the open one's.
pub fn asked(is_open: bool, address: u8, asked: u8) -> Result<(), Refusal>
    ensures { result ≡ outcome (said (asked_row is_open address asked)) }
{
    refuse_if(!is_open || address != asked, Refusal::NotAsked)
}

// 10: a reply that is not usable.
pub fn usable(is_usable: bool) -> Result<(), Refusal>
    ensures { result ≡ outcome (said (usable_row is_usable)) }
{
    refuse_if(!is_usable, Refusal::Unusable)
}

// 11: a length that is not the image's.
pub fn write(len: usize, image: usize) -> Result<(), Refusal>
    ensures { result ≡ outcome (said (write_row len image)) }
{
    refuse_if(len != image, Refusal::BadLength)
}
