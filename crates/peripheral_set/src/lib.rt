// Which slots of the table are occupied: the first empty one, the next occupied one, and the listing.
// No code of the unit above looks a mark up itself, so that another way to find a slot changes nothing there.
#![tactic(auto)]

ghost use Rattle.std.specs.Prelude.{◌≡◌, length, get_or};
ghost use Rattle.refusals.specs.Table.{outcome};
ghost use Rattle.peripheral_set.specs.Marks.{slots, slot_or_none, no_handle, first_empty, at_or_after, next_after, is_occupied, listed, handle_refusal};

use refusals::Refusal;

// The number of slots. The definitions say it again, as `slots`.
pub const SLOTS: usize = 32;

// A slot with the address at issue. None is 255 and 255, and no `Option`, since it has C's layout and any handle may be handed in. DECISIONS 10
#[repr(C)]
#[derive(Clone, Copy, PartialEq, Eq)]
pub struct PeripheralHandle {
    // Slot number, 0 to 31; 255 stands for no balance.
    pub slot: u8,
    // Station address when the handle was issued, 0 to 125, or 255; no call looks at it.
    pub address: u8,
}

// One row of the listing; 255, 255 and not running where there is none, by `entry_at`.
#[repr(C)]
#[derive(Clone, Copy, PartialEq, Eq)]
pub struct Entry {
    // Slot number, 0 to 31, or 255 where there is no such entry; rising from row to row.
    pub slot: u8,
    // Station address of the balance, 0 to 125, or 255 where there is no such entry.
    pub address: u8,
    // Whether the balance is in DataExchange.
    pub running: bool,
}

// The first empty slot, if there is one.
pub fn first_empty(marks: &[bool; SLOTS]) -> Option<usize>
    ensures { result ≡ slot_or_none (first_empty marks.now) }
{
    marks.iter().position(|&mark| !mark)
}

// The first occupied slot from `place` on, if there is one.
// The place itself is looked at first, since a turn and a reply mostly find it occupied. Then eight empty slots are passed at a time:
// the compiler reads eight marks as one word, and a search mark by mark takes twice as long where few slots are occupied.
pub fn at_or_after(marks: &[bool; SLOTS], place: usize) -> Option<usize>
    ensures { result ≡ slot_or_none (at_or_after marks.now place) }
{
    if SLOTS <= place {
        return None;
    }
    if marks[place] {
        return Some(place);
    }
    let mut from = place + 1;
    for at in (place + 1..SLOTS - 7).step_by(8) {
        if marks[at..at + 8].contains(&true) {
            break;
        }
        from = at + 8;
    }
    (from..SLOTS).find(|&slot| marks[slot])
}

// The first occupied slot after `place`, if there is one.
pub fn next_after(marks: &[bool; SLOTS], place: usize) -> Option<usize>
    ensures { result ≡ slot_or_none (next_after marks.now place) }
{
    at_or_after(marks, place.checked_add(1)?)
}

// Whether there is such a slot, and it is occupied.
pub fn is_occupied(marks: &[bool; SLOTS], slot: usize) -> bool
    ensures { result ≡ is_occupied marks.now slot }
{
    slot < SLOTS && marks[slot]
}

// How many slots are occupied.
pub fn count(marks: &[bool; SLOTS]) -> usize
    ensures { result ≡ length (listed marks.now) }
{
    let mut n = 0;
    for &mark in marks {
        n += usize::from(mark);
    }
    n
}

// The n-th occupied slot, counted from 0, if there are so many.
pub fn nth(marks: &[bool; SLOTS], n: usize) -> Option<usize>
    ensures { result ≡ slot_or_none (get_or (listed marks.now) n slots) }
{
    (0..SLOTS).filter(|&slot| marks[slot]).nth(n)
}

impl PeripheralHandle {
    // No slot and no address: every use of it is refused as 4. DECISIONS 10
    pub fn none() -> PeripheralHandle
        ensures { result ≡ no_handle }
    {
        PeripheralHandle {
            slot: 255,
            address: 255,
        }
    }

    // Its row of the table: refused where the slot is empty, or there is none.
    pub fn refusal(self, marks: &[bool; SLOTS]) -> Result<(), Refusal>
        ensures { result ≡ outcome (handle_refusal self marks.now) }
    {
        refusals::handle(is_occupied(marks, usize::from(self.slot)))
    }
}
