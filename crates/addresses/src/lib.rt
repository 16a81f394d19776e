// Whether an address is another balance's.
#![tactic(auto)]

ghost use Rattle.std.specs.Prelude.{◌≡◌};
ghost use Rattle.peripheral_set.specs.Marks.{slots, is_occupied};
ghost use Rattle.addresses.specs.Addresses.{has_it, elsewhere};

use peripheral::record::Peripheral;
use peripheral_set::{SLOTS, is_occupied};

// Whether slot `i`, occupied or not, is another one than `slot` and has this address.
fn has_it(occupied: bool, i: usize, slot: usize, p: &Peripheral, address: u8) -> bool
    ensures { result ≡ has_it occupied i slot p.now address }
{
    occupied && i != slot && p.address() == address
}

// Whether an occupied slot other than `slot` has this address; `slot` is the one that is to have it.
pub fn taken_elsewhere(
    marks: &[bool; SLOTS],
    all: &[Peripheral; SLOTS],
    slot: usize,
    address: u8,
) -> bool
    ensures { result ≡ elsewhere marks.now all.now slot address }
{
    (0..SLOTS).any(|i| has_it(is_occupied(marks, i), i, slot, &all[i], address))
}
