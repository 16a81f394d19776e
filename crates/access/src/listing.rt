// The listing of the set: how many balances there are, and the n-th of them.
ghost use Rattle.std.specs.Prelude.{◌≡◌, length, get_or};
ghost use Rattle.peripheral_set.specs.Marks.{slots, listed};
ghost use Rattle.access.specs.Lookup.{entry_at};

use master::unit::DpMaster;
use peripheral_set::Entry;

// How many balances there are: 0 to 32.
// Refuses: nothing.
// Changes: nothing.
pub fn count(m: &DpMaster) -> usize
    ensures { result ≡ length (listed m.now.occupied) }
{
    peripheral_set::count(&m.occupied)
}

// The n-th balance, counted from 0; slot 255, address 255 and not running where there are not so many.
// Refuses: nothing.
// Changes: nothing.
pub fn entry(m: &DpMaster, n: usize) -> Entry
    ensures { result ≡ entry_at m.now (get_or (listed m.now.occupied) n slots) }
{
    match peripheral_set::nth(&m.occupied, n) {
        Some(slot) => Entry {
            slot: slot as u8,
            address: m.peripherals[slot].address(),
            running: m.peripherals[slot].is_running(),
        },
        None => Entry {
            slot: 255,
            address: 255,
            running: false,
        },
    }
}
