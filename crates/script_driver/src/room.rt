// The room that an answer may need in the output.
ghost use Rattle.std.specs.Prelude.{◌≡◌};
ghost use Rattle.script_driver.specs.Room.{next_at};

use peripheral_set::SLOTS;

// No answer is longer: a letter, a newline, the 123 fields of the longest H and 25 fields for each slot of a D, of at most 21 bytes each.
pub const LONGEST: usize = 2 + 21 * (123 + 25 * SLOTS);

// Where the next answer goes in an output of `len` bytes of which `at` wait: to the front where fewer than LONGEST are left.
pub fn next_at(len: usize, at: usize) -> usize
    ensures { result ≡ next_at len at }
{
    if len < at {
        return 0;
    }
    if len - at < LONGEST {
        return 0;
    }
    at
}
