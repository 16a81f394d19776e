// The listing of the set, filled into a lent list of entries.
ghost use Rattle.std.specs.Prelude.{◌≡◌};
ghost use Rattle.refusals.specs.Table.{outcome};
ghost use Rattle.forms.specs.Listing.{list_refusal, listed_by, Iterated};

use master::unit::DpMaster;
use peripheral_set::{Entry, SLOTS};
use refusals::Refusal;

// 2: a list with fewer entries than there are slots.
#[tactic(auto, unfolding(refusals::specs::Table::given))]
fn list_refusal(entries: usize) -> Result<(), Refusal>
    ensures { result ≡ outcome (list_refusal entries) }
{
    if entries < SLOTS {
        Err(Refusal::BadLent)
    } else {
        Ok(())
    }
}

// The occupied slots in rising order at the front of the list, the rest unchanged; answers how many there are.
// Refuses: list_refusal.
// Changes: the first so many entries of the list.
pub fn iter(m: &DpMaster, list: &mut [Entry]) -> Result<usize, Refusal>
    ensures { Iterated m.now list.old list.new (listed_by result) }
{
    list_refusal(list.len())?;
    let count = access::listing::count(m);
    for (i, row) in list[..count].iter_mut().enumerate() {
        *row = access::listing::entry(m, i);
    }
    Ok(count)
}
