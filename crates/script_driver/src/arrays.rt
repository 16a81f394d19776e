// The arrays of a driver: what is lent of them, what P and F fill in, and the listing of H.
ghost use Rattle.std.specs.Prelude.{◌≡◌};
ghost use Rattle.parts.specs.Parts.{Itself};
ghost use Rattle.script_driver.specs.Arrays.{short_of, lent_view, filled, entry_byte, filled_entries, put_entry, Entered, sums_of, pools_held, pools_are, payload_is, list_is};
ghost use Rattle.script_driver.specs.Calls.{PoolsFilled, PayloadFilled};

use master::unit::DpMaster;
use peripheral_set::Entry;
use script_dump::Sums;
use script_fields::write;

// What a driver holds beside its unit, lent to it.
#[derive(Drop)]
pub struct Arrays<'a> {
    // Set-up data of all balances.
    pub setup: &'a mut [u8],
    // Their input images.
    pub inputs: &'a mut [u8],
    // Their output images.
    pub outputs: &'a mut [u8],
    // Their extended diagnosis.
    pub diags: &'a mut [u8],
    // What a turn sends.
    pub payload: &'a mut [u8],
    // The listing: three bytes an entry.
    pub list: &'a mut [u8],
}

// How many bytes of an array are lent: no more than it has.
pub fn front(n: u16, len: usize) -> usize
    ensures { result ≡ short_of n len }
{
    usize::from(n).min(len)
}

// The first so many bytes, themselves and no copy of them.
pub fn lent(src: &[u8], n: u16) -> &[u8]
    ensures { Itself (lent_view n src.now) src.entry result }
{
    &src[..front(n, src.len())]
}

// All bytes become `b`.
pub fn fill(dst: &mut [u8], b: u8)
    ensures { dst.new ≡ filled b dst.old }
{
    dst.fill(b);
}

// The byte at an index of a list whose entries are (b, b, b mod 2).
fn entry_byte(b: u8, i: usize) -> u8
    ensures { result ≡ entry_byte b i }
{
    if i % 3 == 2 { b % 2 } else { b }
}

// Each entry becomes (b, b, b mod 2).
pub fn fill_list(list: &mut [u8], b: u8)
    ensures { list.new ≡ filled_entries b list.old }
{
    for (i, byte) in list.iter_mut().enumerate() {
        *byte = entry_byte(b, i);
    }
}

#[tactic(auto, unfolding(crate::specs::Arrays::put_entry))]
fn put_entry(list: &mut [u8], k: usize, e: Entry)
    ensures { list.new ≡ put_entry k e list.old }
{
    if k < list.len() / 3 {
        list[3 * k..3 * k + 3].copy_from_slice(&[e.slot, e.address, u8::from(e.running)]);
    }
}

// The listing goes into the list, three bytes an entry; answers how many bytes.
pub fn put_entries(unit: &DpMaster, list: &mut [u8]) -> usize
    ensures { Entered unit.now list.old list.new result }
{
    let count = access::listing::count(unit);
    for k in 0..count {
        put_entry(list, k, access::listing::entry(unit, k));
    }
    3 * count
}

// P: all bytes of the four pool arrays become `b`.
pub fn fill_pools(b: u8, setup: &mut [u8], inputs: &mut [u8], outputs: &mut [u8], diags: &mut [u8])
    ensures { PoolsFilled b setup.old inputs.old outputs.old diags.old setup.new inputs.new outputs.new diags.new }
{
    fill(setup, b);
    fill(inputs, b);
    fill(outputs, b);
    fill(diags, b);
}

// F: all payload bytes become `b`, all entries of the list (b, b, b mod 2).
pub fn fill_payload(b: u8, payload: &mut [u8], list: &mut [u8])
    ensures { PayloadFilled b payload.old list.old payload.new list.new }
{
    fill(payload, b);
    fill_list(list, b);
}

impl Arrays<'_> {
    // P: `fill_pools` of these arrays.
    pub fn fill_pools(&mut self, b: u8)
        ensures bytes { PoolsFilled b self.old.setup.now self.old.inputs.now self.old.outputs.now self.old.diags.now self.new.setup.now self.new.inputs.now self.new.outputs.now self.new.diags.now }
        ensures others { self.new ≡ pools_are (pools_held self.new) self.old }
    {
        fill_pools(b, self.setup, self.inputs, self.outputs, self.diags);
    }

    // F: `fill_payload` of these arrays.
    pub fn fill_payload(&mut self, b: u8)
        ensures bytes { PayloadFilled b self.old.payload.now self.old.list.now self.new.payload.now self.new.list.now }
        ensures others { self.new ≡ payload_is self.new.payload.now (list_is self.new.list.now self.old) }
    {
        fill_payload(b, self.payload, self.list);
    }

    // N: all arrays become zero.
    pub fn clear(&mut self)
        ensures pools { PoolsFilled 0 self.old.setup.now self.old.inputs.now self.old.outputs.now self.old.diags.now self.new.setup.now self.new.inputs.now self.new.outputs.now self.new.diags.now }
        ensures others { (self.new.payload.now ≡ filled 0 self.old.payload.now) × (self.new.list.now ≡ filled 0 self.old.list.now) }
        ensures same { self.new ≡ pools_are (pools_held self.new) (payload_is self.new.payload.now (list_is self.new.list.now self.old)) }
    {
        self.fill_pools(0);
        fill(self.payload, 0);
        fill(self.list, 0);
    }
}

// D: the sums of the four whole pool arrays.
pub fn sums(setup: &[u8], inputs: &[u8], outputs: &[u8], diags: &[u8]) -> Sums
    ensures { result ≡ sums_of setup.now inputs.now outputs.now diags.now }
{
    Sums {
        setup: write::sum(setup),
        inputs: write::sum(inputs),
        outputs: write::sum(outputs),
        diags: write::sum(diags),
    }
}
