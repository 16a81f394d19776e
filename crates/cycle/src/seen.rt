// What the visits of a turn have seen so far.
ghost use Rattle.std.specs.Prelude.{◌≡◌, ◌<◌};
ghost use Rattle.peripheral_set.specs.Marks.{slots, slot_or_none};
ghost use Rattle.cycle.specs.Seen.{bit_at, nothing_seen, seen_by, next_in, index_of, sent_index, first_index};

use payloads::request::Request;
use peripheral_set::SLOTS;
use station::visit::Visited;

// A bit for each slot.
pub type Mask = u32;

// A request that a visit sent; the visits end there.
#[derive(Clone, Copy)]
pub struct Sent {
    // The slot that it went to, 0 to 31.
    pub slot: u8,
    // Which of the four it is.
    pub kind: Request,
}

// The slots reported Offline, and what was sent.
#[derive(Clone, Copy)]
pub struct Seen {
    // Bit s is set where the visit to slot s reported Offline.
    pub mask: Mask,
    // Slot number of the first one reported Offline, 0 to 31, if there is one.
    pub first: Option<u8>,
    // The request that was sent, if there is one.
    pub sent: Option<Sent>,
}

// The bit of a slot; none where there is no such slot.
pub fn bit(slot: usize) -> Mask
    ensures { result ≡ bit_at slot }
{
    if slot < SLOTS { (1 as Mask) << slot } else { 0 }
}

// A slot number as an index; one that is no slot's counts as the first. DECISIONS 27
pub fn index(slot: u8) -> usize
    ensures { (result ≡ index_of slot) × (result < slots) }
{
    let i = usize::from(slot);
    if i < SLOTS { i } else { 0 }
}

impl Seen {
    // Before the first visit: nobody reported Offline, nothing sent.
    pub fn new() -> Seen
        ensures { result ≡ nothing_seen }
    {
        Seen {
            mask: 0,
            first: None,
            sent: None,
        }
    }

    // After the visit to a slot.
    pub fn seen_after(self, slot: u8, what: Visited) -> Seen
        ensures { result ≡ seen_by slot what self }
    {
        match what {
            Visited::Sends(kind) => Seen {
                sent: Some(Sent { slot, kind }),
                ..self
            },
            Visited::Drops => Seen {
                mask: self.mask | bit(usize::from(slot)),
                first: self.first.or(Some(slot)),
                ..self
            },
            Visited::Skips => self,
        }
    }

    // Where the visits go on: the next occupied slot after `slot`; nowhere once something was sent.
    pub fn next(self, marks: &[bool; SLOTS], slot: usize) -> Option<usize>
        ensures { result ≡ slot_or_none (next_in self.sent marks.now slot) }
    {
        match self.sent {
            None => peripheral_set::next_after(marks, slot),
            Some(_) => None,
        }
    }

    // The slot that something was sent to, as an index; 0 where nothing was.
    pub fn sent_index(self) -> usize
        ensures { (result ≡ sent_index self.sent) × (result < slots) }
    {
        match self.sent {
            None => 0,
            Some(sent) => index(sent.slot),
        }
    }

    // The first slot reported Offline, as an index; 0 where none was.
    pub fn first_index(self) -> usize
        ensures { (result ≡ first_index self.first) × (result < slots) }
    {
        match self.first {
            None => 0,
            Some(slot) => index(slot),
        }
    }
}
