// A line, put together from the pieces in which it comes.
ghost use Rattle.std.specs.Prelude.{◌≡◌};
ghost use Rattle.script_driver.specs.Pieces.{line_end, Appended, is_unfinished};

// How much of a line came, and whether it is too long.
// The mark stands beside the count, and is no `Option`, since what fits stays after a piece that does not: `Appended`.
#[derive(Clone, Copy)]
pub struct Partial {
    // Bytes of the line that came so far and fit, at the front of the line's array.
    pub filled: usize,
    // Whether a piece did not fit: the line is then no call.
    pub long: bool,
}

// The first newline from a place on, or the end.
pub fn line_end(s: &[u8], from: usize) -> usize
    ensures { result ≡ line_end from s.now }
{
    (from..s.len())
        .find(|&i| s[i] == b'\n')
        .unwrap_or(from.max(s.len()))
}

impl Partial {
    // A piece of a line goes behind what came of it; a piece that does not fit makes the line too long.
    pub fn append(&mut self, piece: &[u8], line: &mut [u8])
        ensures { Appended self.old piece.now line.old line.new self.new }
    {
        if parts::copy_at(line, self.filled, piece.len(), piece) {
            self.filled += piece.len();
        } else {
            self.long = true;
        }
    }

    // Whether something of a line came that did not end.
    pub fn unfinished(&self) -> bool
        ensures { result ≡ is_unfinished self.now }
    {
        self.long || 0 < self.filled
    }
}
