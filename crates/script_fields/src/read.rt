// The fields of a line, read from a place on: each after exactly one space.
ghost use Rattle.std.specs.Prelude.{◌≡◌, ◌*◌, ◌<◌, ◌≤◌, IfSome, IfNone, length, drop, option_map};
ghost use Rattle.script_fields.specs.Read.{with_place, has_at, space_at, behind_space, ends_at, with_digit, digits_from, number_from, number_at, flag_at, most, hex_worth, pair_of, pairs_of, pairs_from, bytes_from, front, BytesRead, SetupRead};

// A line, and where its next field begins. What reads a field answers None where the line is wrong there, and then stands behind the field's space, if it has one.
#[derive(Clone, Copy)]
pub struct Reader<'a> {
    // The line, without its newline.
    pub line: &'a [u8],
    // Index of the next byte of the line.
    pub at: usize,
}

// The longest run of bytes in a line, in bytes.
pub const MOST: usize = 255;

// What a hex digit is worth.
fn hex(b: u8) -> Option<u8>
    ensures worth { result ≡ hex_worth b }
    ensures digit { IfSome result (λ d. d < 16) }
{
    match b {
        b'0'..=b'9' => Some(b - b'0'),
        b'a'..=b'f' => Some(b - b'a' + 10),
        _ => None,
    }
}

// The byte whose two hex digits a text begins with.
fn pair(text: &[u8]) -> Option<u8>
    ensures { result ≡ pair_of text.now }
{
    match text {
        [high, low, ..] => Some(hex(*high)? * 16 + hex(*low)?),
        _ => None,
    }
}

// Two hex digits a byte, as many as a text begins with and the array holds; answers how many bytes.
// By number, and not by `iter_mut`, whose early return leaves goals in names of the language's own; the array is fixed, with its count beside it.
#[tactic(auto, using(crate::proofs::Reading::pairs_within, crate::proofs::Reading::pairs_few))]
fn pairs(text: &[u8], out: &mut [u8; 255]) -> usize
    ensures count { result ≡ length (pairs_of most text.now) }
    ensures within { 2 * result ≤ length text.now }
    ensures few { result ≤ most }
    ensures bytes { out.new ≡ front (pairs_of most text.now) out.old }
{
    let mut rest = text;
    for n in 0..MOST {
        let Some(b) = pair(rest) else { return n };
        out[n] = b;
        rest = &rest[2..];
    }
    MOST
}

// One decimal digit more, where the number stays at most `limit`.
fn with_digit(value: u64, digit: u8, limit: u64) -> Option<u64>
    ensures { result ≡ with_digit limit value digit }
{
    let value = value.checked_mul(10)?.checked_add(u64::from(digit))?;
    (value <= limit).then_some(value)
}

impl<'a> Reader<'a> {
    // The line from there on.
    fn rest(&self) -> &'a [u8]
        ensures { result.now ≡ drop self.now.at self.now.line.now }
    {
        self.line.get(self.at..).unwrap_or(&[])
    }

    // Whether the byte `b` stands there.
    #[tactic(auto, unfolding(crate::specs::Read::has_at))]
    fn has(&self, b: u8) -> bool
        ensures { result ≡ has_at self.now.line.now self.now.at b }
    {
        self.line.get(self.at) == Some(&b)
    }

    // Exactly one space: goes behind it.
    #[tactic(auto, unfolding(crate::specs::Read::space_at))]
    pub fn space(&mut self) -> Option<()>
        ensures place { option_map (λ _. self.new.at) result ≡ space_at self.old.line.now self.old.at }
        ensures wrong { IfNone result (self.new.at ≡ self.old.at) }
        ensures line { self.new.line ≡ self.old.line }
    {
        if !self.has(b' ') {
            return None;
        }
        self.at += 1;
        Some(())
    }

    // The digits there, as many as there are; nothing where they are worth more than `limit`.
    #[tactic(auto, using(crate::proofs::Reading::digits_end, crate::proofs::Reading::digits_stop, crate::proofs::Reading::digits_over, crate::proofs::Reading::digits_more))]
    pub fn digits(&mut self, limit: u64) -> Option<u64>
        ensures digits { with_place result self.new.at ≡ digits_from limit 0 self.old.at (drop self.old.at self.old.line.now) }
        ensures limited { IfSome result (λ n. n ≤ limit) }
        ensures wrong { IfNone result (self.new.at ≡ self.old.at) }
        ensures line { self.new.line ≡ self.old.line }
    {
        let mut value = 0;
        let mut len = 0;
        let rest = self.rest();
        for b in rest {
            if !b.is_ascii_digit() {
                break;
            }
            value = with_digit(value, *b - b'0', limit)?;
            len += 1;
        }
        self.at += len;
        Some(value)
    }

    // A number of at most `limit` after a space: decimal digits, no leading zeros.
    #[tactic(auto, unfolding(crate::specs::Read::number_at, crate::specs::Read::number_from, crate::specs::Read::has_at))]
    pub fn number(&mut self, limit: u64) -> Option<u64>
        ensures field { with_place result self.new.at ≡ number_at limit self.old.line.now self.old.at }
        ensures limited { IfSome result (λ n. n ≤ limit) }
        ensures wrong { IfNone result (self.new.at ≡ behind_space self.old.line.now self.old.at) }
        ensures line { self.new.line ≡ self.old.line }
    {
        self.space()?;
        match self.line.get(self.at)? {
            b'0' => {
                self.at += 1;
                Some(0)
            }
            b'1'..=b'9' => self.digits(limit),
            _ => None,
        }
    }

    // A flag after a space: `0` or `1`.
    pub fn flag(&mut self) -> Option<bool>
        ensures field { with_place result self.new.at ≡ flag_at self.old.line.now self.old.at }
        ensures wrong { IfNone result (self.new.at ≡ behind_space self.old.line.now self.old.at) }
        ensures line { self.new.line ≡ self.old.line }
    {
        Some(self.number(1)? == 1)
    }

    // BYTES at a place: the bytes go to the front of `out`; answers how many.
    #[tactic(auto, unfolding(crate::specs::Read::bytes_from, crate::specs::Read::pairs_from, crate::specs::Read::has_at))]
    fn bytes_here(&mut self, out: &mut [u8; 255]) -> Option<usize>
        ensures field { with_place result self.new.at ≡ bytes_from self.old.line.now self.old.at (length (pairs_from self.old.line.now self.old.at)) }
        ensures bytes { out.new ≡ front (pairs_from self.old.line.now self.old.at) out.old }
        ensures wrong { IfNone result (self.new.at ≡ self.old.at) }
        ensures line { self.new.line ≡ self.old.line }
    {
        if self.has(b'-') {
            self.at += 1;
            return Some(0);
        }
        let rest = self.rest();
        let n = pairs(rest, out);
        if n == 0 {
            return None;
        }
        self.at += 2 * n;
        Some(n)
    }

    // BYTES after a space: the bytes go to the front of `out`; answers how many.
    #[tactic(auto, unfolding(crate::specs::Read::bytes_at, crate::specs::Read::pairs_at))]
    pub fn bytes(&mut self, out: &mut [u8; 255]) -> Option<usize>
        ensures field { BytesRead self.old.line.now self.old.at out.old out.new (with_place result self.new.at) }
        ensures wrong { IfNone result (self.new.at ≡ behind_space self.old.line.now self.old.at) }
        ensures line { self.new.line ≡ self.old.line }
    {
        self.space()?;
        self.bytes_here(out)
    }

    // SETUP after a space: as BYTES, or `x` for absent.
    #[tactic(auto, unfolding(crate::specs::Read::setup_at, crate::specs::Read::setup_from, crate::specs::Read::setup_bytes, crate::specs::Read::setup_bytes_from, crate::specs::Read::has_at))]
    pub fn setup(&mut self, out: &mut [u8; 255]) -> Option<Option<usize>>
        ensures field { SetupRead self.old.line.now self.old.at out.old out.new (with_place result self.new.at) }
        ensures wrong { IfNone result (self.new.at ≡ behind_space self.old.line.now self.old.at) }
        ensures line { self.new.line ≡ self.old.line }
    {
        self.space()?;
        if self.has(b'x') {
            self.at += 1;
            return Some(None);
        }
        Some(Some(self.bytes_here(out)?))
    }

    // Whether the line ends there.
    pub fn ends(&self) -> bool
        ensures { result ≡ ends_at self.now.line.now self.now.at }
    {
        self.at == self.line.len()
    }
}
