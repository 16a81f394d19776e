// The fields of an answer, written behind a place of a lent buffer.
// What the buffer has no room for is left out, byte by byte.
ghost use Rattle.std.specs.Prelude.{◌≡◌, [], ◌∷◌, ◌<◌};
ghost use Rattle.script_fields.specs.Write.{Wrote, decimal, field_text, fields_text, hex_digit, hex_text, bytes_text, sum_step, sum_from, sum_of};

// A lent buffer, and the place behind the last byte that was written.
#[derive(Drop)]
pub struct Text<'a> {
    // The whole buffer, which goes on behind the place.
    pub out: &'a mut [u8],
    // Index of the next byte.
    pub at: usize,
}

impl Text<'_> {
    // One byte; where there is no room for it, nothing.
    pub fn put(&mut self, b: u8)
        ensures { Wrote (b ∷ []) self.old self.new }
    {
        if self.at < self.out.len() {
            self.out[self.at] = b;
            self.at += 1;
        }
    }

    // A number: decimal digits, no leading zeros, at most 20 of them.
    // It calls itself, and writes no `write!`, whose contract promises nothing on `Err` and never that there is none.
    pub fn number(&mut self, n: u64)
        ensures { Wrote (decimal n) self.old self.new }
    {
        if n >= 10 {
            self.number(n / 10);
        }
        self.put(b'0' + (n % 10) as u8);
    }

    // A space and a number.
    pub fn field(&mut self, n: u64)
        ensures { Wrote (field_text n) self.old self.new }
    {
        self.put(b' ');
        self.number(n);
    }

    // Each number of a list after a space.
    pub fn fields(&mut self, list: &[u64])
        ensures { Wrote (fields_text list.now) self.old self.new }
    {
        for &n in list {
            self.field(n);
        }
    }

    // Two hex digits a byte.
    fn pairs(&mut self, list: &[u8])
        ensures { Wrote (hex_text list.now) self.old self.new }
    {
        for &b in list {
            self.put(hex(b / 16));
            self.put(hex(b % 16));
        }
    }

    // BYTES after a space: two lower-case hex digits a byte, or `-` for none.
    pub fn bytes(&mut self, list: &[u8])
        ensures { Wrote (32 ∷ bytes_text list.now) self.old self.new }
    {
        self.put(b' ');
        if list.is_empty() {
            self.put(b'-');
        } else {
            self.pairs(list);
        }
    }
}

// A hex digit.
fn hex(d: u8) -> u8
    requires { d < 16 }
    ensures { result ≡ hex_digit d }
{
    if d < 10 { b'0' + d } else { b'a' - 10 + d }
}

// The sum with one number more: h = (h * 256 + n) mod 1000000007.
#[inline]
pub fn sum_step(h: u32, n: u32) -> u32
    ensures { result ≡ sum_step h n }
{
    ((u64::from(h) * 256 + u64::from(n)) % 1000000007) as u32
}

// The sum with each byte of a list mixed in, in order.
#[inline]
pub fn sum_from(h: u32, list: &[u8]) -> u32
    ensures { result ≡ sum_from h list.now }
{
    list.iter().fold(h, |h, &b| sum_step(h, u32::from(b)))
}

// The checksum: the sum over all bytes, from 1 on.
pub fn sum(list: &[u8]) -> u64
    ensures { result ≡ sum_of list.now }
{
    u64::from(sum_from(1, list))
}
