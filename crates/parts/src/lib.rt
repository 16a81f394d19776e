// Parts of lent byte slices: what the Rust's `ManagedSlice` images and buffers become.
// Every function is total: a range that does not lie in the slice reads as empty, and nothing is written.
#![tactic(auto)]

ghost use Rattle.std.specs.Prelude.{◌≡◌, ◌+◌, leb, get_or};
ghost use denote.MutBor.{as_bor};
ghost use Rattle.parts.specs.Parts.{zeros, Put, view_at, Itself};

// Whether the range of `len` bytes from `at` lies in `total` bytes.
pub fn inside(at: usize, len: usize, total: usize) -> bool
    ensures { result ≡ leb (at + len) total }
{
    len <= total && at <= total - len
}

// The byte at an index; 0 where there is none.
pub fn byte_at(src: &[u8], i: usize) -> u8
    ensures { result ≡ get_or src.now i 0 }
{
    src.get(i).copied().unwrap_or(0)
}

// `src` is copied to the start of the range of `room` bytes from `at` where it fits; answers whether it did.
pub fn copy_at(dst: &mut [u8], at: usize, room: usize, src: &[u8]) -> bool
    ensures { Put at room src.now dst.old dst.new result }
{
    if room < src.len() || !inside(at, room, dst.len()) {
        return false;
    }
    dst[at..at + src.len()].copy_from_slice(src);
    true
}

// The range of `len` bytes from `at` is cleared to zeros where it lies in `dst`; answers whether it did.
// Of its own: `copy_at` of zeros would need as many zeros to copy.
pub fn clear_at(dst: &mut [u8], at: usize, len: usize) -> bool
    ensures { Put at len (zeros len) dst.old dst.new result }
{
    if !inside(at, len, dst.len()) {
        return false;
    }
    dst[at..at + len].fill(0);
    true
}

// The range of `len` bytes from `at`, itself and no copy of it; empty where it does not lie in `src`.
#[tactic(auto, unfolding(crate::specs::Parts::part, crate::specs::Parts::inside))]
pub fn part(src: &[u8], at: usize, len: usize) -> &[u8]
    ensures { Itself (view_at at len src.now) src.entry result }
{
    if inside(at, len, src.len()) {
        &src[at..at + len]
    } else {
        &src[..0]
    }
}

// The same range as that of `part`, for the caller to write.
// Of its own, since no function is both over `&` and over `&mut`.
#[tactic(auto, unfolding(crate::specs::Parts::part, crate::specs::Parts::inside))]
pub fn part_mut(src: &mut [u8], at: usize, len: usize) -> &mut [u8]
    ensures { Itself (view_at at len src.old) (as_bor src.entry) (as_bor result) }
{
    if inside(at, len, src.len()) {
        &mut src[at..at + len]
    } else {
        &mut src[..0]
    }
}
