// The bytes of a name, each 33 to 126.
ghost use Rattle.std.specs.Prelude.{◌≡◌, ◌≤◌, ◌<◌, ◌+◌, ◌*◌, length, take, drop};
ghost use Rattle.node_reader.specs.Fields.{name_like, CutNameIs};

use terms::refusals::Refusal;

// Whether each byte is from 33 to 126. It looks at all of them, so that several are compared at once.
#[inline(always)]
fn name_like(bytes: &[u8]) -> bool
    ensures { result ≡ name_like bytes.now }
{
    let mut like = true;
    for b in bytes {
        like = like & (b.wrapping_sub(33) <= 93);
    }
    like
}

// The same of bytes that two windows of this width cover, the first and the last, which may overlap: a window is compared at once.
#[inline(always)]
fn windows_like<const W: usize>(s: &[u8], at: usize, size: usize) -> bool
    requires { (W ≤ size) × (size ≤ 2 * W) × (at + size ≤ length s.now) }
    ensures { result ≡ name_like (take size (drop at s.now)) }
{
    let last = at + size - W;
    name_like(&s[at..at + W]) & name_like(&s[last..last + W])
}

// Whether a name's bytes, all of which are there, are a name's.
#[inline(always)]
pub fn good_name(s: &[u8], at: usize, size: usize) -> bool
    requires { (0 < size) × (size ≤ 32) × (at + size ≤ length s.now) }
    ensures { result ≡ name_like (take size (drop at s.now)) }
{
    if 16 <= size {
        return windows_like::<16>(s, at, size);
    }
    if 8 <= size {
        return windows_like::<8>(s, at, size);
    }
    if 4 <= size {
        return windows_like::<4>(s, at, size);
    }
    if 2 <= size {
        return windows_like::<2>(s, at, size);
    }
    windows_like::<1>(s, at, size)
}

// The refusal of a name that runs over the end, or of which no byte is left after it: a byte that no name has comes first.
#[cold]
#[inline(never)]
pub fn cut_name(s: &[u8], at: usize) -> Refusal
    requires { at ≤ length s.now }
    ensures { CutNameIs s.now at result }
{
    if name_like(&s[at..]) {
        Refusal::EndsInsideField
    } else {
        Refusal::OutOfRange
    }
}
