// Copies of bytes.
ghost use Rattle.std.specs.Prelude.{◌++◌, ◌≡◌, ◌+◌, ◌≤◌, length, take, drop};
ghost use Rattle.expression.specs.Places.{Between};
ghost use Rattle.byte_writer.specs.Writing.{Room, PutsAt, same};

// Copies n bytes to the start of `out`.
pub fn copy_bytes(out: &mut [u8], src: &[u8], from: usize, n: usize)
    requires src_has_bytes { from + n ≤ length src.now }
    requires out_has_room { n ≤ length out.old }
    ensures { out.new ≡ take n (drop from src.now) ++ drop n out.old }
{
    for i in 0..n {
        out[i] = src[from + i];
    }
}

// Copies all bytes of `src` over `out`, which is as long.
#[inline]
pub fn copy_over(out: &mut [u8], src: &[u8])
    requires { length out.old ≡ length src.now }
    ensures { out.new ≡ src.now }
{
    copy_bytes(out, src, 0, src.len());
}

// The same where the two may be seen to lie apart, as a row of the caller's own and what it is lent. Never inlined: where a compiler sees
// that, it makes of the loop a call of C's memcpy or memmove, a name that the library would need from its host.
#[inline(never)]
pub fn copy_apart(out: &mut [u8], src: &[u8])
    requires { length out.old ≡ length src.now }
    ensures { out.new ≡ src.now }
{
    copy_over(out, src);
}

// Copies the bytes from one place up to another to `out` from w on; answers where they end.
pub fn copy_at(out: &mut [u8], w: usize, src: &[u8], at: usize, end: usize) -> usize
    requires { Room (Between src.now at end) same w out.old }
    ensures { PutsAt (Between src.now at end) same w out.old out.new result }
{
    let n = end - at;
    copy_bytes(&mut out[w..], src, at, n);
    w + n
}
