// Numbers as octets, the most significant first.
ghost use Rattle.std.specs.Prelude.{◌≡◌, ◌+◌, ◌<◌, ◌≤◌, ◌^◌, min, length, take, drop};
ghost use Rattle.octets.specs.Octets.{placed};
ghost use Rattle.octets.specs.Number.{number, big_endian, digits};

use crate::strings::slice;

// The number that the octets from place at on write: `width` of them, as many as there are, and 8 at most. (No `from_be_bytes`: the width is a parameter.)
pub fn get_be(s: &[u8], at: usize, width: usize) -> u64
    ensures { (result ≡ number (take (min width 8) (drop at s.now))) × (result < 256 ^ width) }
{
    let part = slice(s, at, at.saturating_add(width.min(8)));
    let mut n = 0;
    for x in part {
        n = n * 256 + u64::from(*x);
    }
    n
}

// Writes the last `width` digits of n to the base 256 into dst from place at on.
pub fn put_be(dst: &mut [u8], at: usize, width: usize, n: u64)
    requires { at + width ≤ length dst.old }
    ensures { dst.new ≡ placed dst.old at (big_endian width n) }
{
    let mut rest = n;
    for j in (0..width).rev() {
        dst[at + j] = (rest % 256) as u8;
        rest /= 256;
    }
}

// How many octets n takes with no zero in front; none for 0.
pub fn digit_count(n: u64) -> usize
    ensures { result ≡ length (digits 256 8 n) }
{
    (u64::BITS - n.leading_zeros()).div_ceil(8) as usize
}
