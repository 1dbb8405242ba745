// Octet strings: compared, a part of one, copied, moved.
ghost use Rattle.std.specs.Prelude.{◌≡◌, ◌+◌, ◌≤◌, length, take, drop};
ghost use Rattle.octets.specs.Octets.{same, ordered, slice as slice_of, placed};

// Two octet strings are equal. From the last octet to the first: keys and OIDs begin alike and differ in their last octets, so a difference is found at once.
// A loop and not `a == b`, which begins at the first octet: with it update-16-32-anchors (bench/instructions.sh) takes 4.7 % more instructions (the bar is 4 %: docs/DESIGN-PASS.md).
pub fn equal(a: &[u8], b: &[u8]) -> bool
    ensures { result ≡ same a.now b.now }
{
    if a.len() != b.len() {
        return false;
    }
    for i in (0..a.len()).rev() {
        if a[i] != b[i] {
            return false;
        }
    }
    true
}

// The order of a SET OF (X.690, 11.6): a does not stand after b.
pub fn in_order(a: &[u8], b: &[u8]) -> bool
    ensures { result ≡ ordered a.now b.now }
{
    a.cmp(&b).is_le()
}

// The octets from place a up to place e, as a part of the caller's slice; none where there are none.
pub fn slice(s: &[u8], a: usize, e: usize) -> &[u8]
    ensures { result.now ≡ slice_of s.now a e }
{
    let e = e.min(s.len());
    let a = a.min(e);
    &s[a..e]
}

// Writes src into dst from place at on.
// A loop and not `copy_from_slice`, which calls memmove: the library asks its C host for memcpy and memset alone (docs/SPEED.md), and with it
// query-32-long-anchors takes 8 % more instructions (the bar is 4 %).
pub fn copy_to(dst: &mut [u8], at: usize, src: &[u8])
    requires { at + length src.now ≤ length dst.old }
    ensures { dst.new ≡ placed dst.old at src.now }
{
    for (i, x) in src.iter().enumerate() {
        dst[at + i] = *x;
    }
}

// Moves n octets of d from one place to another.
pub fn shift(d: &mut [u8], from: usize, to: usize, n: usize)
    requires { (from + n ≤ length d.old) × (to + n ≤ length d.old) }
    ensures { d.new ≡ placed d.old to (take n (drop from d.old)) }
{
    d.copy_within(from..from + n, to);
}
