// Edits on a scratch image: a lent buffer that holds an image in its first `len` octets, with free room after it.
// The buffer and the length stay two parameters: README and docs/DECISIONS.md name these functions, two of the three take both, and no clause asks what stands there.
#![tactic(auto)]

ghost use Rattle.std.specs.Prelude.{◌≡◌, ◌++◌, ◌+◌, ◌<◌, ◌≤◌, length, take, drop};
ghost use Rattle.octets.specs.Octets.{placed};
ghost use Rattle.store.specs.Image.{encode_number};
ghost use Rattle.edit.specs.Contract.Edits.{replaced, recounted};

// Replaces the n octets from place `at` on by those of `head` and `body`: what follows them moves. Gives the image's new length.
pub fn replace(buf: &mut [u8], len: usize, at: usize, n: usize, head: &[u8], body: &[u8]) -> usize
    requires { (at + n ≤ len) × (len ≤ length buf.old) × (len + (length head.now + length body.now) ≤ length buf.old + n) }
    ensures { (result ≡ length (replaced (take len buf.old) at n (head.now ++ body.now)))
        × (buf.new ≡ placed buf.old 0 (replaced (take len buf.old) at n (head.now ++ body.now))) }
{
    let from = at + n;
    let mid = at + head.len();
    let to = mid + body.len();
    let rest = len - from;
    octets::shift(buf, from, to, rest);
    octets::copy_to(buf, at, head);
    octets::copy_to(buf, mid, body);
    to + rest
}

// The same for items of the section whose count stands at place `count`: their number is then `items`.
pub fn replace_items(
    buf: &mut [u8],
    len: usize,
    count: usize,
    items: u8,
    at: usize,
    n: usize,
    head: &[u8],
    body: &[u8],
) -> usize
    requires { (count < at) × (at + n ≤ len) × (len ≤ length buf.old) × (len + (length head.now + length body.now) ≤ length buf.old + n) }
    ensures { (result ≡ length (recounted (take len buf.old) count items at n (head.now ++ body.now)))
        × (buf.new ≡ placed buf.old 0 (recounted (take len buf.old) count items at n (head.now ++ body.now))) }
{
    buf[count] = items;
    replace(buf, len, at, n, head, body)
}

// Writes number present and the number n at a record's place, over those that stand there.
pub fn set_number(buf: &mut [u8], at: usize, n: u64)
    requires { at + 9 ≤ length buf.old }
    ensures { buf.new ≡ placed buf.old at (encode_number (Some n)) }
{
    buf[at] = 1;
    octets::put_be(buf, at + 1, 8, n);
}
