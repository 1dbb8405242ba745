// Writing a header, and an INTEGER. (Buffer and place as they are, and no struct: these are functions that the thin append calls of 01's writer stand on.)
ghost use Rattle.std.specs.Prelude.{◌≡◌, ◌+◌, ◌≤◌, length};
ghost use Rattle.octets.specs.Octets.{placed};
ghost use Rattle.der.specs.Write.{length_octets, header, integer_contents, integer};

// How many octets the header of n octets of contents takes.
pub fn header_size(n: usize) -> usize
    ensures { result ≡ length (length_octets n) + 1 }
{
    if n < 128 {
        return 2;
    }
    octets::digit_count(n as u64) + 2
}

// Writes the length octets of n octets of contents; gives the place after them.
fn put_length(buf: &mut [u8], at: usize, n: usize) -> usize
    requires { at + length (length_octets n) ≤ length buf.old }
    ensures { (result ≡ at + length (length_octets n)) × (buf.new ≡ placed buf.old at (length_octets n)) }
{
    if n < 128 {
        buf[at] = n as u8;
        return at + 1;
    }
    let k = octets::digit_count(n as u64);
    buf[at] = (128 + k) as u8;
    octets::put_be(buf, at + 1, k, n as u64);
    at + 1 + k
}

// Writes the header of n octets of contents; gives the place after it.
pub fn put_header(buf: &mut [u8], at: usize, tag: u8, n: usize) -> usize
    requires { at + length (header tag n) ≤ length buf.old }
    ensures { (result ≡ at + length (header tag n)) × (buf.new ≡ placed buf.old at (header tag n)) }
{
    buf[at] = tag;
    put_length(buf, at + 1, n)
}

// How many octets the contents of the INTEGER n take.
pub fn integer_size(n: u64) -> usize
    ensures { (result ≡ length (integer_contents n)) × (result ≤ 9) }
{
    octets::digit_count(n / 128) + 1
}

// Writes the INTEGER n; gives the place after it.
pub fn put_integer(buf: &mut [u8], at: usize, n: u64) -> usize
    requires { at + length (integer n) ≤ length buf.old }
    ensures { (result ≡ at + length (integer n)) × (buf.new ≡ placed buf.old at (integer n)) }
{
    let k = integer_size(n);
    let p = put_header(buf, at, super::INTEGER, k);
    octets::put_be(buf, p, k, n);
    p + k
}
