// The listing program (01, Checked examples): reads a store image from standard input and prints its listing.
#![tactic(auto)]

use std::io;
use std::io::Write;

fn main(rt: HostRuntime) -> io::Result<()> {
    // one octet more than the largest image: whatever is longer is refused as it is
    let mut image = [0u8; 33718];
    let n = reader::read_full(&mut rt.stdin(), &mut image)?;
    let mut text = [0u8; 8192];
    let m = listing::list(&image[..n], &mut text);
    rt.stdout().write_all(&text[..m])
}
