// Reading octets into a buffer that is lent. A read that fails ends with its error.
#![tactic(auto)]

ghost use Rattle.std.specs.Prelude.{◌≡◌, ◌<◌, ◌≤◌, true, false, length, take, IfOk};
ghost use Rattle.std.specs.Io.KnownBytes.{Consumes, IsAtEnd};

use std::io;
use std::io::Read;

// Reads until the buffer is full or the input ends. Gives how many octets came.
// A loop, and no plainer form: `read_exact` does not say how many came where the input ends early, and `read_to_end` wants a Vec.
pub fn read_full<R: Read>(input: &mut R, buffer: &mut [u8]) -> io::Result<usize>
    ensures within { IfOk result (λ n. n ≤ length buffer.new) }
    ensures octets { IfOk result (λ n.
        Consumes (R.remaining input.old) (R.remaining input.new) (take n buffer.new)) }
    ensures end { IfOk result (λ n. n < length buffer.old → IsAtEnd (R.remaining input.new)) }
{
    let mut filled = 0;
    while filled < buffer.len() {
        let n = input.read(&mut buffer[filled..])?;
        if n == 0 {
            return Ok(filled);
        }
        filled += n;
    }
    Ok(filled)
}

// Reads n octets into the buffer. Whether there is room for them and the input has them: where there is no room, nothing is read.
// (A bool and no part of the buffer as an Option, which is no plainer: its clauses say of the whole buffer what stands there, also where the answer is no.)
pub fn fill<R: Read>(input: &mut R, buffer: &mut [u8], n: usize) -> io::Result<bool>
    ensures room { IfOk result (λ whole. whole ≡ true → n ≤ length buffer.old) }
    ensures octets { IfOk result (λ whole. whole ≡ true →
        Consumes (R.remaining input.old) (R.remaining input.new) (take n buffer.new)) }
    ensures end { IfOk result (λ whole. whole ≡ false → n ≤ length buffer.old →
        IsAtEnd (R.remaining input.new)) }
    ensures kept { length buffer.old < n → input.new ≡ input.old }
{
    // not `get_mut(..n)`: after it a proof knows the buffer's length alone, and `octets` speaks of what it holds
    if buffer.len() < n {
        return Ok(false);
    }
    let got = read_full(input, &mut buffer[..n])?;
    Ok(got == n)
}
