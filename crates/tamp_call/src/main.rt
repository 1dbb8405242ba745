// Reads calls from standard input until it ends and prints the answer to each: five 4-octet big-endian numbers (message length, image length, verdict length,
// reply room, next store room), then the message, the image and the verdict.
#![tactic(auto)]

use std::io;
use std::io::{Read, Write};

// So many octets are printed at a time, each as two digits.
const CHUNK: usize = 2048;

// Octets in hex. (By `hex_text`, which is proved to write these digits, a piece at a time: a `write!` of each octet would be a call of the system for each.)
fn print_octets<W: Write>(out: &mut W, o: &[u8]) -> io::Result<()> {
    let mut text = [0u8; 2 * CHUNK];
    for part in o.chunks(CHUNK) {
        let n = listing::hex_text(&mut text, part);
        out.write_all(&text[..n])?;
    }
    Ok(())
}

// A line of a word, a blank at its end, and octets in hex, - where there are none. (No `{word} `, which is two calls of the system.)
fn print_line<W: Write>(out: &mut W, word: &str, o: &[u8]) -> io::Result<()> {
    out.write_all(word.as_bytes())?;
    if o.is_empty() {
        write!(out, "-")?;
    }
    print_octets(out, o)?;
    writeln!(out)
}

fn print_call<W: Write>(
    out: &mut W,
    message: &[u8],
    image: &[u8],
    verdict: &[u8],
    reply: &mut [u8],
    next: &mut [u8],
) -> io::Result<()> {
    let r = tamp::tamp_call(message, image, verdict, reply, next);
    writeln!(out, "status {}", r.number)?;
    writeln!(out, "offset {}", r.offset)?;
    print_line(out, "reply ", octets::slice(reply, 0, r.reply_len as usize))?;
    print_line(out, "store ", octets::slice(next, 0, r.next_len as usize))
}

// (The answer of this and of the next two is whether to go on: a bool, and an enum of two says no more.)
fn bad_call<W: Write>(out: &mut W) -> io::Result<bool> {
    writeln!(out, "bad call")?;
    Ok(false)
}

// The number at a place of a call's head.
fn number(head: &[u8; 20], at: usize) -> usize {
    octets::get_be(head, at, 4) as usize
}

// The call after its head.
fn call<R: Read, W: Write>(input: &mut R, out: &mut W, head: &[u8; 20]) -> io::Result<bool> {
    let mut message = [0u8; 16384];
    let mut image = [0u8; 131072];
    let mut verdict = [0u8; 255];
    let mut reply = [0u8; 131072];
    let mut next = [0u8; 131072];
    let m = number(head, 0);
    let n = number(head, 4);
    let v = number(head, 8);
    if !reader::fill(input, &mut message, m)? {
        return bad_call(out);
    }
    if !reader::fill(input, &mut image, n)? {
        return bad_call(out);
    }
    if !reader::fill(input, &mut verdict, v)? {
        return bad_call(out);
    }
    let Some(reply) = reply.get_mut(..number(head, 12)) else {
        return bad_call(out);
    };
    let Some(next) = next.get_mut(..number(head, 16)) else {
        return bad_call(out);
    };
    // by `octets::slice`: with `&message[..m]` the goal `slice_bounds-print_call-end` stays open
    print_call(
        out,
        octets::slice(&message, 0, m),
        octets::slice(&image, 0, n),
        octets::slice(&verdict, 0, v),
        reply,
        next,
    )?;
    Ok(true)
}

// Reads a call and prints its answer; whether to go on.
fn next<R: Read, W: Write>(input: &mut R, out: &mut W) -> io::Result<bool> {
    let mut head = [0u8; 20];
    let got = reader::read_full(input, &mut head)?;
    if got == 0 {
        return Ok(false);
    }
    if got != 20 {
        return bad_call(out);
    }
    call(input, out, &head)
}

// A proved loop has to end, and nothing says that the input does: it counts its turns up to a number that no run uses up.
// (tamp_read has the same loop. A shared one would take its step as a closure over input and output, and be no shorter.)
fn main(rt: HostRuntime) -> io::Result<()> {
    let mut input = rt.stdin();
    let mut out = rt.stdout();
    for _ in 0..u64::MAX {
        if !next(&mut input, &mut out)? {
            break;
        }
    }
    Ok(())
}
