// Reads messages from standard input, each after its length (4 octets, big-endian), and prints what depends on the message alone: the status and the offset
// of a refusal by the rows up to 127, or what the message asks: its type, the signer's key identifier, its number, and how many entries an Update has.
#![tactic(auto)]

use envelope::Refusal;
use message::Request;
use std::io;
use std::io::{Read, Write};
use syntax::TampType;

// The name of a message's type (RFC 5934, id-ct-TAMP-..). (No `Display`, which would be a promise of syntax for this one line.)
fn type_name(kind: TampType) -> &'static str {
    match kind {
        TampType::StatusQuery => "statusQuery",
        TampType::Update => "update",
        TampType::CommunityUpdate => "communityUpdate",
        TampType::SeqNumAdjust => "seqNumAdjust",
    }
}

const DIGITS: &[u8; 16] = b"0123456789ABCDEF";

// Octets in hex. (No `{x:02X}`: it writes the zero of an octet below 10 by a call of the system of its own.)
fn print_octets<W: Write>(out: &mut W, o: &[u8]) -> io::Result<()> {
    for x in o {
        let pair = [DIGITS[usize::from(*x / 16)], DIGITS[usize::from(*x % 16)]];
        out.write_all(&pair)?;
    }
    Ok(())
}

fn print_refusal<W: Write>(out: &mut W, r: Refusal) -> io::Result<()> {
    writeln!(out, "status {} offset {}", r.status.number, r.offset)
}

fn print_request<W: Write>(out: &mut W, s: &[u8], q: Request) -> io::Result<()> {
    write!(out, "{} signer ", type_name(q.kind))?;
    print_octets(out, message::key_identifier(s, q))?;
    write!(out, " number {}", q.number)?;
    if let TampType::Update = q.kind {
        write!(out, " entries {}", message::entry_count(s, q.updates))?;
    }
    writeln!(out)
}

fn print_message<W: Write>(out: &mut W, s: &[u8]) -> io::Result<()> {
    match message::receive(s) {
        Ok(q) => print_request(out, s, q),
        Err(r) => print_refusal(out, r),
    }
}

// (This and `next` are as in tamp_call, with another head and another body: one for both would take both as closures over input and output.)
fn bad_input<W: Write>(out: &mut W) -> io::Result<bool> {
    writeln!(out, "bad input")?;
    Ok(false)
}

// Reads a message, its length in front of it, and prints what is found; whether to go on. A call takes no message over 8,192 octets.
fn next<R: Read, W: Write>(input: &mut R, out: &mut W) -> io::Result<bool> {
    let mut size = [0u8; 4];
    let got = reader::read_full(input, &mut size)?;
    if got == 0 {
        return Ok(false);
    }
    if got != 4 {
        return bad_input(out);
    }
    let n = u32::from_be_bytes(size) as usize;
    let mut buffer = [0u8; 8192];
    if !reader::fill(input, &mut buffer, n)? {
        return bad_input(out);
    }
    print_message(out, &buffer[..n])?;
    Ok(true)
}

// A proved loop has to end, and nothing says that the input does: it counts its turns up to a number that no run uses up.
fn main(rt: HostRuntime) -> io::Result<()> {
    let mut input = rt.stdin();
    let mut out = rt.stdout();
    for _ in 0..u64::MAX {
        if !next(&mut input, &mut out)? {
            break;
        }
    }
    Ok(())
}
