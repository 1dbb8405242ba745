// Runs cases about rights from standard input and prints an answer for each: within or not, authorised or not. tools/rights_cases.py has the format.
#![tactic(auto)]

ghost use Rattle.std.specs.Prelude.{◌≡◌, ◌<◌, ◌≤◌, length, drop, IsSome};
ghost use Rattle.octets.specs.Octets.{slice};
ghost use Rattle.rights.specs.Rights.{authorises};
ghost use Rattle.rights.specs.Decision.{within};
ghost use Rattle.anchor.specs.Info.{rights_of};
ghost use Rattle.rights_cases.specs.Contract.Cases.{rights_if, content_role, anchor_rights, role_of, content_in, frame_end};

use std::io;
use std::io::Write;

// An anchor of a case.
#[derive(Clone, Copy)]
enum Anchor<'a> {
    Apex,
    // another, by its TrustAnchorInfo
    Other(&'a [u8]),
}

impl<'a> Anchor<'a> {
    // By the case's octet that says whether it is the apex. (A flag beside octets, as a case has them.)
    fn new(apex: u8, t: &'a [u8]) -> Anchor<'a>
        ensures { anchor_rights result ≡ rights_if apex t.now }
    {
        if apex == 1 {
            return Anchor::Apex;
        }
        Anchor::Other(t)
    }
}

// In what role an anchor is asked for a content.
#[derive(Clone, Copy)]
enum Role {
    Source,
    Carrier,
}

impl Role {
    // By the case's octet. (No `From<u8>`: an octet is a role in this place of a case alone.)
    fn new(role: u8) -> Role
        ensures { role_of result ≡ content_role role }
    {
        if role == 1 {
            return Role::Carrier;
        }
        Role::Source
    }
}

// Whether the new anchor is within the signer.
fn is_within(signer: Anchor, new: &[u8]) -> bool
    ensures { result ≡ within (anchor_rights signer.entry) (rights_of new.now) }
{
    match signer {
        Anchor::Apex => true,
        Anchor::Other(t) => {
            rights::is_within(anchor::constraints_value(t), anchor::constraints_value(new))
        }
    }
}

// Whether the anchor authorises the content.
fn is_authorised(asked: Anchor, role: Role, key: &[u8], attributes: &[u8]) -> bool
    ensures { result ≡ authorises (anchor_rights asked.entry) (content_in (role_of role) key.now attributes.now) }
{
    let Anchor::Other(t) = asked else {
        return true;
    };
    let own = anchor::constraints_value(t);
    let e = der::root(attributes);
    match role {
        Role::Source => rights::authorises(own, key, attributes, e),
        Role::Carrier => rights::carries(own, key, attributes, e),
    }
}

// Where the frame at the head of octets ends.
fn frame_end(s: &[u8]) -> usize
    ensures { result ≡ frame_end s.now 0 }
{
    let n = octets::get_be(s, 0, 2) as usize;
    s.len().min(2 + n)
}

// The cases that are left.
#[derive(Drop)]
struct Cases<'a> {
    left: &'a [u8],
}

impl<'a> Cases<'a> {
    // The octets of the frame at the head, which the input's end may cut off.
    fn frame(&mut self) -> &'a [u8]
        ensures octets { result.now ≡ slice self.old.left.now 2 (frame_end self.old.left.now 0) }
        ensures behind { self.new.left.now ≡ drop (frame_end self.old.left.now 0) self.old.left.now }
    {
        let s = self.left;
        let end = frame_end(s);
        self.left = &s[end..];
        octets::slice(s, 2, end)
    }

    // The answer to the case W, behind its first two octets. (Each answer is a whole line: it is written by one call of the system.)
    fn within(&mut self, apex: u8) -> &'static str
        ensures { length self.new.left.now ≤ length self.old.left.now }
    {
        let signer = Anchor::new(apex, self.frame());
        let new = self.frame();
        if is_within(signer, new) {
            "within\n"
        } else {
            "not\n"
        }
    }

    // The answer to the case A, behind its first three octets.
    fn authorised(&mut self, apex: u8, role: u8) -> &'static str
        ensures { length self.new.left.now ≤ length self.old.left.now }
    {
        let asked = Anchor::new(apex, self.frame());
        let key = self.frame();
        let attributes = self.frame();
        if is_authorised(asked, Role::new(role), key, attributes) {
            "authorised\n"
        } else {
            "not\n"
        }
    }

    // The answer to the next case, if there is one.
    fn answer(&mut self) -> Option<&'static str>
        ensures given { 3 ≤ length self.old.left.now → IsSome result }
        ensures less { IsSome result → length self.new.left.now < length self.old.left.now }
    {
        let s = self.left;
        if s.len() < 3 {
            return None;
        }
        if s[0] == b'W' {
            self.left = &s[2..];
            return Some(self.within(s[1]));
        }
        self.left = &s[3..];
        Some(self.authorised(s[1], s[2]))
    }
}

fn main(rt: HostRuntime) -> io::Result<()> {
    let mut input = [0u8; 65536];
    let n = reader::read_full(&mut rt.stdin(), &mut input)?;
    let mut cases = Cases { left: &input[..n] };
    let mut out = rt.stdout();
    while let Some(answer) = cases.answer() {
        out.write_all(answer.as_bytes())?;
    }
    Ok(())
}
