// Reading: the element at a place of a window, by its header, and its parts.
ghost use Rattle.std.specs.Prelude.{◌≡◌, ◌+◌, ◌≤◌, List, length};
ghost use Rattle.std.specs.Iterator.{item_count};
ghost use Rattle.std.specs.Map.Iter.{TakesFirst};
ghost use Rattle.der.specs.declared.Element.{Element};
ghost use Rattle.der.specs.Element.{absent, length_at, length_shortest, contents_at, element_at, root, elements, inside, encoding as encodingOf, contents as contentsOf, constructed};
ghost use Rattle.der.specs.Contract.Reading.{length_in, next_at};

use crate::Element;
use std::marker::Model;

// No element: what stands where a header breaks a rule.
pub fn no_element(at: usize) -> Element
    ensures { result ≡ absent at }
{
    Element {
        valid: false,
        tag: 0,
        at: at,
        start: at,
        stop: at,
    }
}

// X.690, 8.1.3: every length octet is a digit of the length, to the base 256, but a first one of 128 or more:
// that one says how many length octets stand after it.
fn length_at(s: &[u8], at: usize, stop: usize) -> Option<(usize, usize)>
    requires { (at + 2 ≤ stop) × (stop ≤ length s.now) }
    ensures { result ≡ length_in s.now at stop }
{
    let mut start = at + 2;
    let mut n = 0;
    let mut i = at + 1;
    let mut later = false;
    // a `while`, since a `for` is no plainer: where the length octets end is known once the first of them is read
    while i < start {
        let x = usize::from(s[i]);
        if later || x < 128 {
            // one digit more, and the length would pass the window's end: so it never wraps
            if (stop - start) / 256 < n {
                return None;
            }
            n = n * 256 + x;
        } else {
            if stop - start < x - 128 {
                return None;
            }
            start += x - 128;
        }
        i += 1;
        later = true;
    }
    if stop - start < n {
        return None;
    }
    Some((start, n))
}

// The length n is written in the shortest way: 81 7F is wrong, 81 80 right.
fn is_shortest(s: &[u8], at: usize, n: usize) -> bool
    requires { (contents_at s.now at ≤ length s.now) × (n ≡ length_at s.now at) }
    ensures { result ≡ length_shortest s.now at }
{
    let first = s[at + 1];
    if first < 128 {
        return true;
    }
    if first == 128 {
        return false;
    }
    if s[at + 2] == 0 {
        return false;
    }
    128 <= n
}

// The element at a place of the window that ends at stop.
pub fn element_at(s: &[u8], at: usize, stop: usize) -> Element
    ensures { result ≡ element_at s.now at stop }
{
    if s.len() < stop {
        return no_element(at);
    }
    if stop < at {
        return no_element(at);
    }
    if stop - at < 2 {
        return no_element(at);
    }
    let tag = s[at];
    if tag % 32 == 31 {
        return no_element(at);
    }
    let Some((start, n)) = length_at(s, at, stop) else {
        return no_element(at);
    };
    if !is_shortest(s, at, n) {
        return no_element(at);
    }
    Element {
        valid: true,
        tag: tag,
        at: at,
        start: start,
        stop: start + n,
    }
}

// The element that octets by themselves are.
pub fn root(s: &[u8]) -> Element
    ensures { result ≡ root s.now }
{
    element_at(s, 0, s.len())
}

// Where a run goes on after e: nothing is read after a header that breaks a rule.
fn next(e: Element, stop: usize) -> usize
    ensures { result ≡ next_at e stop }
{
    if e.valid {
        return e.stop;
    }
    stop
}

// The elements of a run, one after the other; one whose header breaks a rule is the last. A clause sees those that are left.
#[derive(Drop)]
pub struct Run<'a> {
    octets: &'a [u8],
    at: usize,
    stop: usize,
}

impl<'a> Run<'a> {
    // From a place up to another.
    pub fn new(s: &'a [u8], at: usize, stop: usize) -> Run<'a>
        ensures { result ≡ elements s.now at stop }
    {
        Run {
            octets: s,
            at,
            stop,
        }
    }

    // Inside an element.
    pub fn inside(s: &'a [u8], e: Element) -> Run<'a>
        ensures { result ≡ inside s.now e }
    {
        Run::new(s, e.start, e.stop)
    }
}

impl<'a> Model for Run<'a> {
    ghost Value = { List Element };

    ghost view = { λ run. elements run.octets.now run.at run.stop };
}

impl<'a> Iterator for Run<'a> {
    type Item = Element;

    ghost next_gives = { TakesFirst (λ (e : Element). e) };

    ghost remaining = { item_count (λ left. left) };

    fn next(&mut self) -> Option<Element> {
        if self.stop <= self.at {
            return None;
        }
        let e = element_at(self.octets, self.at, self.stop);
        self.at = next(e, self.stop);
        Some(e)
    }
}

// An element's contents, and all of it, as parts of the caller's slice.
pub fn contents(s: &[u8], e: Element) -> &[u8]
    ensures { result.now ≡ contentsOf s.now e }
{
    octets::slice(s, e.start, e.stop)
}

pub fn encoding(s: &[u8], e: Element) -> &[u8]
    ensures { result.now ≡ encodingOf s.now e }
{
    octets::slice(s, e.at, e.stop)
}

pub fn is_constructed(tag: u8) -> bool
    ensures { result ≡ constructed tag }
{
    tag / 32 % 2 == 1
}
