// The check: what contents must be, and an element with all in it.
ghost use Rattle.std.specs.Prelude.{◌≡◌, ◌<◌, ◌&&◌, length, eqb};
ghost use Rattle.octets.specs.Octets.{octet};
ghost use Rattle.der.specs.Element.{elements, contents as contentsOf};
ghost use Rattle.der.specs.Fit.{and_then, held, each};
ghost use Rattle.der.specs.Contents.{integer_ok, boolean_ok, oid_ok, contents_ok};
ghost use Rattle.der.specs.Contract.Reading.{arc_begins};
ghost use Rattle.der.specs.Check.{sorted_in, der, spans as spansOf};

use crate::read::{Run, contents, element_at, encoding, is_constructed, no_element};
use crate::{BOOLEAN, ENUMERATED, Element, Fit, INTEGER, OBJECT_IDENTIFIER, SET};

// INTEGER and ENUMERATED: not empty and shortest.
#[tactic(auto, unfolding(crate::specs::Contents::integer_ok))]
pub fn is_integer(o: &[u8]) -> bool
    ensures { result ≡ integer_ok o.now }
{
    match o {
        [] => false,
        [_] => true,
        [0x00, x, ..] => 128 <= *x,
        [0xFF, x, ..] => *x < 128,
        _ => true,
    }
}

// BOOLEAN: 00 or FF.
#[tactic(auto, unfolding(crate::specs::Contents::boolean_ok, octets::specs::Octets::same))]
fn is_boolean(o: &[u8]) -> bool
    ensures { result ≡ boolean_ok o.now }
{
    matches!(o, [0x00 | 0xFF])
}

// An arc that begins with 80 is not shortest. One begins at the first octet, and after the last octet of another.
fn is_padding(o: &[u8], i: usize) -> bool
    requires { i < length o.now }
    ensures { result ≡ arc_begins o.now i && eqb (octet o.now i) 128 }
{
    o[i] == 128 && (i == 0 || o[i - 1] < 128)
}

// OID: not empty, each arc shortest; an arc's last octet is below 80. From the last octet to the first.
// (A loop: `rev().all(..)` has one law more to prove, that of a chain over places from the last on, and is no plainer.)
pub fn is_oid(o: &[u8]) -> bool
    ensures { result ≡ oid_ok o.now }
{
    if o.len() == 0 {
        return false;
    }
    for i in (0..o.len()).rev() {
        if is_padding(o, i) {
            return false;
        }
    }
    o[o.len() - 1] < 128
}

// What the contents o of a primitive element with this tag must be.
#[tactic(auto, unfolding(crate::specs::Contents::contents_ok))]
fn contents_ok(tag: u8, o: &[u8]) -> bool
    ensures { result ≡ contents_ok tag o.now }
{
    match tag {
        BOOLEAN => is_boolean(o),
        INTEGER | ENUMERATED => is_integer(o),
        OBJECT_IDENTIFIER => is_oid(o),
        _ => true,
    }
}

// What the contents of a primitive element must be; a break is charged to the element.
fn check_contents(s: &[u8], e: Element) -> Fit
    ensures { result ≡ held e.at (contents_ok e.tag (contentsOf s.now e)) }
{
    if contents_ok(e.tag, contents(s, e)) {
        Ok(())
    } else {
        Err(e.at)
    }
}

// In an element with this tag, a SET or not: the member e stands in order after the one before it.
#[tactic(auto, unfolding(crate::specs::Check::sorted_in))]
fn is_sorted(s: &[u8], tag: u8, former: Element, e: Element) -> bool
    ensures { result ≡ sorted_in tag s.now former e }
{
    tag != SET || octets::in_order(encoding(s, former), encoding(s, e))
}

// The element e, and all in it, with this depth left for it.
#[cycle(check_element_check_run)]
pub fn check_element(s: &[u8], e: Element, depth: usize) -> Fit
    ensures { result ≡ der depth s.now e }
{
    if !e.valid {
        return Err(e.at);
    }
    if depth == 0 {
        return Err(e.at);
    }
    if is_constructed(e.tag) {
        return check_run(s, e.tag, e.start, e.stop, depth - 1);
    }
    check_contents(s, e)
}

// The run of elements from start up to stop, inside an element with this tag, fills it; each has this depth left for it, and in a SET stands in order. Before
// the first stands none, and that is in order.
#[cycle(check_element_check_run)]
pub fn check_run(s: &[u8], tag: u8, start: usize, stop: usize, depth: usize) -> Fit
    ensures { result ≡ each
        (λ former e. and_then (der depth s.now e) (held e.at (sorted_in tag s.now former e)))
        (elements s.now start stop) }
{
    let mut former = no_element(start);
    for e in Run::new(s, start, stop) {
        check_element(s, e, depth)?;
        if !is_sorted(s, tag, former, e) {
            return Err(e.at);
        }
        former = e;
    }
    Ok(())
}

// The octets from at up to stop are one element with this depth. Octets after it are charged to the first of them; where there is no octet at all,
// the element at `outer` is charged.
pub fn spans(s: &[u8], at: usize, stop: usize, outer: usize, depth: usize) -> Fit
    ensures { result ≡ spansOf depth s.now at stop outer }
{
    if stop <= at {
        return Err(outer);
    }
    let e = element_at(s, at, stop);
    check_element(s, e, depth)?;
    if e.stop != stop {
        return Err(e.stop);
    }
    Ok(())
}
