// Repeats: whether two members of lists have the same key. The members' places are sorted by key, so that a search of twelve steps leads from a key to the
// member that has it. Nothing is claimed of that order: a key that leads to its own member, after all that those before it led to, is new, whatever the
// order is, since equal keys lead to one place. From the first key on that does not, members are compared.
#![tactic(auto)]

ghost use Rattle.std.specs.Prelude.{◌≡◌, true, false, ◌&&◌, ◌++◌, ◌+◌, ◌<◌, ◌≤◌, length, get_or, eqb};
ghost use Rattle.octets.specs.Octets.{member, distinct};
ghost use Rattle.der.specs.Element.{inside};
ghost use Rattle.der.specs.Keys.{key_of, keys_from, keys_in};
ghost use Rattle.repeats.specs.Contract.Keys.{first_repeat, is_at};
ghost use Rattle.repeats.specs.Contract.Order.{octets_in, are_few, cells, key_at, precedes, find as findOf, leads, keys, Below};

use der::{Compared, Element, Run};

// Members in no more octets are few.
const FEW_OCTETS: usize = 128;

// A message has room for no more members, at two octets each.
const CELLS: usize = 4096;

// The members' places in the order of their keys, from the second cell on, and 0 after them; with the octets in which they stand, and what their keys are.
#[derive(Clone, Copy)]
struct Sorted<'a> {
    order: &'a [u16],
    octets: &'a [u8],
    by: Compared,
}

impl<'a> Sorted<'a> {
    // What stands in a cell, 0 after the end.
    fn cell(&self, i: usize) -> usize
        ensures { result ≡ get_or self.now.order.now i 0 }
    {
        self.order.get(i).map_or(0, |place| usize::from(*place))
    }

    fn key(&self, e: Element) -> &'a [u8]
        ensures { result.now ≡ key_of self.now.by self.now.octets.now e }
    {
        der::key(self.octets, e, self.by)
    }

    // The key of the member at a place. Inlined, a long list takes a tenth fewer instructions.
    #[inline]
    fn key_at(&self, place: usize) -> &'a [u8]
        ensures { result.now ≡ key_at self.now.by self.now.octets.now place }
    {
        self.key(der::element_at(self.octets, place, self.octets.len()))
    }

    // A cell has a member, whose key stands before k.
    fn is_before(&self, k: &[u8], i: usize) -> bool
        ensures { result ≡ precedes self.now k.now i }
    {
        let place = self.cell(i);
        place != 0 && !octets::in_order(k, self.key_at(place))
    }

    // How many keys stand before k, digit by digit to the base 2. The library's `partition_point`
    // would be no plainer: it promises one answer for equal keys in a sorted list alone.
    fn find(&self, k: &[u8]) -> usize
        ensures { (result ≡ findOf (precedes self.now k.now) 12 2048 0) × (result ≤ 4096) }
    {
        let mut low = 0;
        let mut weight = 2048;
        for _digit in 0..12u32 {
            if self.is_before(k, low + weight) {
                low += weight;
            }
            weight /= 2;
        }
        low
    }

    // The place that a key leads to.
    fn led_to(&self, k: &[u8]) -> usize
        ensures { result ≡ leads self.now k.now }
    {
        self.cell(self.find(k) + 1)
    }

    // Whether each member of the list leads to a place before this one.
    fn is_below(&self, list: Element, place: usize) -> bool
        ensures { result ≡ true → Below (leads self.now) place (keys self.now list) }
    {
        Run::inside(self.octets, list).all(|e| self.led_to(self.key(e)) < place)
    }

    // Whether keys lead each to its own place, up to k, which is the key of the member at a place.
    fn is_led(&self, k: &[u8], place: usize, led: bool) -> bool
        ensures { result ≡ led && eqb (leads self.now k.now) place }
    {
        led && self.led_to(k) == place
    }

    // Whether a member of `head`, or one of the list before `at`, has the key k: not where it is new.
    fn is_seen(&self, head: Element, list: Element, at: usize, k: &[u8], new: bool) -> bool
        requires { new ≡ true → member k.now (keys self.now head ++ keys_from self.now.by self.now.octets.now list.start at) ≡ false }
        ensures { result ≡ member k.now (keys self.now head ++ keys_from self.now.by self.now.octets.now list.start at) }
    {
        !new && (der::occurs(self.octets, head.start, head.stop, self.by, k)
            || der::occurs(self.octets, list.start, at, self.by, k))
    }

    // The first member of the list whose key a member of `head`, or one before it, has. As long as keys lead each to its own place, they are not compared.
    fn search(&self, head: Element, list: Element, below: bool) -> Option<usize>
        requires { below ≡ true → Below (leads self.now) list.start (keys self.now head) }
        ensures { result ≡ first_repeat self.now.by self.now.octets.now (keys self.now head) (inside self.now.octets.now list) }
    {
        let mut led = below;
        for e in Run::inside(self.octets, list) {
            let k = self.key(e);
            led = self.is_led(k, e.at, led);
            if self.is_seen(head, list, e.at, k, led) {
                return Some(e.at);
            }
        }
        None
    }
}

// Inserts the place of a member, after n others, unless its key is there already. (No method of Sorted, which lends the order that changes here.)
fn insert(order: &mut [u16], s: &[u8], e: Element, by: Compared, n: usize) -> bool
    requires { (length order.old ≡ cells) × (n + 1 < cells) }
    ensures { length order.new ≡ cells }
{
    let Ok(at) = u16::try_from(e.at) else {
        return false;
    };
    let k = der::key(s, e, by);
    let sorted = Sorted {
        order,
        octets: s,
        by,
    };
    let p = sorted.find(k) + 1;
    if n + 1 < p {
        return false;
    }
    let place = sorted.cell(p);
    if place != 0 && octets::equal(k, sorted.key_at(place)) {
        return false;
    }
    order.copy_within(p..n + 1, p + 1);
    order[p] = at;
    true
}

// Inserts the members of a list after n others, up to one whose key is there already. Gives how many are there.
fn insert_all(order: &mut [u16], s: &[u8], list: Element, by: Compared, n: usize) -> usize
    requires { length order.old ≡ cells }
    ensures { length order.new ≡ cells }
{
    // counted by hand: the count is the answer, also where the walk ends early
    let mut k = n;
    for e in Run::inside(s, list) {
        if CELLS - 1 <= k || !insert(order, s, e, by, k) {
            return k;
        }
        k += 1;
    }
    k
}

fn octets_in(e: Element) -> usize
    ensures { result ≡ octets_in e }
{
    e.stop.saturating_sub(e.start)
}

// Few members, which are compared.
fn are_few(head: Element, list: Element) -> bool
    ensures { result ≡ are_few head list }
{
    let n = octets_in(list);
    n == 0 || (n <= FEW_OCTETS && octets_in(head) <= FEW_OCTETS)
}

// The first member of the list whose key a member of `head`, or one before it in the list, has.
pub fn first_repeat(s: &[u8], head: Element, list: Element, by: Compared) -> Option<usize>
    ensures { result ≡ first_repeat by s.now (keys_in by s.now head) (inside s.now list) }
{
    if are_few(head, list) {
        let none = Sorted {
            order: &[],
            octets: s,
            by,
        };
        return none.search(head, list, false);
    }
    let mut order = [0; CELLS];
    let n = insert_all(&mut order, s, head, by, 0);
    insert_all(&mut order, s, list, by, n);
    let sorted = Sorted {
        order: &order,
        octets: s,
        by,
    };
    sorted.search(head, list, sorted.is_below(head, list.start))
}

// Whether that is the member at a place.
pub fn is_at(first: Option<usize>, place: usize) -> bool
    ensures { result ≡ is_at first place }
{
    first == Some(place)
}

// No two members of the two lists have equal keys.
pub fn are_distinct(s: &[u8], list: Element, other: Element, by: Compared) -> bool
    ensures { result ≡ distinct (keys_in by s.now list ++ keys_in by s.now other) }
{
    let none = der::no_element(0);
    first_repeat(s, none, list, by).is_none() && first_repeat(s, list, other, by).is_none()
}

// No two members of the list have equal keys.
pub fn is_distinct(s: &[u8], list: Element, by: Compared) -> bool
    ensures { result ≡ distinct (keys_in by s.now list) }
{
    are_distinct(s, list, der::no_element(0), by)
}
