// The walk over the parts of an image that stand one after the other: its records, and its names. A clause sees the list of those that are left.
// (Two types and no generic one: they differ in what ends a part and in what of it is given, not in a type or a constant, and a trait for the two is longer.)
ghost use Rattle.std.specs.Prelude.{◌≡◌, ℕ, List, drop};
ghost use Rattle.std.specs.Iterator.{YieldsFirstRef, item_count};
ghost use Rattle.store.specs.Records.{records_from, records_of};
ghost use Rattle.store.specs.Contract.Parts.{names_from, communities_of};

use std::marker::Model;

// So many records at the head of octets.
#[derive(Drop)]
pub struct Records<'a> {
    rest: &'a [u8],
    left: usize,
}

impl<'a> Records<'a> {
    // The n records from place p on. (Octets, place and count are what an iterator is made of: a struct of them would be one more.)
    pub fn new(s: &'a [u8], p: usize, n: usize) -> Records<'a>
        ensures { result ≡ records_from n (drop p s.now) }
    {
        let rest = crate::after(s, p);
        Records { rest, left: n }
    }

    // All of an image.
    pub fn of(image: &'a [u8]) -> Records<'a>
        ensures { result ≡ records_of image.now }
    {
        Records::new(
            image,
            crate::first_record(image),
            crate::anchor_count(image),
        )
    }
}

impl<'a> Model for Records<'a> {
    ghost Value = { List (List ℕ) };

    ghost view = { λ it. records_from it.left it.rest.now };
}

impl<'a> Iterator for Records<'a> {
    type Item = &'a [u8];

    ghost next_gives = { YieldsFirstRef (λ left. left) };

    ghost remaining = { item_count (λ left. left) };

    fn next(&mut self) -> Option<&'a [u8]> {
        if self.left == 0 {
            return None;
        }
        let (record, rest) = self.rest.split_at(crate::record_end(self.rest, 0));
        self.rest = rest;
        self.left -= 1;
        Some(record)
    }
}

// So many names at the head of octets.
#[derive(Drop)]
pub struct Names<'a> {
    rest: &'a [u8],
    left: usize,
}

impl<'a> Names<'a> {
    // The n names from place p on.
    pub fn new(s: &'a [u8], p: usize, n: usize) -> Names<'a>
        ensures { result ≡ names_from n (drop p s.now) }
    {
        let rest = crate::after(s, p);
        Names { rest, left: n }
    }

    // The communities of an image.
    pub fn of(image: &'a [u8]) -> Names<'a>
        ensures { result ≡ communities_of image.now }
    {
        Names::new(
            crate::community_octets(image),
            0,
            crate::community_count(image),
        )
    }
}

impl<'a> Model for Names<'a> {
    ghost Value = { List (List ℕ) };

    ghost view = { λ it. names_from it.left it.rest.now };
}

impl<'a> Iterator for Names<'a> {
    type Item = &'a [u8];

    ghost next_gives = { YieldsFirstRef (λ left. left) };

    ghost remaining = { item_count (λ left. left) };

    fn next(&mut self) -> Option<&'a [u8]> {
        if self.left == 0 {
            return None;
        }
        let (name, rest) = self.rest.split_at(crate::name_end(self.rest, 0));
        self.rest = rest;
        self.left -= 1;
        Some(crate::after(name, 1))
    }
}
