// DER and a form at once. Where a break's place is not asked for, one walk reads each element once for both: a window's elements are DER, each with this depth
// left for it, and the window is as a row says. What the grammar leaves free, primitive elements and sets are left to the two checks. (Not one with the matcher: each
// charges what the other does not know, the matcher a place and the walk a depth: one for both is no plainer.)
ghost use Rattle.std.specs.Prelude.{◌≡◌, ◌&&◌, ℕ, ◌<◌, true};
ghost use Rattle.der.specs.Fit.{kept};
ghost use Rattle.der.specs.Check.{der};
ghost use Rattle.syntax.specs.Grammar.{many, fit, Syntax};
ghost use Rattle.syntax.specs.Contract.Forms.{form_syntax};
ghost use Rattle.syntax.specs.Contract.Table.{count};
ghost use Rattle.syntax.specs.Contract.Rows.{grammar_of, field_syntax};
ghost use Rattle.syntax.specs.Contract.Whole.{conforms_in, after_if, then_conforms, entered};

use crate::Form;
use crate::matcher::Matcher;
use crate::row::{FREE_ROW, Kind, Row, form_row, keeps, left_out, row_at};
use der::{Element, Run};

// A field up to stop that is as it should be, or not.
fn after_if(ok: bool, stop: usize) -> Result<usize, usize>
    ensures { result ≡ after_if ok stop }
{
    if ok { Ok(stop) } else { Err(stop) }
}

// An element that the walk enters: its contents are not free, and are a run that is not sorted, with a level left.
fn is_entered(body: u8, tag: u8, depth: usize) -> bool
    ensures { result ≡ entered body tag depth }
{
    body != FREE_ROW && tag != der::SET && depth != 0 && der::is_constructed(tag)
}

impl<'a> Matcher<'a> {
    // Any other element, by the two checks.
    fn conform_leaf(&self, n: u8, e: Element, depth: usize) -> bool
        requires { n < count }
        ensures { result ≡ kept (der depth self.now.octets.now e)
            && kept (fit (grammar_of self.now.given.now n) self.now.octets.now e.start e.stop e.at) }
    {
        let sound = der::check_element(self.octets, e, depth).is_ok();
        sound && self.fit_body(n, e.start, e.stop, e.at).is_ok()
    }

    // As fit_field.
    #[cycle(conform)]
    fn conform_field(
        &self,
        kind: Kind,
        tag: u8,
        body: u8,
        at: usize,
        stop: usize,
        depth: usize,
    ) -> Result<usize, usize>
        requires { body < count }
        ensures { (outer : ℕ) → (next : Syntax) →
            conforms_in depth (field_syntax kind tag (grammar_of self.now.given.now body) next) self.now.octets.now at stop outer
            ≡ then_conforms result (λ i. conforms_in depth next self.now.octets.now i stop outer) }
    {
        if stop <= at {
            return left_out(kind, at, at);
        }
        let e = der::element_at(self.octets, at, stop);
        if !e.valid {
            return Err(at);
        }
        let ok = match kind {
            Kind::AnyOptional => der::check_element(self.octets, e, depth).is_ok(),
            Kind::One => self.conform_row(body, at, e.stop, depth),
            Kind::Optional | Kind::Required => {
                if e.tag != tag {
                    return left_out(kind, at, at);
                }
                self.conform_element(body, e, depth)
            }
        };
        after_if(ok, e.stop)
    }

    // An element whose contents are as row n says.
    #[cycle(conform)]
    fn conform_element(&self, n: u8, e: Element, depth: usize) -> bool
        requires { n < count }
        ensures { e.valid ≡ true → result ≡ kept (der depth self.now.octets.now e)
            && kept (fit (grammar_of self.now.given.now n) self.now.octets.now e.start e.stop e.at) }
    {
        if is_entered(n, e.tag, depth) {
            return self.conform_row(n, e.start, e.stop, depth - 1);
        }
        self.conform_leaf(n, e, depth)
    }

    // As fit_row.
    #[cycle(conform)]
    fn conform_row(&self, n: u8, at: usize, stop: usize, depth: usize) -> bool
        requires { n < count }
        ensures { (outer : ℕ) → result ≡ conforms_in depth (grammar_of self.now.given.now n) self.now.octets.now at stop outer }
    {
        let mut k = n;
        let mut i = at;
        'rows: loop {
            match row_at(k) {
                Row::Free => return der::check_run(self.octets, 0, i, stop, depth).is_ok(),
                Row::End => return stop <= i,
                Row::Many(body) => return self.conform_each(body, i, stop, depth),
                Row::Obeys(rule, body) => {
                    return self.conform_row(body, i, stop, depth)
                        && keeps(rule, self.given, octets::slice(self.octets, i, stop));
                }
                Row::Field(kind, tag, body, next) => {
                    let Ok(p) = self.conform_field(kind, tag, body, i, stop, depth) else {
                        return false;
                    };
                    i = p;
                    k = next;
                }
            }
        }
    }

    // As fit_each. Inlined, the walk takes six instructions in a hundred more.
    #[cycle(conform)]
    #[inline(never)]
    fn conform_each(&self, n: u8, at: usize, stop: usize, depth: usize) -> bool
        requires { n < count }
        ensures { (outer : ℕ) → result ≡ conforms_in depth (many (grammar_of self.now.given.now n)) self.now.octets.now at stop outer }
    {
        for e in Run::new(self.octets, at, stop) {
            if !e.valid || !self.conform_row(n, e.at, e.stop, depth) {
                return false;
            }
        }
        true
    }
}

// Whether the window is of the form, and its elements DER with this depth.
pub fn conforms(form: Form, s: &[u8], at: usize, stop: usize, depth: usize) -> bool
    ensures { (outer : ℕ) → result ≡ conforms_in depth (form_syntax form) s.now at stop outer }
{
    let m = Matcher {
        octets: s,
        given: &crate::ID_SIGNED_DATA,
    };
    m.conform_row(form_row(form), at, stop, depth)
}
