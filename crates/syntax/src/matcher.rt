// The matcher: whether a window is as a row of the table says, and if not the element that breaks it.
ghost use Rattle.std.specs.Prelude.{◌≡◌, ◌<◌, true};
ghost use Rattle.octets.specs.Octets.{slice as slice_of};
ghost use Rattle.der.specs.Element.{element_at};
ghost use Rattle.der.specs.Fit.{held};
ghost use Rattle.syntax.specs.Grammar.{obeyed, many, fit, Syntax};
ghost use Rattle.syntax.specs.Contract.Forms.{form_syntax, attribute_syntax};
ghost use Rattle.syntax.specs.Contract.Table.{count};
ghost use Rattle.syntax.specs.Contract.Rows.{rule_of, field_syntax, grammar_of, then_after};

use crate::row::{
    END_ROW, FREE_ROW, Kind, Row, Rule, attribute_row, form_row, keeps, left_out, row_at,
};
use crate::{AttributeForm, Form};
use der::{Element, Fit, Run};

// The octets whose windows are matched, and those that a rule compares with. A window's place, its end and the element that it is charged to are no struct: from a
// call to the next mostly one or two of the three change, so that it would be taken apart and made anew each time.
#[derive(Clone, Copy)]
pub struct Matcher<'a> {
    pub octets: &'a [u8],
    pub given: &'a [u8],
}

impl<'a> Matcher<'a> {
    // The window as a whole keeps the rule.
    fn check_rule(&self, rule: Rule, at: usize, stop: usize, outer: usize) -> Fit
        ensures { result ≡ held outer (obeyed (rule_of rule self.now.given.now) (slice_of self.now.octets.now at stop)) }
    {
        if keeps(rule, self.given, octets::slice(self.octets, at, stop)) {
            return Ok(());
        }
        Err(outer)
    }

    // As fit_row, with no recursive call where the row is free, or a rule alone: most bodies are.
    #[cycle(fit)]
    #[tactic(auto, using(crate::proofs::Rows::first_fits))]
    pub fn fit_body(&self, n: u8, at: usize, stop: usize, outer: usize) -> Fit
        requires { n < count }
        ensures { result ≡ fit (grammar_of self.now.given.now n) self.now.octets.now at stop outer }
    {
        if n == FREE_ROW {
            return Ok(());
        }
        if let Row::Obeys(rule, FREE_ROW) = row_at(n) {
            return self.check_rule(rule, at, stop, outer);
        }
        self.fit_row(n, at, stop, outer)
    }

    // The field at a place of the window: where the window goes on after it.
    #[cycle(fit)]
    fn fit_field(
        &self,
        kind: Kind,
        tag: u8,
        body: u8,
        at: usize,
        stop: usize,
        outer: usize,
    ) -> Result<usize, usize>
        requires { body < count }
        ensures { (next : Syntax) → fit (field_syntax kind tag (grammar_of self.now.given.now body) next) self.now.octets.now at stop outer
            ≡ then_after result (λ i. fit next self.now.octets.now i stop outer) }
    {
        if stop <= at {
            return left_out(kind, at, outer);
        }
        let e = der::element_at(self.octets, at, stop);
        if !e.valid {
            return Err(at);
        }
        match kind {
            Kind::AnyOptional => {}
            Kind::One => self.fit_body(body, at, e.stop, outer)?,
            Kind::Optional | Kind::Required => {
                let other = e.tag != tag;
                if other {
                    return left_out(kind, at, at);
                }
                self.fit_body(body, e.start, e.stop, at)?;
            }
        }
        Ok(e.stop)
    }

    // Whether the window is as row n of the table says, field by field.
    #[cycle(fit)]
    fn fit_row(&self, n: u8, at: usize, stop: usize, outer: usize) -> Fit
        requires { n < count }
        ensures { result ≡ fit (grammar_of self.now.given.now n) self.now.octets.now at stop outer }
    {
        let mut k = n;
        let mut i = at;
        'rows: loop {
            match row_at(k) {
                Row::Free => return Ok(()),
                Row::End => return if stop <= i { Ok(()) } else { Err(i) },
                Row::Many(body) => return self.fit_each(body, i, stop, outer),
                Row::Obeys(rule, body) => {
                    self.fit_body(body, i, stop, outer)?;
                    return self.check_rule(rule, i, stop, outer);
                }
                Row::Field(kind, tag, body, next) => {
                    i = self.fit_field(kind, tag, body, i, stop, outer)?;
                    k = next;
                }
            }
        }
    }

    // Whether the element e, by itself, is as row n says, with no recursive call for a row of one field: most members of a run have one.
    #[cycle(fit)]
    fn fit_member(&self, n: u8, e: Element, outer: usize) -> Fit
        requires { (n < count) × ((e ≡ element_at self.now.octets.now e.at e.stop) × (e.valid ≡ true)) }
        ensures { result ≡ fit (grammar_of self.now.given.now n) self.now.octets.now e.at e.stop outer }
    {
        let Row::Field(Kind::Optional, tag, body, END_ROW) = row_at(n) else {
            return self.fit_row(n, e.at, e.stop, outer);
        };
        if e.tag != tag {
            return Err(e.at);
        }
        self.fit_body(body, e.start, e.stop, e.at)
    }

    // Whether each element of the window, by itself, is as row n says.
    #[cycle(fit)]
    fn fit_each(&self, n: u8, at: usize, stop: usize, outer: usize) -> Fit
        requires { n < count }
        ensures { result ≡ fit (many (grammar_of self.now.given.now n)) self.now.octets.now at stop outer }
    {
        for e in Run::new(self.octets, at, stop) {
            if !e.valid {
                return Err(e.at);
            }
            self.fit_member(n, e, outer)?;
        }
        Ok(())
    }
}

// Whether the window of s from at up to stop, the contents of the element at `outer`, is of the form; if not, the element that breaks it.
pub fn fits(form: Form, s: &[u8], at: usize, stop: usize, outer: usize) -> Fit
    ensures { result ≡ fit (form_syntax form) s.now at stop outer }
{
    let m = Matcher {
        octets: s,
        given: &crate::ID_SIGNED_DATA,
    };
    m.fit_row(form_row(form), at, stop, outer)
}

// The same of an Attribute; a content-type's value is the type given.
pub fn attribute_fits(
    form: AttributeForm,
    given: &[u8],
    s: &[u8],
    at: usize,
    stop: usize,
    outer: usize,
) -> Fit
    ensures { result ≡ fit (attribute_syntax form given.now) s.now at stop outer }
{
    let m = Matcher { octets: s, given };
    m.fit_row(attribute_row(form), at, stop, outer)
}
