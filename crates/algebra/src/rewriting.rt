//! Sums of words, and their rewriting by relations.

ghost use Rattle.std.specs.Prelude.{◌≡◌, ◌+◌, ◌<◌, ◌≤◌, ◌++◌, IfOk, OnOk, Some, length};
ghost use Rattle.monomials.specs.Monomials.{degree};
ghost use Rattle.monomials.specs.Orders.{order_cmp};
ghost use Rattle.monomials.specs.Polynomials.{Each, HasNumbers, HasVars, IsPolynomial, from_terms};
ghost use Rattle.gpoly.specs.Terms.{pairs_of};
ghost use Rattle.word_model.specs.Words.{IsWord, RewritesDown, leftmost_descent, word_value};
ghost use Rattle.algebra.specs.Inside.Places.{descent_at};
ghost use Rattle.algebra.specs.Inside.WordSums.{words_of, reduced, between, replacement, IsPending};

use crate::presentation::Presentation;
use crate::word;
use gpoly::{GPoly, Term};
use prime_field::Field;
use std::alloc::{AllocError, Global};

/// A number times a word.
#[derive(Drop)]
pub struct WordTerm {
    pub coef: u32,
    pub word: Vec<u8>,
}

/// Adds `coef` times the terms of a polynomial, each with a word before it and one behind it.
pub fn push_between(
    alloc: Global,
    words: &mut Vec<WordTerm>,
    field: Field,
    coef: u32,
    front: &[u8],
    poly: &GPoly,
    back: &[u8],
) -> Result<(), AllocError>
    requires in_range { coef < field }
    requires numbers { HasNumbers field poly.now }
    ensures { OnOk result (words_of words.new.items
        ≡ words_of words.old.items ++ reduced field (between coef front.now poly.now back.now)) }
{
    for term in poly.terms() {
        let word = word::around(alloc, front, &term.mono, back)?;
        let coef = field.mul(coef, term.coef);
        words.push(WordTerm { coef, word })?;
    }
    Ok(())
}

impl Presentation {
    /// The value of a sum of words: the sum of their normal forms.
    pub(crate) fn word_value(
        &self,
        alloc: Global,
        words: Vec<WordTerm>,
    ) -> Result<GPoly, AllocError>
        requires downward { RewritesDown self.now }
        requires pending { IsPending self.now.p self.now.order.vars (words_of words.items) }
        ensures value { IfOk result (λ r. r ≡ word_value self.now (words_of words.items)) }
        ensures sorted { IfOk result (λ r. IsPolynomial self.now.p self.now.order r) }
    {
        let sorted = self.sorted_terms(alloc, words)?;
        GPoly::from_terms(alloc, self.field(), self.order(), &sorted)
    }

    // Rewrites words until each of them is sorted. Equal monomials are not added up.
    fn sorted_terms(
        &self,
        alloc: Global,
        mut pending: Vec<WordTerm>,
    ) -> Result<Vec<Term>, AllocError>
        requires downward { RewritesDown self.now }
        requires pending { IsPending self.now.p self.now.order.vars (words_of pending.items) }
        ensures value { IfOk result (λ r. from_terms (order_cmp self.now.order.rows) self.now.p (pairs_of r.items)
            ≡ word_value self.now (words_of pending.items)) }
        ensures numbers { IfOk result (λ r. HasNumbers self.now.p (pairs_of r.items)) }
        ensures vars { IfOk result (λ r. HasVars self.now.order.vars (pairs_of r.items)) }
        ensures small { IfOk result (λ r. Each (λ t. degree t.1 ≤ 4095) (pairs_of r.items)) }
    {
        let _p = self.field();
        let mut sorted = Vec::new(alloc);
        while let Some(term) = pending.pop() {
            match word::leftmost_descent(&term.word) {
                None => {
                    let mono = word::monomial_of(self.n(), &term.word);
                    sorted.push(Term {
                        coef: term.coef,
                        mono,
                    })?;
                }
                Some(place) => self.push_rewritten(alloc, &mut pending, term, place)?,
            }
        }
        Ok(sorted)
    }

    // Adds the words by which a word with a descent is replaced.
    fn push_rewritten(
        &self,
        alloc: Global,
        pending: &mut Vec<WordTerm>,
        mut term: WordTerm,
        place: usize,
    ) -> Result<(), AllocError>
        requires in_range { term.coef < self.now.p }
        requires word { IsWord self.now.order.vars term.word.items }
        requires inside { place + 1 < length term.word.items }
        requires descent { leftmost_descent term.word.items ≡ Some (descent_at place term.word.items) }
        ensures { OnOk result (words_of pending.new.items ≡ words_of pending.old.items
            ++ replacement self.now term.coef (descent_at place term.word.items)) }
    {
        let field = self.field();
        let (high, low) = (term.word[place], term.word[place + 1]);
        let front = &term.word[..place];
        let back = &term.word[place + 2..];
        let d = self.d(low, high);
        push_between(alloc, pending, field, term.coef, front, d, back)?;
        term.word.swap(place, place + 1);
        term.coef = field.mul(term.coef, self.c(low, high));
        pending.push(term)?;
        Ok(())
    }
}
