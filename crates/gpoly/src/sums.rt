//! Sums of terms that were sorted.

ghost use Rattle.std.specs.Prelude.{◌≡◌, ℕ, ◌<◌, IsTrue, IfOk, OnOk, List, length, reverse, ℤ};
ghost use Rattle.std.specs.List.Sorted.{IsPermutation};
ghost use Rattle.monomials.specs.Orders.{order_cmp};
ghost use Rattle.monomials.specs.Polynomials.{HasNumbers, HasVars, IsAbove, IsCanonical, insert_term, from_terms};
ghost use Rattle.gpoly.specs.Terms.{pairs_of};
ghost use Rattle.gpoly.specs.Inside.Sorting.{rank_cmp, IsNotBelow, IsFalling};

use crate::{Term, push_nonzero};
use monomials::{Expo, Order};
use prime_field::Field;
use std::alloc::{AllocError, Global};
use std::cmp::Ordering;

// The sum of terms in any order, with the greatest monomial first.
pub fn summed(
    alloc: Global,
    field: Field,
    order: &Order,
    terms: &[Term],
) -> Result<Vec<Term>, AllocError>
    requires numbers { HasNumbers field (pairs_of terms.now) }
    requires vars { HasVars order.now.vars (pairs_of terms.now) }
    ensures { IfOk result (λ sums. pairs_of sums.items
        ≡ from_terms (order_cmp order.now.rows) field (pairs_of terms.now)) }
{
    let _p = field.p();
    if falls(order, terms) {
        return Vec::from_slice(alloc, terms);
    }
    let rising = rising_terms(alloc, order, terms)?;
    let mut sums = rising_sums(alloc, field, &rising)?;
    sums.reverse();
    Ok(sums)
}

// Whether no number is zero and each monomial is above the next, so that the terms are their sum.
fn falls(order: &Order, terms: &[Term]) -> bool
    requires { HasVars order.now.vars (pairs_of terms.now) }
    ensures { IsTrue result → (p : ℕ) → HasNumbers p (pairs_of terms.now) →
        IsCanonical (order_cmp order.now.rows) p (pairs_of terms.now) }
{
    let mut left = terms;
    while let Some((term, rest)) = left.split_first() {
        if !is_first(order, term, rest) {
            return false;
        }
        left = rest;
    }
    true
}

// Whether the number is not zero and the monomial is above the first of the rest.
fn is_first(order: &Order, term: &Term, rest: &[Term]) -> bool
    requires term { length term.now.mono ≡ order.now.vars }
    requires rest { HasVars order.now.vars (pairs_of rest.now) }
    ensures { IsTrue result → (0 < term.now.coef)
        × IsAbove (order_cmp order.now.rows) term.now.mono (pairs_of rest.now) }
{
    let above = match rest.first() {
        Some(next) => order.compare(&term.mono, &next.mono) == Ordering::Greater,
        None => true,
    };
    above && term.coef != 0
}

// The terms with the greatest monomial first.
pub fn falling_terms(alloc: Global, order: &Order, terms: &[Term]) -> Result<Vec<Term>, AllocError>
    requires { HasVars order.now.vars (pairs_of terms.now) }
    ensures moved { IfOk result (λ falling. IsPermutation (pairs_of terms.now) (pairs_of falling.items)) }
    ensures falls { IfOk result (λ falling.
        IsFalling (order_cmp order.now.rows) (pairs_of falling.items)) }
{
    let mut falling = rising_terms(alloc, order, terms)?;
    falling.reverse();
    Ok(falling)
}

// The terms with the least monomial first.
fn rising_terms(alloc: Global, order: &Order, terms: &[Term]) -> Result<Vec<Term>, AllocError>
    requires { HasVars order.now.vars (pairs_of terms.now) }
    ensures moved { IfOk result (λ rising. IsPermutation terms.now rising.items) }
    ensures rises { IfOk result (λ rising.
        IsFalling (order_cmp order.now.rows) (reverse (pairs_of rising.items))) }
{
    let mut rising = Vec::from_slice(alloc, terms)?;
    rising.sort_by(|a, b| rank(order, &a.mono, &b.mono))?;
    Ok(rising)
}

// The order, extended to monomials in other numbers of variables, so that a sort may compare any two.
fn rank(order: &Order, a: &Expo, b: &Expo) -> Ordering
    ensures { result ≡ rank_cmp order.now a.now b.now }
{
    match a.len().cmp(&b.len()) {
        Ordering::Equal if a.len() == order.vars() => order.compare(a, b),
        lengths => lengths,
    }
}

// The sum of terms in rising order, itself in rising order.
fn rising_sums(alloc: Global, field: Field, rising: &[Term]) -> Result<Vec<Term>, AllocError>
    requires { HasNumbers field (pairs_of rising.now) }
    ensures { IfOk result (λ sums. (rows : List (List ℤ)) →
        IsFalling (order_cmp rows) (reverse (pairs_of rising.now)) →
        reverse (pairs_of sums.items)
        ≡ from_terms (order_cmp rows) field (reverse (pairs_of rising.now))) }
{
    let mut sums = Vec::with_capacity(alloc, rising.len())?;
    for term in rising {
        add_last(&mut sums, field, *term)?;
    }
    Ok(sums)
}

// Adds a term whose monomial is not below the last one.
fn add_last(sums: &mut Vec<Term>, field: Field, term: Term) -> Result<(), AllocError>
    requires in_range { term.coef < field }
    requires numbers { HasNumbers field (pairs_of sums.old.items) }
    ensures numbers { OnOk result (HasNumbers field (pairs_of sums.new.items)) }
    ensures sum { OnOk result ((rows : List (List ℤ)) →
        IsNotBelow (order_cmp rows) term.mono (pairs_of sums.old.items) →
        reverse (pairs_of sums.new.items)
        ≡ insert_term (order_cmp rows) field term.coef term.mono (reverse (pairs_of sums.old.items))) }
{
    match sums.last() {
        Some(last) if last.mono == term.mono => {
            let coef = field.add(last.coef, term.coef);
            sums.pop();
            push_nonzero(sums, coef, term.mono)
        }
        _ => push_nonzero(sums, term.coef, term.mono),
    }
}
