//! Polynomials over a prime field, as lists of terms.
#![tactic(auto)]

ghost use Rattle.std.specs.Prelude.{◌≡◌, ◌≢◌, ℕ, ◌+◌, ◌-◌, ◌*◌, ◌%◌, ◌<◌, ◌≤◌, ◌↔◌, ◌∷◌, ◌++◌, IsTrue, IsNone, IfSome, IfOk, OnOk, [], drop, length, replicate};
ghost use Rattle.std.specs.Result.{OnErr};
ghost use Rattle.monomials.specs.Monomials.{Monomial, degree};
ghost use Rattle.monomials.specs.Orders.{RowOrder, order_cmp};
ghost use Rattle.monomials.specs.Polynomials.{Each, HasVars, HasNumbers, IsPolynomial, cons_nonzero, from_terms, poly_add, poly_sub, poly_scale, poly_degree, coefficient_at};
ghost use Rattle.monomials.specs.Leading.{leading_monomial, leading_coefficient, lead_divides};
ghost use Rattle.gpoly.specs.Terms.{pair_of, pairs_of, IsTermList};

use monomials::{Expo, Order};
use prime_field::Field;
use std::alloc::{AllocError, Global};
use std::marker::Model;

mod buckets;
mod merge;
mod sums;
#[cfg(test)]
mod tests;

pub use buckets::Buckets;

/// A number times a monomial.
#[derive(Clone, Copy, Debug, PartialEq, Eq)]
pub struct Term {
    /// A number of the field: below the characteristic.
    pub coef: u32,
    /// The monomial, in the variables of the order that sorts.
    pub mono: Expo,
}

/// A polynomial of degree at most 4095, as the list of its terms: none is zero, and no two have one
/// monomial. The field and the order are the caller's, who passes them to each call that needs them.
#[derive(Debug, Drop)]
pub struct GPoly {
    terms: Vec<Term>,
}

impl Model for GPoly {
    ghost use Rattle.monomials.specs.Polynomials.{Polynomial};

    ghost Value = { Polynomial };

    ghost use Rattle.gpoly.specs.Terms.{pairs_of, IsTermList};

    ghost view = { λ g. pairs_of g.terms.items };

    ghost invariant = { λ g. IsTermList (pairs_of g.terms.items) };
}

impl GPoly {
    /// The zero polynomial. Takes no memory.
    pub fn zero(alloc: Global) -> GPoly
        ensures { result ≡ [] }
    {
        GPoly {
            terms: Vec::new(alloc),
        }
    }

    /// The polynomial with one term, whose number is not zero.
    pub fn of_term(alloc: Global, coef: u32, mono: Expo) -> Result<GPoly, AllocError>
        requires not_zero { 0 < coef }
        requires small { degree mono ≤ 4095 }
        ensures { IfOk result (λ r. r ≡ (coef, mono) ∷ []) }
    {
        let mut terms = Vec::with_capacity(alloc, 1)?;
        terms.push(Term { coef, mono })?;
        Ok(GPoly { terms })
    }

    /// The polynomial with these terms in this order, in their memory.
    pub fn of_terms(terms: Vec<Term>) -> GPoly
        requires { IsTermList (pairs_of terms.items) }
        ensures { result ≡ pairs_of terms.items }
    {
        GPoly { terms }
    }

    /// The polynomial with these terms, given in any order and with any repetition: equal monomials
    /// are added up. It is sorted by the order.
    pub fn from_terms(
        alloc: Global,
        field: Field,
        order: &Order,
        terms: &[Term],
    ) -> Result<GPoly, AllocError>
        requires numbers { HasNumbers field (pairs_of terms.now) }
        requires vars { HasVars order.now.vars (pairs_of terms.now) }
        requires small { Each (λ t. degree t.1 ≤ 4095) (pairs_of terms.now) }
        ensures value { IfOk result (λ r.
            r ≡ from_terms (order_cmp order.now.rows) field (pairs_of terms.now)) }
        ensures sorted { IfOk result (λ r. IsPolynomial field order.now r) }
        ensures numbers { IfOk result (λ r. HasNumbers field r) }
        ensures map { IfOk result (λ r. (m : Monomial) →
            coefficient_at m r ≡ coefficient_at m (pairs_of terms.now) % field) }
    {
        let _p = field.p();
        let terms = sums::summed(alloc, field, order, terms)?;
        Ok(GPoly { terms })
    }

    /// Adds a term at the end. Where memory is wanting, the polynomial is as before.
    pub fn push(&mut self, term: Term) -> Result<(), AllocError>
        requires terms { IsTermList (self.old ++ pair_of term ∷ []) }
        ensures value { OnOk result (self.new ≡ self.old ++ pair_of term ∷ []) }
        ensures refused { OnErr result (self.new ≡ self.old) }
    {
        Ok(self.terms.push(term)?)
    }

    /// Adds the terms of another polynomial at the end. Where memory is wanting, the polynomial is as
    /// before.
    pub fn append(&mut self, other: &GPoly) -> Result<(), AllocError>
        requires terms { IsTermList (self.old ++ other.now) }
        ensures value { OnOk result (self.new ≡ self.old ++ other.now) }
        ensures refused { OnErr result (self.new ≡ self.old) }
    {
        Ok(self.terms.extend_from_slice(&other.terms)?)
    }

    /// The sum of two polynomials sorted by one order.
    pub fn add(
        &self,
        alloc: Global,
        field: Field,
        order: &Order,
        other: &GPoly,
    ) -> Result<GPoly, AllocError>
        requires self_sorted { IsPolynomial field order.now self.now }
        requires other_sorted { IsPolynomial field order.now other.now }
        ensures value { IfOk result (λ r.
            r ≡ poly_add (order_cmp order.now.rows) field self.now other.now) }
        ensures sorted { IfOk result (λ r. IsPolynomial field order.now r) }
        ensures numbers { IfOk result (λ r. HasNumbers field r) }
        ensures map { IfOk result (λ r. (m : Monomial) →
            coefficient_at m r ≡ (coefficient_at m self.now + coefficient_at m other.now) % field) }
    {
        let _p = field.p();
        self.add_multiple(alloc, field, order, 1, other)
    }

    /// The difference `self - other` of two polynomials sorted by one order.
    pub fn sub(
        &self,
        alloc: Global,
        field: Field,
        order: &Order,
        other: &GPoly,
    ) -> Result<GPoly, AllocError>
        requires self_sorted { IsPolynomial field order.now self.now }
        requires other_sorted { IsPolynomial field order.now other.now }
        ensures value { IfOk result (λ r.
            r ≡ poly_sub (order_cmp order.now.rows) field self.now other.now) }
        ensures sorted { IfOk result (λ r. IsPolynomial field order.now r) }
        ensures numbers { IfOk result (λ r. HasNumbers field r) }
        ensures map { IfOk result (λ r. (m : Monomial) → coefficient_at m r
            ≡ (coefficient_at m self.now + (field - coefficient_at m other.now)) % field) }
    {
        let minus_one = field.p() - 1;
        self.add_multiple(alloc, field, order, minus_one, other)
    }

    /// The sum of the polynomial and of k times the other, which is sorted by the same order. It is
    /// one merge, with no multiple in between.
    pub fn add_multiple(
        &self,
        alloc: Global,
        field: Field,
        order: &Order,
        k: u32,
        other: &GPoly,
    ) -> Result<GPoly, AllocError>
        requires in_range { k < field }
        requires self_sorted { IsPolynomial field order.now self.now }
        requires other_sorted { IsPolynomial field order.now other.now }
        ensures value { IfOk result (λ r. r
            ≡ poly_add (order_cmp order.now.rows) field self.now (poly_scale field k other.now)) }
        ensures sorted { IfOk result (λ r. IsPolynomial field order.now r) }
        ensures numbers { IfOk result (λ r. HasNumbers field r) }
        ensures map { IfOk result (λ r. (m : Monomial) → coefficient_at m r
            ≡ (coefficient_at m self.now + k * coefficient_at m other.now) % field) }
    {
        let _p = field.p();
        let terms = merge::merged(alloc, field, order, &self.terms, k, &other.terms)?;
        Ok(GPoly { terms })
    }

    /// The multiple by a number of the field. It is sorted as the polynomial is.
    pub fn scale(&self, alloc: Global, field: Field, k: u32) -> Result<GPoly, AllocError>
        requires in_range { k < field }
        requires numbers { HasNumbers field self.now }
        ensures value { IfOk result (λ r. r ≡ poly_scale field k self.now) }
        ensures numbers { IfOk result (λ r. HasNumbers field r) }
        ensures sorted { IfOk result (λ r. (o : RowOrder) →
            IsPolynomial field o self.now → IsPolynomial field o r) }
        ensures map { IfOk result (λ r. (m : Monomial) →
            coefficient_at m r ≡ (k * coefficient_at m self.now) % field) }
    {
        let _p = field.p();
        let mut terms = Vec::with_capacity(alloc, self.terms.len())?;
        push_multiples(&mut terms, field, k, &self.terms)?;
        Ok(GPoly { terms })
    }

    /// The multiple by a nonzero number of the field, in the memory of the polynomial. It is sorted as
    /// the polynomial is.
    pub fn into_multiple(self, field: Field, k: u32) -> GPoly
        requires in_range { k < field }
        requires not_zero { 0 < k }
        requires numbers { HasNumbers field self }
        ensures value { result ≡ poly_scale field k self }
        ensures sorted { (o : RowOrder) → IsPolynomial field o self → IsPolynomial field o result }
    {
        let _p = field.p();
        let terms = scaled(self.terms, field, k);
        GPoly { terms }
    }

    /// The multiple whose first number is 1, and the number by which it was multiplied: the inverse
    /// of the first number. It is sorted as the polynomial is.
    pub fn monic(&self, alloc: Global, field: Field) -> Result<(GPoly, u32), AllocError>
        requires not_zero { self.now ≢ [] }
        requires numbers { HasNumbers field self.now }
        ensures scale { IfOk result (λ (_, k). (k * leading_coefficient self.now) % field ≡ 1) }
        ensures in_range { IfOk result (λ (_, k). k < field) }
        ensures value { IfOk result (λ (r, k). r ≡ poly_scale field k self.now) }
        ensures monic { IfOk result (λ (r, _). leading_coefficient r ≡ 1) }
        ensures numbers { IfOk result (λ (r, _). HasNumbers field r) }
        ensures sorted { IfOk result (λ (r, _). (o : RowOrder) →
            IsPolynomial field o self.now → IsPolynomial field o r) }
        ensures map { IfOk result (λ (r, k). (m : Monomial) →
            coefficient_at m r ≡ (k * coefficient_at m self.now) % field) }
    {
        let k = field.inv(self.terms[0].coef);
        Ok((self.scale(alloc, field, k)?, k))
    }

    /// The same multiple and number as `monic` gives, in the memory of the polynomial.
    pub fn into_monic(self, field: Field) -> (GPoly, u32)
        requires not_zero { self ≢ [] }
        requires numbers { HasNumbers field self }
        ensures scale { let (_, k) = result in (k * leading_coefficient self) % field ≡ 1 }
        ensures in_range { let (_, k) = result in k < field }
        ensures value { let (r, k) = result in r ≡ poly_scale field k self }
        ensures monic { let (r, _) = result in leading_coefficient r ≡ 1 }
        ensures numbers { let (r, _) = result in HasNumbers field r }
        ensures sorted { let (r, _) = result in (o : RowOrder) →
            IsPolynomial field o self → IsPolynomial field o r }
        ensures map { let (r, k) = result in (m : Monomial) →
            coefficient_at m r ≡ (k * coefficient_at m self) % field }
    {
        let k = field.inv(self.terms[0].coef);
        let terms = scaled(self.terms, field, k);
        (GPoly { terms }, k)
    }

    /// The same polynomial, in memory of its own.
    pub fn copy(&self, alloc: Global) -> Result<GPoly, AllocError>
        ensures { IfOk result (λ r. r ≡ self.now) }
    {
        let terms = Vec::from_slice(alloc, &self.terms)?;
        Ok(GPoly { terms })
    }

    /// The same polynomial, sorted by another order of its variables.
    pub fn reorder(&self, alloc: Global, order: &Order) -> Result<GPoly, AllocError>
        requires { HasVars order.now.vars self.now }
        ensures value { IfOk result (λ r. (p : ℕ) → HasNumbers p self.now →
            r ≡ from_terms (order_cmp order.now.rows) p self.now) }
        ensures sorted { IfOk result (λ r. (p : ℕ) → HasNumbers p self.now →
            IsPolynomial p order.now r) }
        ensures numbers { IfOk result (λ r. (p : ℕ) → HasNumbers p self.now → HasNumbers p r) }
        ensures vars { IfOk result (λ r. HasVars order.now.vars r) }
        ensures map { IfOk result (λ r. (m : Monomial) →
            coefficient_at m r ≡ coefficient_at m self.now) }
    {
        let terms = sums::falling_terms(alloc, order, &self.terms)?;
        Ok(GPoly { terms })
    }

    /// The first term, which has the greatest monomial where the polynomial is sorted. There is none
    /// in the zero polynomial.
    pub fn leading(&self) -> Option<&Term>
        ensures zero { IsNone result ↔ (self.now ≡ []) }
        ensures first { IfSome result (λ t. self.now ≡ pair_of t.now ∷ drop 1 self.now) }
        ensures facts { IsTermList self.now }
    {
        self.terms.first()
    }

    /// The first term of a nonzero polynomial: its leading term, where it is sorted.
    pub fn lead(&self) -> &Term
        requires { self.now ≢ [] }
        ensures first { self.now ≡ pair_of result.now ∷ drop 1 self.now }
        ensures mono { result.now.mono ≡ leading_monomial self.now }
        ensures coef { result.now.coef ≡ leading_coefficient self.now }
        ensures some { 0 < result.now.coef }
        ensures small { degree result.now.mono ≤ 4095 }
    {
        &self.terms[0]
    }

    /// Whether the polynomial is not zero, and its leading monomial divides this one.
    pub fn lead_divides(&self, mono: &Expo) -> bool
        requires { HasVars (length mono.now) self.now }
        ensures { result ≡ lead_divides self.now mono.now }
    {
        match self.leading() {
            Some(term) => term.mono.divides(mono),
            None => false,
        }
    }

    /// The terms, with the greatest monomial first where the polynomial is sorted.
    pub fn terms(&self) -> &[Term]
        ensures value { pairs_of result.now ≡ self.now }
        ensures facts { IsTermList self.now }
    {
        &self.terms
    }

    /// Whether this is the zero polynomial.
    pub fn is_zero(&self) -> bool
        ensures { IsTrue result ↔ (self.now ≡ []) }
    {
        self.terms.is_empty()
    }

    /// The total degree, from 0 to 4095: that of the zero polynomial is 0.
    pub fn degree(&self) -> u32
        ensures value { result ≡ poly_degree self.now }
        ensures small { result ≤ 4095 }
    {
        let mut degree = 0;
        for term in &self.terms {
            degree = term.mono.degree().max(degree);
        }
        degree
    }

    /// Whether the polynomials have the same terms in the same order. Of polynomials sorted by one
    /// order it says whether they are equal.
    pub fn equals(&self, other: &GPoly) -> bool
        ensures { IsTrue result ↔ (self.now ≡ other.now) }
    {
        self.terms == other.terms
    }
}

/// The same polynomials, in memory of their own.
pub fn copies(alloc: Global, polys: &[GPoly]) -> Result<Vec<GPoly>, AllocError>
    ensures { IfOk result (λ all. all.items ≡ polys.now) }
{
    let mut all = Vec::with_capacity(alloc, polys.len())?;
    for poly in polys {
        all.push(poly.copy(alloc)?)?;
    }
    Ok(all)
}

/// So many zero polynomials.
pub fn zeros(alloc: Global, count: usize) -> Result<Vec<GPoly>, AllocError>
    ensures { IfOk result (λ r. r.items ≡ replicate count []) }
{
    let mut zeros = Vec::with_capacity(alloc, count)?;
    for _place in 0..count {
        zeros.push(GPoly::zero(alloc))?;
    }
    Ok(zeros)
}

// Adds a term at the end, unless its number is zero.
fn push_nonzero(terms: &mut Vec<Term>, coef: u32, mono: Expo) -> Result<(), AllocError>
    ensures { OnOk result (pairs_of terms.new.items
        ≡ pairs_of terms.old.items ++ cons_nonzero coef mono []) }
{
    if coef != 0 {
        terms.push(Term { coef, mono })?;
    }
    Ok(())
}

// Adds the multiples by k of these terms at the end.
fn push_multiples(
    multiples: &mut Vec<Term>,
    field: Field,
    k: u32,
    terms: &[Term],
) -> Result<(), AllocError>
    requires in_range { k < field }
    requires numbers { HasNumbers field (pairs_of terms.now) }
    ensures { OnOk result (pairs_of multiples.new.items
        ≡ pairs_of multiples.old.items ++ poly_scale field k (pairs_of terms.now)) }
{
    for term in terms {
        push_nonzero(multiples, field.mul(k, term.coef), term.mono)?;
    }
    Ok(())
}

// The multiples by k of these terms, in their memory. None is zero.
fn scaled(mut terms: Vec<Term>, field: Field, k: u32) -> Vec<Term>
    requires in_range { k < field }
    requires not_zero { 0 < k }
    requires numbers { HasNumbers field (pairs_of terms.items) }
    requires some { Each (λ t. 0 < t.0) (pairs_of terms.items) }
    ensures { pairs_of result.items ≡ poly_scale field k (pairs_of terms.items) }
{
    let _p = field.p();
    for i in 0..terms.len() {
        terms[i].coef = field.mul(k, terms[i].coef);
    }
    terms
}
