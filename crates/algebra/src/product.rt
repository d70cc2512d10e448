//! Products of polynomials of an algebra.

ghost use Rattle.std.specs.Prelude.{◌≡◌, ◌+◌, ◌<◌, ◌≤◌, true, false, ◌∷◌, [], length, IfOk, OnOk};
ghost use Rattle.monomials.specs.Monomials.{degree};
ghost use Rattle.monomials.specs.Polynomials.{IsPolynomial, poly_degree};
ghost use Rattle.gpoly.specs.Terms.{pair_of};
ghost use Rattle.word_model.specs.Products.{product, variable_polynomial, degree_limit, in_reach};
ghost use Rattle.algebra.specs.Limited.{AnswersWithin};

use crate::rewriting::push_between;
use crate::{Algebra, ProductFault, word};
use gpoly::{GPoly, Term};
use std::alloc::{AllocError, Global};

/// The most that the degrees of the factors of a product may add up to.
pub const DEGREE_LIMIT: u32 = 4095;

/// Whether the product is computed: a factor is zero, or the degrees add up to at most 4095. Takes
/// no memory.
pub fn in_reach(f: &GPoly, g: &GPoly) -> bool
    ensures value { result ≡ in_reach f.now g.now }
    ensures degrees { result ≡ true → poly_degree f.now + poly_degree g.now ≤ degree_limit }
{
    let degree = f.degree() + g.degree();
    f.is_zero() || g.is_zero() || degree <= DEGREE_LIMIT
}

impl Algebra {
    /// The product. `DegreeOver` comes exactly where both factors are nonzero and their degrees add
    /// up to more than 4095.
    pub fn plain_product(&self, alloc: Global, f: &GPoly, g: &GPoly) -> Result<GPoly, ProductFault>
        requires f_sorted { IsPolynomial self.now.p self.now.order f.now }
        requires g_sorted { IsPolynomial self.now.p self.now.order g.now }
        ensures value { IfOk result (λ r. r ≡ product self.now f.now g.now) }
        ensures sorted { IfOk result (λ r. IsPolynomial self.now.p self.now.order r) }
        ensures reach { AnswersWithin (in_reach f.now g.now) result }
    {
        if !in_reach(f, g) {
            return Err(ProductFault::DegreeOver);
        }
        Ok(self.product_within(alloc, f, g)?)
    }

    // The product, term by term of g.
    fn product_within(&self, alloc: Global, f: &GPoly, g: &GPoly) -> Result<GPoly, AllocError>
        requires f_sorted { IsPolynomial self.now.p self.now.order f.now }
        requires g_sorted { IsPolynomial self.now.p self.now.order g.now }
        requires within { poly_degree f.now + poly_degree g.now ≤ 4095 }
        ensures value { IfOk result (λ r. r ≡ product self.now f.now g.now) }
        ensures sorted { IfOk result (λ r. IsPolynomial self.now.p self.now.order r) }
    {
        let _n = self.n();
        let mut sum = GPoly::zero(alloc);
        for term in g.terms() {
            let part = self.times_term(alloc, f, term)?;
            sum = sum.add(alloc, self.field(), self.order(), &part)?;
        }
        Ok(sum)
    }

    // The product with a term: by its number, and then by the letters of its sorted word.
    fn times_term(&self, alloc: Global, f: &GPoly, term: &Term) -> Result<GPoly, AllocError>
        requires sorted { IsPolynomial self.now.p self.now.order f.now }
        requires in_range { term.now.coef < self.now.p }
        requires vars { length term.now.mono ≡ self.now.order.vars }
        requires within { poly_degree f.now + degree term.now.mono ≤ 4095 }
        ensures value { IfOk result (λ r. r ≡ product self.now f.now (pair_of term.now ∷ [])) }
        ensures sorted { IfOk result (λ r. IsPolynomial self.now.p self.now.order r) }
    {
        let _n = self.n();
        let mut product = f.scale(alloc, self.field(), term.coef)?;
        let word = word::around(alloc, &[], &term.mono, &[])?;
        for letter in &word {
            product = self.times_letter(alloc, &product, *letter)?;
        }
        Ok(product)
    }

    // The product with a variable.
    fn times_letter(&self, alloc: Global, f: &GPoly, letter: u8) -> Result<GPoly, AllocError>
        requires sorted { IsPolynomial self.now.p self.now.order f.now }
        requires first { 1 ≤ letter }
        requires last { letter ≤ self.now.order.vars }
        requires within { poly_degree f.now < 4095 }
        ensures value { IfOk result (λ r. r ≡ product self.now f.now (variable_polynomial self.now letter)) }
        ensures sorted { IfOk result (λ r. IsPolynomial self.now.p self.now.order r) }
    {
        let _n = self.n();
        let mut words = Vec::new(alloc);
        push_between(alloc, &mut words, self.field(), 1, &[], f, &[letter])?;
        self.presentation.word_value(alloc, words)
    }
}
