//! Two powers in the wrong order, and their product as a polynomial.

ghost use Rattle.std.specs.Prelude.{◌≡◌, ◌+◌, ◌<◌, ◌≤◌, ◌∷◌, [], ◌++◌, replicate, map, IfOk, IfSome};
ghost use Rattle.monomials.specs.Polynomials.{Each, IsPolynomial, poly_degree};
ghost use Rattle.gpoly.specs.Terms.{pairs_of};
ghost use Rattle.word_model.specs.Words.{monomial_of, normal_form};
ghost use Rattle.word_model.specs.Products.{product};
ghost use Rattle.closed_forms.specs.Forms.{pairs_of as powers_of};
ghost use Rattle.closed_forms.specs.Kinds.{HasKind};
ghost use Rattle.gproduct.specs.Inside.Swaps.{IsSwap, swap_word};

use crate::first::{Plain, raised};
use algebra::{Algebra, ProductFault};
use closed_forms::{PairKind, Term2, power_product};
use gpoly::{GPoly, Term};
use monomials::Expo;
use std::alloc::{AllocError, Global};

/// The product `x_j^a x_i^b`, where i < j are numbers of variables.
#[derive(Clone, Copy)]
pub(crate) struct Swap {
    pub(crate) i: u8,
    pub(crate) j: u8,
    pub(crate) a: u16,
    pub(crate) b: u16,
}

impl Swap {
    /// The normal form: by a formula where the pair's relation has a kind, and else a letter at a time.
    pub(crate) fn value(
        self,
        alloc: Global,
        alg: &Algebra,
        kind: Option<PairKind>,
    ) -> Result<GPoly, AllocError>
        requires swap { IsSwap alg.now self }
        requires kind { IfSome kind (λ kind. HasKind alg.now self.i self.j kind) }
        ensures { IfOk result (λ r. r ≡ normal_form alg.now (swap_word self)) }
    {
        match kind {
            Some(kind) => self.by_formula(alloc, alg, &kind),
            None => self.by_letters(alloc, alg),
        }
    }

    /// The normal form, by the formula of the relation's kind.
    pub(crate) fn by_formula(
        self,
        alloc: Global,
        alg: &Algebra,
        kind: &PairKind,
    ) -> Result<GPoly, AllocError>
        requires swap { IsSwap alg.now self }
        requires kind { HasKind alg.now self.i self.j kind.now }
        ensures { IfOk result (λ r. r ≡ normal_form alg.now (swap_word self)) }
    {
        let n = alg.n();
        let powers = power_product(alloc, alg.field(), kind, self.a, self.b)?;
        let terms = self.terms_of(alloc, n, &powers)?;
        GPoly::from_terms(alloc, alg.field(), alg.order(), &terms)
    }

    // The normal form, from `x_i^b`, a letter at a time.
    fn by_letters(self, alloc: Global, alg: &Algebra) -> Result<GPoly, AllocError>
        requires { IsSwap alg.now self }
        ensures { IfOk result (λ r. r ≡ normal_form alg.now (swap_word self)) }
    {
        let power = self.power_right(alloc, alg)?;
        raised(alloc, &mut Plain { algebra: alg }, self, 0, power)
    }

    /// The polynomial `x_i^b`.
    pub(crate) fn power_right(self, alloc: Global, alg: &Algebra) -> Result<GPoly, AllocError>
        requires { IsSwap alg.now self }
        ensures { IfOk result (λ r. r ≡ normal_form alg.now (replicate self.b self.i)) }
    {
        GPoly::of_term(alloc, 1, self.monomial(alg.n(), self.b, 0))
    }

    // Terms in x_i and x_j, as terms in n variables.
    fn terms_of(self, alloc: Global, n: usize, powers: &[Term2]) -> Result<Vec<Term>, AllocError>
        requires first { 1 ≤ self.i }
        requires ordered { self.i < self.j }
        requires last { self.j ≤ n }
        requires few { n ≤ 16 }
        requires small { Each (λ t. t.x + t.y ≤ 4095) powers.now }
        ensures { IfOk result (λ r. pairs_of r.items ≡
            map (λ t. (t.0, monomial_of n (replicate t.1.0 self.i ++ replicate t.1.1 self.j))) (powers_of powers.now)) }
    {
        let mut terms = Vec::with_capacity(alloc, powers.len())?;
        for power in powers {
            terms.push(Term {
                coef: power.coef,
                mono: self.monomial(n, power.x, power.y),
            })?;
        }
        Ok(terms)
    }

    /// The monomial `x_i^x x_j^y` in n variables.
    pub(crate) fn monomial(self, n: usize, x: u16, y: u16) -> Expo
        requires first { 1 ≤ self.i }
        requires ordered { self.i < self.j }
        requires last { self.j ≤ n }
        requires few { n ≤ 16 }
        requires small { x + y ≤ 4095 }
        ensures { result ≡ monomial_of n (replicate x self.i ++ replicate y self.j) }
    {
        let mut exponents = [0; 16];
        exponents[usize::from(self.i) - 1] = x;
        exponents[usize::from(self.j) - 1] = y;
        Expo::of(&exponents[..n])
    }
}

/// The product `x_j x_i` of two letters, by their relation.
pub(crate) fn letters_product(
    alloc: Global,
    alg: &Algebra,
    i: u8,
    j: u8,
) -> Result<GPoly, AllocError>
    requires first { 1 ≤ i }
    requires ordered { i < j }
    requires last { j ≤ alg.now.order.vars }
    ensures { IfOk result (λ r. r ≡ normal_form alg.now (j ∷ i ∷ [])) }
{
    let n = alg.n();
    let left = GPoly::of_term(alloc, 1, Expo::var(n, j))?;
    let right = GPoly::of_term(alloc, 1, Expo::var(n, i))?;
    product_within(alloc, alg, &left, &right)
}

// The product of polynomials whose degrees add up to at most 4095, by rewriting words.
fn product_within(alloc: Global, alg: &Algebra, f: &GPoly, g: &GPoly) -> Result<GPoly, AllocError>
    requires f_sorted { IsPolynomial alg.now.p alg.now.order f.now }
    requires g_sorted { IsPolynomial alg.now.p alg.now.order g.now }
    requires within { poly_degree f.now + poly_degree g.now ≤ 4095 }
    ensures { IfOk result (λ r. r ≡ product alg.now f.now g.now) }
{
    match alg.plain_product(alloc, f, g) {
        Ok(product) => Ok(product),
        Err(ProductFault::Memory) => Err(AllocError),
        Err(ProductFault::DegreeOver) => unreachable!(),
    }
}
