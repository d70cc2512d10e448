//! Products of powers of two variables of a G-algebra, by the formula of their relation's kind.
#![tactic(auto)]

ghost use Rattle.std.specs.Prelude.{◌≡◌, ◌≢◌, ℕ, ◌+◌, ◌<◌, ◌≤◌, ◌↔◌, ◌++◌, ◌∷◌, [], Some, IfOk, OnOk, length, replicate};
ghost use Rattle.monomials.specs.Polynomials.{Each, HasNumbers, HasVars, cons_nonzero};
ghost use Rattle.gpoly.specs.Terms.{pair_of};
ghost use Rattle.word_model.specs.Words.{Algebra, RewritesDown, normal_form};
ghost use Rattle.closed_forms.specs.declared.PairKind.{PairKind};
ghost use Rattle.closed_forms.specs.Kinds.{IsProper, IsOfKind, HasKind};
ghost use Rattle.closed_forms.specs.Forms.{pairs_of, IsNumber, IsFalling, closed_form, in_algebra};

use gpoly::{GPoly, Term};
use monomials::Expo;
use prime_field::Field;
use std::alloc::{AllocError, Global};

mod binomials;
pub mod laws;
mod terms;
#[cfg(test)]
mod tests;

/// A kind of relation of two variables, here x and y, of which y is the later one.
#[derive(Clone, Copy, Debug, PartialEq, Eq)]
pub enum PairKind {
    /// `y x = x y`
    Commuting,
    /// `y x = q x y`, where q is neither 0 nor 1.
    Quasi { q: u32 },
    /// `y x = x y + delta`, where delta is not 0.
    Weyl { delta: u32 },
    /// `y x = q x y + delta`, where q is neither 0 nor 1, and delta is not 0.
    QWeyl { q: u32, delta: u32 },
    /// `y x = x y + alpha x`, where alpha is not 0.
    LeftLinear { alpha: u32 },
    /// `y x = x y + beta y`, where beta is not 0.
    RightLinear { beta: u32 },
}

/// A number times a power of x times a power of y.
#[derive(Clone, Copy, Debug, PartialEq, Eq)]
pub struct Term2 {
    /// A number of the field, not zero.
    pub coef: u32,
    /// The exponent of x, the variable that comes first.
    pub x: u16,
    /// The exponent of y.
    pub y: u16,
}

/// The kind of the relation `x_j x_i = c x_i x_j + d`, where it has one. Takes no memory.
pub fn kind_of(field: Field, c: u32, d: &GPoly, i: u8, j: u8) -> Option<PairKind>
    requires first { 1 ≤ i }
    requires ordered { i < j }
    requires vars { Each (λ t. j ≤ length t.1) d.now }
    requires c_in_range { c < field }
    requires numbers { HasNumbers field d.now }
    ensures { (n : ℕ) (kind : PairKind) → HasVars n d.now →
        (result ≡ Some kind) ↔ IsOfKind field n i j kind c d.now }
{
    match d.terms() {
        [] => kind_without_term(c),
        [term] => kind_with_term(c, term, i, j),
        _ => None,
    }
}

// The kind where d is zero.
fn kind_without_term(c: u32) -> Option<PairKind>
    ensures { (p n i j : ℕ) (kind : PairKind) → c < p →
        (result ≡ Some kind) ↔ IsOfKind p n i j kind c [] }
{
    match c {
        0 => None,
        1 => Some(PairKind::Commuting),
        q => Some(PairKind::Quasi { q }),
    }
}

// The kind where d is one term.
fn kind_with_term(c: u32, term: &Term, i: u8, j: u8) -> Option<PairKind>
    requires first { 1 ≤ i }
    requires ordered { i < j }
    requires last { j ≤ length term.now.mono }
    requires nonzero { term.now.coef ≢ 0 }
    ensures { (p : ℕ) (kind : PairKind) → c < p → term.now.coef < p → (result ≡ Some kind)
        ↔ IsOfKind p (length term.now.mono) i j kind c (pair_of term.now ∷ []) }
{
    let n = term.mono.len();
    match c {
        0 => None,
        1 => kind_of_commutator(term, i, j),
        q if term.mono == Expo::one(n) => Some(PairKind::QWeyl {
            q,
            delta: term.coef,
        }),
        _ => None,
    }
}

// The kind where d is one term and c is 1.
fn kind_of_commutator(term: &Term, i: u8, j: u8) -> Option<PairKind>
    requires first { 1 ≤ i }
    requires ordered { i < j }
    requires last { j ≤ length term.now.mono }
    requires nonzero { term.now.coef ≢ 0 }
    ensures { (p : ℕ) (kind : PairKind) → term.now.coef < p → (result ≡ Some kind)
        ↔ IsOfKind p (length term.now.mono) i j kind 1 (pair_of term.now ∷ []) }
{
    let n = term.mono.len();
    if term.mono == Expo::one(n) {
        Some(PairKind::Weyl { delta: term.coef })
    } else if term.mono == Expo::var(n, i) {
        Some(PairKind::LeftLinear { alpha: term.coef })
    } else if term.mono == Expo::var(n, j) {
        Some(PairKind::RightLinear { beta: term.coef })
    } else {
        None
    }
}

/// The product `y^a x^b`, in a number of steps that grows as a + b, and with one inversion in the
/// field for each term.
pub fn power_product(
    alloc: Global,
    field: Field,
    kind: &PairKind,
    a: u16,
    b: u16,
) -> Result<Vec<Term2>, AllocError>
    requires proper { IsProper field kind.now }
    requires reach { a + b ≤ 4095 }
    ensures formula { IfOk result (λ r. pairs_of r.items ≡ closed_form field kind.now a b) }
    ensures value { IfOk result (λ r. (A : Algebra) (i j : ℕ) → A.p ≡ field → RewritesDown A →
        HasKind A i j kind.now →
        normal_form A (replicate a j ++ replicate b i) ≡ in_algebra A i j (pairs_of r.items)) }
    ensures falling { IfOk result (λ r. IsFalling (pairs_of r.items)) }
    ensures nonzero { IfOk result (λ r. Each (IsNumber field) (pairs_of r.items)) }
{
    let _p = field.p();
    terms::closed_form(alloc, field, kind, a, b)
}
