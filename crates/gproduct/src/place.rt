//! Places of a table, and their values.

ghost use Rattle.std.specs.Prelude.{◌≡◌, ◌<◌, ◌≤◌, ◌↔◌, IsTrue, IfOk};
ghost use Rattle.monomials.specs.Polynomials.{IsPolynomial};
ghost use Rattle.gproduct.specs.Places.{IsPlace, place_value, cell_of};

use crate::kinds::kind_at;
use crate::swap::Swap;
use algebra::Algebra;
use gpoly::GPoly;
use std::alloc::{AllocError, Global};
use word_model::events::Place;

/// The greatest exponent of a place.
pub(crate) const MOST_EXPONENT: u16 = 16;

// The number of a place's cell in a table over n variables, counted from 0.
pub(crate) fn cell(place: Place, n: usize) -> usize
    requires first { 1 ≤ place.i }
    requires ordered { place.i < place.j }
    requires last { place.j ≤ n }
    requires a_some { 1 ≤ place.a }
    requires b_some { 1 ≤ place.b }
    requires few { n ≤ 16 }
    ensures { result ≡ cell_of n place }
{
    let (i, j) = (usize::from(place.i), usize::from(place.j));
    let (a, b) = (usize::from(place.a), usize::from(place.b));
    let pair = (i - 1) * (2 * n - i) / 2 + (j - i - 1);
    pair * 256 + ((a - 1) * 16 + (b - 1))
}

// The product of a place, with exponents that may be greater.
pub(crate) fn swap_of(place: Place) -> Swap
    ensures { result ≡ record { i = place.i; j = place.j; a = place.a; b = place.b } }
{
    Swap {
        i: place.i,
        j: place.j,
        a: u16::from(place.a),
        b: u16::from(place.b),
    }
}

// Whether two places are the same.
pub(crate) fn same_place(a: Place, b: Place) -> bool
    ensures { IsTrue result ↔ (a ≡ b) }
{
    a == b
}

/// The normal form of a place's product.
pub fn value_of(alloc: Global, alg: &Algebra, place: Place) -> Result<GPoly, AllocError>
    requires place { IsPlace alg.now place }
    ensures value { IfOk result (λ r. r ≡ place_value alg.now place) }
    ensures sorted { IfOk result (λ r. IsPolynomial alg.now.p alg.now.order r) }
{
    let _n = alg.n();
    let kind = kind_at(alg, place.i, place.j);
    swap_of(place).value(alloc, alg, kind)
}
