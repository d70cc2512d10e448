//! G-algebras by their relations, and products in them.
#![tactic(auto)]

ghost use Rattle.std.specs.Prelude.{◌≡◌, ℕ, ◌+◌, ◌-◌, ◌*◌, ◌/◌, ◌<◌, ◌≤◌, IfOk, OnOk, IfErr, None, [], length, replicate};
ghost use Rattle.monomials.specs.Polynomials.{Each, IsPolynomial};
ghost use Rattle.prime_field.specs.Modular.{IsPrime};
ghost use Rattle.word_model.specs.Words.{c_of, d_of};
ghost use Rattle.word_model.specs.Conditions.{relations_fault, IsAlgebraData, IsGAlgebra};
ghost use Rattle.algebra.specs.Faults.{Reports};

use gpoly::GPoly;
use monomials::Order;
use presentation::Presentation;
use prime_field::Field;
use std::alloc::{AllocError, Global};
use std::marker::Model;

mod comparing;
mod conditions;
pub mod laws;
mod numbering;
mod presentation;
mod product;
mod reordering;
mod rewriting;
mod word;

pub use numbering::pair_index;
pub use product::{DEGREE_LIMIT, in_reach};

/// The relations x_j x_i = c_ij x_i x_j + d_ij, an item of each list for each pair i < j of the
/// numbers of variables, in lexicographic order: (1, 2), (1, 3), .., (2, 3), ..
#[derive(Drop)]
pub struct Relations {
    pub c: Vec<u32>,
    pub d: Vec<GPoly>,
}

/// Why relations are no G-algebra: the first condition that fails. All pairs i < j are tested in
/// lexicographic order, each for its three conditions, and then all triples i < j < k.
#[derive(Debug, Drop)]
pub enum AlgebraFault {
    /// c_ij is zero.
    Coefficient { i: u8, j: u8 },
    /// d_ij has a degree above 2.
    Profile { i: u8, j: u8 },
    /// d_ij is not zero, and its leading monomial is not below x_i x_j.
    Ordering { i: u8, j: u8 },
    /// The two rewritings of x_k x_j x_i differ, by `rest`.
    NonDegeneracy { i: u8, j: u8, k: u8, rest: GPoly },
    /// Out of memory.
    Memory,
}

impl From<AllocError> for AlgebraFault {
    ghost use Rattle.std.specs.Prelude.{◌≡◌};
    ghost use Rattle.algebra.specs.declared.AlgebraFault.TheVariants.{Memory};

    ghost from_gives = { λ _ fault. fault ≡ Memory };

    fn from(_error: AllocError) -> AlgebraFault {
        AlgebraFault::Memory
    }
}

/// Why a product is not computed.
#[derive(Debug, Drop)]
pub enum ProductFault {
    /// Both factors are nonzero, and their degrees add up to more than 4095.
    DegreeOver,
    /// Out of memory.
    Memory,
}

impl From<AllocError> for ProductFault {
    ghost use Rattle.std.specs.Prelude.{◌≡◌};
    ghost use Rattle.algebra.specs.declared.ProductFault.TheVariants.{Memory};

    ghost from_gives = { λ _ fault. fault ≡ Memory };

    fn from(_error: AllocError) -> ProductFault {
        ProductFault::Memory
    }
}

/// A G-algebra in 1 to 16 variables over a prime field: relations without a fault, with an order.
#[derive(Drop)]
pub struct Algebra {
    presentation: Presentation,
}

impl Model for Algebra {
    ghost use Rattle.std.specs.Prelude.{◌≡◌, None};
    ghost use Rattle.word_model.specs.Words.{Algebra as GAlgebra};
    ghost use Rattle.word_model.specs.Conditions.{relations_fault};

    ghost Value = { GAlgebra };

    ghost view = { λ a. a.presentation };

    ghost invariant = { λ a. relations_fault a.presentation ≡ None };
}

impl Algebra {
    /// The algebra of these relations, in `n` variables, or the first condition that fails.
    pub fn new(
        alloc: Global,
        field: Field,
        order: Order,
        n: usize,
        rel: Relations,
    ) -> Result<Algebra, AlgebraFault>
        requires vars { order.vars ≡ n }
        requires numbers { Each (λ c. c < field) rel.c.items }
        requires polynomials { Each (IsPolynomial field order) rel.d.items }
        requires one_number_each { 2 * length rel.c.items ≡ n * (n - 1) }
        requires one_polynomial_each { length rel.d.items ≡ length rel.c.items }
        ensures algebra { IfOk result (λ a. a ≡ record { p = field; order = order; c = rel.c.items; d = rel.d.items }) }
        ensures accepted { OnOk result (relations_fault
            (record { p = field; order = order; c = rel.c.items; d = rel.d.items }) ≡ None) }
        ensures fault { IfErr result (Reports (record { p = field; order = order; c = rel.c.items; d = rel.d.items })) }
    {
        let presentation = Presentation::of(field, order, n, rel);
        presentation.test_pairs()?;
        presentation.test_triples(alloc)?;
        Ok(Algebra { presentation })
    }

    /// The polynomial ring in `n` variables: each c_ij is 1, and each d_ij is zero.
    pub fn commuting(
        alloc: Global,
        field: Field,
        order: Order,
        n: usize,
    ) -> Result<Algebra, AllocError>
        requires { order.vars ≡ n }
        ensures { let pairs = n * (n - 1) / 2 in
            IfOk result (λ a.
            a ≡ record { p = field; order = order; c = replicate pairs 1; d = replicate pairs [] }) }
    {
        let rel = Relations::commuting(alloc, n)?;
        let presentation = Presentation::of(field, order, n, rel);
        Ok(Algebra { presentation })
    }

    /// The field.
    pub fn field(&self) -> Field
        ensures { result ≡ self.now.p }
    {
        self.presentation.field()
    }

    /// The order.
    pub fn order(&self) -> &Order
        ensures { result.now ≡ self.now.order }
    {
        self.presentation.order()
    }

    /// The number of variables, and what holds of each algebra.
    pub fn n(&self) -> usize
        ensures value { result ≡ self.now.order.vars }
        ensures not_empty { 1 ≤ result }
        ensures at_most { result ≤ 16 }
        ensures accepted { IsGAlgebra self.now }
        ensures data { IsAlgebraData self.now }
        ensures prime { IsPrime self.now.p }
    {
        self.presentation.n()
    }

    /// The number c_ij of the relation of x_i and x_j.
    pub fn c(&self, i: u8, j: u8) -> u32
        requires first { 1 ≤ i }
        requires pair { i < j }
        requires last { j ≤ self.now.order.vars }
        ensures { result ≡ c_of self.now i j }
    {
        self.presentation.c(i, j)
    }

    /// The polynomial d_ij of the relation of x_i and x_j.
    pub fn d(&self, i: u8, j: u8) -> &GPoly
        requires first { 1 ≤ i }
        requires pair { i < j }
        requires last { j ≤ self.now.order.vars }
        ensures { result.now ≡ d_of self.now i j }
    {
        self.presentation.d(i, j)
    }
}

#[cfg(test)]
mod tests;
