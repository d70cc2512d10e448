//! The relations of an algebra, with its field and its order.

ghost use Rattle.std.specs.Prelude.{◌≡◌, ℕ, ◌+◌, ◌-◌, ◌*◌, ◌/◌, ◌<◌, ◌≤◌, ◌↔◌, IsTrue, IfOk, [], length, replicate};
ghost use Rattle.monomials.specs.Polynomials.{Each, HasNumbers, IsPolynomial};
ghost use Rattle.prime_field.specs.Modular.{IsPrime};
ghost use Rattle.word_model.specs.Words.{c_of, d_of, pair_index};
ghost use Rattle.word_model.specs.Conditions.{IsAlgebraData};
ghost use Rattle.algebra.specs.Reordered.{reordered};

use crate::Relations;
use crate::numbering::pair_index;
use gpoly::GPoly;
use monomials::Order;
use prime_field::Field;
use std::alloc::{AllocError, Global};
use std::marker::Model;

impl Relations {
    /// Those of the polynomial ring in `n` variables.
    pub(crate) fn commuting(alloc: Global, n: usize) -> Result<Relations, AllocError>
        requires some { 1 ≤ n }
        requires few { n ≤ 16 }
        ensures numbers { IfOk result (λ r. r.c.items ≡ replicate (n * (n - 1) / 2) 1) }
        ensures polynomials { IfOk result (λ r. r.d.items ≡ replicate (n * (n - 1) / 2) []) }
    {
        let pairs = n * (n - 1) / 2;
        let c = vec![in alloc; 1; pairs]?;
        let d = gpoly::zeros(alloc, pairs)?;
        Ok(Relations { c, d })
    }
}

/// What an algebra is made of, before its conditions are tested.
#[derive(Drop)]
pub(crate) struct Presentation {
    field: Field,
    order: Order,
    c: Vec<u32>,
    d: Vec<GPoly>,
}

impl Model for Presentation {
    ghost use Rattle.word_model.specs.Words.{Algebra as GAlgebra};

    ghost Value = { GAlgebra };

    ghost use Rattle.algebra.specs.Inside.Presentations.{presented, IsPresentation};

    ghost view = { presented };

    ghost invariant = { IsPresentation };
}

impl Presentation {
    /// The presentation by relations in `n` variables.
    pub(crate) fn of(field: Field, order: Order, n: usize, rel: Relations) -> Presentation
        requires vars { order.vars ≡ n }
        requires numbers { Each (λ c. c < field) rel.c.items }
        requires polynomials { Each (IsPolynomial field order) rel.d.items }
        requires one_number_each { 2 * length rel.c.items ≡ n * (n - 1) }
        requires one_polynomial_each { length rel.d.items ≡ length rel.c.items }
        ensures { result ≡ record { p = field; order = order; c = rel.c.items; d = rel.d.items } }
    {
        let Relations { c, d } = rel;
        Presentation { field, order, c, d }
    }

    /// The same relations, with their polynomials sorted by another order of the variables.
    pub(crate) fn reordered(&self, alloc: Global, order: &Order) -> Result<Presentation, AllocError>
        requires { order.now.vars ≡ self.now.order.vars }
        ensures { IfOk result (λ a. a ≡ reordered order.now self.now) }
    {
        let field = self.field();
        let c = Vec::from_slice(alloc, &self.c)?;
        let mut d = Vec::new(alloc);
        for poly in &self.d {
            d.push(poly.reorder(alloc, order)?)?;
        }
        Ok(Presentation {
            field,
            order: order.copy(alloc)?,
            c,
            d,
        })
    }

    /// Whether field, order and relations are the same.
    pub(crate) fn same(&self, other: &Presentation) -> bool
        ensures { IsTrue result ↔ (self.now ≡ other.now) }
    {
        self.field.p() == other.field.p()
            && self.order.same(&other.order)
            && self.c == other.c
            && same_polynomials(&self.d, &other.d)
    }

    pub(crate) fn field(&self) -> Field
        ensures value { result ≡ self.now.p }
        ensures prime { IsPrime self.now.p }
    {
        let _p = self.field.p();
        self.field
    }

    pub(crate) fn order(&self) -> &Order
        ensures { result.now ≡ self.now.order }
    {
        &self.order
    }

    pub(crate) fn n(&self) -> usize
        ensures value { result ≡ self.now.order.vars }
        ensures not_empty { 1 ≤ result }
        ensures at_most { result ≤ 16 }
        ensures data { IsAlgebraData self.now }
        ensures prime { IsPrime self.now.p }
    {
        let _p = self.field.p();
        self.order.vars()
    }

    pub(crate) fn c(&self, i: u8, j: u8) -> u32
        requires first { 1 ≤ i }
        requires pair { i < j }
        requires last { j ≤ self.now.order.vars }
        ensures value { result ≡ c_of self.now i j }
        ensures in_range { result < self.now.p }
    {
        self.c[self.pair_index(i, j)]
    }

    pub(crate) fn d(&self, i: u8, j: u8) -> &GPoly
        requires first { 1 ≤ i }
        requires pair { i < j }
        requires last { j ≤ self.now.order.vars }
        ensures value { result.now ≡ d_of self.now i j }
        ensures polynomial { IsPolynomial self.now.p self.now.order result.now }
        ensures numbers { HasNumbers self.now.p result.now }
    {
        &self.d[self.pair_index(i, j)]
    }

    // The place of a pair in both lists.
    fn pair_index(&self, i: u8, j: u8) -> usize
        requires first { 1 ≤ i }
        requires pair { i < j }
        requires last { j ≤ self.now.order.vars }
        ensures value { result ≡ pair_index self.now.order.vars i j }
        ensures number { result < length self.now.c }
        ensures polynomial { result < length self.now.d }
    {
        pair_index(self.order.vars(), i, j)
    }
}

// Whether the lists have the same polynomials.
fn same_polynomials(d: &[GPoly], e: &[GPoly]) -> bool
    ensures { IsTrue result ↔ (d.now ≡ e.now) }
{
    if d.len() != e.len() {
        return false;
    }
    for i in 0..d.len() {
        if !d[i].equals(&e[i]) {
            return false;
        }
    }
    true
}
