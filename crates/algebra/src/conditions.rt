//! The conditions on the relations of an algebra.

ghost use Rattle.std.specs.Prelude.{◌≡◌, ◌+◌, ◌<◌, ◌≤◌, IfOk, length};
ghost use Rattle.monomials.specs.Polynomials.{IsPolynomial};
ghost use Rattle.word_model.specs.Words.{RewritesDown, d_of};
ghost use Rattle.word_model.specs.Conditions.{is_below, overlap, pair_fault, pairs_fault, triple_fault, triple_rest, triples_fault};
ghost use Rattle.algebra.specs.Inside.Tests.{Answers, Finds, row_fault, line_fault, plane_fault};
ghost use Rattle.algebra.specs.Inside.WordSums.{words_of, reduced};

use crate::presentation::Presentation;
use crate::rewriting::{WordTerm, push_between};
use crate::{AlgebraFault, word};
use gpoly::GPoly;
use std::alloc::{AllocError, Global};
use std::cmp::Ordering;

impl Presentation {
    /// Tests all pairs.
    pub(crate) fn test_pairs(&self) -> Result<(), AlgebraFault>
        ensures { Finds (pairs_fault self.now) result }
    {
        let n = self.n() as u8;
        for i in 1..n + 1 {
            self.test_row(i)?;
        }
        Ok(())
    }

    // Tests the pairs of x_i with later variables.
    fn test_row(&self, i: u8) -> Result<(), AlgebraFault>
        requires first { 1 ≤ i }
        requires last { i ≤ self.now.order.vars }
        ensures { Finds (row_fault self.now i) result }
    {
        let n = self.n() as u8;
        for j in i + 1..n + 1 {
            self.test_pair(i, j)?;
        }
        Ok(())
    }

    // Tests the three conditions on a pair.
    fn test_pair(&self, i: u8, j: u8) -> Result<(), AlgebraFault>
        requires first { 1 ≤ i }
        requires pair { i < j }
        requires last { j ≤ self.now.order.vars }
        ensures { Finds (pair_fault self.now i j) result }
    {
        if self.c(i, j) == 0 {
            Err(AlgebraFault::Coefficient { i, j })
        } else if self.d(i, j).degree() > 2 {
            Err(AlgebraFault::Profile { i, j })
        } else if !self.is_below(i, j) {
            Err(AlgebraFault::Ordering { i, j })
        } else {
            Ok(())
        }
    }

    // Whether d_ij is zero, or its leading monomial is below x_i x_j.
    fn is_below(&self, i: u8, j: u8) -> bool
        requires first { 1 ≤ i }
        requires pair { i < j }
        requires last { j ≤ self.now.order.vars }
        ensures { result ≡ is_below self.now i j (d_of self.now i j) }
    {
        match self.d(i, j).terms().first() {
            None => true,
            Some(leading) => {
                let pair = word::monomial_of(self.n(), &[i, j]);
                self.order().compare(&leading.mono, &pair) == Ordering::Less
            }
        }
    }

    /// Tests all triples.
    pub(crate) fn test_triples(&self, alloc: Global) -> Result<(), AlgebraFault>
        requires { RewritesDown self.now }
        ensures { Answers (triples_fault self.now) result }
    {
        let n = self.n() as u8;
        for i in 1..n + 1 {
            self.test_plane(alloc, i)?;
        }
        Ok(())
    }

    // Tests the triples of x_i with later variables.
    fn test_plane(&self, alloc: Global, i: u8) -> Result<(), AlgebraFault>
        requires downward { RewritesDown self.now }
        requires first { 1 ≤ i }
        requires last { i ≤ self.now.order.vars }
        ensures { Answers (plane_fault self.now i) result }
    {
        let n = self.n() as u8;
        for j in i + 1..n + 1 {
            self.test_line(alloc, i, j)?;
        }
        Ok(())
    }

    // Tests the triples of x_i and x_j with later variables.
    fn test_line(&self, alloc: Global, i: u8, j: u8) -> Result<(), AlgebraFault>
        requires downward { RewritesDown self.now }
        requires first { 1 ≤ i }
        requires pair { i < j }
        requires last { j ≤ self.now.order.vars }
        ensures { Answers (line_fault self.now i j) result }
    {
        let n = self.n() as u8;
        for k in j + 1..n + 1 {
            self.test_triple(alloc, i, j, k)?;
        }
        Ok(())
    }

    // Tests the condition on a triple.
    fn test_triple(&self, alloc: Global, i: u8, j: u8, k: u8) -> Result<(), AlgebraFault>
        requires downward { RewritesDown self.now }
        requires first { 1 ≤ i }
        requires second { i < j }
        requires third { j < k }
        requires last { k ≤ self.now.order.vars }
        ensures { Answers (triple_fault self.now i j k) result }
    {
        let rest = self.triple_rest(alloc, i, j, k)?;
        if rest.is_zero() {
            Ok(())
        } else {
            Err(AlgebraFault::NonDegeneracy { i, j, k, rest })
        }
    }

    // The difference of the two rewritings of x_k x_j x_i.
    fn triple_rest(&self, alloc: Global, i: u8, j: u8, k: u8) -> Result<GPoly, AllocError>
        requires downward { RewritesDown self.now }
        requires first { 1 ≤ i }
        requires second { i < j }
        requires third { j < k }
        requires last { k ≤ self.now.order.vars }
        ensures { IfOk result (λ r. r ≡ triple_rest self.now i j k) }
    {
        let _p = self.field();
        let words = self.overlap(alloc, i, j, k)?;
        self.word_value(alloc, words)
    }

    // The sum of words whose value that difference is.
    fn overlap(&self, alloc: Global, i: u8, j: u8, k: u8) -> Result<Vec<WordTerm>, AllocError>
        requires first { 1 ≤ i }
        requires second { i < j }
        requires third { j < k }
        requires last { k ≤ self.now.order.vars }
        ensures { IfOk result (λ r. words_of r.items ≡ reduced self.now.p (overlap self.now i j k)) }
    {
        let field = self.field();
        let (c_ij, c_ik, c_jk) = (self.c(i, j), self.c(i, k), self.c(j, k));
        let (d_ij, d_ik, d_jk) = (self.d(i, j), self.d(i, k), self.d(j, k));
        let c_ik_jk = field.mul(c_ik, c_jk);
        let c_ij_ik = field.mul(c_ij, c_ik);
        let mut words = Vec::new(alloc);
        push_between(alloc, &mut words, field, c_ik_jk, &[], d_ij, &[k])?;
        push_between(alloc, &mut words, field, field.neg(1), &[k], d_ij, &[])?;
        push_between(alloc, &mut words, field, c_jk, &[j], d_ik, &[])?;
        push_between(alloc, &mut words, field, field.neg(c_ij), &[], d_ik, &[j])?;
        push_between(alloc, &mut words, field, 1, &[], d_jk, &[i])?;
        push_between(
            alloc,
            &mut words,
            field,
            field.neg(c_ij_ik),
            &[i],
            d_jk,
            &[],
        )?;
        Ok(words)
    }
}
