//! The polynomial under reduction, and the term of it that is cancelled next.

ghost use Rattle.std.specs.Prelude.{◌≡◌, ℕ, ◌≤◌, ◌++◌, ◌∷◌, [], IfOk, OnOk, MatchOption, length, Some, None};
ghost use Rattle.monomials.specs.Monomials.{Monomial};
ghost use Rattle.monomials.specs.Orders.{order_cmp};
ghost use Rattle.monomials.specs.Polynomials.{Polynomial, Each, HasVars, IsPolynomial, poly_add};
ghost use Rattle.gpoly.specs.Sums.{poly_sum, AreSorted};
ghost use Rattle.left_reduce.specs.Inside.Steps.{target_of, target_by, divisor_by, whole_of, Passes, IsPassed, IsWork, IsNext};

use crate::first_divisor;
use gpoly::{Buckets, GPoly, Term};
use monomials::{Expo, Order};
use prime_field::Field;
use run_records::Elements;
use std::alloc::{AllocError, Global};

// A term to be cancelled, and the number of the first element whose leading monomial divides it.
#[derive(Clone, Copy)]
pub(crate) struct Target {
    pub(crate) term: Term,
    pub(crate) index: u32,
}

// Which term with a divisor a reduction cancels: the leading one alone, the greatest, or the greatest
// behind the leading one.
#[derive(Clone, Copy)]
pub(crate) enum Aim {
    Leading,
    Greatest,
    Tail,
}

impl Aim {
    // The divisor by which a term with this monomial is cancelled, behind those that were passed over.
    fn divisor<B: Elements>(self, basis: &B, passed: &GPoly, mono: &Expo) -> Option<u32>
        requires few { length (B.elements basis.now) ≤ 4294967295 }
        requires vars { Each (HasVars (length mono.now)) (B.elements basis.now) }
        ensures { result ≡ divisor_by self (B.elements basis.now) passed.now mono.now }
    {
        match self {
            Aim::Leading => first_divisor(basis, mono),
            Aim::Greatest => first_divisor(basis, mono),
            Aim::Tail => match passed.leading() {
                Some(_) => first_divisor(basis, mono),
                None => None,
            },
        }
    }
}

// The polynomial under reduction: the terms that were passed over, which stay, and behind them the
// rest, which steps are added to.
#[derive(Drop)]
pub(crate) struct Work {
    passed: GPoly,
    rest: Buckets,
}

impl Work {
    // All of `h` is to be reduced.
    pub(crate) fn new(
        alloc: Global,
        field: Field,
        order: &Order,
        h: GPoly,
    ) -> Result<Work, AllocError>
        requires sorted { IsPolynomial field order.now h }
        ensures passed { IfOk result (λ w. w.passed ≡ []) }
        ensures rest { IfOk result (λ w. poly_sum (order_cmp order.now.rows) field w.rest ≡ h) }
        ensures sorted { IfOk result (λ w. AreSorted field order.now w.rest) }
    {
        let mut rest = Buckets::new(alloc);
        rest.add(alloc, field, order, h)?;
        Ok(Work {
            passed: GPoly::zero(alloc),
            rest,
        })
    }

    // The term to be cancelled next, where there is one. The terms above it are passed over.
    pub(crate) fn target<B: Elements>(
        &mut self,
        field: Field,
        order: &Order,
        basis: &B,
        aim: Aim,
    ) -> Result<Option<Target>, AllocError>
        requires few { length (B.elements basis.now) ≤ 4294967295 }
        requires vars { Each (HasVars order.now.vars) (B.elements basis.now) }
        requires work { IsWork field order.now aim (B.elements basis.now) self.old }
        ensures work { OnOk result (IsWork field order.now aim (B.elements basis.now) self.new) }
        ensures whole { OnOk result (whole_of field order.now self.new ≡ whole_of field order.now self.old) }
        ensures target { IfOk result (λ r. MatchOption r
            (target_by aim (B.elements basis.now) (whole_of field order.now self.new) ≡ None)
            (λ t. target_by aim (B.elements basis.now) (whole_of field order.now self.new) ≡ Some (target_of t))) }
        ensures next { IfOk result (λ r. MatchOption r (Unit {0})
            (λ t. IsNext field order.now (B.elements basis.now) self.new t)) }
    {
        match aim {
            Aim::Leading => Ok(self.leading_target(field, order, basis)),
            Aim::Greatest => self.passing_target(field, order, basis, aim),
            Aim::Tail => self.passing_target(field, order, basis, aim),
        }
    }

    // The leading term, where it has a divisor.
    fn leading_target<B: Elements>(
        &mut self,
        field: Field,
        order: &Order,
        basis: &B,
    ) -> Option<Target>
        requires few { length (B.elements basis.now) ≤ 4294967295 }
        requires vars { Each (HasVars order.now.vars) (B.elements basis.now) }
        requires work { IsWork field order.now Aim.Leading (B.elements basis.now) self.old }
        ensures work { IsWork field order.now Aim.Leading (B.elements basis.now) self.new }
        ensures whole { whole_of field order.now self.new ≡ whole_of field order.now self.old }
        ensures target { MatchOption result
            (target_by Aim.Leading (B.elements basis.now) (whole_of field order.now self.new) ≡ None)
            (λ t. target_by Aim.Leading (B.elements basis.now) (whole_of field order.now self.new) ≡ Some (target_of t)) }
        ensures next { MatchOption result (Unit {0})
            (λ t. IsNext field order.now (B.elements basis.now) self.new t) }
    {
        let term = self.rest.leading(field, order)?;
        let index = first_divisor(basis, &term.mono)?;
        Some(Target { term, index })
    }

    // The greatest term that has a divisor, leading or not, as the aim says.
    fn passing_target<B: Elements>(
        &mut self,
        field: Field,
        order: &Order,
        basis: &B,
        aim: Aim,
    ) -> Result<Option<Target>, AllocError>
        requires few { length (B.elements basis.now) ≤ 4294967295 }
        requires vars { Each (HasVars order.now.vars) (B.elements basis.now) }
        requires passes { Passes aim }
        requires work { IsWork field order.now aim (B.elements basis.now) self.old }
        ensures work { OnOk result (IsWork field order.now aim (B.elements basis.now) self.new) }
        ensures whole { OnOk result (whole_of field order.now self.new ≡ whole_of field order.now self.old) }
        ensures target { IfOk result (λ r. MatchOption r
            (target_by aim (B.elements basis.now) (whole_of field order.now self.new) ≡ None)
            (λ t. target_by aim (B.elements basis.now) (whole_of field order.now self.new) ≡ Some (target_of t))) }
        ensures next { IfOk result (λ r. MatchOption r (Unit {0})
            (λ t. IsNext field order.now (B.elements basis.now) self.new t)) }
    {
        while let Some(term) = self.rest.leading(field, order) {
            if let Some(index) = aim.divisor(basis, &self.passed, &term.mono) {
                return Ok(Some(Target { term, index }));
            }
            self.pass(field, order)?;
        }
        Ok(None)
    }

    // Passes over the leading term of the rest.
    fn pass(&mut self, field: Field, order: &Order) -> Result<(), AllocError>
        requires sorted { AreSorted field order.now self.old.rest }
        requires whole { IsPolynomial field order.now (whole_of field order.now self.old) }
        ensures sorted { OnOk result (AreSorted field order.now self.new.rest) }
        ensures moved { OnOk result ((t : ℕ × Monomial) → (r : Polynomial) →
            poly_sum (order_cmp order.now.rows) field self.old.rest ≡ t ∷ r →
            self.new.passed ≡ self.old.passed ++ t ∷ []
            × poly_sum (order_cmp order.now.rows) field self.new.rest ≡ r) }
    {
        let _facts = self.passed.terms();
        if let Some(term) = self.rest.take_leading(field, order) {
            self.passed.push(term)?;
        }
        Ok(())
    }

    // Adds a polynomial to the rest.
    pub(crate) fn add(
        &mut self,
        alloc: Global,
        field: Field,
        order: &Order,
        f: GPoly,
    ) -> Result<(), AllocError>
        requires sorted { AreSorted field order.now self.old.rest }
        requires f_sorted { IsPolynomial field order.now f }
        ensures sorted { AreSorted field order.now self.new.rest }
        ensures passed { self.new.passed ≡ self.old.passed }
        ensures rest { OnOk result (poly_sum (order_cmp order.now.rows) field self.new.rest
            ≡ poly_add (order_cmp order.now.rows) field (poly_sum (order_cmp order.now.rows) field self.old.rest) f) }
    {
        self.rest.add(alloc, field, order, f)
    }

    // The polynomial.
    pub(crate) fn into_poly(
        self,
        alloc: Global,
        field: Field,
        order: &Order,
    ) -> Result<GPoly, AllocError>
        requires sorted { AreSorted field order.now self.rest }
        requires whole { IsPolynomial field order.now (whole_of field order.now self) }
        ensures { IfOk result (λ r. r ≡ whole_of field order.now self) }
    {
        let rest = self.rest.into_poly(alloc, field, order)?;
        if self.passed.is_zero() {
            return Ok(rest);
        }
        let mut whole = self.passed;
        let _front = whole.terms();
        let _behind = rest.terms();
        whole.append(&rest)?;
        Ok(whole)
    }
}
