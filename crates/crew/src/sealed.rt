//! Reductions that a worker makes over what it sees.

ghost use Rattle.std.specs.Prelude.{◌≡◌, ◌≢◌, ◌+◌, ◌≤◌, ℕ, IsTrue, ◌↔◌, IfOk, IfSome, MatchOption, Some, None, [], List, length};
ghost use Rattle.monomials.specs.Polynomials.{Polynomial, Each, HasVars, IsPolynomial};
ghost use Rattle.monomials.specs.Leading.{leading_monomial};
ghost use Rattle.word_model.specs.Reduction.{element, Target, leading_target};
ghost use Rattle.word_model.specs.Jobs.{IsJob};
ghost use Rattle.word_model.specs.Machine.{IsElement};
ghost use Rattle.gproduct.specs.Seats.{Keeps};
ghost use Rattle.left_reduce.specs.Reductions.{start_count};
ghost use Rattle.commit_core.specs.Specs.{IsGood, spec_over};
ghost use Rattle.crew.specs.Sealing.{Agrees, SameStart};
ghost use Rattle.crew.specs.Inside.Comparing.{AreSame};

use crate::compared::Compared;
use crate::shelf::{Seen, ShelfView};
use algebra::Algebra;
use commit_core::{Lead, spec_over};
use gpoly::GPoly;
use gproduct::{Steps, TableSeat};
use left_reduce::first_divisor;
use run_records::{Elements, Job, Spec};
use std::alloc::{AllocError, Global};
use std::marker::Model;
use std::sync::ledger::Ledger;

/// A Spec with what it was made over: an algebra, generators, and elements that were seen on a shelf.
/// Its type keeps that the Spec is good for that, and holds references, so that whoever receives it
/// compares by value what it relies on.
#[derive(Drop)]
pub struct Sealed<'s, 'r> {
    algebra: &'r Algebra,
    gens: &'s [GPoly],
    used: Seen<'s>,
    spec: Spec,
}

impl<'s, 'r> Model for Sealed<'s, 'r> {
    ghost use Rattle.crew.specs.Sealing.{SealedSpec, IsSealed};

    ghost Value = { SealedSpec };

    ghost view = { λ s. record { algebra = s.algebra.now; generators = s.gens.now; elements = s.used; spec = s.spec } };

    ghost invariant = { λ s. IsSealed (record { algebra = s.algebra.now; generators = s.gens.now; elements = s.used; spec = s.spec }) };
}

impl<'s, 'r> Sealed<'s, 'r> {
    /// The start of a job, reduced by all elements of the view, as a worker makes it ahead. `None` comes
    /// exactly where the view lacks an element that the job names, or the start is undefined. Counts the
    /// products of the start, and one for each step.
    pub fn made<L: Ledger>(
        alloc: Global,
        seat: &mut TableSeat<'s, 'r>,
        view: &ShelfView<'s>,
        gens: &'s [GPoly],
        job: &Job,
        steps: &mut Steps<L>,
    ) -> Result<Option<Sealed<'s, 'r>>, AllocError>
        requires generators { Each (IsPolynomial seat.old.algebra.p seat.old.algebra.order) gens.now }
        requires elements { Each (IsElement seat.old.algebra) view.now }
        requires job { (m : ℕ) × IsJob (length gens.now) m seat.old.algebra.order.vars job.now }
        requires seed { (s : ℕ) → job.now ≡ Job.Seed s → element gens.now s ≢ [] }
        ensures made { IfOk result (λ o. MatchOption o
            (spec_over seat.old.algebra gens.now view.now (length view.now) job.now ≡ None)
            (λ s. spec_over seat.old.algebra gens.now view.now (length view.now) job.now ≡ Some s.spec)) }
        ensures over { IfOk result (λ o. IfSome o (λ s. (s.algebra ≡ seat.old.algebra) × (s.generators ≡ gens.now)
            × (s.elements ≡ view.now))) }
        ensures counted { IfOk result (λ o. IfSome o (λ s.
            steps.new ≡ steps.old + (start_count job.now + length s.spec.trace))) }
        ensures algebra { seat.new.algebra ≡ seat.old.algebra }
        ensures kept { Keeps seat.old seat.new }
    {
        let algebra = seat.algebra();
        let _n = algebra.n();
        let used = view.seen(alloc)?;
        match spec_over(alloc, seat, view, gens, job, steps)? {
            Some(spec) => Ok(Some(Sealed {
                algebra,
                gens,
                used,
                spec,
            })),
            None => Ok(None),
        }
    }

    /// The Spec, where it agrees with the lead, for which it is good then. `alg` is the lead's algebra.
    /// `None` comes exactly where the algebras differ, or what the job's start is made of, or the lead
    /// has fewer elements than the prefix, or a leading monomial of the prefix differs, or an element
    /// that a step uses, or the element of a step that is undefined, before which the trace ends. Takes
    /// no memory.
    pub fn unseal(self, alg: &Algebra, lead: &Lead) -> Option<Spec>
        requires algebra { alg.now ≡ lead.now.algebra }
        ensures agrees { MatchOption result (¬ (Agrees self.entry lead.now)) (λ s. Agrees self.entry lead.now × (s ≡ self.entry.spec)) }
        ensures good { IfSome result (IsGood lead.now.algebra lead.now.generators lead.now.basis) }
    {
        let _n = alg.n();
        let basis = lead.basis();
        if !self.algebra.same(alg) || !self.same_start(lead) || basis.len() < self.used.count() {
            return None;
        }
        if !same_leads(&self.used, basis) {
            return None;
        }
        if !self.same_steps(basis) {
            return None;
        }
        if !self.same_undefined(basis) {
            return None;
        }
        let Sealed { spec, .. } = self;
        Some(spec)
    }

    // Whether the lead has what the start is made of.
    fn same_start(&self, lead: &Lead) -> bool
        ensures { IsTrue result ↔ SameStart self.now.generators self.now.elements lead.now.generators lead.now.basis self.now.spec.job }
    {
        let basis = lead.basis();
        match self.spec.job {
            Job::Seed { s } => {
                let gens = lead.generators();
                s as usize <= gens.len() && same(at(self.gens, s), at(gens, s))
            }
            Job::Pair { i, j } => {
                same(self.used.get(i), at(basis, i)) && same(self.used.get(j), at(basis, j))
            }
            Job::Right { i, .. } => same(self.used.get(i), at(basis, i)),
        }
    }

    // Whether the elements of all steps are the same. Each is compared once, though many steps use it.
    fn same_steps(&self, basis: &Vec<GPoly>) -> bool
        ensures { IsTrue result ↔ Each (λ step. element self.now.elements step.index ≡ element basis.now.items step.index) self.now.spec.trace }
    {
        let mut compared = Compared::none();
        for step in self.spec.trace.steps() {
            if !self.same_used(basis, step.index, &mut compared) {
                return false;
            }
        }
        true
    }

    // Whether the element of this number is the same.
    fn same_used(&self, basis: &Vec<GPoly>, i: u32, compared: &mut Compared) -> bool
        requires compared { AreSame self.now.elements basis.now.items compared.old }
        ensures same { IsTrue result ↔ (element self.now.elements i ≡ element basis.now.items i) }
        ensures compared { AreSame self.now.elements basis.now.items compared.new }
    {
        if compared.has(i) {
            return true;
        }
        if !same(self.used.get(i), at(basis, i)) {
            return false;
        }
        compared.note(i);
        true
    }

    // Whether the element is the same of the step that comes next and is undefined, where there is one.
    fn same_undefined(&self, basis: &Vec<GPoly>) -> bool
        ensures { IsTrue result ↔ ((t : Target) → leading_target self.now.elements self.now.spec.rest ≡ Some t →
            element self.now.elements t.1 ≡ element basis.now.items t.1) }
    {
        let _n = self.algebra.n();
        let _few = self.used.last();
        match next_index(&self.used, &self.spec.rest) {
            Some(i) => same(self.used.get(i), at(basis, i)),
            None => true,
        }
    }
}

// The number of the element by which a reduction of `h` goes on, or at which it stops.
fn next_index<B: Elements>(elements: &B, h: &GPoly) -> Option<u32>
    requires few { length (B.elements elements.now) ≤ 4294967295 }
    requires vars { (n : ℕ) × HasVars n h.now × Each (HasVars n) (B.elements elements.now) }
    ensures { MatchOption result (leading_target (B.elements elements.now) h.now ≡ None)
        (λ i. (t : Target) × (leading_target (B.elements elements.now) h.now ≡ Some t) × (t.1 ≡ i)) }
{
    let term = h.leading()?;
    first_divisor(elements, &term.mono)
}

// The polynomial of number `i`, counted from 1, where there is one.
fn at(polys: &[GPoly], i: u32) -> Option<&GPoly>
    ensures { MatchOption result (element polys.now i ≡ []) (λ p. p.now ≡ element polys.now i) }
{
    polys.get((i as usize).saturating_sub(1))
}

// Whether two polynomials are the same; one that is not there is zero.
fn same(a: Option<&GPoly>, b: Option<&GPoly>) -> bool
    ensures { (f g : Polynomial) → MatchOption a.entry (f ≡ []) (λ p. p.now ≡ f) → MatchOption b.entry (g ≡ []) (λ p. p.now ≡ g) →
        (IsTrue result ↔ (f ≡ g)) }
{
    match (a, b) {
        (Some(a), Some(b)) => a.equals(b),
        (Some(a), None) => a.is_zero(),
        (None, Some(b)) => b.is_zero(),
        (None, None) => true,
    }
}

// Whether the leading monomials of the first elements are the same.
fn same_leads(used: &Seen, basis: &Vec<GPoly>) -> bool
    requires within { length used.now ≤ length basis.now.items }
    requires used { Each (λ g. g ≢ []) used.now }
    requires basis { Each (λ g. g ≢ []) basis.now.items }
    ensures { IsTrue result ↔ ((k : ℕ) → 1 ≤ k → k ≤ length used.now →
        leading_monomial (element used.now k) ≡ leading_monomial (element basis.now.items k)) }
{
    for k in 1..=used.last() {
        if !same_lead(used.at(k), &basis[k as usize - 1]) {
            return false;
        }
    }
    true
}

// Whether two leading monomials are the same.
fn same_lead(f: &GPoly, g: &GPoly) -> bool
    requires f_nonzero { f.now ≢ [] }
    requires g_nonzero { g.now ≢ [] }
    ensures { IsTrue result ↔ (leading_monomial f.now ≡ leading_monomial g.now) }
{
    f.terms()[0].mono == g.terms()[0].mono
}
