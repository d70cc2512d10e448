//! The records of a run, and what makes one: an engine.
#![tactic(auto)]

ghost use Rattle.std.specs.Prelude.{◌≡◌, ◌≤◌, IfOk, List, length};
ghost use Rattle.monomials.specs.Polynomials.{Polynomial, Each, IsPolynomial};
ghost use Rattle.word_model.specs.Reduction.{element};
ghost use Rattle.word_model.specs.Bases.{RunLaws};
ghost use Rattle.word_model.specs.Machine.{machine};

use algebra::Algebra;
pub use bases::runs_have_laws;
use gpoly::GPoly;
use std::alloc::{AllocError, Global};
use std::marker::Model;
pub use word_model::records::{Entry, Job, Mode, Outcome, Trace, TraceStep};

/// A run of the machine: what it did with its jobs in order, the basis that it made, and how it
/// ended. The basis of a `Finished` run is a Gröbner basis of the ideal that the generators generate,
/// by the clause `run` of `Engine::basis`.
#[derive(Debug, Drop)]
pub struct Journal {
    pub entries: Vec<Entry>,
    pub basis: Vec<GPoly>,
    pub outcome: Outcome,
}

impl Model for Journal {
    ghost use Rattle.word_model.specs.Machine.{Journal as Run};

    ghost Value = { Run };

    ghost view = { λ j. record { entries = j.entries.items; basis = j.basis.items; outcome = j.outcome } };
}

/// The finished list of a basis, ascending by leading monomials: each element with its number in
/// the basis and the steps by which its tail was reduced. Numbers count from 1.
#[derive(Debug, Drop)]
pub struct Finished {
    pub list: Vec<GPoly>,
    pub origin: Vec<u32>,
    pub tails: Vec<Trace>,
}

impl Model for Finished {
    ghost use Rattle.word_model.specs.Finished.{FinishedList};

    ghost Value = { FinishedList };

    ghost view = { λ f. record { list = f.list.items; origin = f.origin.items; tails = f.tails.items } };
}

/// The certificate of a basis: the entries that made its elements, in order, and its finished list.
/// Who repeats its products sees that each element of the list is in the ideal of the generators.
#[derive(Debug, Drop)]
pub struct Chain {
    pub journal_lines: Vec<Entry>,
    pub finished: Finished,
}

impl Model for Chain {
    ghost use Rattle.word_model.specs.Certificates.{Certificate};

    ghost Value = { Certificate };

    ghost view = { λ c. record { lines = c.journal_lines.items; finished = c.finished } };
}

/// A row of cofactors: a polynomial for each generator. It stands for the sum of each times its
/// generator.
#[derive(Debug, Drop)]
pub struct Row {
    pub entries: Vec<GPoly>,
}

impl Model for Row {
    ghost use Rattle.word_model.specs.Cofactors.{Row as Cofactors};

    ghost Value = { Cofactors };

    ghost view = { λ r. r.entries.items };
}

impl Row {
    /// The same row, in memory of its own.
    pub fn copy(&self, alloc: Global) -> Result<Row, AllocError>
        ensures { IfOk result (λ r. r ≡ self.now) }
    {
        let mut entries = Vec::with_capacity(alloc, self.entries.len())?;
        for entry in &self.entries {
            entries.push(entry.copy(alloc)?)?;
        }
        Ok(Row { entries })
    }
}

/// The start of a job, reduced ahead by the first `prefix` elements of a basis: the steps, and what
/// they left.
#[derive(Debug, Drop)]
pub struct Spec {
    pub job: Job,
    pub prefix: u32,
    pub trace: Trace,
    pub rest: GPoly,
}

impl Model for Spec {
    ghost use Rattle.run_records.specs.Ahead.{ReducedStart};

    ghost Value = { ReducedStart };

    ghost view = { λ s. record { job = s.job; prefix = s.prefix; trace = s.trace; rest = s.rest } };
}

/// A list of polynomials that is read by numbers: a basis, or a part or a view of one. Reading
/// takes no memory.
pub trait Elements {
    /// The polynomials.
    ghost elements: { Self → List Polynomial };

    /// How many there are.
    fn count(&self) -> usize
        ensures { result ≡ length (elements self.now) };

    /// The polynomial of number `k`, counted from 1.
    fn at(&self, k: u32) -> &GPoly
        requires first { 1 ≤ k }
        requires last { k ≤ length (elements self.now) }
        ensures { result.now ≡ element (elements self.now) k };
}

impl Elements for Vec<GPoly> {
    ghost elements = { λ v. v.items };

    fn count(&self) -> usize {
        self.len()
    }

    fn at(&self, k: u32) -> &GPoly {
        &self[k as usize - 1]
    }
}

/// What computes bases: it runs the machine, on one thread or on many.
pub trait Engine {
    /// What an engine needs to run: nothing on one thread, and with workers that its runtime may be
    /// shared.
    ghost can_run: { Self → Type 0 };

    /// The journal of the machine over these generators, of which there are at most 4096; zero
    /// generators keep their numbers. `mode` says on which sides the ideal is closed: on the left, or
    /// on both. `budget`, at least 1, is the most entries that the journal may have. The engine can
    /// run again, also where memory was wanting.
    fn basis(
        &mut self,
        alloc: Global,
        alg: &Algebra,
        gens: &[GPoly],
        mode: Mode,
        budget: u32,
    ) -> Result<Journal, AllocError>
        requires ready { can_run self.old }
        requires sorted { Each (IsPolynomial alg.now.p alg.now.order) gens.now }
        requires few { length gens.now ≤ 4096 }
        requires some { 1 ≤ budget }
        ensures value { IfOk result (λ j. j ≡ machine alg.now gens.now mode budget) }
        ensures run { IfOk result (λ j. RunLaws alg.now mode gens.now j) }
        ensures ready { can_run self.new };
}

mod bases;
#[cfg(test)]
mod tests;
