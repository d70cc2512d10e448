//! What a run of the machine is told in: jobs, steps, entries, outcomes. The definitions of
//! `specs/` speak of these types themselves, so a contract equates a value of the program with the
//! definition's value.

ghost use Rattle.std.specs.Prelude.{◌≡◌, ◌++◌, ◌∷◌, [], IfOk, OnOk};
ghost use Rattle.std.specs.Result.{OnErr};

use monomials::Expo;
use std::alloc::{AllocError, Global};
use std::marker::Model;

/// A thing to do: a start polynomial to reduce by the basis. All numbers count from 1.
#[derive(Clone, Copy, Debug, PartialEq, Eq)]
pub enum Job {
    /// The generator of this number.
    Seed { s: u32 },
    /// The S-polynomial of the basis elements of these numbers, `i` below `j`.
    Pair { i: u32, j: u32 },
    /// The basis element of number `i` times the variable of number `v`, in two-sided runs alone.
    Right { i: u32, v: u8 },
}

/// Whether the ideal that a run finds a basis of is closed under products from the left alone, or
/// from both sides.
#[derive(Clone, Copy, Debug, PartialEq, Eq)]
pub enum Mode {
    Left,
    TwoSided,
}

/// A step of a reduction: `coef * mono` times the element of number `index`, counted from 1, is
/// subtracted.
#[derive(Clone, Copy, Debug, PartialEq, Eq)]
pub struct TraceStep {
    pub coef: u32,
    pub mono: Expo,
    pub index: u32,
}

/// The steps of a reduction, in order.
#[derive(Debug, Drop)]
pub struct Trace {
    steps: Vec<TraceStep>,
}

impl Model for Trace {
    ghost use Rattle.std.specs.Prelude.{List};
    ghost use Rattle.word_model.specs.declared.records.TraceStep.{TraceStep};

    ghost Value = { List TraceStep };

    ghost view = { λ t. t.steps.items };
}

/// What a run did with a job.
#[derive(Debug, Drop)]
pub enum Entry {
    /// The pair was skipped, as the basis element of number `by` is a chain witness.
    Skipped { job: Job, by: u32 },
    /// The start was reduced to zero.
    Zero { job: Job, trace: Trace },
    /// The start was reduced to a new element of the basis, made monic by the number `scale`.
    New { job: Job, trace: Trace, scale: u32 },
}

/// How a run ended.
#[derive(Clone, Copy, Debug, PartialEq, Eq)]
pub enum Outcome {
    /// No job was left: the basis is a Gröbner basis of the ideal of the generators, by the law
    /// `finished_bases`.
    Finished,
    /// There were as many entries as the budget allows.
    BudgetSpent,
    /// A further element was found where 2048 stood.
    BasisFull,
    /// A product had a degree above 4095.
    DegreeOver,
}

impl Trace {
    /// No steps. Takes no memory.
    pub fn new(alloc: Global) -> Trace
        ensures { result ≡ [] }
    {
        Trace {
            steps: Vec::new(alloc),
        }
    }

    /// Adds a step at the end. Where memory is wanting, the trace is as before.
    pub fn push(&mut self, step: TraceStep) -> Result<(), AllocError>
        ensures value { OnOk result (self.new ≡ self.old ++ step ∷ []) }
        ensures refused { OnErr result (self.new ≡ self.old) }
    {
        self.steps.push(step)?;
        Ok(())
    }

    /// Gives back the room behind the last step, for a trace that is kept.
    pub fn shrink(&mut self)
        ensures { self.new ≡ self.old }
    {
        self.steps.shrink_to_fit();
    }

    /// The steps. Takes no memory.
    pub fn steps(&self) -> &[TraceStep]
        ensures { result.now ≡ self.now }
    {
        &self.steps
    }

    /// The same steps, in memory of their own.
    pub fn copy(&self, alloc: Global) -> Result<Trace, AllocError>
        ensures { IfOk result (λ r. r ≡ self.now) }
    {
        let steps = Vec::from_slice(alloc, &self.steps)?;
        Ok(Trace { steps })
    }
}

impl Entry {
    /// The same entry, in memory of its own.
    pub fn copy(&self, alloc: Global) -> Result<Entry, AllocError>
        ensures { IfOk result (λ r. r ≡ self.now) }
    {
        Ok(match self {
            Entry::Skipped { job, by } => Entry::Skipped { job: *job, by: *by },
            Entry::Zero { job, trace } => Entry::Zero {
                job: *job,
                trace: trace.copy(alloc)?,
            },
            Entry::New { job, trace, scale } => Entry::New {
                job: *job,
                trace: trace.copy(alloc)?,
                scale: *scale,
            },
        })
    }
}
