//! Engines with workers beside the leading thread.

ghost use Rattle.std.specs.Prelude.{◌≡◌, ◌≤◌, IfOk, length};
ghost use Rattle.std.specs.Thread.{IsSync};
ghost use Rattle.monomials.specs.Polynomials.{Each, IsPolynomial};
ghost use Rattle.word_model.specs.Words.{Algebra};
ghost use Rattle.word_model.specs.Bases.{RunLaws};
ghost use Rattle.word_model.specs.Machine.{machine};

use crate::desk::Desk;
use crate::gates::{Gate, MeetGate, NoGate};
use crate::shelf::Shelf;
use algebra::Algebra;
use commit_core::Lead;
use gpoly::GPoly;
use gproduct::Table;
use run_records::{Engine, Journal, Mode, runs_have_laws};
use std::alloc::{AllocError, Global};
use std::sync::Wait;
use std::thread;
use std::thread::Threads;

/// The journal of the machine, made by a leader on this thread and this many workers, 1 to 64, on
/// threads of their own, over a table and a shelf made for it. Its arguments are those of
/// `Engine::basis`. Under `Wait`. A worker that can't be started is one worker fewer: the leader does
/// the work itself. No result depends on `gate`.
pub fn crew_basis<R: Threads + Wait + Sync, G: Gate + Sync>(
    rt: &R,
    alloc: Global,
    workers: u8,
    gate: &G,
    alg: &Algebra,
    gens: &[GPoly],
    mode: Mode,
    budget: u32,
) -> Result<Journal, AllocError>
    requires sorted { Each (IsPolynomial alg.now.p alg.now.order) gens.now }
    requires few { length gens.now ≤ 4096 }
    requires some { 1 ≤ budget }
    ensures value { IfOk result (λ j. j ≡ machine alg.now gens.now mode budget) }
    ensures run { IfOk result (λ j. RunLaws alg.now mode gens.now j) }
{
    runs_have_laws(alg, gens);
    let table = Table::new(alloc, alg)?;
    let shelf = Shelf::new(alloc)?;
    let lead = Lead::new(alloc, alg, gens, mode, budget)?;
    let desk = Desk::new(alloc, alg, &table, &shelf, gens, gate, workers)?;
    crowd(rt, alloc, &desk, workers, lead)
}

// A place where workers work and one thread leads: a desk, whatever it borrows. The closure of a
// scope keeps its contract only where what it captures is of a type parameter.
pub(crate) trait Workplace {
    // The algebra that it is over.
    ghost over: { Self → Algebra };

    fn work<R: Wait>(&self, rt: &R, alloc: Global, w: u8);

    fn lead<R: Wait>(&self, rt: &R, alloc: Global, lead: Lead) -> Result<Journal, AllocError>
        requires algebra { lead.algebra ≡ over self.now }
        ensures { IfOk result (λ journal. journal ≡ machine lead.algebra lead.generators lead.mode lead.budget) };
}

impl<'s, 'r, G: Gate> Workplace for Desk<'s, 'r, G> {
    ghost over = { λ d. d.algebra };

    fn work<R: Wait>(&self, rt: &R, alloc: Global, w: u8) {
        Desk::work(self, rt, alloc, w);
    }

    fn lead<R: Wait>(&self, rt: &R, alloc: Global, lead: Lead) -> Result<Journal, AllocError> {
        Desk::lead(self, rt, alloc, lead)
    }
}

// Starts workers and leads them. One that can't be started is one fewer.
pub(crate) fn crowd<R: Threads + Wait + Sync, D: Workplace + Sync>(
    rt: &R,
    alloc: Global,
    desk: &D,
    workers: u8,
    lead: Lead,
) -> Result<Journal, AllocError>
    requires algebra { lead.algebra ≡ D.over desk.now }
    ensures { IfOk result (λ journal. journal ≡ machine lead.algebra lead.generators lead.mode lead.budget) }
{
    thread::scope(
        thread::scope_env(),
        rt,
        move |scope| -> Result<Journal, AllocError>
            requires { lead.algebra ≡ D.over desk.now }
            ensures { IfOk result (λ journal. journal ≡ machine lead.algebra lead.generators lead.mode lead.budget) }
        {
            for w in 1..=workers {
                let _ = scope.spawn(move || desk.work(rt, alloc, w));
            }
            desk.lead(rt, alloc, lead)
        },
    )
}

/// An engine with workers beside the leading thread. It keeps nothing between runs.
#[derive(Drop)]
pub struct Crew<'a, R, G> {
    rt: &'a R,
    workers: u8,
    gate: &'a G,
}

impl<'a, R: Threads + Wait + Sync, G: Gate + Sync> Crew<'a, R, G> {
    /// An engine with this many workers, 1 to 64. It is an `Engine` for the gates of this crate; for
    /// any other gate, and where that is a parameter, `By` makes one of `crew_basis`. Takes no memory.
    pub fn new(rt: &'a R, workers: u8, gate: &'a G) -> Crew<'a, R, G>
        ensures { IsSync R.row × IsSync G.row }
    {
        Crew { rt, workers, gate }
    }
}

impl<'a, R: Threads + Wait + Sync> Engine for Crew<'a, R, NoGate> {
    ghost can_run = { λ _. IsSync R.row };

    fn basis(
        &mut self,
        alloc: Global,
        alg: &Algebra,
        gens: &[GPoly],
        mode: Mode,
        budget: u32,
    ) -> Result<Journal, AllocError> {
        crew_basis(
            self.rt,
            alloc,
            self.workers,
            self.gate,
            alg,
            gens,
            mode,
            budget,
        )
    }
}

impl<'a, R: Threads + Wait + Sync> Engine for Crew<'a, R, MeetGate> {
    ghost can_run = { λ _. IsSync R.row };

    fn basis(
        &mut self,
        alloc: Global,
        alg: &Algebra,
        gens: &[GPoly],
        mode: Mode,
        budget: u32,
    ) -> Result<Journal, AllocError> {
        crew_basis(
            self.rt,
            alloc,
            self.workers,
            self.gate,
            alg,
            gens,
            mode,
            budget,
        )
    }
}

/// An engine that calls a function: one that makes the journal of the machine, as a closure over
/// `crew_basis` with a gate of any type.
#[derive(Drop)]
pub struct By<F> {
    pub run: F,
}

impl<F: Fn(Global, &Algebra, &[GPoly], Mode, u32) -> Result<Journal, AllocError>> Engine for By<F> {
    ghost can_run = { λ c. (alloc : _) (alg : _) (gens : _) (mode : _) (budget : _) →
        Each (IsPolynomial alg.now.p alg.now.order) gens.now → length gens.now ≤ 4096 → 1 ≤ budget →
        F.pre c.run alloc alg gens mode budget × ((r : _) → F.post c.run alloc alg gens mode budget r →
        IfOk r (λ j. j ≡ machine alg.now gens.now mode budget)) };

    fn basis(
        &mut self,
        alloc: Global,
        alg: &Algebra,
        gens: &[GPoly],
        mode: Mode,
        budget: u32,
    ) -> Result<Journal, AllocError> {
        runs_have_laws(alg, gens);
        (self.run)(alloc, alg, gens, mode, budget)
    }
}
