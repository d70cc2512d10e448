//! The desk: what leader and workers share.

ghost use Rattle.std.specs.Prelude.{◌≡◌, ◌≢◌, ◌≤◌, ◌<◌, ◌∷◌, ℕ, [], List, IsTrue, IfOk, IfSome, length};
ghost use Rattle.monomials.specs.Polynomials.{Each, IsPolynomial};
ghost use Rattle.word_model.specs.Reduction.{element};
ghost use Rattle.word_model.specs.Jobs.{IsJob};
ghost use Rattle.word_model.specs.Machine.{IsElement, machine};
ghost use Rattle.word_model.specs.declared.records.Job.{Job};
ghost use Rattle.commit_core.specs.Specs.{IsGood};

use crate::gates::{Gate, Point};
use crate::locked;
use crate::prospects::Prospects;
use crate::sealed::Sealed;
use crate::shelf::{Shelf, ShelfView};
use algebra::Algebra;
use board::{Board, Claimed};
use commit_core::{Committed, Lead};
use gpoly::GPoly;
use gproduct::{Steps, Table, TableSeat};
use run_records::{Job, Journal, Spec};
use std::alloc::{AllocError, Global};
use std::marker::{Brand, Model};
use std::sync::ledger::{Blank, Ledger};
use std::sync::{Condvar, Mutex, Wait};

/// What a leader and its workers share: a board under a lock, a table of products, and a shelf of
/// elements. The leader sits at seat 0, the workers at the seats from 1 on.
///
/// These are the atomic steps on it that change something, and there are no others (`standing`,
/// `hand`, `closed`, `seats` and `log` of the board only look). Each is an event of the core, of which
/// any order comes to a sound world, or none:
///
/// | Step | On | Event |
/// |---|---|---|
/// | `offer`, `claim`, `publish`, `release`, `take`, `close` | the board under its lock | `Offer` for each job, `Claim`, `Publish`, `Release`, `Take`, `Close` |
/// | the set in `Shelf::put` | a set-once cell | none; it bounds the prefixes of later claims |
/// | the look in `ShelfView::grow` | a set-once cell for each element | none; it fixes the prefix of the next claim |
/// | the set in `TableSeat::learn` | a set-once cell | `Fill` |
/// | the look in `TableSeat::learn` | a set-once cell | none |
///
/// `Commit` is a step of the leader alone, on the lead that it owns. A reduction touches nothing that
/// is shared but cells of the table. After Attardi and Traverso (1996); which worker has which job,
/// and when, is left open, and no result depends on it.
#[derive(Drop)]
pub struct Desk<'s, 'r, G> {
    board: Mutex<Board<Sealed<'s, 'r>>>,
    // Told where jobs were offered, and where the board was closed.
    moved: Condvar,
    algebra: &'r Algebra,
    table: &'s Table<'r>,
    shelf: &'s Shelf,
    gens: &'s [GPoly],
    gate: &'s G,
    workers: u8,
}

impl<'s, 'r, G> Model for Desk<'s, 'r, G> {
    ghost use Rattle.crew.specs.Desks.{DeskValue, IsDesk};

    ghost Value = { DeskValue };

    ghost view = { λ d. record { algebra = d.algebra.now; generators = d.gens.now; workers = d.workers } };

    ghost invariant = { λ d. IsDesk d.table.now (record { algebra = d.algebra.now; generators = d.gens.now; workers = d.workers }) };
}

impl<'s, 'r, G: Gate> Desk<'s, 'r, G> {
    /// A desk with an empty board, for a leader and this many workers, 1 to 64. `table` is a table of
    /// `alg`.
    pub fn new(
        alloc: Global,
        alg: &'r Algebra,
        table: &'s Table<'r>,
        shelf: &'s Shelf,
        gens: &'s [GPoly],
        gate: &'s G,
        workers: u8,
    ) -> Result<Desk<'s, 'r, G>, AllocError>
        requires table { table.now ≡ alg.now }
        requires sorted { Each (IsPolynomial alg.now.p alg.now.order) gens.now }
        ensures algebra { IfOk result (λ d. d.algebra ≡ alg.now) }
        ensures generators { IfOk result (λ d. d.generators ≡ gens.now) }
        ensures workers { IfOk result (λ d. d.workers ≡ workers) }
    {
        Ok(Desk {
            board: Mutex::new(Board::new(alloc, workers)?),
            moved: Condvar::new(),
            algebra: alg,
            table,
            shelf,
            gens,
            gate,
            workers,
        })
    }

    /// The worker at seat `w`: it claims a job, reduces its start by the elements that it saw on the
    /// shelf before, and publishes what that comes to, until the board is closed. Under `Wait`: where
    /// no job stands offered, it sleeps until the leader offers or closes.
    ///
    /// It ends at once where memory is wanting for its seat at the table or its view. Where memory is
    /// wanting later, where the view lacks an element that the job names, and where the job is none
    /// of the desk's generators and variables, or of a zero generator, it releases the job. It ends
    /// where its seat is none of the desk, or has not in hand what it left there.
    pub fn work<R: Wait>(&self, rt: &R, alloc: Global, w: u8) {
        self.worked::<R, Brand>(rt, alloc, w, Blank::new(1));
    }

    /// An idle hand at seat `w`, 1 to the desk's workers: it claims jobs as `work` does, and releases
    /// each at once, until the board is closed. Takes no memory. Under `Wait`: where no job stands
    /// offered, it sleeps as `work` does. It ends where its seat is none of the desk, or has not in
    /// hand what it left there.
    pub fn idle<R: Wait>(&self, rt: &R, w: u8) {
        for _ in rt.forever() {
            self.gate.at(Point::BeforeClaim(w));
            match claim_or_wait(rt, &self.board, &self.moved, w) {
                Claimed::Closed => return,
                Claimed::NoneNow => {}
                Claimed::Job(job) => {
                    if !locked::release(&mut *self.board.lock(rt), w, &job) {
                        return;
                    }
                }
            }
        }
    }

    /// The leader goes on with the lead until its run is over. `lead` is of the desk's algebra, new or
    /// begun. Under `Wait`: for the lock and no publication. Whatever it takes from the board, the
    /// journal is that of the machine: each publication is compared with the lead before it is relied
    /// on. It closes the board before it answers, also where memory is wanting, and the lead is gone
    /// then.
    pub fn lead<R: Wait>(&self, rt: &R, alloc: Global, lead: Lead) -> Result<Journal, AllocError>
        requires algebra { lead.algebra ≡ self.now.algebra }
        ensures { IfOk result (λ journal. journal ≡ machine lead.algebra lead.generators lead.mode lead.budget) }
    {
        let answer = self.led::<R, Brand>(rt, alloc, lead, Blank::new(1));
        self.board.lock(rt).close();
        self.moved.notify_all();
        answer
    }

    fn worked<R: Wait, L: Ledger>(&self, rt: &R, alloc: Global, w: u8, blank: Blank)
        requires name { blank.name ≡ L.name }
        requires parts { blank.parts ≡ L.parts }
        requires some { 0 < blank.parts }
    {
        let Ok(mut seat) = self.table.seat(alloc) else {
            return;
        };
        let Ok(mut view) = self.shelf.view(alloc) else {
            return;
        };
        let mut steps: Steps<L> = Steps::start(blank);
        for _ in rt.forever() {
            view.grow(self.algebra);
            self.gate.at(Point::BeforeClaim(w));
            match claim_or_wait(rt, &self.board, &self.moved, w) {
                Claimed::Closed => return,
                Claimed::NoneNow => {}
                Claimed::Job(job) => {
                    if !self.served(rt, alloc, w, &mut seat, &view, &job, &mut steps) {
                        return;
                    }
                }
            }
        }
    }

    // Publishes what the job in hand comes to, or releases it. Answers whether the hand had it still.
    fn served<R: Wait, L: Ledger>(
        &self,
        rt: &R,
        alloc: Global,
        w: u8,
        seat: &mut TableSeat<'s, 'r>,
        view: &ShelfView<'s>,
        job: &Job,
        steps: &mut Steps<L>,
    ) -> bool
        requires algebra { seat.old.algebra ≡ self.now.algebra }
        requires elements { Each (IsElement self.now.algebra) view.now }
        ensures algebra { seat.new.algebra ≡ seat.old.algebra }
    {
        match self.made(alloc, seat, view, job, steps) {
            Ok(Some(sealed)) => {
                self.gate.at(Point::BeforePublish(w));
                locked::publish(&mut *self.board.lock(rt), w, job, sealed)
            }
            Ok(None) | Err(_) => locked::release(&mut *self.board.lock(rt), w, job),
        }
    }

    // What a job comes to by the elements of a view; nothing where it is none of this desk.
    fn made<L: Ledger>(
        &self,
        alloc: Global,
        seat: &mut TableSeat<'s, 'r>,
        view: &ShelfView<'s>,
        job: &Job,
        steps: &mut Steps<L>,
    ) -> Result<Option<Sealed<'s, 'r>>, AllocError>
        requires algebra { seat.old.algebra ≡ self.now.algebra }
        requires elements { Each (IsElement self.now.algebra) view.now }
        ensures algebra { seat.new.algebra ≡ seat.old.algebra }
    {
        if !is_able(self.gens, self.algebra.n(), job) {
            return Ok(None);
        }
        Sealed::made(alloc, seat, view, self.gens, job, steps)
    }

    fn led<R: Wait, L: Ledger>(
        &self,
        rt: &R,
        alloc: Global,
        lead: Lead,
        blank: Blank,
    ) -> Result<Journal, AllocError>
        requires algebra { lead.algebra ≡ self.now.algebra }
        requires name { blank.name ≡ L.name }
        requires parts { blank.parts ≡ L.parts }
        requires some { 0 < blank.parts }
        ensures { IfOk result (λ journal. journal ≡ machine lead.algebra lead.generators lead.mode lead.budget) }
    {
        let mut seat = self.table.seat(alloc)?;
        let mut view = self.shelf.view(alloc)?;
        let mut steps: Steps<L> = Steps::start(blank);
        let mut prospects = Prospects::new(alloc);
        let mut lead = lead;
        self.show(alloc, &lead, 0)?;
        loop {
            prospects.note(&lead)?;
            let spec = self.made_ahead(
                rt,
                alloc,
                &mut seat,
                &mut view,
                &lead,
                &mut prospects,
                &mut steps,
            )?;
            self.gate.at(Point::BeforeCommit(spec.is_some()));
            let known = lead.basis().len();
            match lead.commit(alloc, &mut seat, spec, &mut steps)? {
                Committed::Added => self.show(alloc, &lead, known)?,
                Committed::Over(_) => return Ok(lead.into_journal()),
            }
        }
    }

    // What others made of the lead's first job, where that is good for the lead; before, next jobs are
    // offered, and others' work is done. Where the chain rule will skip the job, there is nothing, and the
    // board is left alone.
    fn made_ahead<R: Wait, L: Ledger>(
        &self,
        rt: &R,
        alloc: Global,
        seat: &mut TableSeat<'s, 'r>,
        view: &mut ShelfView<'s>,
        lead: &Lead,
        prospects: &mut Prospects,
        steps: &mut Steps<L>,
    ) -> Result<Option<Spec>, AllocError>
        requires seat { seat.old.algebra ≡ self.now.algebra }
        requires lead { lead.now.algebra ≡ self.now.algebra }
        requires elements { Each (IsElement self.now.algebra) view.old }
        ensures first { IfOk result (λ o. IfSome o (λ s. (rest : List Job) × (lead.now.jobs ≡ s.job ∷ rest))) }
        ensures good { IfOk result (λ o. IfSome o (IsGood lead.now.algebra lead.now.generators lead.now.basis)) }
        ensures algebra { seat.new.algebra ≡ seat.old.algebra }
        ensures elements { Each (IsElement self.now.algebra) view.new }
    {
        if prospects.skips_first(lead)? {
            return Ok(None);
        }
        if prospects.is_due() {
            self.offer(rt, alloc, lead, prospects)?;
        }
        view.grow(self.algebra);
        self.help(rt, alloc, seat, view, lead, steps);
        Ok(self.taken(rt, lead))
    }

    // Offers those of the lead's next jobs that are worth it and aren't on the board, and wakes a worker
    // for each: to wake all for one job would have them meet at the lock.
    fn offer<R: Wait>(
        &self,
        rt: &R,
        alloc: Global,
        lead: &Lead,
        prospects: &mut Prospects,
    ) -> Result<(), AllocError> {
        let next = lead.ahead(alloc, jobs_ahead(self.workers))?;
        let worthy = prospects.worthy(alloc, &next)?;
        if worthy.is_empty() {
            return Ok(());
        }
        let offered = locked::offer_new(alloc, &mut *self.board.lock(rt), &worthy)?;
        for _ in 0..offered {
            self.moved.notify_one();
        }
        Ok(())
    }

    // While a worker has the lead's first job in hand, does others' work, as seat 0.
    fn help<R: Wait, L: Ledger>(
        &self,
        rt: &R,
        alloc: Global,
        seat: &mut TableSeat<'s, 'r>,
        view: &ShelfView<'s>,
        lead: &Lead,
        steps: &mut Steps<L>,
    )
        requires algebra { seat.old.algebra ≡ self.now.algebra }
        requires elements { Each (IsElement self.now.algebra) view.now }
        ensures algebra { seat.new.algebra ≡ seat.old.algebra }
    {
        let Some(first) = lead.first() else {
            return;
        };
        for _ in rt.forever() {
            if !locked::is_with_a_worker(&*self.board.lock(rt), first) {
                return;
            }
            self.gate.at(Point::BeforeClaim(0));
            let Claimed::Job(job) = locked::claim(&mut *self.board.lock(rt), 0) else {
                return;
            };
            if !self.served(rt, alloc, 0, seat, view, &job, steps) {
                return;
            }
        }
    }

    // What was published for the lead's first job, where that is good for the lead.
    fn taken<R: Wait>(&self, rt: &R, lead: &Lead) -> Option<Spec>
        requires { lead.now.algebra ≡ self.now.algebra }
        ensures first { IfSome result (λ s. (rest : List Job) × (lead.now.jobs ≡ s.job ∷ rest)) }
        ensures good { IfSome result (IsGood lead.now.algebra lead.now.generators lead.now.basis) }
    {
        let first = lead.first()?;
        self.gate.at(Point::BeforeTake);
        let sealed = self.board.lock(rt).take(first)?;
        let spec = sealed.unseal(self.algebra, lead)?;
        if spec.job == *first { Some(spec) } else { None }
    }

    // Puts the lead's elements on the shelf that come behind the first so many.
    fn show(&self, alloc: Global, lead: &Lead, known: usize) -> Result<(), AllocError> {
        let basis = lead.basis();
        for k in known..basis.len() {
            self.shelf.put(alloc, k as u32 + 1, &basis[k])?;
        }
        Ok(())
    }
}

// How many of the next jobs a leader looks at. The chain rule skips most pairs, in enveloping algebras
// more than nine in ten.
fn jobs_ahead(workers: u8) -> usize {
    (64 * usize::from(workers)).min(512)
}

// A claim; where no job stands offered, it waits until something more happened on the board.
fn claim_or_wait<R: Wait, P: Drop>(
    rt: &R,
    board: &Mutex<Board<P>>,
    moved: &Condvar,
    seat: u8,
) -> Claimed {
    let mut held = board.lock(rt);
    let claimed = locked::claim(&mut *held, seat);
    if claimed == Claimed::NoneNow {
        let events = held.log().len();
        let _held = moved.wait_while(rt, held, |board| board.log().len() == events);
    }
    claimed
}

// Whether a job is one of these generators and of n variables, and not of a zero generator.
fn is_able(gens: &[GPoly], n: usize, job: &Job) -> bool
    ensures able { IsTrue result → (m : ℕ) × IsJob (length gens.now) m n job.now }
    ensures seed { IsTrue result → (s : ℕ) → job.now ≡ Job.Seed s → element gens.now s ≢ [] }
{
    match *job {
        Job::Seed { s } => 1 <= s && s as usize <= gens.len() && !gens[s as usize - 1].is_zero(),
        Job::Pair { i, j } => 1 <= i && i < j,
        Job::Right { i, v } => 1 <= i && 1 <= v && usize::from(v) <= n,
    }
}
