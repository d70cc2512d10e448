//! The lead: a run of the machine, which one thread goes on with a commit at a time.

ghost use Rattle.std.specs.Prelude.{◌≡◌, ◌≢◌, suc, ◌+◌, ◌*◌, ◌<◌, ◌≤◌, ◌++◌, ◌∷◌, [], List, nat_le, if◌then◌else◌, IfOk, OnOk, IfSome, MatchOption, Ok, Err, Some, None, IsSome, length, take};
ghost use Rattle.monomials.specs.Polynomials.{Each, IsPolynomial};
ghost use Rattle.word_model.specs.Jobs.{job_sugar, element_sugar, least_job, start_of, chain_witness, without, UsesElements};
ghost use Rattle.word_model.specs.Machine.{State, On, Over, IsElement, first_state, machine, with_entry, with_element, jobs_of, turn_of_start, turn_of_rest, most_elements};
ghost use Rattle.word_model.specs.declared.records.Job.{Job};
ghost use Rattle.word_model.specs.declared.records.Entry.{Entry};
ghost use Rattle.word_model.specs.declared.records.Outcome.{Outcome};
ghost use Rattle.word_model.specs.declared.records.Outcome.TheVariants.{BasisFull};
ghost use Rattle.gproduct.specs.Seats.{Keeps};
ghost use Rattle.left_reduce.specs.Reductions.{ended_of};
ghost use Rattle.commit_core.specs.Named.{IsNamed};
ghost use Rattle.commit_core.specs.Leads.{IsLead, IsAt, IsCommit};
ghost use Rattle.commit_core.specs.Specs.{IsGood, IsCounted, steps_of, start_left};
ghost use Rattle.commit_core.specs.Begun.{IsBegun, Records};
ghost use Rattle.commit_core.specs.Kept.{Turns, reduction_of};
ghost use Rattle.commit_core.specs.declared.lead.Committed.TheVariants.{Added, Over as Ended};

use crate::progress::Progress;
use algebra::{Algebra, ProductFault};
use gpoly::{GPoly, copies};
use gproduct::{Steps, TableSeat};
use left_reduce::{self, Reduced, reduce_from, start_of};
use pair_strategy::{self, chain_witness, element_sugar, job_key};
use run_records::{Entry, Job, Journal, Mode, Outcome, Spec, Trace};
use std::alloc::{AllocError, Global};
use std::marker::Model;
use std::snapshot::Snapshot;
use std::sync::ledger::Ledger;

// The most elements that a basis may have.
const MOST_ELEMENTS: usize = 2048;

/// What a commit did.
#[derive(Clone, Copy, Debug, PartialEq, Eq)]
pub enum Committed {
    /// One step of the machine was made, and its entry added.
    Added,
    /// The machine ends here, with this outcome.
    Over(Outcome),
}

/// A run of the machine over generators of its own copy. It holds no reference: which algebra it was
/// made over it keeps for contracts alone, and each commit is lent a seat of that algebra. Whatever
/// it did is the beginning of the machine's journal.
#[derive(Drop)]
pub struct Lead {
    algebra: Snapshot<Algebra>,
    generators: Vec<GPoly>,
    mode: Mode,
    budget: u32,
    progress: Progress,
    outcome: Option<Outcome>,
}

impl Model for Lead {
    ghost use Rattle.commit_core.specs.Leads.{Run};
    ghost use Rattle.commit_core.specs.Kept.{kept_run, IsKept};

    ghost Value = { Run };

    ghost view = { kept_run };

    ghost invariant = { IsKept };
}

impl Lead {
    /// A run over copies of these generators, at most 4096, with no entry, no element and the seeds
    /// of the nonzero generators queued. Zero generators keep their numbers. `budget`, at least 1, is
    /// the most entries that the run may have.
    pub fn new(
        alloc: Global,
        alg: &Algebra,
        gens: &[GPoly],
        mode: Mode,
        budget: u32,
    ) -> Result<Lead, AllocError>
        requires sorted { Each (IsPolynomial alg.now.p alg.now.order) gens.now }
        requires few { length gens.now ≤ 4096 }
        requires some { 1 ≤ budget }
        ensures algebra { IfOk result (λ lead. lead.algebra ≡ alg.now) }
        ensures generators { IfOk result (λ lead. lead.generators ≡ gens.now) }
        ensures mode { IfOk result (λ lead. lead.mode ≡ mode) }
        ensures budget { IfOk result (λ lead. lead.budget ≡ budget) }
        ensures outcome { IfOk result (λ lead. lead.outcome ≡ None) }
        ensures state { IfOk result (λ lead. IsAt lead (first_state gens.now)) }
    {
        let _n = alg.n();
        let progress = Progress::new(alloc, alg, gens)?;
        Ok(Lead {
            algebra: Snapshot::of(alg),
            generators: copies(alloc, gens)?,
            mode,
            budget,
            progress,
            outcome: None,
        })
    }

    /// The job that comes first: that of the least key. Takes no memory.
    pub fn first(&self) -> Option<&Job>
        ensures value { MatchOption result (self.now.jobs ≡ [])
            (λ job. (rest : List Job) × (self.now.jobs ≡ job.now ∷ rest)) }
        ensures least { IfSome result (λ job. (s : State) (a : Job) (queue : List Job) → IsAt self.now s →
            s.queue ≡ a ∷ queue →
            least_job self.now.algebra self.now.generators self.now.basis self.now.sugars a queue ≡ job.now) }
        ensures facts { IsLead self.now }
    {
        pair_strategy::laws::first_is_least();
        self.facts();
        match self.progress.queue.first() {
            Some(item) => Some(&item.job),
            None => None,
        }
    }

    /// The generators, as they were given. Takes no memory.
    pub fn generators(&self) -> &[GPoly]
        ensures value { result.now ≡ self.now.generators }
        ensures facts { IsLead self.now }
    {
        self.facts();
        &self.generators
    }

    /// The elements so far. Takes no memory.
    pub fn basis(&self) -> &Vec<GPoly>
        ensures value { result.now.items ≡ self.now.basis }
        ensures facts { IsLead self.now }
    {
        self.facts();
        &self.progress.basis
    }

    /// The sugars of the elements so far, in their order: each is at least its element's degree, and
    /// the k-th at most 4095 + 8190 k. Takes no memory.
    pub fn sugars(&self) -> &[u32]
        ensures value { result.now ≡ self.now.sugars }
        ensures facts { IsLead self.now }
    {
        self.facts();
        &self.progress.sugars
    }

    /// The entries so far. Takes no memory.
    pub fn entries(&self) -> &[Entry]
        ensures value { result.now ≡ self.now.entries }
        ensures facts { IsLead self.now }
    {
        self.facts();
        &self.progress.entries
    }

    /// The first `k` jobs in the order of their keys, or all.
    pub fn ahead(&self, alloc: Global, k: usize) -> Result<Vec<Job>, AllocError>
        ensures value { IfOk result (λ jobs. jobs.items ≡ take k self.now.jobs) }
        ensures facts { IsLead self.now }
    {
        self.facts();
        self.progress.queue.ahead(alloc, k)
    }

    /// The run's journal, once it is over. Takes no memory.
    pub fn into_journal(self) -> Journal
        requires over { IsSome self.outcome }
        ensures value { (outcome : Outcome) → self.outcome ≡ Some outcome →
            result ≡ record { entries = self.entries; basis = self.basis; outcome = outcome } }
        ensures machine { result ≡ machine self.algebra self.generators self.mode self.budget }
        ensures elements { Each (IsElement self.algebra) result.basis }
        ensures few { length result.basis ≤ most_elements }
    {
        self.facts();
        let Lead {
            progress,
            outcome,
            ..
        } = self;
        Journal {
            entries: progress.entries,
            basis: progress.basis,
            outcome: outcome.unwrap(),
        }
    }

    /// One step of the machine, the same with a Spec and without. `seat` is one of the lead's
    /// algebra. A Spec is of the first job and good for the lead: the reduction goes on from where it
    /// ended. Of an entry that was added, the counter rises by the products of its start, unless that
    /// was made ahead, and by one for each step that the Spec does not have. Once the run is over,
    /// each further commit answers the same outcome and changes nothing. A commit for which memory is
    /// wanting leaves the lead as it was.
    pub fn commit<L: Ledger>(
        &mut self,
        alloc: Global,
        seat: &mut TableSeat,
        spec: Option<Spec>,
        steps: &mut Steps<L>,
    ) -> Result<Committed, AllocError>
        requires algebra { seat.old.algebra ≡ self.old.algebra }
        requires first { IfSome spec (λ s. (rest : List Job) × (self.old.jobs ≡ s.job ∷ rest)) }
        requires good { IfSome spec (IsGood self.old.algebra self.old.generators self.old.basis) }
        ensures step { IsCommit self.old self.new result }
        ensures over { (outcome : Outcome) → self.old.outcome ≡ Some outcome →
            (result ≡ Ok (Ended outcome)) × (self.new ≡ self.old) }
        ensures counted { result ≡ Ok Added → (entry : Entry) →
            self.new.entries ≡ self.old.entries ++ entry ∷ [] → IsCounted spec entry steps.old steps.new }
        ensures seat_algebra { seat.new.algebra ≡ seat.old.algebra }
        ensures kept { Keeps seat.old seat.new }
    {
        pair_strategy::laws::queues_are_sets();
        if let Some(outcome) = self.outcome {
            return Ok(Committed::Over(outcome));
        }
        let Some(first) = self.first() else {
            return Ok(self.end(Outcome::Finished));
        };
        let job = *first;
        if self.budget as usize <= self.progress.entries.len() {
            return Ok(self.end(Outcome::BudgetSpent));
        }
        match self.witness(&job) {
            Some(by) => self.enter(job, Entry::Skipped { job, by }),
            None => self.reduce_job(alloc, seat, job, spec, steps),
        }
    }

    // What every lead has.
    fn facts(&self)
        ensures { IsLead self.now }
    {
        self.progress.queue.first();
    }

    // The run ends here.
    fn end(&mut self, outcome: Outcome) -> Committed
        requires over { Turns self.old (λ s. Over outcome) }
        ensures value { result ≡ Ended outcome }
        ensures step { IsCommit self.old self.new (Ok result) }
    {
        self.outcome = Some(outcome);
        Committed::Over(outcome)
    }

    // The chain witness of a job.
    fn witness(&self, job: &Job) -> Option<u32>
        requires named { IsNamed self.now.algebra self.now.generators self.now.basis job.now }
        ensures { result ≡ chain_witness self.now.basis self.now.jobs job.now }
    {
        match *job {
            Job::Pair { i, j } => {
                chain_witness(&self.progress.queue, &self.progress.basis, i, j)
            }
            Job::Seed { .. } | Job::Right { .. } => None,
        }
    }

    // The turn of the first job that leaves with this entry, and without an element.
    fn enter(&mut self, job: Job, entry: Entry) -> Result<Committed, AllocError>
        requires going { self.old.outcome ≡ None }
        requires first { (rest : List Job) × (self.old.jobs ≡ job ∷ rest) }
        requires turn { Turns self.old (λ s. On (with_entry s job entry)) }
        ensures step { IsCommit self.old self.new result }
        ensures entry { result ≡ Ok Added → self.new.entries ≡ self.old.entries ++ entry ∷ [] }
    {
        pair_strategy::laws::queues_are_sets();
        self.progress.enter(entry)?;
        Ok(Committed::Added)
    }

    // The turn of the first job, which no witness skips.
    fn reduce_job<L: Ledger>(
        &mut self,
        alloc: Global,
        seat: &mut TableSeat,
        job: Job,
        spec: Option<Spec>,
        steps: &mut Steps<L>,
    ) -> Result<Committed, AllocError>
        requires algebra { seat.old.algebra ≡ self.old.algebra }
        requires going { self.old.outcome ≡ None }
        requires first { (rest : List Job) × (self.old.jobs ≡ job ∷ rest) }
        requires spec { IfSome spec (λ s. (s.job ≡ job) × IsGood self.old.algebra self.old.generators self.old.basis s) }
        requires turn { Turns self.old (λ s.
            turn_of_start self.old.algebra self.old.generators self.old.mode s job (start_of self.old.algebra self.old.generators s.basis job)) }
        ensures step { IsCommit self.old self.new result }
        ensures counted { result ≡ Ok Added → (entry : Entry) →
            self.new.entries ≡ self.old.entries ++ entry ∷ [] → IsCounted spec entry steps.old steps.new }
        ensures seat_algebra { seat.new.algebra ≡ seat.old.algebra }
        ensures kept { Keeps seat.old seat.new }
    {
        let alg = seat.algebra();
        let (h, trace) = match self.begin(alloc, seat, job, spec, steps) {
            Ok(begun) => begun,
            Err(ProductFault::DegreeOver) => return Ok(self.end(Outcome::DegreeOver)),
            Err(ProductFault::Memory) => return Err(AllocError),
        };
        let reduced = reduce_from(alloc, seat, &self.progress.basis, h, trace, steps)?;
        self.enter_reduced(alloc, alg, job, reduced)
    }

    // Where the reduction of the first job begins, and the steps before that: its start, or where its
    // Spec ended.
    fn begin<L: Ledger>(
        &self,
        alloc: Global,
        seat: &mut TableSeat,
        job: Job,
        spec: Option<Spec>,
        steps: &mut Steps<L>,
    ) -> Result<(GPoly, Trace), ProductFault>
        requires algebra { seat.old.algebra ≡ self.now.algebra }
        requires named { IsNamed self.now.algebra self.now.generators self.now.basis job }
        requires spec { IfSome spec (λ s. (s.job ≡ job) × IsGood self.now.algebra self.now.generators self.now.basis s) }
        ensures value { IfOk result (λ r. IsBegun self.now.algebra self.now.generators self.now.basis job r.0 r.1) }
        ensures trace { IfOk result (λ r. r.1 ≡ steps_of spec) }
        ensures sorted { IfOk result (λ r. IsPolynomial self.now.algebra.p self.now.algebra.order r.0) }
        ensures over { result ≡ Err ProductFault.DegreeOver →
            start_of self.now.algebra self.now.generators self.now.basis job ≡ None }
        ensures counted { OnOk result (steps.new ≡ steps.old + start_left spec job) }
        ensures algebra { seat.new.algebra ≡ seat.old.algebra }
        ensures kept { Keeps seat.old seat.new }
    {
        let _n = seat.algebra().n();
        self.facts();
        match spec {
            Some(spec) => {
                let Spec { trace, rest, .. } = spec;
                Ok((rest, trace))
            }
            None => {
                let basis = &self.progress.basis;
                let start = start_of(alloc, seat, basis, &self.generators, &job, steps)?;
                Ok((start, Trace::new(alloc)))
            }
        }
    }

    // The turn of the first job, whose start was reduced.
    fn enter_reduced(
        &mut self,
        alloc: Global,
        alg: &Algebra,
        job: Job,
        reduced: Reduced,
    ) -> Result<Committed, AllocError>
        requires algebra { alg.now ≡ self.old.algebra }
        requires going { self.old.outcome ≡ None }
        requires first { (rest : List Job) × (self.old.jobs ≡ job ∷ rest) }
        requires sorted { IsPolynomial alg.now.p alg.now.order reduced.rest }
        requires ended { reduced.ended ≡ ended_of (reduction_of reduced) }
        requires uses { UsesElements (length self.old.basis) reduced.trace }
        requires turn { Turns self.old (λ s.
            turn_of_rest self.old.algebra self.old.generators self.old.mode s job (reduction_of reduced)) }
        ensures step { IsCommit self.old self.new result }
        ensures entry { result ≡ Ok Added → (entry : Entry) × (self.new.entries ≡ self.old.entries ++ entry ∷ [])
            × Records entry job reduced.trace }
    {
        match reduced.ended {
            left_reduce::Ended::DegreeOver => Ok(self.end(Outcome::DegreeOver)),
            left_reduce::Ended::Zero => {
                let Reduced { trace, .. } = reduced;
                self.enter(job, Entry::Zero { job, trace })
            }
            left_reduce::Ended::Irreducible => self.enter_element(alloc, alg, job, reduced),
        }
    }

    // The turn of the first job, whose start was reduced to a new element.
    fn enter_element(
        &mut self,
        alloc: Global,
        alg: &Algebra,
        job: Job,
        reduced: Reduced,
    ) -> Result<Committed, AllocError>
        requires algebra { alg.now ≡ self.old.algebra }
        requires going { self.old.outcome ≡ None }
        requires first { (rest : List Job) × (self.old.jobs ≡ job ∷ rest) }
        requires sorted { IsPolynomial alg.now.p alg.now.order reduced.rest }
        requires nonzero { reduced.rest ≢ [] }
        requires uses { UsesElements (length self.old.basis) reduced.trace }
        requires turn { Turns self.old (λ s. if nat_le most_elements (length s.basis) then Over BasisFull
            else On (with_element self.old.algebra self.old.generators self.old.mode s job (reduction_of reduced))) }
        ensures step { IsCommit self.old self.new result }
        ensures entry { result ≡ Ok Added → (entry : Entry) × (self.new.entries ≡ self.old.entries ++ entry ∷ [])
            × Records entry job reduced.trace }
    {
        let _n = alg.n();
        if self.progress.basis.len() >= MOST_ELEMENTS {
            return Ok(self.end(Outcome::BasisFull));
        }
        let Reduced { trace, rest, .. } = reduced;
        let sugar = self.sugar_of(&job, &trace);
        let (element, scale) = rest.monic(alloc, alg.field())?;
        let entry = Entry::New { job, trace, scale };
        self.admit(alloc, alg, job, entry, element, sugar)
    }

    // The sugar of an element that this job brings by these steps.
    fn sugar_of(&self, job: &Job, trace: &Trace) -> u32
        requires named { IsNamed self.now.algebra self.now.generators self.now.basis job.now }
        requires uses { UsesElements (length self.now.basis) trace.now }
        requires few { length self.now.basis < 2048 }
        ensures value { result ≡ element_sugar self.now.sugars
            (job_sugar self.now.generators self.now.basis self.now.sugars job.now) trace.now }
        ensures low { result ≤ 4095 + 8190 * (length self.now.basis + 1) }
    {
        let progress = &self.progress;
        let key = job_key(&progress.basis, &progress.sugars, &self.generators, job);
        element_sugar(&progress.sugars, key.sugar, trace)
    }

    // The turn of the first job that leaves with this entry and this element.
    fn admit(
        &mut self,
        alloc: Global,
        alg: &Algebra,
        job: Job,
        entry: Entry,
        element: GPoly,
        sugar: u32,
    ) -> Result<Committed, AllocError>
        requires algebra { alg.now ≡ self.old.algebra }
        requires going { self.old.outcome ≡ None }
        requires first { (rest : List Job) × (self.old.jobs ≡ job ∷ rest) }
        requires few { length self.old.basis < 2048 }
        requires element { IsElement self.old.algebra element }
        requires low { sugar ≤ 4095 + 8190 * (length self.old.basis + 1) }
        requires turn { Turns self.old (λ s. On (record {
          entries = s.entries ++ entry ∷ [];
          basis = s.basis ++ element ∷ [];
          sugars = s.sugars ++ sugar ∷ [];
          queue = without job s.queue ++ jobs_of self.old.mode self.old.algebra.order.vars (suc (length s.basis));
        })) }
        ensures step { IsCommit self.old self.new result }
        ensures entry { result ≡ Ok Added → self.new.entries ≡ self.old.entries ++ entry ∷ [] }
    {
        pair_strategy::laws::queues_are_sets();
        let _n = alg.n();
        let gens = &self.generators;
        self.progress
            .admit(alloc, alg, gens, self.mode, entry, element, sugar)?;
        Ok(Committed::Added)
    }
}
