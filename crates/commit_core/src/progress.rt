//! What a run has made so far, and the jobs that wait.

ghost use Rattle.std.specs.Prelude.{◌≡◌, ℕ, ◌<◌, ◌≤◌, ◌-◌, ◌+◌, ◌++◌, ◌∷◌, [], ◌||◌, false, drop, length, IfOk, OnOk, OnErr};
ghost use Rattle.monomials.specs.Polynomials.{Each, IsPolynomial};
ghost use Rattle.word_model.specs.Reduction.{element};
ghost use Rattle.word_model.specs.Jobs.{is_queued, same_job, AreSugars, IsJob};
ghost use Rattle.word_model.specs.Machine.{IsElement, seeds_from, pairs_with, rights_of, jobs_of};
ghost use Rattle.pair_strategy.specs.Queues.{jobs_in, HasKey, IsSet, SameJobs};
ghost use Rattle.commit_core.specs.Named.{IsNamed};

use algebra::Algebra;
use gpoly::GPoly;
use pair_strategy::{self, Queue, job_key};
use run_records::{Entry, Job, Mode};
use std::alloc::{AllocError, Global};

/// The entries, the basis with the sugars of its elements, and the queue.
#[derive(Drop)]
pub struct Progress {
    pub entries: Vec<Entry>,
    pub basis: Vec<GPoly>,
    pub sugars: Vec<u32>,
    pub queue: Queue,
}

impl Progress {
    // No entry, no element, and all seeds.
    pub fn new(alloc: Global, alg: &Algebra, gens: &[GPoly]) -> Result<Progress, AllocError>
        requires sorted { Each (IsPolynomial alg.now.p alg.now.order) gens.now }
        requires few { length gens.now ≤ 4096 }
        ensures entries { IfOk result (λ run. run.entries.items ≡ []) }
        ensures basis { IfOk result (λ run. run.basis.items ≡ []) }
        ensures sugars { IfOk result (λ run. run.sugars.items ≡ []) }
        ensures jobs { IfOk result (λ run. SameJobs (seeds_from 1 gens.now) (jobs_in run.queue.items)) }
        ensures keys { IfOk result (λ run. Each (HasKey alg.now gens.now [] []) run.queue.items) }
        ensures order { IfOk result (λ run. run.queue.order ≡ alg.now.order) }
    {
        let basis = Vec::new(alloc);
        let mut queue = Queue::new(alloc, alg.order())?;
        queue.reserve(alloc, gens.len())?;
        push_seeds(&mut queue, alg, gens, &basis);
        Ok(Progress {
            entries: Vec::new(alloc),
            basis,
            sugars: Vec::new(alloc),
            queue,
        })
    }

    // The first job leaves the queue, with this entry.
    pub fn enter(&mut self, entry: Entry) -> Result<(), AllocError>
        ensures entries { OnOk result (self.new.entries.items ≡ self.old.entries.items ++ entry ∷ []) }
        ensures basis { self.new.basis ≡ self.old.basis }
        ensures sugars { self.new.sugars ≡ self.old.sugars }
        ensures queue { OnOk result (self.new.queue.items ≡ drop 1 self.old.queue.items) }
        ensures order { self.new.queue.order ≡ self.old.queue.order }
        ensures set { OnOk result (IsSet (jobs_in self.old.queue.items)) }
        ensures failed { OnErr result ((self.new.entries.items ≡ self.old.entries.items)
            × (self.new.queue ≡ self.old.queue)) }
    {
        self.entries.push(entry)?;
        self.queue.take_first();
        Ok(())
    }

    // The first job leaves the queue, with this entry and an element of this sugar, whose jobs come
    // in. All memory is taken before the first change.
    pub fn admit(
        &mut self,
        alloc: Global,
        alg: &Algebra,
        gens: &[GPoly],
        mode: Mode,
        entry: Entry,
        element: GPoly,
        sugar: u32,
    ) -> Result<(), AllocError>
        requires generators { Each (IsPolynomial alg.now.p alg.now.order) gens.now }
        requires elements { Each (IsElement alg.now) self.old.basis.items }
        requires element { IsElement alg.now element }
        requires few { length self.old.basis.items < 2048 }
        requires sugars { AreSugars (self.old.basis.items ++ element ∷ []) (self.old.sugars.items ++ sugar ∷ []) }
        requires small { Each (λ n. n ≤ 33554432) (self.old.sugars.items ++ sugar ∷ []) }
        requires order { self.old.queue.order ≡ alg.now.order }
        requires jobs { Each (IsNamed alg.now gens.now self.old.basis.items) (jobs_in self.old.queue.items) }
        ensures entries { OnOk result (self.new.entries.items ≡ self.old.entries.items ++ entry ∷ []) }
        ensures basis { OnOk result (self.new.basis.items ≡ self.old.basis.items ++ element ∷ []) }
        ensures sugars { OnOk result (self.new.sugars.items ≡ self.old.sugars.items ++ sugar ∷ []) }
        ensures jobs { OnOk result (SameJobs
            (jobs_in (drop 1 self.old.queue.items) ++ jobs_of mode alg.now.order.vars (length self.new.basis.items))
            (jobs_in self.new.queue.items)) }
        ensures keys { OnOk result (Each (HasKey alg.now gens.now self.old.basis.items self.old.sugars.items) self.old.queue.items →
            Each (HasKey alg.now gens.now self.new.basis.items self.new.sugars.items) self.new.queue.items) }
        ensures order { self.new.queue.order ≡ self.old.queue.order }
        ensures set { OnOk result (IsSet (jobs_in self.old.queue.items)) }
        ensures failed { OnErr result ((self.new.entries.items ≡ self.old.entries.items)
            × (self.new.basis.items ≡ self.old.basis.items)
            × (self.new.sugars.items ≡ self.old.sugars.items)
            × (self.new.queue.items ≡ self.old.queue.items)) }
    {
        let count = brought_count(mode, alg.n(), self.basis.len());
        self.queue.reserve(alloc, count)?;
        self.entries.reserve(1)?;
        self.sugars.reserve(1)?;
        self.basis.push(element)?;
        self.sugars.push(sugar).unwrap();
        self.entries.push(entry).unwrap();
        self.queue.take_first();
        push_jobs(&mut self.queue, alg, gens, &self.basis, &self.sugars, mode);
        Ok(())
    }
}

// Queues the seeds of the generators that are not zero.
fn push_seeds(queue: &mut Queue, alg: &Algebra, gens: &[GPoly], basis: &Vec<GPoly>)
    requires generators { Each (IsPolynomial alg.now.p alg.now.order) gens.now }
    requires elements { basis.now.items ≡ [] }
    requires few { length gens.now ≤ 4096 }
    requires order { queue.old.order ≡ alg.now.order }
    requires spare { length gens.now ≤ queue.old.spare }
    requires empty { queue.old.items ≡ [] }
    ensures jobs { SameJobs (seeds_from 1 gens.now) (jobs_in queue.new.items) }
    ensures keys { Each (HasKey alg.now gens.now [] []) queue.new.items }
    ensures order { queue.new.order ≡ queue.old.order }
{
    for place in 0..gens.len() {
        push_seed(queue, alg, gens, basis, place as u32 + 1);
    }
}

// Queues the seed of number `s`, unless its generator is zero.
fn push_seed(queue: &mut Queue, alg: &Algebra, gens: &[GPoly], basis: &Vec<GPoly>, s: u32)
    requires generators { Each (IsPolynomial alg.now.p alg.now.order) gens.now }
    requires elements { basis.now.items ≡ [] }
    requires first { 1 ≤ s }
    requires last { s ≤ length gens.now }
    requires few { length gens.now ≤ 4096 }
    requires order { queue.old.order ≡ alg.now.order }
    requires spare { 1 ≤ queue.old.spare }
    requires absent { is_queued (jobs_in queue.old.items) (Job.Seed s) ≡ false }
    ensures jobs { (other : Job) → is_queued (jobs_in queue.new.items) other
        ≡ (is_queued (seeds_from s (element gens.now s ∷ [])) other || is_queued (jobs_in queue.old.items) other) }
    ensures keys { Each (HasKey alg.now gens.now [] []) queue.old.items →
        Each (HasKey alg.now gens.now [] []) queue.new.items }
    ensures order { queue.new.order ≡ queue.old.order }
    ensures spare { queue.old.spare ≤ queue.new.spare + 1 }
{
    if !gens[s as usize - 1].is_zero() {
        push_job(queue, alg, gens, basis, &[], Job::Seed { s });
    }
}

// How many jobs an element brings that comes behind `others`, over `n` variables.
fn brought_count(mode: Mode, n: usize, others: usize) -> usize
    requires few { others < 2048 }
    requires variables { n ≤ 16 }
    ensures { result ≡ length (jobs_of mode n (others + 1)) }
{
    match mode {
        Mode::Left => others,
        Mode::TwoSided => others + n,
    }
}

// Queues the jobs that the last element brings, of which none is queued.
fn push_jobs(
    queue: &mut Queue,
    alg: &Algebra,
    gens: &[GPoly],
    basis: &Vec<GPoly>,
    sugars: &[u32],
    mode: Mode,
)
    requires generators { Each (IsPolynomial alg.now.p alg.now.order) gens.now }
    requires elements { Each (IsElement alg.now) basis.now.items }
    requires sugars { AreSugars basis.now.items sugars.now }
    requires small { Each (λ n. n ≤ 33554432) sugars.now }
    requires some { 1 ≤ length basis.now.items }
    requires few { length basis.now.items ≤ 2048 }
    requires order { queue.old.order ≡ alg.now.order }
    requires spare { length (jobs_of mode alg.now.order.vars (length basis.now.items)) ≤ queue.old.spare }
    requires jobs { Each (λ job. (n : ℕ) × IsJob (length gens.now) (length basis.now.items - 1) n job)
        (jobs_in queue.old.items) }
    ensures jobs { SameJobs (jobs_in queue.old.items ++ jobs_of mode alg.now.order.vars (length basis.now.items))
        (jobs_in queue.new.items) }
    ensures keys { Each (HasKey alg.now gens.now basis.now.items sugars.now) queue.old.items →
        Each (HasKey alg.now gens.now basis.now.items sugars.now) queue.new.items }
    ensures order { queue.new.order ≡ queue.old.order }
{
    let m = basis.len() as u32;
    push_pairs(queue, alg, gens, basis, sugars, m);
    match mode {
        Mode::Left => {}
        Mode::TwoSided => push_rights(queue, alg, gens, basis, sugars, m),
    }
}

// Queues the pairs of the other elements with the last, whose number is `m`.
fn push_pairs(
    queue: &mut Queue,
    alg: &Algebra,
    gens: &[GPoly],
    basis: &Vec<GPoly>,
    sugars: &[u32],
    m: u32,
)
    requires generators { Each (IsPolynomial alg.now.p alg.now.order) gens.now }
    requires elements { Each (IsElement alg.now) basis.now.items }
    requires sugars { AreSugars basis.now.items sugars.now }
    requires small { Each (λ n. n ≤ 33554432) sugars.now }
    requires some { 1 ≤ m }
    requires last { m ≡ length basis.now.items }
    requires few { m ≤ 2048 }
    requires order { queue.old.order ≡ alg.now.order }
    requires spare { m - 1 ≤ queue.old.spare }
    requires absent { (i : ℕ) → is_queued (jobs_in queue.old.items) (Job.Pair i m) ≡ false }
    ensures jobs { SameJobs (jobs_in queue.old.items ++ pairs_with m (m - 1)) (jobs_in queue.new.items) }
    ensures keys { Each (HasKey alg.now gens.now basis.now.items sugars.now) queue.old.items →
        Each (HasKey alg.now gens.now basis.now.items sugars.now) queue.new.items }
    ensures order { queue.new.order ≡ queue.old.order }
    ensures spare { queue.new.spare + (m - 1) ≡ queue.old.spare }
{
    for i in 1..m {
        push_job(queue, alg, gens, basis, sugars, Job::Pair { i, j: m });
    }
}

// Queues the products of the last element, whose number is `m`, with the variables.
fn push_rights(
    queue: &mut Queue,
    alg: &Algebra,
    gens: &[GPoly],
    basis: &Vec<GPoly>,
    sugars: &[u32],
    m: u32,
)
    requires generators { Each (IsPolynomial alg.now.p alg.now.order) gens.now }
    requires elements { Each (IsElement alg.now) basis.now.items }
    requires sugars { AreSugars basis.now.items sugars.now }
    requires small { Each (λ n. n ≤ 33554432) sugars.now }
    requires some { 1 ≤ m }
    requires last { m ≡ length basis.now.items }
    requires few { m ≤ 2048 }
    requires order { queue.old.order ≡ alg.now.order }
    requires spare { alg.now.order.vars ≤ queue.old.spare }
    requires absent { (v : ℕ) → is_queued (jobs_in queue.old.items) (Job.Right m v) ≡ false }
    ensures jobs { SameJobs (jobs_in queue.old.items ++ rights_of m alg.now.order.vars) (jobs_in queue.new.items) }
    ensures keys { Each (HasKey alg.now gens.now basis.now.items sugars.now) queue.old.items →
        Each (HasKey alg.now gens.now basis.now.items sugars.now) queue.new.items }
    ensures order { queue.new.order ≡ queue.old.order }
{
    for v in 1..=alg.n() as u8 {
        push_job(queue, alg, gens, basis, sugars, Job::Right { i: m, v });
    }
}

// Queues a job that is not queued, in room that was made before.
fn push_job(
    queue: &mut Queue,
    alg: &Algebra,
    gens: &[GPoly],
    basis: &Vec<GPoly>,
    sugars: &[u32],
    job: Job,
)
    requires generators { Each (IsPolynomial alg.now.p alg.now.order) gens.now }
    requires elements { Each (IsElement alg.now) basis.now.items }
    requires sugars { AreSugars basis.now.items sugars.now }
    requires small { Each (λ n. n ≤ 33554432) sugars.now }
    requires named { IsNamed alg.now gens.now basis.now.items job }
    requires range { IsJob 4096 2048 16 job }
    requires order { queue.old.order ≡ alg.now.order }
    requires spare { 1 ≤ queue.old.spare }
    requires absent { is_queued (jobs_in queue.old.items) job ≡ false }
    ensures jobs { (other : Job) → is_queued (jobs_in queue.new.items) other
        ≡ (same_job other job || is_queued (jobs_in queue.old.items) other) }
    ensures keys { Each (HasKey alg.now gens.now basis.now.items sugars.now) queue.old.items →
        Each (HasKey alg.now gens.now basis.now.items sugars.now) queue.new.items }
    ensures order { queue.new.order ≡ queue.old.order }
    ensures spare { queue.new.spare + 1 ≡ queue.old.spare }
{
    pair_strategy::laws::queues_are_sets();
    queue.push(job_key(basis, sugars, gens, &job));
}
