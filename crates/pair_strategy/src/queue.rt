//! The queue of jobs: a heap of keys, and a bit for each job that says whether it is queued.

ghost use Rattle.std.specs.Prelude.{◌≡◌, ◌+◌, ◌≤◌, false, IfOk, IfErr, OnOk, MatchOption, [], ◌∷◌, drop, length, take, IsPermutation};
ghost use Rattle.word_model.specs.Jobs.{is_queued, IsJob};
ghost use Rattle.pair_strategy.specs.Queues.{jobs_in, with_item, IsHeap, IsQueue};

use crate::keys::Keyed;
use crate::marks::{self, Marks};
use crate::{front, heap};
use monomials::Order;
use run_records::Job;
use std::alloc::{AllocError, Global};
use std::marker::Model;

/// Jobs that wait, each with the sugar and the monomial of its key. The job of the least key leaves first. A seed
/// has a number up to 4096, elements have numbers up to 2048 and variables up to 16. Only `reserve` and `ahead` take
/// memory.
#[derive(Drop)]
pub struct Queue {
    order: Order,
    // A heap, with the least key on top.
    items: Vec<Keyed>,
    // The bits of the items' jobs are set.
    marks: Marks,
}

impl Model for Queue {
    ghost use Rattle.pair_strategy.specs.Queues.{JobQueue};

    ghost Value = { JobQueue };

    ghost use Rattle.pair_strategy.specs.Kept.{kept_queue, IsKept};

    ghost view = { kept_queue };

    ghost invariant = { IsKept };
}

impl Queue {
    /// An empty queue, which compares monomials by its own copy of this order.
    pub fn new(alloc: Global, order: &Order) -> Result<Queue, AllocError>
        ensures order { IfOk result (λ q. q.order ≡ order.now) }
        ensures empty { IfOk result (λ q. q.items ≡ []) }
    {
        let order = order.copy(alloc)?;
        Ok(Queue {
            order,
            items: Vec::new(alloc),
            marks: Marks::new(alloc),
        })
    }

    /// Makes room for at least `count` more jobs, and the bits where there are none yet.
    pub fn reserve(&mut self, alloc: Global, count: usize) -> Result<(), AllocError>
        ensures spare { OnOk result (count ≤ self.new.spare) }
        ensures never_less { self.old.spare ≤ self.new.spare }
        ensures items { self.new.items ≡ self.old.items }
        ensures order { self.new.order ≡ self.old.order }
        ensures failed { IfErr result (λ _. self.new ≡ self.old) }
    {
        self.marks.make(alloc)?;
        self.items.reserve(count)?;
        Ok(())
    }

    /// Queues a job, in room that was made before. A job may not be queued twice. The cost grows with the
    /// logarithm of the number of jobs.
    pub fn push(&mut self, item: Keyed)
        requires spare { 1 ≤ self.old.spare }
        requires absent { is_queued (jobs_in self.old.items) item.job ≡ false }
        requires vars { length item.mono ≡ self.old.order.vars }
        requires numbers { IsJob 4096 2048 16 item.job }
        ensures items { self.new.items ≡ with_item self.old.order item self.old.items }
        ensures order { self.new.order ≡ self.old.order }
        ensures spare { self.new.spare + 1 ≡ self.old.spare }
    {
        self.marks.set(&item.job);
        self.items.push_reserved(item);
        heap::rise(&self.order, &mut self.items);
    }

    /// The job of the least key, and what holds of each queue.
    pub fn first(&self) -> Option<&Keyed>
        ensures first { MatchOption result (self.now.items ≡ []) (λ k.
            self.now.items ≡ k.now ∷ drop 1 self.now.items) }
        ensures facts { IsQueue self.now }
    {
        self.items.first()
    }

    /// Takes the job of the least key, whose room is free again. The cost grows with the logarithm of the number
    /// of jobs.
    pub fn take_first(&mut self) -> Option<Keyed>
        ensures first { MatchOption result ((self.old.items ≡ []) × (self.new ≡ self.old)) (λ k.
            (self.old.items ≡ k ∷ self.new.items) × (self.new.spare ≡ self.old.spare + 1)) }
        ensures order { self.new.order ≡ self.old.order }
        ensures facts { IsQueue self.old }
    {
        if self.items.is_empty() {
            return None;
        }
        let first = self.items.swap_remove(0);
        self.marks.clear(&first.job);
        heap::sink(&self.order, &mut self.items);
        Some(first)
    }

    /// The queued items as they are kept, a heap with the least key on top. Takes no memory.
    pub fn heap(&self) -> &[Keyed]
        ensures once { IsPermutation self.now.items result.now }
        ensures heap { IsHeap self.now.order result.now }
    {
        &self.items
    }

    /// Whether the job is queued, which one bit says.
    pub fn holds(&self, job: &Job) -> bool
        ensures { result ≡ is_queued (jobs_in self.now.items) job.now }
    {
        marks::has_number(job) && self.marks.has(job)
    }

    /// The `k` jobs of the least keys in their order, or all where there are no more. The cost grows with `k` and
    /// not with the number of jobs.
    pub fn ahead(&self, alloc: Global, k: usize) -> Result<Vec<Job>, AllocError>
        ensures { IfOk result (λ jobs. jobs.items ≡ take k (jobs_in self.now.items)) }
    {
        front::least_jobs(alloc, &self.order, &self.items, k)
    }
}
