//! The slots of a board, and where each job has its slot.

ghost use Rattle.std.specs.Prelude.{ℕ, ◌≡◌, ◌≢◌, ◌<◌, ◌≤◌, ◌+◌, ◌^◌, take, ◌++◌, [], ◌∷◌, List, Some, None, OnOk, OnErr, MatchOption, true, false, length, slice_index_or, slice_set, map};
ghost use Rattle.std.specs.BTreeMap.{get};
ghost use Rattle.monomials.specs.Polynomials.{Each};
ghost use Rattle.word_model.specs.Jobs.{same_job};
ghost use Rattle.word_model.specs.declared.records.Job.{Job};
ghost use Rattle.word_model.specs.declared.events.Standing.TheVariants.{Offered};
ghost use Rattle.pair_strategy.specs.Queues.{IsSet};
ghost use Rattle.board.specs.Slots.{key, key_cmp, Finds, IsNew, NoneOffered};
ghost use Rattle.board.specs.declared.slots.Slot.{Slot};

use run_records::Job;
use std::alloc::{AllocError, Global};
use std::collections::BTreeMap;
use std::marker::Model;
use word_model::events::Standing;

// A job on the board.
#[derive(Clone, Copy)]
pub(crate) struct Slot {
    pub(crate) job: Job,
    pub(crate) standing: Standing,
}

// The number of a job's kind, and its numbers.
type Key = (u8, u32, u32);

// Slots in the order of offers, of which no two have the same job. Only `offer` takes memory.
#[derive(Drop)]
pub(crate) struct Slots {
    slots: Vec<Slot>,
    // Where each job has its slot.
    places: BTreeMap<Key, usize>,
    // No slot before this place stands offered. No slot comes to stand so again, so it never goes back.
    passed: usize,
}

impl Model for Slots {
    ghost use Rattle.std.specs.Prelude.{List, ◌≤◌, length, map};
    ghost use Rattle.std.specs.BTreeMap.{get};
    ghost use Rattle.board.specs.Slots.{key_cmp, Finds, NoneOffered};
    ghost use Rattle.board.specs.declared.slots.Slot.{Slot};

    ghost Value = { List Slot };

    ghost view = { λ s. s.slots.items };

    ghost invariant = { λ s. Finds (get key_cmp s.places) (map (λ (x : Slot). x.job) s.slots.items)
        × (s.passed ≤ length s.slots.items) × NoneOffered s.passed s.slots.items };
}

impl Slots {
    // No slots.
    pub(crate) fn new(alloc: Global) -> Slots
        ensures { result ≡ [] }
    {
        Slots {
            slots: Vec::new(alloc),
            places: BTreeMap::new(alloc),
            passed: 0,
        }
    }

    pub(crate) fn len(&self) -> usize
        ensures { result ≡ length self.now }
    {
        self.slots.len()
    }

    pub(crate) fn at(&self, place: usize) -> Slot
        requires { place < length self.now }
        ensures { (d : Slot) → slice_index_or self.now place d ≡ result }
    {
        self.slots[place]
    }

    // The place of a job.
    pub(crate) fn place(&self, job: &Job) -> Option<usize>
        ensures { MatchOption result (IsNew self.now job.now)
            (λ k. (k < length self.now) × ((d : Slot) → same_job (slice_index_or self.now k d).job job.now ≡ true)
            × ((m : ℕ) (d : Slot) → m < k → same_job (slice_index_or self.now m d).job job.now ≡ false)) }
    {
        self.places.get(&key(job)).copied()
    }

    // The first place that stands offered. What was passed by is not looked at again.
    pub(crate) fn first_offered(&mut self) -> Option<usize>
        ensures same { self.new ≡ self.old }
        ensures first { MatchOption result (NoneOffered (length self.old) self.old)
            (λ k. (k < length self.old) × ((d : Slot) → (slice_index_or self.old k d).standing ≡ Offered) × NoneOffered k self.old) }
    {
        self.passed = offered_from(&self.slots, self.passed);
        if self.passed < self.slots.len() {
            Some(self.passed)
        } else {
            None
        }
    }

    // How the job at a place stands from now on.
    pub(crate) fn stand(&mut self, place: usize, standing: Standing)
        requires inside { place < length self.old }
        requires once { standing ≢ Offered }
        ensures { (d : Slot) → self.new ≡ slice_set self.old place (record { job = (slice_index_or self.old place d).job; standing = standing }) }
    {
        self.slots[place].standing = standing;
    }

    // Adds a slot for each job. Where memory is wanting, nothing changes.
    pub(crate) fn offer(&mut self, jobs: &[Job]) -> Result<(), AllocError>
        requires new { Each (IsNew self.old) jobs.now }
        requires differ { IsSet jobs.now }
        ensures slots { OnOk result (self.new ≡ self.old ++ map (λ j. record { job = j; standing = Offered }) jobs.now) }
        ensures refused { OnErr result (self.new ≡ self.old) }
    {
        self.slots.reserve(jobs.len())?;
        enter(&mut self.places, self.slots.len(), jobs)?;
        for job in jobs {
            let standing = Standing::Offered;
            self.slots
                .push(Slot {
                    job: *job,
                    standing,
                })
                .unwrap();
        }
        Ok(())
    }
}

// What is the same for the same jobs alone.
fn key(job: &Job) -> Key
    ensures { result ≡ key job.now }
{
    match job {
        Job::Seed { s } => (0, *s, 0),
        Job::Pair { i, j } => (1, *i, *j),
        Job::Right { i, v } => (2, *i, u32::from(*v)),
    }
}

// The first place from `passed` on that stands offered, and else the number of slots.
fn offered_from(slots: &Vec<Slot>, passed: usize) -> usize
    requires inside { passed ≤ length slots.now.items }
    requires none { NoneOffered passed slots.now.items }
    ensures inside { result ≤ length slots.now.items }
    ensures none { NoneOffered result slots.now.items }
    ensures here { result < length slots.now.items → (d : Slot) → (slice_index_or slots.now.items result d).standing ≡ Offered }
{
    for k in passed..slots.len() {
        if let Standing::Offered = slots[k].standing {
            return k;
        }
    }
    slots.len()
}

// Enters jobs with the places from `start` on. Where memory is wanting, none of them stays.
fn enter(places: &mut BTreeMap<Key, usize>, start: usize, jobs: &[Job]) -> Result<(), AllocError>
    requires few { start + length jobs.now < 2 ^ 64 }
    requires new { Each (λ j. get key_cmp places.old (key j) ≡ None) jobs.now }
    requires differ { IsSet jobs.now }
    ensures on { OnOk result ((before : List Job) → length before ≡ start → Finds (get key_cmp places.old) before
        → Finds (get key_cmp places.new) (before ++ jobs.now)) }
    ensures off { OnErr result ((before : List Job) → length before ≡ start → Finds (get key_cmp places.old) before
        → Finds (get key_cmp places.new) before) }
{
    for k in 0..jobs.len() {
        let job = nth(jobs, k);
        if places.insert(key(&job), start + k).is_err() {
            leave(places, jobs, k);
            return Err(AllocError);
        }
    }
    Ok(())
}

// Takes the first jobs out again, the last one first.
fn leave(places: &mut BTreeMap<Key, usize>, jobs: &[Job], count: usize)
    requires { count ≤ length jobs.now }
    ensures { (before : List Job) → Finds (get key_cmp places.old) (before ++ take count jobs.now) → Finds (get key_cmp places.new) before }
{
    for k in (0..count).rev() {
        let job = nth(jobs, k);
        places.remove(&key(&job));
    }
}

// The job at a place.
fn nth(jobs: &[Job], k: usize) -> Job
    requires { k < length jobs.now }
    ensures { (d : Job) → result ≡ slice_index_or jobs.now k d }
{
    jobs[k]
}
