//! Which of the next jobs are worth reducing ahead. Nothing here is relied on: it decides only what is
//! offered.

use commit_core::Lead;
use run_records::{Entry, Job};
use std::alloc::{AllocError, Global};

/// The greatest number of a basis element.
const MOST_ELEMENTS: u32 = 2048;

/// The greatest number of a variable.
const MOST_VARS: u32 = 16;

/// The free bit of each lane of a word of exponents.
const FREE_BITS: u64 = 0x8000_8000_8000_8000;

/// What a leader knows of its jobs: which of them are treated, and which pairs the chain rule will
/// skip. A pair with a chain witness keeps it, so to reduce it ahead is in vain; in enveloping algebras
/// this is most of the work.
#[derive(Drop)]
pub(crate) struct Prospects {
    treated: JobSet,
    // Pairs that the chain rule will skip, and jobs that were found worthy: no job is judged twice.
    skipped: JobSet,
    chosen: JobSet,
    // The leading monomials of the elements so far, as words of exponents.
    leads: Vec<[u64; 4]>,
    // How many entries are noted, and from how many on the next jobs are looked at again.
    noted: usize,
    due: usize,
}

impl Prospects {
    /// Nothing is known. Takes no memory.
    pub(crate) fn new(alloc: Global) -> Prospects {
        Prospects {
            treated: JobSet::new(alloc),
            skipped: JobSet::new(alloc),
            chosen: JobSet::new(alloc),
            leads: Vec::new(alloc),
            noted: 0,
            due: 0,
        }
    }

    /// Notes the entries and elements that the lead has more than before.
    pub(crate) fn note(&mut self, lead: &Lead) -> Result<(), AllocError> {
        let entries = lead.entries();
        for k in self.noted..entries.len() {
            let job = job_of(&entries[k]);
            self.treated.insert(&job)?;
        }
        self.noted = entries.len();
        let basis = lead.basis();
        for k in self.leads.len()..basis.len() {
            if let Some(term) = basis[k].leading() {
                self.leads.push(term.mono.words())?;
            }
        }
        Ok(())
    }

    /// Whether the chain rule will skip the lead's first job, or there is none.
    pub(crate) fn skips_first(&mut self, lead: &Lead) -> Result<bool, AllocError> {
        match lead.first() {
            Some(job) => self.is_in_vain(job),
            None => Ok(true),
        }
    }

    /// Whether enough was done since the next jobs were looked at: a quarter of them.
    pub(crate) fn is_due(&self) -> bool {
        self.due <= self.noted
    }

    /// Of the lead's next jobs, in their order, those that it did not find worthy before and that the
    /// chain rule will not skip, as far as is known.
    pub(crate) fn worthy(&mut self, alloc: Global, next: &[Job]) -> Result<Vec<Job>, AllocError> {
        let mut worthy = Vec::new(alloc);
        for job in next {
            if self.is_worthy(job)? {
                worthy.push(*job)?;
            }
            // Each job before another is treated before it.
            self.treated.insert(job)?;
        }
        self.wait_for(next);
        Ok(worthy)
    }

    // These jobs are not treated yet. Few of them are, where they are looked at again.
    fn wait_for(&mut self, next: &[Job]) {
        for job in next {
            self.treated.remove(job);
        }
        self.due = self.noted.saturating_add((next.len() / 4).max(1));
    }

    fn is_worthy(&mut self, job: &Job) -> Result<bool, AllocError> {
        if self.chosen.has(job) || self.is_in_vain(job)? {
            return Ok(false);
        }
        self.chosen.insert(job)?;
        Ok(true)
    }

    // Whether the job is a pair with a chain witness.
    fn is_in_vain(&mut self, job: &Job) -> Result<bool, AllocError> {
        let Job::Pair { i, j } = *job else {
            return Ok(false);
        };
        if self.skipped.has(job) {
            return Ok(true);
        }
        let in_vain = self.has_witness(i, j);
        if in_vain {
            self.skipped.insert(job)?;
        }
        Ok(in_vain)
    }

    fn has_witness(&self, i: u32, j: u32) -> bool {
        let (Some(first), Some(second)) = (self.lead(i), self.lead(j)) else {
            return false;
        };
        for k in 1..=MOST_ELEMENTS {
            let Some(lead) = self.lead(k) else {
                return false;
            };
            let divides = k != i && k != j && divides_lcm(lead, first, second);
            if divides && self.is_treated(i, k) && self.is_treated(j, k) {
                return true;
            }
        }
        false
    }

    fn lead(&self, i: u32) -> Option<[u64; 4]> {
        self.leads.get((i as usize).wrapping_sub(1)).copied()
    }

    // Whether the pair of these elements is treated.
    fn is_treated(&self, i: u32, k: u32) -> bool {
        let (i, j) = if i < k { (i, k) } else { (k, i) };
        self.treated.has(&Job::Pair { i, j })
    }
}

/// A set of pairs and products with a variable: a bit for each, those of later elements behind.
#[derive(Drop)]
struct JobSet {
    words: Vec<u64>,
}

impl JobSet {
    fn new(alloc: Global) -> JobSet {
        JobSet {
            words: Vec::new(alloc),
        }
    }

    // A seed has no bit.
    fn insert(&mut self, job: &Job) -> Result<(), AllocError> {
        let Some((word, bit)) = place_of(job) else {
            return Ok(());
        };
        for _ in self.words.len()..=word {
            self.words.push(0)?;
        }
        if let Some(bits) = self.words.get_mut(word) {
            *bits |= bit;
        }
        Ok(())
    }

    fn remove(&mut self, job: &Job) {
        let Some((word, bit)) = place_of(job) else {
            return;
        };
        if let Some(bits) = self.words.get_mut(word) {
            *bits &= !bit;
        }
    }

    fn has(&self, job: &Job) -> bool {
        match place_of(job) {
            Some((word, bit)) => self.words.get(word).is_some_and(|bits| *bits & bit != 0),
            None => false,
        }
    }
}

// The word and the bit of a job; none where it is a seed, or its numbers are those of no elements.
fn place_of(job: &Job) -> Option<(usize, u64)> {
    let (element, rank) = match *job {
        Job::Pair { i, j } if 1 <= i && i < j => (j, i.saturating_add(MOST_VARS)),
        Job::Right { i, v } if u32::from(v) <= MOST_VARS => (i, u32::from(v)),
        _ => return None,
    };
    if element > MOST_ELEMENTS {
        return None;
    }
    // An element has as many places as there are variables and elements before it.
    let element = element as usize;
    let before = element.saturating_mul(element) / 2
        + element.saturating_mul(MOST_VARS as usize + 1);
    let place = before.saturating_add(rank as usize);
    Some((place / 64, 1u64.wrapping_shl((place % 64) as u32)))
}

// Whether a monomial divides the least common multiple of two others: none of its exponents is greater
// than both of theirs.
fn divides_lcm(mono: [u64; 4], first: [u64; 4], second: [u64; 4]) -> bool {
    lanes_within(mono[0], first[0], second[0])
        && lanes_within(mono[1], first[1], second[1])
        && lanes_within(mono[2], first[2], second[2])
        && lanes_within(mono[3], first[3], second[3])
}

fn lanes_within(mono: u64, first: u64, second: u64) -> bool {
    let below_first = (first | FREE_BITS).wrapping_sub(mono);
    let below_second = (second | FREE_BITS).wrapping_sub(mono);
    (below_first | below_second) & FREE_BITS == FREE_BITS
}

fn job_of(entry: &Entry) -> Job {
    match entry {
        Entry::Skipped { job, .. } | Entry::Zero { job, .. } | Entry::New { job, .. } => *job,
    }
}
