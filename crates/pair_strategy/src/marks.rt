//! Which jobs are queued, a bit for each job.

ghost use Rattle.std.specs.Prelude.{◌≡◌, ◌≢◌, ◌⊎◌, ℕ, ◌<◌, ◌||◌, ◌&&◌, ◌==◌, true, not, OnOk, OnErr, [], length};
ghost use Rattle.std.specs.Int.{bit_at};
ghost use Rattle.word_model.specs.Jobs.{same_job, IsJob};
ghost use Rattle.word_model.specs.declared.records.Job.{Job};
ghost use Rattle.pair_strategy.specs.Inside.Marks.{bit_number, is_marked};

use run_records::Job;
use std::alloc::{AllocError, Global};

// Words enough for the greatest number of a bit, that of the seed 4096.
const WORDS: usize = 33393;

// The bits, once they are made.
#[derive(Drop)]
pub struct Marks {
    words: Vec<u64>,
}

impl Marks {
    // No bits.
    pub fn new(alloc: Global) -> Marks
        ensures { result.words.items ≡ [] }
    {
        Marks {
            words: Vec::new(alloc),
        }
    }

    // Makes the bits where there are none, and sets none of them.
    pub fn make(&mut self, alloc: Global) -> Result<(), AllocError>
        requires sized { (length self.old.words.items ≡ 0) ⊎ (length self.old.words.items ≡ 33393) }
        ensures made { OnOk result (length self.new.words.items ≡ 33393) }
        ensures same { (job : Job) → is_marked self.new.words.items job ≡ is_marked self.old.words.items job }
        ensures failed { OnErr result (self.new ≡ self.old) }
    {
        if self.words.is_empty() {
            self.words = Vec::from_elem(alloc, 0, WORDS)?;
        }
        Ok(())
    }

    // Whether a job's bit is there and set.
    pub fn has(&self, job: &Job) -> bool
        requires range { IsJob 4096 2048 16 job.now }
        ensures { result ≡ is_marked self.now.words.items job.now }
    {
        let number = bit_number(job);
        if self.words.len() <= number / 64 {
            return false;
        }
        has_bit(self.words[number / 64], (number % 64) as u32)
    }

    // Sets a job's bit.
    pub fn set(&mut self, job: &Job)
        requires range { IsJob 4096 2048 16 job.now }
        requires made { length self.old.words.items ≡ 33393 }
        ensures marks { (other : Job) → IsJob 4096 2048 16 other →
            is_marked self.new.words.items other ≡ (same_job other job.now || is_marked self.old.words.items other) }
        ensures made { length self.new.words.items ≡ 33393 }
    {
        let number = bit_number(job);
        self.words[number / 64] = with_bit(self.words[number / 64], (number % 64) as u32);
    }

    // Clears a job's bit.
    pub fn clear(&mut self, job: &Job)
        requires range { IsJob 4096 2048 16 job.now }
        requires made { length self.old.words.items ≡ 33393 }
        ensures marks { (other : Job) → IsJob 4096 2048 16 other →
            is_marked self.new.words.items other ≡ (not (same_job other job.now) && is_marked self.old.words.items other) }
        ensures made { length self.new.words.items ≡ 33393 }
    {
        let number = bit_number(job);
        self.words[number / 64] = without_bit(self.words[number / 64], (number % 64) as u32);
    }
}

// Whether a job's numbers are those of a job that has a bit.
pub fn has_number(job: &Job) -> bool
    ensures yes { result ≡ true → IsJob 4096 2048 16 job.now }
    ensures no { IsJob 4096 2048 16 job.now → result ≡ true }
{
    match *job {
        Job::Seed { s } => 1 <= s && s <= 4096,
        Job::Pair { i, j } => 1 <= i && i < j && j <= 2048,
        Job::Right { i, v } => 1 <= i && i <= 2048 && 1 <= v && v <= 16,
    }
}

// The number of a job's bit.
fn bit_number(job: &Job) -> usize
    requires { IsJob 4096 2048 16 job.now }
    ensures value { result ≡ bit_number job.now }
    ensures in_range { result < 2137152 }
{
    match *job {
        Job::Pair { i, j } => j as usize * (j as usize - 1) / 2 + i as usize,
        Job::Right { i, v } => 2098176 + (i as usize * 17 + v as usize),
        Job::Seed { s } => 2133009 + s as usize,
    }
}

// Whether bit `k` is set.
fn has_bit(word: u64, k: u32) -> bool
    requires { k < 64 }
    ensures { result ≡ (bit_at word k == 1) }
{
    word >> k & 1 == 1
}

// The word with bit `k` set.
fn with_bit(word: u64, k: u32) -> u64
    requires { k < 64 }
    ensures set { bit_at result k ≡ 1 }
    ensures others { (i : ℕ) → i ≢ k → bit_at result i ≡ bit_at word i }
{
    word | (1 << k)
}

// The word with bit `k` clear.
fn without_bit(word: u64, k: u32) -> u64
    requires { k < 64 }
    ensures clear { bit_at result k ≡ 0 }
    ensures others { (i : ℕ) → i < 64 → i ≢ k → bit_at result i ≡ bit_at word i }
{
    word & !(1 << k)
}
