//! Jobs with the sugars and monomials of their keys, the sugars of elements, and the order of keys.

ghost use Rattle.std.specs.Prelude.{◌≡◌, ◌≢◌, ℕ, ◌+◌, ◌<◌, ◌≤◌, [], length};
ghost use Rattle.monomials.specs.Monomials.{degree};
ghost use Rattle.monomials.specs.Polynomials.{Each, HasVars};
ghost use Rattle.monomials.specs.Leading.{leading_monomial};
ghost use Rattle.word_model.specs.Words.{Algebra};
ghost use Rattle.word_model.specs.Reduction.{element};
ghost use Rattle.word_model.specs.Jobs.{sugar_at, excess, job_sugar, element_sugar, key_monomial, rank_of, AreSugars, UsesElements, IsJob, NamesNonzero};
ghost use Rattle.pair_strategy.specs.Queues.{keyed_cmp};

use gpoly::GPoly;
use monomials::{Expo, Order};
use run_records::{Elements, Job, Trace};
use std::cmp::Ordering;

/// A job with the sugar and the monomial of its key.
#[derive(Clone, Copy, Debug, PartialEq, Eq)]
pub struct Keyed {
    pub sugar: u32,
    pub mono: Expo,
    pub job: Job,
}

/// The job with its sugar and the monomial of its key, over elements of these sugars. A seed has
/// the degree and the leading monomial of its generator. A pair has the lcm of the two leading
/// monomials, and as sugar the lcm's degree plus the greater excess of the two elements, by which an
/// element's sugar is above the degree of its leading monomial. A product has its element's leading
/// monomial times the variable, and a sugar one greater than the element's. The job's numbers are in
/// range, and what it names is not zero. There is one sugar for each element, at least the element's
/// degree and at most 33554432. Takes no memory.
pub fn job_key<B: Elements>(basis: &B, sugars: &[u32], gens: &[GPoly], job: &Job) -> Keyed
    requires in_range { (n : ℕ) × Each (HasVars n) gens.now × Each (HasVars n) (B.elements basis.now)
        × IsJob (length gens.now) (length (B.elements basis.now)) n job.now }
    requires nonzero { NamesNonzero gens.now (B.elements basis.now) job.now }
    requires sugars { AreSugars (B.elements basis.now) sugars.now }
    requires small { Each (λ n. n ≤ 33554432) sugars.now }
    ensures job { result.job ≡ job.now }
    ensures sugar { result.sugar ≡ job_sugar gens.now (B.elements basis.now) sugars.now job.now }
    ensures most { (b : ℕ) → Each (λ n. n ≤ b) sugars.now → result.sugar ≤ b + 4095 }
    ensures mono { (A : Algebra) → Each (HasVars A.order.vars) (B.elements basis.now) →
        result.mono ≡ key_monomial A gens.now (B.elements basis.now) job.now }
    ensures vars { (n : ℕ) → Each (HasVars n) gens.now → Each (HasVars n) (B.elements basis.now) →
        length result.mono ≡ n }
{
    Keyed {
        sugar: job_sugar(basis, sugars, gens, job),
        mono: key_monomial(basis, gens, job),
        job: *job,
    }
}

/// The sugar of an element whose job has the sugar `job_sugar` and whose start was reduced by these
/// steps: the greatest of `job_sugar` and, over the steps, the sugar of the element used plus the
/// degree of the step's monomial. `sugars` has those of the elements that the steps use, at most
/// 33554432 each. Takes no memory.
pub fn element_sugar(sugars: &[u32], job_sugar: u32, trace: &Trace) -> u32
    requires in_range { UsesElements (length sugars.now) trace.now }
    requires small { Each (λ n. n ≤ 33554432) sugars.now }
    requires job_small { job_sugar ≤ 33554432 }
    ensures { result ≡ element_sugar sugars.now job_sugar trace.now }
{
    let mut sugar = job_sugar;
    for step in trace.steps() {
        sugar = sugar.max(sugars[step.index as usize - 1] + step.mono.degree());
    }
    sugar
}

// The sugar of a job.
fn job_sugar<B: Elements>(basis: &B, sugars: &[u32], gens: &[GPoly], job: &Job) -> u32
    requires in_range { (n : ℕ) × Each (HasVars n) gens.now × Each (HasVars n) (B.elements basis.now)
        × IsJob (length gens.now) (length (B.elements basis.now)) n job.now }
    requires nonzero { NamesNonzero gens.now (B.elements basis.now) job.now }
    requires sugars { AreSugars (B.elements basis.now) sugars.now }
    requires small { Each (λ n. n ≤ 33554432) sugars.now }
    ensures value { result ≡ job_sugar gens.now (B.elements basis.now) sugars.now job.now }
    ensures most { (b : ℕ) → Each (λ n. n ≤ b) sugars.now → result ≤ b + 4095 }
{
    match *job {
        Job::Seed { s } => gens[s as usize - 1].degree(),
        Job::Pair { i, j } => pair_sugar(basis, sugars, i, j),
        Job::Right { i, .. } => sugars[i as usize - 1] + 1,
    }
}

// The sugar of a pair.
fn pair_sugar<B: Elements>(basis: &B, sugars: &[u32], i: u32, j: u32) -> u32
    requires vars { (n : ℕ) × Each (HasVars n) (B.elements basis.now) }
    requires first { 1 ≤ i }
    requires below { i < j }
    requires last { j ≤ length (B.elements basis.now) }
    requires i_nonzero { element (B.elements basis.now) i ≢ [] }
    requires j_nonzero { element (B.elements basis.now) j ≢ [] }
    requires sugars { AreSugars (B.elements basis.now) sugars.now }
    requires small { Each (λ n. n ≤ 33554432) sugars.now }
    ensures value { result ≡ job_sugar [] (B.elements basis.now) sugars.now (Job.Pair i j) }
    ensures most { (b : ℕ) → Each (λ n. n ≤ b) sugars.now → result ≤ b + 4095 }
{
    let lcm = basis.at(i).lead().mono.lcm(&basis.at(j).lead().mono);
    let first = excess(basis, sugars, i);
    let second = excess(basis, sugars, j);
    lcm.degree() + first.max(second)
}

// By how much an element's sugar exceeds the degree of its leading monomial.
fn excess<B: Elements>(basis: &B, sugars: &[u32], i: u32) -> u32
    requires first { 1 ≤ i }
    requires last { i ≤ length (B.elements basis.now) }
    requires nonzero { element (B.elements basis.now) i ≢ [] }
    requires sugars { AreSugars (B.elements basis.now) sugars.now }
    ensures value { result ≡ excess (B.elements basis.now) sugars.now i }
    ensures sum { result + degree (leading_monomial (element (B.elements basis.now) i)) ≡ sugar_at sugars.now i }
    ensures lead { degree (leading_monomial (element (B.elements basis.now) i)) ≤ 4095 }
{
    sugars[i as usize - 1] - basis.at(i).lead().mono.degree()
}

// The monomial of a job's key.
fn key_monomial<B: Elements>(basis: &B, gens: &[GPoly], job: &Job) -> Expo
    requires in_range { (n : ℕ) × Each (HasVars n) gens.now × Each (HasVars n) (B.elements basis.now)
        × IsJob (length gens.now) (length (B.elements basis.now)) n job.now }
    requires nonzero { NamesNonzero gens.now (B.elements basis.now) job.now }
    ensures mono { (A : Algebra) → Each (HasVars A.order.vars) (B.elements basis.now) →
        result ≡ key_monomial A gens.now (B.elements basis.now) job.now }
    ensures vars { (n : ℕ) → Each (HasVars n) gens.now → Each (HasVars n) (B.elements basis.now) →
        length result ≡ n }
{
    match *job {
        Job::Seed { s } => gens[s as usize - 1].lead().mono,
        Job::Pair { i, j } => basis.at(i).lead().mono.lcm(&basis.at(j).lead().mono),
        Job::Right { i, v } => {
            let lead = &basis.at(i).lead().mono;
            lead.plus(&Expo::var(lead.len(), v))
        }
    }
}

// What orders jobs of equal sugars and monomials: their kind, and then their numbers.
fn rank_of(job: &Job) -> (u8, (u32, u32))
    ensures { result ≡ rank_of job.now }
{
    match *job {
        Job::Seed { s } => (0, (s, 0)),
        Job::Pair { i, j } => (1, (j, i)),
        Job::Right { i, v } => (2, (i, u32::from(v))),
    }
}

// How the keys of two jobs compare.
pub fn key_cmp(order: &Order, a: &Keyed, b: &Keyed) -> Ordering
    requires a_vars { length a.now.mono ≡ order.now.vars }
    requires b_vars { length b.now.mono ≡ order.now.vars }
    ensures { result ≡ keyed_cmp order.now a.now b.now }
{
    match a.sugar.cmp(&b.sugar) {
        Ordering::Equal => order
            .compare(&a.mono, &b.mono)
            .then(rank_of(&a.job).cmp(&rank_of(&b.job))),
        other => other,
    }
}
