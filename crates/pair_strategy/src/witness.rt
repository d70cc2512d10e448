//! The chain rule: pairs that need no reduction.

ghost use Rattle.std.specs.Prelude.{◌≡◌, ◌≢◌, ℕ, ◌≤◌, ◌<◌, [], length, nat_lt, if◌then◌else◌};
ghost use Rattle.monomials.specs.Polynomials.{Each, HasVars};
ghost use Rattle.word_model.specs.Reduction.{element};
ghost use Rattle.word_model.specs.Jobs.{pair_lcm, pair_queued, is_witness, chain_witness};
ghost use Rattle.pair_strategy.specs.Queues.{jobs_in};

use crate::queue::Queue;
use monomials::Expo;
use run_records::{Elements, Job};

/// The number of the least element by which the pair of the elements `i` and `j` is skipped: a third
/// one whose leading monomial divides the lcm of theirs, and whose pairs with both are no longer
/// queued. The first of the two has the lower number, and neither is zero. Takes no memory.
pub fn chain_witness<B: Elements>(queue: &Queue, basis: &B, i: u32, j: u32) -> Option<u32>
    requires few { length (B.elements basis.now) ≤ 4294967295 }
    requires vars { (n : ℕ) × Each (HasVars n) (B.elements basis.now) }
    requires first { 1 ≤ i }
    requires below { i < j }
    requires last { j ≤ length (B.elements basis.now) }
    requires i_nonzero { element (B.elements basis.now) i ≢ [] }
    requires j_nonzero { element (B.elements basis.now) j ≢ [] }
    ensures { result ≡ chain_witness (B.elements basis.now) (jobs_in queue.now.items) (Job.Pair i j) }
{
    let lcm = basis.at(i).lead().mono.lcm(&basis.at(j).lead().mono);
    for k in 1..=basis.count() as u32 {
        if is_witness(queue, basis, &lcm, i, j, k) {
            return Some(k);
        }
    }
    None
}

// Whether the element of number `k` is a witness for the pair of `i` and `j`.
fn is_witness<B: Elements>(queue: &Queue, basis: &B, lcm: &Expo, i: u32, j: u32, k: u32) -> bool
    requires lcm { lcm.now ≡ pair_lcm (B.elements basis.now) i j }
    requires first { 1 ≤ k }
    requires last { k ≤ length (B.elements basis.now) }
    requires vars { Each (HasVars (length lcm.now)) (B.elements basis.now) }
    ensures { result ≡ is_witness (B.elements basis.now) (jobs_in queue.now.items) i j k }
{
    k != i
        && k != j
        && basis.at(k).lead_divides(lcm)
        && !pair_queued(queue, k, i)
        && !pair_queued(queue, k, j)
}

// Whether the pair of two elements is queued.
fn pair_queued(queue: &Queue, i: u32, j: u32) -> bool
    ensures { result ≡ pair_queued (jobs_in queue.now.items) i j }
{
    queue.holds(&pair_of(i, j))
}

// The pair of two elements, the lower number first.
fn pair_of(i: u32, j: u32) -> Job
    ensures { result ≡ (if nat_lt i j then Job.Pair i j else Job.Pair j i) }
{
    if i < j {
        Job::Pair { i, j }
    } else {
        Job::Pair { i: j, j: i }
    }
}
