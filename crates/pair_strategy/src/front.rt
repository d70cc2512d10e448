//! The jobs of the least keys of a heap, found from its top.

ghost use Rattle.std.specs.Prelude.{◌≡◌, ℕ, ◌+◌, ◌*◌, ◌<◌, ◌≤◌, IfOk, OnOk, List, insert, length, reverse, take};
ghost use Rattle.monomials.specs.Polynomials.{Each};
ghost use Rattle.pair_strategy.specs.Queues.{jobs_in, with_item, IsRising, IsSet};
ghost use Rattle.pair_strategy.specs.Kept.{in_order};
ghost use Rattle.pair_strategy.specs.Inside.Heaps.{IsTree};
ghost use Rattle.pair_strategy.specs.Inside.Fronts.{items_of, IsCandidate, IsEntered, IsOpened};

use crate::keys::{self, Keyed};
use monomials::Order;
use run_records::Job;
use std::alloc::{AllocError, Global};

// An item of a heap, and its place there.
#[derive(Clone, Copy)]
struct Candidate {
    item: Keyed,
    place: usize,
}

// The jobs of the `k` least keys of a heap in their order, or all. Of `k` items those below them are looked at, and
// no others.
pub fn least_jobs(
    alloc: Global,
    order: &Order,
    items: &Vec<Keyed>,
    k: usize,
) -> Result<Vec<Job>, AllocError>
    requires tree { IsTree order.now items.now.items (length items.now.items) }
    requires set { IsSet (jobs_in items.now.items) }
    requires vars { Each (λ k. length k.mono ≡ order.now.vars) items.now.items }
    ensures { IfOk result (λ jobs. jobs.items ≡ take k (jobs_in (in_order order.now items.now.items))) }
{
    let mut jobs = Vec::new(alloc);
    // The greatest key first, so that the least leaves from the end.
    let mut front = Vec::new(alloc);
    enter(order, items, &mut front, 0)?;
    while jobs.len() < k {
        let Some(least) = front.pop() else {
            return Ok(jobs);
        };
        jobs.push(least.item.job)?;
        enter_below(order, items, &mut front, least.place)?;
    }
    Ok(jobs)
}

// The items below a place come to the candidates.
fn enter_below(
    order: &Order,
    items: &Vec<Keyed>,
    front: &mut Vec<Candidate>,
    place: usize,
) -> Result<(), AllocError>
    requires vars { Each (λ k. length k.mono ≡ order.now.vars) items.now.items }
    requires place { place < length items.now.items }
    requires rising { (half : List Keyed) → IsEntered order.now items.now.items (place * 2 + 1) (reverse (items_of front.old.items)) half →
        IsRising order.now half }
    requires first_rising { IsRising order.now (reverse (items_of front.old.items)) }
    requires candidates { Each (IsCandidate order.now items.now.items) front.old.items }
    ensures opened { OnOk result (IsOpened order.now items.now.items place
        (reverse (items_of front.old.items)) (reverse (items_of front.new.items))) }
    ensures candidates { OnOk result (Each (IsCandidate order.now items.now.items) front.new.items) }
{
    if place >= items.len() / 2 {
        return Ok(());
    }
    enter(order, items, front, place * 2 + 1)?;
    enter(order, items, front, place * 2 + 2)?;
    Ok(())
}

// The item at a place comes to the candidates, where there is one.
fn enter(
    order: &Order,
    items: &Vec<Keyed>,
    front: &mut Vec<Candidate>,
    place: usize,
) -> Result<(), AllocError>
    requires vars { Each (λ k. length k.mono ≡ order.now.vars) items.now.items }
    requires rising { IsRising order.now (reverse (items_of front.old.items)) }
    requires candidates { Each (IsCandidate order.now items.now.items) front.old.items }
    ensures entered { OnOk result (IsEntered order.now items.now.items place
        (reverse (items_of front.old.items)) (reverse (items_of front.new.items))) }
    ensures candidates { OnOk result (Each (IsCandidate order.now items.now.items) front.new.items) }
{
    if place >= items.len() {
        return Ok(());
    }
    let item = items[place];
    let at = place_of(order, front, &item);
    front.insert(at, Candidate { item, place })?;
    Ok(())
}

// Where an item goes among candidates that have the greatest key first.
fn place_of(order: &Order, front: &Vec<Candidate>, item: &Keyed) -> usize
    requires rising { IsRising order.now (reverse (items_of front.now.items)) }
    requires vars { Each (λ c. length c.item.mono ≡ order.now.vars) front.now.items }
    requires item_vars { length item.now.mono ≡ order.now.vars }
    ensures in_range { result ≤ length front.now.items }
    ensures place { reverse (insert (items_of front.now.items) result item.now)
        ≡ with_item order.now item.now (reverse (items_of front.now.items)) }
{
    let mut low = 0;
    let mut high = front.len();
    while low < high {
        let middle = low + (high - low) / 2;
        let other = &front[middle];
        if keys::key_cmp(order, item, &other.item).is_lt() {
            low = middle + 1;
        } else {
            high = middle;
        }
    }
    low
}
