//! Heaps of keyed jobs: below the item at a place p lie those at 2 p + 1 and 2 p + 2, and no item is less than
//! the one that it lies below.

ghost use Rattle.std.specs.Prelude.{◌≡◌, ℕ, ◌+◌, ◌-◌, ◌*◌, ◌<◌, ◌≤◌, not, length, get_or, vec_capacity, IsPermutation};
ghost use Rattle.std.specs.Ordering.{is_lt};
ghost use Rattle.monomials.specs.Polynomials.{Each};
ghost use Rattle.pair_strategy.specs.Queues.{keyed_cmp};
ghost use Rattle.pair_strategy.specs.Inside.Heaps.{IsTree, IsTreeBelow, IsTreeAbove, IsLeastBelow};
ghost use Rattle.pair_strategy.specs.declared.keys.Keyed.{Keyed};

use crate::keys::{self, Keyed};
use monomials::Order;

// The last item goes up to its place.
pub fn rise(order: &Order, items: &mut Vec<Keyed>)
    requires some { 1 ≤ length items.old.items }
    requires vars { Each (λ k. length k.mono ≡ order.now.vars) items.old.items }
    requires tree { IsTreeBelow order.now items.old.items (length items.old.items - 1) (length items.old.items) }
    ensures moved { IsPermutation items.old.items items.new.items }
    ensures tree { IsTree order.now items.new.items (length items.old.items) }
    ensures room { vec_capacity items.new ≡ vec_capacity items.old }
{
    let mut place = items.len() - 1;
    while place > 0 {
        let above = (place - 1) / 2;
        if at_most(order, items, above, place) {
            return;
        }
        items.swap(above, place);
        place = above;
    }
}

// The first item goes down to its place.
pub fn sink(order: &Order, items: &mut Vec<Keyed>)
    requires vars { Each (λ k. length k.mono ≡ order.now.vars) items.old.items }
    requires tree { IsTreeAbove order.now items.old.items 0 (length items.old.items) }
    ensures moved { IsPermutation items.old.items items.new.items }
    ensures tree { IsTree order.now items.new.items (length items.old.items) }
    ensures room { vec_capacity items.new ≡ vec_capacity items.old }
{
    let half = items.len() / 2;
    let mut place = 0;
    while place < half {
        let below = least_below(order, items, place);
        if at_most(order, items, place, below) {
            return;
        }
        items.swap(place, below);
        place = below;
    }
}

// The place of the least item below another.
fn least_below(order: &Order, items: &Vec<Keyed>, place: usize) -> usize
    requires vars { Each (λ k. length k.mono ≡ order.now.vars) items.now.items }
    requires some { place * 2 + 1 < length items.now.items }
    ensures from { place * 2 + 1 ≤ result }
    ensures to { result ≤ place * 2 + 2 }
    ensures in_range { result < length items.now.items }
    ensures least { IsLeastBelow order.now items.now.items place result (length items.now.items) }
{
    let left = place * 2 + 1;
    let right = left + 1;
    if right == items.len() {
        return left;
    }
    if at_most(order, items, left, right) {
        left
    } else {
        right
    }
}

// Whether the key of one item is at most that of another.
fn at_most(order: &Order, items: &Vec<Keyed>, first: usize, second: usize) -> bool
    requires vars { Each (λ k. length k.mono ≡ order.now.vars) items.now.items }
    requires first { first < length items.now.items }
    requires second { second < length items.now.items }
    ensures { (d : Keyed) → is_lt (keyed_cmp order.now (get_or items.now.items second d) (get_or items.now.items first d)) ≡ not result }
{
    !keys::key_cmp(order, &items[second], &items[first]).is_lt()
}
