//! Where a product of sorted monomials is out of order.

ghost use Rattle.std.specs.Prelude.{◌≡◌, ℕ, ◌+◌, ◌-◌, ◌<◌, ◌≤◌, length, slice_index};
ghost use Rattle.monomials.specs.Monomials.{power};
ghost use Rattle.gproduct.specs.Inside.Factors.{stacked_word, HaveVars, IsFront};

use monomials::Expo;

/// Two factors side by side: the highest variable of the left one is above the lowest of the right.
#[derive(Clone, Copy)]
pub struct Crossing {
    pub left: Expo,
    pub high: u8,
    pub right: Expo,
    pub low: u8,
}

/// What the first factors of a product come to.
#[derive(Clone, Copy)]
pub enum Front {
    /// The whole product is a sorted monomial.
    Sorted(Expo),
    /// The product is out of order here.
    Crossed(Crossing),
}

// The number of the last variable that divides the monomial, 0 of 1.
fn highest(mono: &Expo) -> u8
    ensures at_most { result ≤ length mono.now }
    ensures divides { 0 < result → 0 < slice_index mono.now (result - 1) }
    ensures last { (k : ℕ) → result ≤ k → slice_index mono.now k ≡ 0 }
{
    let mut v = mono.len() as u8;
    while v > 0 && mono.get(v) == 0 {
        v -= 1;
    }
    v
}

// The number of the first variable that divides the monomial, one more than there are of 1.
fn lowest(mono: &Expo) -> u8
    ensures at_least { 1 ≤ result }
    ensures at_most { result ≤ length mono.now + 1 }
    ensures divides { result ≤ length mono.now → 0 < slice_index mono.now (result - 1) }
    ensures first { (k : ℕ) → k + 1 < result → slice_index mono.now k ≡ 0 }
{
    let n = mono.len() as u8;
    let mut v = 1;
    while v <= n && mono.get(v) == 0 {
        v += 1;
    }
    v
}

/// Multiplies the first factors of a product in `n` variables, as far as they stand in order, and
/// takes them off.
pub fn join_front(n: usize, factors: &mut Vec<Expo>) -> Front
    requires some { 1 ≤ n }
    requires few { n ≤ 16 }
    requires vars { HaveVars n factors.old.items }
    requires short { length (stacked_word factors.old.items) ≤ 4095 }
    ensures { IsFront n factors.old.items factors.new.items result }
{
    let mut left = Expo::one(n);
    while let Some(right) = factors.pop() {
        let (high, low) = (highest(&left), lowest(&right));
        if low < high {
            return Front::Crossed(Crossing {
                left,
                high,
                right,
                low,
            });
        }
        left = left.plus(&right);
    }
    Front::Sorted(left)
}
