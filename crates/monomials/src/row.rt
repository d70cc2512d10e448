//! The rows of an order.

ghost use Rattle.std.specs.Prelude.{◌≡◌, ℕ, ◌+◌, ◌≤◌, ◌↔◌, All, IsTrue, length, map, take, pos};
ghost use Rattle.std.specs.Ordering.{int_cmp};
ghost use Rattle.monomials.specs.Orders.{row_value};
ghost use Rattle.monomials.specs.Blocks.{row_of, weights_row};
ghost use Rattle.monomials.specs.ExtraRows.{marks};
ghost use Rattle.monomials.specs.Rows.{row_entries, IsWithin, falls, signed};

use crate::expo::Expo;
use std::cmp::Ordering;

// A row of an order; its entries have one sign.
#[derive(Clone, Copy)]
pub(crate) enum Row {
    // The weight of each variable, counted positively.
    Weights([u16; 16]),
    // 1 at the variable behind the first `place`, and 0 elsewhere.
    Rising { place: u8 },
    // -1 at the variable behind the first `place`, and 0 elsewhere.
    Falling { place: u8 },
}

impl Row {
    // The degree in the `len` variables behind the first `at`.
    pub(crate) fn degree_in(at: usize, len: usize) -> Row
        requires { at + len ≤ 16 }
        ensures entries { (n : ℕ) → at + len ≤ n → n ≤ 16 →
            row_entries n result ≡ row_of (pos 1) n at len }
        ensures within { (n : ℕ) → IsWithin n result }
    {
        let mut weights = [0; 16];
        weights[at..at + len].fill(1);
        Row::Weights(weights)
    }

    // The weighted degree in the variables behind the first `at`.
    pub(crate) fn weighted_in(at: usize, weights: &[u64]) -> Row
        requires fits { at + length weights.now ≤ 16 }
        requires small { All (λ w. w ≤ 65535) weights.now }
        ensures entries { (n : ℕ) → at + length weights.now ≤ n → n ≤ 16 →
            row_entries n result ≡ weights_row n at weights.now }
        ensures within { (n : ℕ) → IsWithin n result }
    {
        let mut places = [0; 16];
        for i in 0..weights.len() {
            places[at + i] = weights[i] as u16;
        }
        Row::Weights(places)
    }

    // 1 at these variables, which count from 1.
    pub(crate) fn marking(vars: &[u8]) -> Row
        requires { All (λ v. (1 ≤ v) × (v ≤ 16)) vars.now }
        ensures entries { (n : ℕ) → n ≤ 16 → row_entries n result ≡ map pos (marks n vars.now) }
        ensures within { (n : ℕ) → IsWithin n result }
    {
        let mut places = [0; 16];
        for v in vars {
            places[*v as usize - 1] = 1;
        }
        Row::Weights(places)
    }

    // Compares its values at two monomials.
    pub(crate) fn compare(&self, a: &Expo, b: &Expo) -> Ordering
        requires within { IsWithin (length a.now) self.now }
        requires same_length { length a.now ≡ length b.now }
        ensures { let r = row_entries (length a.now) self.now in
            result ≡ int_cmp (row_value r a.now) (row_value r b.now) }
    {
        match self {
            Row::Weights(weights) => a.weighted(weights).cmp(&b.weighted(weights)),
            Row::Rising { place } => a.at(*place).cmp(&b.at(*place)),
            Row::Falling { place } => b.at(*place).cmp(&a.at(*place)),
        }
    }

    // Whether the first `n` entries are those of the other row.
    pub(crate) fn same(&self, other: &Row, n: usize) -> bool
        requires fits { n ≤ 16 }
        requires self_within { IsWithin n self.now }
        requires other_within { IsWithin n other.now }
        ensures { IsTrue result ↔ (row_entries n self.now ≡ row_entries n other.now) }
    {
        let (mine, others) = (self.sizes(), other.sizes());
        self.falls() == other.falls() && mine[..n] == others[..n]
    }

    // Whether its entries are counted negatively.
    fn falls(&self) -> bool
        ensures { result ≡ falls self.now }
    {
        match self {
            Row::Weights(_) | Row::Rising { .. } => false,
            Row::Falling { .. } => true,
        }
    }

    // Its entries without their sign.
    fn sizes(&self) -> [u16; 16]
        requires { IsWithin 16 self.now }
        ensures { (n : ℕ) → n ≤ 16 → IsWithin n self.now →
            row_entries n self.now ≡ map (signed (falls self.now)) (take n result) }
    {
        match self {
            Row::Weights(weights) => *weights,
            Row::Rising { place } | Row::Falling { place } => {
                let mut sizes = [0; 16];
                sizes[*place as usize] = 1;
                sizes
            }
        }
    }
}
