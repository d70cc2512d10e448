//! Orders of monomials by rows.

ghost use Rattle.std.specs.Prelude.{◌≡◌, ℕ, List, [], ◌∷◌, ◌+◌, ◌≤◌, ◌<◌, ◌↔◌, Bool, All, IsTrue, IfOk, OnOk, length, map};
ghost use Rattle.monomials.specs.Orders.{rows_cmp, order_cmp};
ghost use Rattle.monomials.specs.declared.order.Block.TheVariants.{DegRev};
ghost use Rattle.monomials.specs.Separating.{IsSeparating};
ghost use Rattle.monomials.specs.WellFounded.{IsWellFounded};
ghost use Rattle.monomials.specs.Blocks.{block_len, block_rows, first_first, last_first, is_extra, order_of, IsPart, HasWeights, AreWeighted, Covers};
ghost use Rattle.monomials.specs.ExtraRows.{marks, with_rows};
ghost use Rattle.monomials.specs.Rows.{row_entries, IsWithin, AddsRows};

use crate::block_weights::BlockWeights;
use crate::expo::Expo;
use crate::row::Row;
use std::alloc::{AllocError, Global};
use std::cmp::Ordering;
use std::marker::Model;

/// A part of an order. An `Extra` is one row alone and stands in front of the others; each of these
/// covers the next variables.
#[derive(Debug, PartialEq, Eq, Drop)]
pub enum Block {
    /// `a`: by these weights of the variables from the first on.
    Extra { weights: BlockWeights },
    /// `lp`: lexicographically.
    Lex { len: usize },
    /// `dp`: by degree, and then reverse lexicographically.
    DegRev { len: usize },
    /// `Dp`: by degree, and then lexicographically.
    DegLex { len: usize },
    /// `wp`: by weighted degree, and then reverse lexicographically.
    WeightRev { weights: BlockWeights },
    /// `Wp`: by weighted degree, and then lexicographically.
    WeightLex { weights: BlockWeights },
}

/// Why blocks are no order.
#[derive(Debug, Drop)]
pub enum OrderFault {
    /// The blocks don't cover the variables, each at least one of them; or an `Extra` stands behind
    /// a block, or has no weight or more than there are variables.
    Cover,
    /// A weight is above 65535, or one of a block is zero. An `Extra` may have weights zero.
    Weight,
    /// Out of memory.
    Memory,
}

impl From<AllocError> for OrderFault {
    ghost use Rattle.std.specs.Prelude.{◌≡◌};
    ghost use Rattle.monomials.specs.declared.order.OrderFault.TheVariants.{Memory};

    ghost from_gives = { λ _ fault. fault ≡ Memory };

    fn from(_error: AllocError) -> OrderFault {
        OrderFault::Memory
    }
}

/// An order of the monomials in 1 to 16 variables: by the first of its rows in which two of them
/// have different values.
#[derive(Drop)]
pub struct Order {
    vars: usize,
    rows: Vec<Row>,
    // Whether the rows are those of one `dp`, by which monomials compare without them.
    graded: bool,
}

impl Model for Order {
    ghost use Rattle.monomials.specs.Orders.{RowOrder};

    ghost Value = { RowOrder };

    ghost use Rattle.monomials.specs.Rows.{kept_order, IsOrder};

    ghost view = { kept_order };

    ghost invariant = { IsOrder };
}

impl Block {
    /// How many variables it covers: an extra weight row covers none.
    pub fn covered(&self) -> usize
        ensures { result ≡ block_len self.now }
    {
        match self {
            Block::Extra { .. } => 0,
            Block::Lex { len } | Block::DegRev { len } | Block::DegLex { len } => *len,
            Block::WeightRev { weights } | Block::WeightLex { weights } => weights.as_slice().len(),
        }
    }

    fn is_extra(&self) -> bool
        ensures { result ≡ is_extra self.now }
    {
        match self {
            Block::Extra { .. } => true,
            Block::Lex { .. }
            | Block::DegRev { .. }
            | Block::DegLex { .. }
            | Block::WeightRev { .. }
            | Block::WeightLex { .. } => false,
        }
    }

    // Whether it may stand where it does, in front of all blocks or behind one.
    fn is_part(&self, n: usize, front: bool) -> bool
        ensures { IsTrue result ↔ IsPart n front self.now }
    {
        match self {
            Block::Extra { weights } => {
                let count = weights.as_slice().len();
                front && 0 < count && count <= n
            }
            Block::Lex { len } | Block::DegRev { len } | Block::DegLex { len } => 0 < *len,
            Block::WeightRev { weights } | Block::WeightLex { weights } => {
                !weights.as_slice().is_empty()
            }
        }
    }

    // Whether its weights are in range.
    fn has_weights(&self) -> bool
        ensures { IsTrue result ↔ HasWeights self.now }
    {
        match self {
            Block::Extra { weights } => weights.as_slice().iter().all(|w| *w <= 65535),
            Block::Lex { .. } | Block::DegRev { .. } | Block::DegLex { .. } => true,
            Block::WeightRev { weights } | Block::WeightLex { weights } => {
                weights.as_slice().iter().all(|w| 0 < *w && *w <= 65535)
            }
        }
    }

    // Adds its rows, of a block that covers the variables behind the first `at`.
    fn push_rows(&self, rows: &mut Vec<Row>, at: usize, n: usize) -> Result<(), AllocError>
        requires few { n ≤ 16 }
        requires part { (front : Bool) × IsPart n front self.now }
        requires weights { HasWeights self.now }
        requires fits { at + block_len self.now ≤ n }
        ensures { OnOk result (AddsRows n rows.old.items rows.new.items (block_rows n at self.now)) }
    {
        match self {
            Block::Extra { weights } => {
                rows.push(Row::weighted_in(0, weights.as_slice()))?;
                Ok(())
            }
            Block::Lex { len } => push_rising(rows, at, *len),
            Block::DegRev { len } => {
                rows.push(Row::degree_in(at, *len))?;
                push_falling(rows, at + 1, *len - 1)
            }
            Block::DegLex { len } => {
                rows.push(Row::degree_in(at, *len))?;
                push_rising(rows, at, *len)
            }
            Block::WeightRev { weights } => {
                let weights = weights.as_slice();
                rows.push(Row::weighted_in(at, weights))?;
                push_falling(rows, at + 1, weights.len() - 1)
            }
            Block::WeightLex { weights } => {
                let weights = weights.as_slice();
                rows.push(Row::weighted_in(at, weights))?;
                push_rising(rows, at, weights.len())
            }
        }
    }
}

// Adds the unit rows of the `count` variables behind the first `at`, the first variable's first.
fn push_rising(rows: &mut Vec<Row>, at: usize, count: usize) -> Result<(), AllocError>
    requires { at + count ≤ 16 }
    ensures { OnOk result ((n : ℕ) → at + count ≤ n →
        AddsRows n rows.old.items rows.new.items (first_first n at count)) }
{
    for k in 0..count {
        let place = (at + k) as u8;
        rows.push(Row::Rising { place })?;
    }
    Ok(())
}

// Adds the negative unit rows of the `count` variables behind the first `at`, the last variable's
// first.
fn push_falling(rows: &mut Vec<Row>, at: usize, count: usize) -> Result<(), AllocError>
    requires { at + count ≤ 16 }
    ensures { OnOk result ((n : ℕ) → at + count ≤ n →
        AddsRows n rows.old.items rows.new.items (last_first n at count)) }
{
    for k in (0..count).rev() {
        let place = (at + k) as u8;
        rows.push(Row::Falling { place })?;
    }
    Ok(())
}

// Whether the blocks cover the `n` variables, and each stands where it may.
fn covers(blocks: &[Block], n: usize) -> bool
    ensures { IsTrue result ↔ Covers n blocks.now }
{
    let mut front = true;
    let mut left = n;
    for block in blocks {
        let len = block.covered();
        if !block.is_part(n, front) || left < len {
            return false;
        }
        front = front && block.is_extra();
        left -= len;
    }
    left == 0
}

// Whether they are one `dp` alone.
fn is_graded(blocks: &[Block]) -> bool
    ensures { IsTrue result → (len : ℕ) × (blocks.now ≡ DegRev len ∷ []) }
{
    match blocks {
        [Block::DegRev { .. }] => true,
        _ => false,
    }
}

// Whether all weights are in range.
fn are_weighted(blocks: &[Block]) -> bool
    ensures { IsTrue result ↔ AreWeighted blocks.now }
{
    blocks.iter().all(Block::has_weights)
}

// Whether the rows have the same first `n` entries.
fn same_rows(rows: &[Row], others: &[Row], n: usize) -> bool
    requires few { n ≤ 16 }
    requires within { All (IsWithin n) rows.now }
    requires others_within { All (IsWithin n) others.now }
    ensures { IsTrue result ↔ (map (row_entries n) rows.now ≡ map (row_entries n) others.now) }
{
    if rows.len() != others.len() {
        return false;
    }
    for i in 0..rows.len() {
        if !rows[i].same(&others[i], n) {
            return false;
        }
    }
    true
}

impl Order {
    /// The order of these blocks. `Cover` comes first, and both faults before memory is asked for.
    pub fn new(alloc: Global, blocks: &[Block], n: usize) -> Result<Order, OrderFault>
        requires not_empty { 1 ≤ n }
        requires fits { n ≤ 16 }
        ensures order { IfOk result (λ o. o ≡ order_of n blocks.now) }
        ensures covered { OnOk result (Covers n blocks.now) }
        ensures weighted { OnOk result (AreWeighted blocks.now) }
        ensures cover { result ≡ Err OrderFault.Cover → Covers n blocks.now → ⊥ }
        ensures weight_covers { result ≡ Err OrderFault.Weight → Covers n blocks.now }
        ensures weight { result ≡ Err OrderFault.Weight → AreWeighted blocks.now → ⊥ }
        ensures memory { result ≡ Err OrderFault.Memory → Covers n blocks.now }
        ensures memory_weighted { result ≡ Err OrderFault.Memory → AreWeighted blocks.now }
    {
        if !covers(blocks, n) {
            return Err(OrderFault::Cover);
        }
        if !are_weighted(blocks) {
            return Err(OrderFault::Weight);
        }
        let mut rows = Vec::new(alloc);
        let mut at = 0;
        for block in blocks {
            block.push_rows(&mut rows, at, n)?;
            at += block.covered();
        }
        Ok(Order {
            vars: n,
            rows,
            graded: is_graded(blocks),
        })
    }

    /// The order that first compares by how often these variables occur: one row in front, with 1 at
    /// each of them. Repeats change nothing.
    pub fn with_extra(&self, alloc: Global, vars: &[u8]) -> Result<Order, AllocError>
        requires in_range { All (λ v. (1 ≤ v) × (v ≤ self.now.vars)) vars.now }
        ensures { IfOk result (λ o.
            o ≡ with_rows (marks self.now.vars vars.now ∷ []) self.now) }
    {
        let n = self.vars();
        let mut rows = Vec::new(alloc);
        rows.push(Row::marking(vars))?;
        rows.extend_from_slice(&self.rows)?;
        Ok(Order {
            vars: n,
            rows,
            graded: false,
        })
    }

    /// The same order, in memory of its own.
    pub fn copy(&self, alloc: Global) -> Result<Order, AllocError>
        ensures { IfOk result (λ o. o ≡ self.now) }
    {
        let rows = Vec::from_slice(alloc, &self.rows)?;
        Ok(Order {
            vars: self.vars,
            rows,
            graded: self.graded,
        })
    }

    /// Whether the orders have the same variables and the same rows. Different rows may compare
    /// alike.
    pub fn same(&self, other: &Order) -> bool
        ensures { IsTrue result ↔ (self.now ≡ other.now) }
    {
        self.vars == other.vars && same_rows(&self.rows, &other.rows, self.vars)
    }

    /// The number of variables, and what holds of each order.
    pub fn vars(&self) -> usize
        ensures vars { result ≡ self.now.vars }
        ensures not_empty { 1 ≤ result }
        ensures at_most { result ≤ 16 }
        ensures separates { IsSeparating self.now }
        ensures well_founded { IsWellFounded self.now }
    {
        self.vars
    }

    /// How the first monomial compares with the second.
    pub fn compare(&self, a: &Expo, b: &Expo) -> Ordering
        requires a_fits { length a.now ≡ self.now.vars }
        requires b_fits { length b.now ≡ self.now.vars }
        ensures rows { result ≡ rows_cmp self.now.rows a.now b.now }
        ensures value { result ≡ order_cmp self.now.rows a.now b.now }
        ensures equal { result ≡ Ordering.Equal → a.now ≡ b.now }
    {
        if self.graded {
            return a.compare_graded(b);
        }
        for row in &self.rows {
            match row.compare(a, b) {
                Ordering::Equal => {}
                decided => return decided,
            }
        }
        Ordering::Equal
    }
}
