//! The table: one set-once cell for each place.

ghost use Rattle.std.specs.Prelude.{◌≡◌, ◌<◌, ◌≤◌, ◌↔◌, IsTrue, IfOk, IfSome, length};
ghost use Rattle.closed_forms.specs.Kinds.{HasKind};
ghost use Rattle.gproduct.specs.Inside.Passing.{Passes};
ghost use Rattle.gproduct.specs.Places.{IsPlace, place_value, cell_count};

use crate::kinds::{kept_kind, kinds_of};
use crate::pairs::{Pair, noncommuting, none_meets};
use crate::place::{cell, same_place};
use algebra::Algebra;
use closed_forms::PairKind;
use gpoly::GPoly;
use monomials::Expo;
use once_cell::race::OnceBox;
use std::alloc::{AllocError, Global};
use std::marker::Model;
use word_model::events::Place;

// What a cell holds: a place with its value in the algebra that it carries.
#[derive(Drop)]
pub(crate) struct Filled<'r> {
    pub(crate) algebra: &'r Algebra,
    pub(crate) place: Place,
    pub(crate) value: GPoly,
    ghost right: { value ≡ place_value algebra.now place },
}

/// The products of small powers of two variables of an algebra: one set-once cell for each place,
/// empty at first, which threads may share. A seat looks into the cells and fills them.
#[derive(Drop)]
pub struct Table<'r> {
    algebra: &'r Algebra,
    kinds: Vec<Option<PairKind>>,
    noncommuting: Vec<Pair>,
    cells: Vec<OnceBox<Filled<'r>>>,
}

impl<'r> Model for Table<'r> {
    ghost use Rattle.word_model.specs.Words.{Algebra as GAlgebra};
    ghost use Rattle.std.specs.Prelude.{◌≡◌, length};
    ghost use Rattle.gproduct.specs.Places.{cell_count};
    ghost use Rattle.gproduct.specs.Inside.Passing.{HasNoncommuting};
    ghost use Rattle.gproduct.specs.Inside.Swaps.{AreKinds};

    ghost Value = { GAlgebra };

    ghost view = { λ t. t.algebra.now };

    ghost invariant = { λ t. AreKinds t.algebra.now t.kinds.items × HasNoncommuting t.algebra.now t.noncommuting.items
        × (length t.cells.items ≡ cell_count t.algebra.now.order.vars) };
}

impl<'r> Table<'r> {
    /// A table of this algebra, with empty cells. The kinds of all relations are found here, once.
    pub fn new(alloc: Global, alg: &'r Algebra) -> Result<Table<'r>, AllocError>
        ensures { IfOk result (λ t. t ≡ alg.now) }
    {
        let kinds = kinds_of(alloc, alg)?;
        let noncommuting = noncommuting(alloc, alg)?;
        let cells = empty_cells(alloc, alg.n())?;
        Ok(Table {
            algebra: alg,
            kinds,
            noncommuting,
            cells,
        })
    }

    // The algebra.
    pub(crate) fn algebra(&self) -> &'r Algebra
        ensures { result.now ≡ self.now }
    {
        self.algebra
    }

    // How many cells there are.
    pub(crate) fn count(&self) -> usize
        ensures { result ≡ cell_count self.now.order.vars }
    {
        self.cells.len()
    }

    // The kind of the relation of x_i and x_j, where it has one.
    pub(crate) fn kind(&self, i: u8, j: u8) -> Option<PairKind>
        requires first { 1 ≤ i }
        requires ordered { i < j }
        requires last { j ≤ self.now.order.vars }
        ensures kind { IfSome result (λ kind. HasKind self.now i j kind) }
        ensures full { (kind : _) → HasKind self.now i j kind → result ≡ Some kind }
    {
        let _n = self.algebra.n();
        kept_kind(&self.kinds, i, j)
    }

    // Whether each variable of `left` commutes with each lower variable of `right`.
    pub(crate) fn passes(&self, left: &Expo, right: &Expo) -> bool
        requires left { length left.now ≡ self.now.order.vars }
        requires right { length right.now ≡ self.now.order.vars }
        ensures { IsTrue result → Passes self.now left.now right.now }
    {
        none_meets(&self.noncommuting, left, right)
    }

    // What the place's cell holds, where that is of this place in this algebra.
    pub(crate) fn look<'t>(&'t self, place: Place) -> Option<&'t Filled<'r>>
        requires { IsPlace self.now place }
        ensures place { IfSome result (λ f. f.now.place ≡ place) }
        ensures algebra { IfSome result (λ f. f.now.algebra.now ≡ self.now) }
    {
        let cell = self.cells.get(cell(place, self.algebra.n()))?;
        let found = cell.get()?;
        if found.is_of(place, self.algebra) {
            Some(found)
        } else {
            None
        }
    }

    // Offers the value of a place to its cell by one set, and answers what the cell then holds, where
    // that is of this place in this algebra.
    pub(crate) fn fill<'t>(
        &'t self,
        alloc: Global,
        place: Place,
        value: GPoly,
    ) -> Result<Option<&'t Filled<'r>>, AllocError>
        requires place { IsPlace self.now place }
        requires value { value ≡ place_value self.now place }
        ensures place { IfOk result (λ o. IfSome o (λ f. f.now.place ≡ place)) }
        ensures algebra { IfOk result (λ o. IfSome o (λ f. f.now.algebra.now ≡ self.now)) }
    {
        let Some(cell) = self.cells.get(cell(place, self.algebra.n())) else {
            return Ok(None);
        };
        let algebra = self.algebra;
        let full = Box::new(
            alloc,
            Filled {
                algebra,
                place,
                value,
            },
        )?;
        let found = cell.get_or_init(move || full);
        if found.is_of(place, self.algebra) {
            Ok(Some(found))
        } else {
            Ok(None)
        }
    }
}

impl<'r> Filled<'r> {
    // Whether it is of this place and of an equal algebra.
    fn is_of(&self, place: Place, alg: &Algebra) -> bool
        ensures { IsTrue result ↔ ((self.now.place ≡ place) × (self.now.algebra.now ≡ alg.now)) }
    {
        same_place(self.place, place) && self.algebra.same(alg)
    }
}

// An empty cell for each place over n variables.
fn empty_cells<'r>(alloc: Global, n: usize) -> Result<Vec<OnceBox<Filled<'r>>>, AllocError>
    requires some { 1 ≤ n }
    requires few { n ≤ 16 }
    ensures { IfOk result (λ cells. length cells.items ≡ cell_count n) }
{
    let count = n * (n - 1) / 2 * 256;
    let mut cells = Vec::with_capacity(alloc, count)?;
    for _cell in 0..count {
        cells.push(OnceBox::new(alloc))?;
    }
    Ok(cells)
}
