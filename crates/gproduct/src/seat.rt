//! Seats at the table: what a thread saw in the cells.

ghost use Rattle.std.specs.Prelude.{◌≡◌, ◌≢◌, ◌<◌, ◌≤◌, ◌∷◌, [], ℕ, IsTrue, Some, None, Ok, IfOk, IfSome, MatchOption, length, slice_index_or, slice_set};
ghost use Rattle.monomials.specs.Polynomials.{IsPolynomial};
ghost use Rattle.word_model.specs.Products.{product};
ghost use Rattle.closed_forms.specs.Kinds.{HasKind};
ghost use Rattle.gproduct.specs.Inside.Passing.{Passes};
ghost use Rattle.gproduct.specs.Places.{IsPlace, place_value, cell_count};
ghost use Rattle.gproduct.specs.Seats.{Knows, Keeps, Teaches};
ghost use Rattle.word_model.specs.declared.events.Place.{Place};
ghost use Rattle.gproduct.specs.declared.seat.Learned.TheVariants.{Shared};

use crate::first::first_value;
use crate::kept::KeptProducts;
use crate::place::{cell, same_place};
use crate::table::{Filled, Table};
use algebra::Algebra;
use closed_forms::PairKind;
use gpoly::GPoly;
use monomials::Expo;
use std::alloc::{AllocError, Global};
use std::marker::Model;
use word_model::events::Place;

/// What `learn` answers.
#[derive(Debug, Drop)]
pub enum Learned {
    /// The seat knows the place now.
    Shared,
    /// The place's value, which the seat could not note.
    Own(GPoly),
}

// What a seat saw in a cell.
#[derive(Drop)]
struct Slot<'t, 'r> {
    cell: Option<&'t Filled<'r>>,
}

/// A seat at a table. It knows the values of the places that it learned, and keeps them; no clause
/// tells which products it keeps.
#[derive(Drop)]
pub struct TableSeat<'t, 'r> {
    table: &'t Table<'r>,
    seen: Vec<Slot<'t, 'r>>,
    kept: KeptProducts,
}

impl<'t, 'r> Model for TableSeat<'t, 'r> {
    ghost use Rattle.std.specs.Prelude.{◌≡◌, IfSome, map, All};
    ghost use Rattle.std.specs.Option.{option_map};
    ghost use Rattle.gproduct.specs.Seats.{Seat};
    ghost use Rattle.gproduct.specs.Inside.Kept.{AreKept};

    ghost Value = { Seat };

    ghost view = { λ s. record {
      algebra = s.table.now;
      seen = map (λ o. option_map (λ f. f.now.place) o.cell) s.seen.items;
    } };

    ghost invariant = { λ s. All (λ o. IfSome o.cell (λ f. f.now.algebra.now ≡ s.table.now)) s.seen.items
        × AreKept s.table.now s.kept.factors.items s.kept.slots.items };
}

impl<'r> Table<'r> {
    /// A seat that knows no place.
    pub fn seat<'t>(&'t self, alloc: Global) -> Result<TableSeat<'t, 'r>, AllocError>
        ensures algebra { IfOk result (λ s. s.algebra ≡ self.now) }
        ensures nothing { IfOk result (λ s. (place : Place) → ¬ (Knows s place)) }
        ensures slots { IfOk result (λ s. length s.seen ≡ cell_count self.now.order.vars) }
    {
        let mut seen: Vec<Slot<'t, 'r>> = Vec::with_capacity(alloc, self.count())?;
        for _slot in 0..self.count() {
            seen.push(Slot { cell: None })?;
        }
        Ok(TableSeat {
            table: self,
            seen,
            kept: KeptProducts::new(alloc),
        })
    }
}

impl<'t, 'r> TableSeat<'t, 'r> {
    /// The algebra of the table. Takes no memory.
    pub fn algebra(&self) -> &'r Algebra
        ensures { result.now ≡ self.now.algebra }
    {
        self.table.algebra()
    }

    /// The value of a place, where the seat knows it. Takes no memory.
    pub fn known(&self, place: Place) -> Option<&GPoly>
        requires place { IsPlace self.now.algebra place }
        ensures { MatchOption result (¬ (Knows self.now place))
            (λ value. Knows self.now place × (value.now ≡ place_value self.now.algebra place)) }
    {
        let n = self.algebra().n();
        let slot = self.seen.get(cell(place, n))?;
        let found = slot.cell?;
        if same_place(found.place, place) {
            Some(&found.value)
        } else {
            None
        }
    }

    /// Learns a place: from its cell where that is filled, and else by computing its value and
    /// offering it to the cell. Of a place that is known it takes no memory.
    pub fn learn(&mut self, alloc: Global, place: Place) -> Result<Learned, AllocError>
        requires place { IsPlace self.old.algebra place }
        ensures algebra { self.new.algebra ≡ self.old.algebra }
        ensures kept { Keeps self.old self.new }
        ensures slots { length self.new.seen ≡ length self.old.seen }
        ensures learned { IfOk result (Teaches self.new place) }
        ensures already { Knows self.old place → (result ≡ Ok Shared) × (self.new ≡ self.old) }
    {
        if self.known(place).is_some() {
            return Ok(Learned::Shared);
        }
        let table = self.table;
        let found = match table.look(place) {
            Some(found) => Some(found),
            None => {
                let value = first_value(alloc, self, place)?;
                table.fill(alloc, place, value)?
            }
        };
        if let Some(found) = found
            && self.note(found)
        {
            return Ok(Learned::Shared);
        }
        Ok(Learned::Own(first_value(alloc, self, place)?))
    }

    // The product of a monomial with `f`, where it is kept under this number. Takes no memory.
    pub(crate) fn kept(&self, number: u32, mono: &Expo, f: &GPoly) -> Option<&GPoly>
        ensures sorted { IfSome result (λ r. IsPolynomial self.now.algebra.p self.now.algebra.order r.now) }
        ensures value { IfSome result (λ r. r.now ≡ product self.now.algebra ((1, mono.now) ∷ []) f.now) }
    {
        self.kept.find(number, mono, f)
    }

    // Keeps the product of a monomial with `f` under this number, unless it is too long or memory is
    // wanting.
    pub(crate) fn keep(&mut self, alloc: Global, number: u32, mono: &Expo, f: &GPoly, value: &GPoly)
        requires some { f.now ≢ [] }
        requires sorted { IsPolynomial self.old.algebra.p self.old.algebra.order value.now }
        requires value { value.now ≡ product self.old.algebra ((1, mono.now) ∷ []) f.now }
        ensures { self.new ≡ self.old }
    {
        let _kept = self.kept.keep(alloc, number, mono, f, value);
    }

    // The kind of the relation of x_i and x_j, where it has one. Takes no memory.
    pub(crate) fn kind(&self, i: u8, j: u8) -> Option<PairKind>
        requires first { 1 ≤ i }
        requires ordered { i < j }
        requires last { j ≤ self.now.algebra.order.vars }
        ensures kind { IfSome result (λ kind. HasKind self.now.algebra i j kind) }
        ensures full { (kind : _) → HasKind self.now.algebra i j kind → result ≡ Some kind }
    {
        self.table.kind(i, j)
    }

    // Whether each variable of `left` commutes with each lower variable of `right`. Takes no memory.
    pub(crate) fn passes(&self, left: &Expo, right: &Expo) -> bool
        requires left { length left.now ≡ self.now.algebra.order.vars }
        requires right { length right.now ≡ self.now.algebra.order.vars }
        ensures { IsTrue result → Passes self.now.algebra left.now right.now }
    {
        self.table.passes(left, right)
    }

    // Notes what a cell holds in its place's slot, where that is free.
    fn note(&mut self, found: &'t Filled<'r>) -> bool
        requires place { IsPlace self.old.algebra found.now.place }
        requires algebra { found.now.algebra.now ≡ self.old.algebra }
        ensures algebra { self.new.algebra ≡ self.old.algebra }
        ensures kept { Keeps self.old self.new }
        ensures slots { length self.new.seen ≡ length self.old.seen }
        ensures noted { IsTrue result → Knows self.new found.now.place }
    {
        let index = cell(found.place, self.algebra().n());
        let is_free = is_free(&self.seen, index);
        if is_free {
            fill_slot(&mut self.seen, index, found);
        }
        is_free
    }
}

// Whether there is a slot with this number in which nothing is noted.
fn is_free(seen: &[Slot], index: usize) -> bool
    ensures { IsTrue result → (index < length seen.now) × (slice_index_or seen.now index (record { cell = None }) ≡ record { cell = None }) }
{
    index < seen.len() && seen[index].cell.is_none()
}

// Notes what a cell holds.
fn fill_slot<'t, 'r>(seen: &mut Vec<Slot<'t, 'r>>, index: usize, found: &'t Filled<'r>)
    requires { index < length seen.old.items }
    ensures { seen.new.items ≡ slice_set seen.old.items index (record { cell = Some found.entry }) }
{
    seen[index] = Slot { cell: Some(found) };
}
