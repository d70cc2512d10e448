//! The shelf: a set-once cell for each element that a run may have, and what a worker saw there.

ghost use Rattle.std.specs.Prelude.{◌≡◌, ◌≤◌, ◌<◌, ◌++◌, ◌∷◌, [], List, IfOk, IsSome, MatchOption, length};
ghost use Rattle.monomials.specs.Polynomials.{Polynomial, Each};
ghost use Rattle.word_model.specs.Reduction.{element};
ghost use Rattle.word_model.specs.Machine.{IsElement};

use algebra::Algebra;
use gpoly::GPoly;
use once_cell::race::OnceBox;
use run_records::Elements;
use std::alloc::{AllocError, Global};
use std::marker::Model;

// The most elements that a run may have.
const MOST_ELEMENTS: usize = 2048;

/// A set-once cell for each element that a basis may have, which threads share: the leader puts
/// elements there, and workers look. What a look finds no clause says; a worker that sees less only
/// reduces by less.
#[derive(Drop)]
pub struct Shelf {
    cells: Vec<OnceBox<GPoly>>,
}

impl Shelf {
    /// A shelf of 2048 empty cells.
    pub fn new(alloc: Global) -> Result<Shelf, AllocError> {
        let mut cells = Vec::with_capacity(alloc, MOST_ELEMENTS)?;
        for _ in 0..MOST_ELEMENTS {
            cells.push(OnceBox::new(alloc))?;
        }
        Ok(Shelf { cells })
    }

    /// Offers a copy of the element of number `k`, counted from 1, to its cell by one set: an atomic
    /// step. A filled cell keeps its content.
    pub fn put(&self, alloc: Global, k: u32, poly: &GPoly) -> Result<(), AllocError>
        requires first { 1 ≤ k }
        requires last { k ≤ 2048 }
    {
        if let Some(cell) = self.cells.get(k as usize - 1) {
            let _refused = cell.set(Box::new(alloc, poly.copy(alloc)?)?);
        }
        Ok(())
    }

    /// An empty view, with room for all elements.
    pub fn view(&self, alloc: Global) -> Result<ShelfView<'_>, AllocError>
        ensures empty { IfOk result (λ v. v ≡ []) }
    {
        Ok(ShelfView {
            shelf: self,
            seen: Vec::with_capacity(alloc, MOST_ELEMENTS)?,
        })
    }
}

/// The elements that a thread saw on a shelf, from the first on. It stays as it is between two calls of
/// `grow`, whatever the others put there.
#[derive(Drop)]
pub struct ShelfView<'s> {
    shelf: &'s Shelf,
    seen: Vec<&'s GPoly>,
}

impl<'s> Model for ShelfView<'s> {
    ghost use Rattle.std.specs.Prelude.{List, map, ◌≤◌, length, vec_capacity};
    ghost use Rattle.monomials.specs.Polynomials.{Polynomial};

    ghost Value = { List Polynomial };

    ghost view = { λ v. map (λ p. p.now) v.seen.items };

    ghost invariant = { λ v. (2048 ≤ vec_capacity v.seen) × (length v.seen.items ≤ 2048) };
}

impl<'s> Elements for ShelfView<'s> {
    ghost elements = { λ v. v };

    fn count(&self) -> usize {
        self.seen.len()
    }

    fn at(&self, k: u32) -> &GPoly {
        self.seen[k as usize - 1]
    }
}

/// Elements that were seen on a shelf.
#[derive(Drop)]
pub(crate) struct Seen<'s> {
    polys: Vec<&'s GPoly>,
}

impl<'s> Model for Seen<'s> {
    ghost use Rattle.std.specs.Prelude.{List, map, ◌≤◌, length};
    ghost use Rattle.monomials.specs.Polynomials.{Polynomial};

    ghost Value = { List Polynomial };

    ghost view = { λ v. map (λ p. p.now) v.polys.items };

    ghost invariant = { λ v. length v.polys.items ≤ 2048 };
}

impl<'s> Elements for Seen<'s> {
    ghost elements = { λ v. v };

    fn count(&self) -> usize {
        self.polys.len()
    }

    fn at(&self, k: u32) -> &GPoly {
        self.polys[k as usize - 1]
    }
}

impl<'s> Seen<'s> {
    // The number of the last element; 0 where there is none.
    pub(crate) fn last(&self) -> u32
        ensures value { result ≡ length self.now }
        ensures few { result ≤ 2048 }
    {
        self.polys.len() as u32
    }

    // The element of number `i`, counted from 1, where there is one.
    pub(crate) fn get(&self, i: u32) -> Option<&GPoly>
        ensures { MatchOption result (element self.now i ≡ []) (λ p. p.now ≡ element self.now i) }
    {
        match self.polys.get((i as usize).saturating_sub(1)) {
            Some(poly) => Some(*poly),
            None => None,
        }
    }
}

impl<'s> ShelfView<'s> {
    // What was seen so far.
    pub(crate) fn seen(&self, alloc: Global) -> Result<Seen<'s>, AllocError>
        ensures { IfOk result (λ r. r ≡ self.now) }
    {
        let mut polys = Vec::with_capacity(alloc, self.seen.len())?;
        for poly in &self.seen {
            polys.push(*poly)?;
        }
        Ok(Seen { polys })
    }

    /// Appends the contents of the next cells that are found filled, up to the first that is zero or
    /// does not fit the algebra. Each cell is looked at by one step. Takes no memory.
    pub fn grow(&mut self, alg: &Algebra)
        ensures grown { (more : List Polynomial) × (self.new ≡ self.old ++ more) × Each (IsElement alg.now) more }
    {
        for _ in 0..MOST_ELEMENTS {
            let Some(poly) = self.next() else {
                return;
            };
            if poly.is_zero() || !alg.fits(poly) {
                return;
            }
            self.note(poly);
        }
    }

    // The content of the next cell, where that is filled and there is room.
    fn next(&self) -> Option<&'s GPoly>
        ensures { IsSome result → length self.now < 2048 }
    {
        if self.seen.len() >= MOST_ELEMENTS {
            return None;
        }
        self.shelf.cells.get(self.seen.len())?.get()
    }

    // One more element.
    fn note(&mut self, poly: &'s GPoly)
        requires { length self.old < 2048 }
        ensures { self.new ≡ self.old ++ poly.now ∷ [] }
    {
        self.seen.push(poly).unwrap();
    }
}
