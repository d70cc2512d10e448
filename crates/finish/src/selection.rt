//! Which elements of a basis are kept.

ghost use Rattle.std.specs.Prelude.{◌≡◌, ◌≢◌, ℕ, ◌≤◌, [], not, false, length, slice_index_or, IfOk};
ghost use Rattle.monomials.specs.Polynomials.{Each};
ghost use Rattle.word_model.specs.Finished.{displaces, is_kept, kept};
ghost use Rattle.finish.specs.Finishing.{select, IsNonzeroIn};

use gpoly::GPoly;
use run_records::Elements;
use std::alloc::{AllocError, Global};

// The kept elements of a basis, each at its number, with zero in the other places.
#[derive(Drop)]
pub(crate) struct Kept<'a> {
    basis: &'a Vec<GPoly>,
    kept: Vec<bool>,
    zero: GPoly,
}

impl<'a> Kept<'a> {
    pub(crate) fn of(alloc: Global, basis: &'a Vec<GPoly>) -> Result<Kept<'a>, AllocError>
        requires elements { (n : ℕ) × Each (IsNonzeroIn n) basis.now.items }
        requires few { length basis.now.items ≤ 4294967295 }
        ensures { IfOk result (λ k. select k.zero k.kept.items k.basis.now.items ≡ kept basis.now.items) }
    {
        let mut kept = Vec::with_capacity(alloc, basis.len())?;
        for place in 0..basis.len() {
            kept.push(!is_displaced(basis, place + 1))?;
        }
        Ok(Kept {
            basis,
            kept,
            zero: GPoly::zero(alloc),
        })
    }
}

impl Elements for Kept<'_> {
    ghost elements = { λ k. select k.zero k.kept.items k.basis.now.items };

    fn count(&self) -> usize {
        self.basis.len()
    }

    fn at(&self, k: u32) -> &GPoly {
        let place = k as usize - 1;
        if keeps(&self.kept, place) {
            &self.basis[place]
        } else {
            &self.zero
        }
    }
}

// The flag at a place: false past the end.
fn keeps(flags: &[bool], place: usize) -> bool
    ensures { result ≡ slice_index_or flags.now place false }
{
    place < flags.len() && flags[place]
}

// Whether some element makes that of number `i` needless.
fn is_displaced(basis: &[GPoly], i: usize) -> bool
    requires elements { (n : ℕ) × Each (IsNonzeroIn n) basis.now }
    requires few { length basis.now ≤ 4294967295 }
    requires first { 1 ≤ i }
    requires last { i ≤ length basis.now }
    ensures { result ≡ not (is_kept basis.now i) }
{
    for j in 1..basis.len() + 1 {
        if displaces(basis, i, j) {
            return true;
        }
    }
    false
}

// Whether the element of number `j` makes that of number `i` needless: its leading monomial divides
// the other's, and where the two are equal it is the earlier.
fn displaces(basis: &[GPoly], i: usize, j: usize) -> bool
    requires elements { (n : ℕ) × Each (IsNonzeroIn n) basis.now }
    requires i_first { 1 ≤ i }
    requires i_last { i ≤ length basis.now }
    requires j_first { 1 ≤ j }
    requires j_last { j ≤ length basis.now }
    ensures { result ≡ displaces basis.now i j }
{
    let mono = &basis[i - 1].lead().mono;
    let other = &basis[j - 1].lead().mono;
    i != j && other.divides(mono) && (j < i || !mono.divides(other))
}
