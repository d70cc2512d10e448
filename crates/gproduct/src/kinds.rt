//! The kinds of an algebra's relations, found once and kept.

ghost use Rattle.std.specs.Prelude.{◌≡◌, ◌<◌, ◌≤◌, Some, IfOk, IfSome};
ghost use Rattle.closed_forms.specs.Kinds.{HasKind};
ghost use Rattle.gproduct.specs.Inside.Swaps.{AreKinds};

use algebra::Algebra;
use closed_forms::{PairKind, kind_of};
use std::alloc::{AllocError, Global};

// The most variables that an algebra has.
pub(crate) const MOST_VARIABLES: u8 = 16;

/// The kind of the relation of x_i and x_j, where it has one. Takes no memory.
pub(crate) fn kind_at(alg: &Algebra, i: u8, j: u8) -> Option<PairKind>
    requires first { 1 ≤ i }
    requires ordered { i < j }
    requires last { j ≤ alg.now.order.vars }
    ensures kind { IfSome result (λ kind. HasKind alg.now i j kind) }
    ensures full { (kind : _) → HasKind alg.now i j kind → result ≡ Some kind }
{
    let _n = alg.n();
    kind_of(alg.field(), alg.c(i, j), alg.d(i, j), i, j)
}

// The kind, where i < j are variables of the algebra and their relation has one.
fn kind_if_pair(alg: &Algebra, i: u8, j: u8) -> Option<PairKind>
    requires { 1 ≤ i }
    ensures kind { IfSome result (λ kind. HasKind alg.now i j kind) }
    ensures full { (kind : _) → HasKind alg.now i j kind → result ≡ Some kind }
{
    if i < j && usize::from(j) <= alg.n() {
        kind_at(alg, i, j)
    } else {
        None
    }
}

/// The kinds of all pairs: `kept_kind` reads them.
pub(crate) fn kinds_of(alloc: Global, alg: &Algebra) -> Result<Vec<Option<PairKind>>, AllocError>
    ensures { IfOk result (λ kinds. AreKinds alg.now kinds.items) }
{
    let mut kinds = Vec::new(alloc);
    for place in 0..MOST_VARIABLES * (MOST_VARIABLES - 1) {
        let (i, j) = (place / MOST_VARIABLES + 1, place % MOST_VARIABLES + 1);
        kinds.push(kind_if_pair(alg, i, j))?;
    }
    Ok(kinds)
}

/// The kind of the relation of x_i and x_j, where one is kept. Takes no memory.
pub(crate) fn kept_kind(kinds: &[Option<PairKind>], i: u8, j: u8) -> Option<PairKind>
    requires first { 1 ≤ i }
    requires ordered { i < j }
    requires last { j ≤ 16 }
    ensures kind { (alg : _) → AreKinds alg kinds.now → IfSome result (λ kind. HasKind alg i j kind) }
    ensures full { (alg : _) (kind : _) → AreKinds alg kinds.now → HasKind alg i j kind → result ≡ Some kind }
{
    let place = usize::from(i - 1) * usize::from(MOST_VARIABLES) + usize::from(j - 1);
    match kinds.get(place) {
        Some(kind) => *kind,
        None => None,
    }
}
