//! Elimination of variables: what an ideal has without them.
#![tactic(auto)]

ghost use Rattle.std.specs.Prelude.{◌≡◌, ◌≤◌, ◌↔◌, ℕ, List, None, true, length, All, IfOk, IfErr, OnOk};
ghost use Rattle.monomials.specs.Orders.{RowOrder};
ghost use Rattle.monomials.specs.Polynomials.{Polynomial, Each, HasVars, IsPolynomial};
ghost use Rattle.monomials.specs.WellFounded.{IsWellFounded};
ghost use Rattle.word_model.specs.Words.{Algebra as GAlgebra};
ghost use Rattle.word_model.specs.Conditions.{relations_fault, IsGAlgebra};
ghost use Rattle.word_model.specs.Elimination as elimination;
ghost use Rattle.word_model.specs.Ideals.{InLeftIdeal, IsReducedBasis};
ghost use Rattle.word_model.specs.Products.{product};
ghost use Rattle.algebra.specs.Reordered.{reordered};
ghost use Rattle.elimination.specs.Faults.{ReportsPair};

use algebra::{Algebra, AlgebraFault};
use free::is_free;
use gpoly::GPoly;
use std::alloc::{AllocError, Global};

mod free;
#[cfg(test)]
mod tests;

/// Why there is no algebra in which variables are eliminated.
#[derive(Debug, Drop)]
pub enum ElimFault {
    /// The polynomial of the relation of variables i < j is not below x_i x_j any more where the order
    /// first compares how often the variables occur. Of such pairs it is the first.
    NoElimination { i: u8, j: u8 },
    /// Out of memory.
    Memory,
}

impl From<AllocError> for ElimFault {
    ghost use Rattle.std.specs.Prelude.{◌≡◌};
    ghost use Rattle.elimination.specs.declared.ElimFault.TheVariants.{Memory};

    ghost from_gives = { λ _ fault. fault ≡ Memory };

    fn from(_error: AllocError) -> ElimFault {
        ElimFault::Memory
    }
}

/// The same algebra under the order that first compares how often the variables `vars` occur, and then
/// as before: the order of a row `a` with weight 1 at each of them (Singular manual, elimination of
/// variables). In it the polynomials without them are a subalgebra. There is none where a relation of
/// the algebra does not fit this order.
pub fn elimination_algebra(alloc: Global, alg: &Algebra, vars: &[u8]) -> Result<Algebra, ElimFault>
    requires in_range { All (λ v. (1 ≤ v) × (v ≤ alg.now.order.vars)) vars.now }
    ensures algebra { IfOk result (λ a. a ≡ reordered (elimination.elimination_order vars.now alg.now.order) alg.now) }
    ensures accepted { OnOk result (relations_fault (reordered (elimination.elimination_order vars.now alg.now.order) alg.now) ≡ None) }
    ensures fault { IfErr result (ReportsPair (reordered (elimination.elimination_order vars.now alg.now.order) alg.now)) }
    ensures closed { IfOk result (λ a. (f g : Polynomial) → IsPolynomial a.p a.order f → IsPolynomial a.p a.order g →
        elimination.is_free a.order.vars vars.now f ≡ true → elimination.is_free a.order.vars vars.now g ≡ true →
        elimination.is_free a.order.vars vars.now (product a f g) ≡ true) }
{
    let order = alg.order().with_extra(alloc, vars)?;
    match alg.reordered(alloc, &order) {
        Ok(reordered) => {
            let _n = reordered.n();
            word_model::groebner::eliminations();
            Ok(reordered)
        }
        Err(AlgebraFault::Ordering { i, j }) => Err(ElimFault::NoElimination { i, j }),
        Err(_) => Err(ElimFault::Memory),
    }
}

/// The polynomials of a list in which none of the variables occurs, in order. Of the reduced Gröbner
/// basis of a left ideal in an elimination algebra they generate just what the ideal has without the
/// variables, and they are sorted as well by the order that the algebra had before.
pub fn restrict(alloc: Global, list: &[GPoly], vars: &[u8]) -> Result<Vec<GPoly>, AllocError>
    requires { (n : ℕ) × Each (HasVars n) list.now × All (λ v. (1 ≤ v) × (v ≤ n)) vars.now }
    ensures list { IfOk result (λ kept. (n : ℕ) → Each (HasVars n) list.now →
        kept.items ≡ elimination.restricted n vars.now list.now) }
    ensures fewer { IfOk result (λ kept. length kept.items ≤ length list.now) }
    ensures sorted { IfOk result (λ kept. (p : ℕ) (old : RowOrder) →
        Each (IsPolynomial p (elimination.elimination_order vars.now old)) list.now →
        Each (IsPolynomial p old) kept.items) }
    ensures ideal { IfOk result (λ kept. (A : GAlgebra) (old : RowOrder) (gens : List Polynomial) (f : Polynomial) →
        IsGAlgebra A → IsWellFounded A.order → A.order ≡ elimination.elimination_order vars.now old →
        Each (IsPolynomial A.p A.order) gens → IsReducedBasis A (InLeftIdeal A gens) list.now →
        (InLeftIdeal A gens f × (elimination.is_free A.order.vars vars.now f ≡ true))
        ↔ elimination.InIdealFreeOf A vars.now kept.items f) }
{
    word_model::groebner::eliminations();
    let mut kept = Vec::new(alloc);
    for poly in list {
        if is_free(poly, vars) {
            kept.push(poly.copy(alloc)?)?;
        }
    }
    Ok(kept)
}
