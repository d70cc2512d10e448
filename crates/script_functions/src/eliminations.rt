//! Elimination of variables.

ghost use Rattle.std.specs.Prelude.{◌≡◌, ◌≤◌, All, IfOk, length};
ghost use Rattle.monomials.specs.Monomials.{Monomial};
ghost use Rattle.monomials.specs.Polynomials.{Each};
ghost use Rattle.word_model.specs.Elimination.{elimination_order, restricted};
ghost use Rattle.algebra.specs.Reordered.{reordered};
ghost use Rattle.script_model.specs.Functions as spec;
ghost use Rattle.script_values.specs.Gives.{Gives};
ghost use Rattle.script_values.specs.Values.{ArePolynomials, IsValueOf};

use crate::bases::basis_over;
use crate::generators::given;
use algebra::Algebra;
use elimination::{ElimFault, elimination_algebra, restrict};
use gpoly::GPoly;
use gproduct::{Steps, Table};
use monomials::Expo;
use run_records::{Engine, Mode};
use script_model::values::{Refusal, Value};
use script_values::{Scope, Stop};
use sqlite_items::Items;
use std::alloc::{AllocError, Global};
use std::sync::ledger::Ledger;

// What the left ideal of a poly or an ideal has without the variables of a term. It is computed in the
// elimination algebra, over a table of its own.
pub(crate) fn eliminate<E: Engine, L: Ledger>(
    scope: &Scope,
    engine: &mut E,
    arguments: &[Value],
    steps: &mut Steps<L>,
) -> Result<Value, Stop>
    requires ready { E.can_run engine.old }
    requires of_ring { Each (IsValueOf scope.now.ring.algebra) arguments.now }
    ensures value { Gives result (spec.eliminate scope.now.ring.algebra scope.now.budget arguments.now) }
    ensures of_ring { IfOk result (IsValueOf scope.now.ring.algebra) }
    ensures ready { E.can_run engine.new }
{
    let [value, term] = arguments else {
        return Err(Stop::Refused(Refusal::Kind));
    };
    let generators = given(value)?;
    let vars = variables_of(scope, term)?;
    let list = eliminated(scope, engine, generators, vars.as_slice(), steps)?;
    Ok(Value::Ideal(list))
}

// What the left ideal of these generators has without the variables.
fn eliminated<E: Engine, L: Ledger>(
    scope: &Scope,
    engine: &mut E,
    generators: &[GPoly],
    vars: &[u8],
    steps: &mut Steps<L>,
) -> Result<Items<GPoly>, Stop>
    requires ready { E.can_run engine.old }
    requires polynomials { ArePolynomials scope.now.ring.algebra generators.now }
    requires few { length generators.now ≤ 4096 }
    requires in_range { All (λ v. (1 ≤ v) × (v ≤ scope.now.ring.algebra.order.vars)) vars.now }
    ensures value { Gives result (spec.elimination scope.now.ring.algebra scope.now.budget vars.now generators.now) }
    ensures polynomials { IfOk result (ArePolynomials scope.now.ring.algebra) }
    ensures few { IfOk result (λ list. length list ≤ 4096) }
    ensures ready { E.can_run engine.new }
{
    let algebra = algebra_for(scope, vars)?;
    let table = Table::new(scope.alloc, &algebra)?;
    let mut seat = table.seat(scope.alloc)?;
    let generators = sorted_in(scope, &algebra, generators)?;
    let generators = generators.as_slice();
    let found = basis_over(scope, engine, &mut seat, generators, Mode::Left, steps)?;
    let finished = found.list;
    let list = finished.list;
    let kept = without(scope, &list, vars)?;
    Ok(kept)
}

// The polynomials of a list that is sorted by the elimination order in which none of the variables occurs.
fn without(scope: &Scope, list: &[GPoly], vars: &[u8]) -> Result<Items<GPoly>, AllocError>
    requires polynomials { ArePolynomials (reordered (elimination_order vars.now scope.now.ring.algebra.order) scope.now.ring.algebra) list.now }
    requires in_range { All (λ v. (1 ≤ v) × (v ≤ scope.now.ring.algebra.order.vars)) vars.now }
    ensures value { IfOk result (λ kept. kept ≡ restricted scope.now.ring.algebra.order.vars vars.now list.now) }
    ensures polynomials { IfOk result (ArePolynomials scope.now.ring.algebra) }
    ensures fewer { IfOk result (λ kept. length kept ≤ length list.now) }
{
    let kept = restrict(scope.alloc, list, vars)?;
    Ok(Items::from_vec(kept))
}

// The elimination algebra of these variables.
fn algebra_for(scope: &Scope, vars: &[u8]) -> Result<Algebra, Stop>
    requires { All (λ v. (1 ≤ v) × (v ≤ scope.now.ring.algebra.order.vars)) vars.now }
    ensures value { Gives result (spec.elimination_algebra scope.now.ring.algebra vars.now) }
    ensures algebra { IfOk result (λ a. a ≡ reordered (elimination_order vars.now scope.now.ring.algebra.order) scope.now.ring.algebra) }
{
    match elimination_algebra(scope.alloc, scope.ring.algebra(), vars) {
        Ok(algebra) => Ok(algebra),
        Err(ElimFault::NoElimination { i, j }) => {
            Err(Stop::Refused(Refusal::NoElimination(i, j)))
        }
        Err(ElimFault::Memory) => Err(Stop::Memory),
    }
}

// These polynomials of the ring, sorted by the order of another algebra with the ring's field and variables.
fn sorted_in(scope: &Scope, algebra: &Algebra, polys: &[GPoly]) -> Result<Items<GPoly>, AllocError>
    requires field { algebra.now.p ≡ scope.now.ring.algebra.p }
    requires vars { algebra.now.order.vars ≡ scope.now.ring.algebra.order.vars }
    requires polynomials { ArePolynomials scope.now.ring.algebra polys.now }
    ensures value { IfOk result (λ sorted. sorted ≡ spec.sorted_in algebra.now polys.now) }
    ensures polynomials { IfOk result (ArePolynomials algebra.now) }
    ensures one_each { IfOk result (λ sorted. length sorted ≡ length polys.now) }
{
    let mut sorted = Items::new(scope.alloc);
    for poly in polys {
        sorted.push(poly.reorder(scope.alloc, algebra.order())?)?;
    }
    Ok(sorted)
}

// The variables of a poly that is one term, and no constant.
fn variables_of(scope: &Scope, value: &Value) -> Result<Items<u8>, Stop>
    requires { IsValueOf scope.now.ring.algebra value.now }
    ensures value { Gives result (spec.variables_of value.now) }
    ensures in_range { IfOk result (All (λ v. (1 ≤ v) × (v ≤ scope.now.ring.algebra.order.vars))) }
{
    let Value::Poly(f) = value else {
        return Err(Stop::Refused(Refusal::Kind));
    };
    let [term] = f.terms() else {
        return Err(Stop::Refused(Refusal::Kind));
    };
    let vars = variables(scope.alloc, &term.mono)?;
    if vars.is_empty() {
        return Err(Stop::Refused(Refusal::Kind));
    }
    Ok(vars)
}

// The variables that occur in a monomial.
fn variables(alloc: Global, mono: &Expo) -> Result<Items<u8>, AllocError>
    ensures value { IfOk result (λ vars. vars ≡ spec.variables_from 1 mono.now) }
    ensures in_range { IfOk result (All (λ v. (1 ≤ v) × (v ≤ length mono.now))) }
{
    let mut vars = Items::new(alloc);
    let n = mono.len() as u8;
    for place in 0..n {
        if mono.get(place + 1) != 0 {
            vars.push(place + 1)?;
        }
    }
    Ok(vars)
}
