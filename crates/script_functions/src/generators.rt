//! The generators that arguments name.

ghost use Rattle.std.specs.Prelude.{◌≡◌, ◌≤◌, length, Ok, IfOk, MatchResult};
ghost use Rattle.monomials.specs.Polynomials.{Each};
ghost use Rattle.script_model.specs.Functions as spec;
ghost use Rattle.script_values.specs.Gives.{Gives, Stops};
ghost use Rattle.script_values.specs.Values.{ArePolynomials, IsValueOf};

use gpoly::GPoly;
use script_model::values::{Refusal, Value, copy_polys};
use script_values::{Scope, Stop};
use sqlite_items::Items;
use std::slice;

// Polys and ideals, joined in order.
pub(crate) fn joined(scope: &Scope, arguments: &[Value]) -> Result<Items<GPoly>, Stop>
    requires { Each (IsValueOf scope.now.ring.algebra) arguments.now }
    ensures value { Gives result (spec.joined arguments.now) }
    ensures of_ring { IfOk result (ArePolynomials scope.now.ring.algebra) }
    ensures few { IfOk result (λ gens. length gens ≤ 4096) }
{
    let generators = all_generators(scope, arguments)?;
    if generators.len() > 4096 {
        return Err(Stop::Refused(Refusal::Limit));
    }
    Ok(generators)
}

// The same, however many there are.
fn all_generators(scope: &Scope, arguments: &[Value]) -> Result<Items<GPoly>, Stop>
    requires { Each (IsValueOf scope.now.ring.algebra) arguments.now }
    ensures value { Gives result (spec.all_generators arguments.now) }
    ensures of_ring { IfOk result (ArePolynomials scope.now.ring.algebra) }
{
    let mut found = Items::new(scope.alloc);
    for argument in arguments {
        let more = generators_of(scope, argument)?;
        found.append(more)?;
    }
    Ok(found)
}

// The polynomials of a poly or an ideal, in memory of their own.
fn generators_of(scope: &Scope, value: &Value) -> Result<Items<GPoly>, Stop>
    requires { IsValueOf scope.now.ring.algebra value.now }
    ensures value { Gives result (spec.generators_of value.now) }
    ensures of_ring { IfOk result (ArePolynomials scope.now.ring.algebra) }
{
    let generators = given(value)?;
    Ok(copy_polys(scope.alloc, generators)?)
}

// The polynomials of a poly or an ideal, where they stand.
pub(crate) fn given(value: &Value) -> Result<&[GPoly], Stop>
    ensures { MatchResult result
        (λ polys. spec.generators_of value.now ≡ Ok polys.now)
        (λ stop. Stops stop (spec.generators_of value.now)) }
{
    match value {
        Value::Poly(f) => Ok(slice::from_ref(f)),
        Value::Ideal(generators) => Ok(generators.as_slice()),
        _ => Err(Stop::Refused(Refusal::Kind)),
    }
}
