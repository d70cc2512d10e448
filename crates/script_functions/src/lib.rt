//! The functions of scripts: one arm of `apply` for each.
#![tactic(auto)]

ghost use Rattle.std.specs.Prelude.{◌≡◌, ◌<◌, IfOk};
ghost use Rattle.monomials.specs.Polynomials.{Each};
ghost use Rattle.gproduct.specs.Seats.{Keeps};
ghost use Rattle.script_model.specs.Functions as spec;
ghost use Rattle.script_values.specs.Gives.{Gives};
ghost use Rattle.script_values.specs.Values.{IsValueOf};

use certificates::twochain;
use cofactor_rows::cofactors;
use eliminations::eliminate;
use generators::joined;
use gproduct::{Steps, TableSeat};
use normal_forms::normal_form;
use plural_syntax::Function;
use run_records::{Engine, Mode};
use script_model::values::Value;
use script_values::{Scope, Stop};
use sqlite_items::Items;
use std::marker::Brand;
use std::sync::ledger::{Blank, Ledger};
use std_lists::std_list;
use summary::summary;
use syzygy_rows::syz;

mod bases;
mod certificates;
mod cofactor_rows;
mod eliminations;
mod generators;
mod normal_forms;
mod std_lists;
mod stopping;
mod summary;
mod syzygy_rows;
#[cfg(test)]
mod tests;

/// A function at its arguments.
pub fn apply<E: Engine>(
    scope: &Scope,
    engine: &mut E,
    seat: &mut TableSeat,
    function: Function,
    arguments: Items<Value>,
) -> Result<Value, Stop>
    requires ready { E.can_run engine.old }
    requires seat { seat.old.algebra ≡ scope.now.ring.algebra }
    requires of_ring { Each (IsValueOf scope.now.ring.algebra) arguments }
    ensures value { Gives result (spec.apply scope.now.ring scope.now.budget function arguments) }
    ensures of_ring { IfOk result (IsValueOf scope.now.ring.algebra) }
    ensures ready { E.can_run engine.new }
    ensures seat { seat.new.algebra ≡ seat.old.algebra }
    ensures kept { Keeps seat.old seat.new }
{
    let arguments = arguments.as_slice();
    counted_apply::<E, Brand>(scope, engine, seat, function, arguments, Blank::new(1))
}

// The same, with the products that it takes counted on the blank.
#[tactic(auto, unfolding(script_model::specs::Functions::apply))]
fn counted_apply<E: Engine, L: Ledger>(
    scope: &Scope,
    engine: &mut E,
    seat: &mut TableSeat,
    function: Function,
    arguments: &[Value],
    blank: Blank,
) -> Result<Value, Stop>
    requires ready { E.can_run engine.old }
    requires seat { seat.old.algebra ≡ scope.now.ring.algebra }
    requires of_ring { Each (IsValueOf scope.now.ring.algebra) arguments.now }
    requires name { blank.name ≡ L.name }
    requires parts { blank.parts ≡ L.parts }
    requires some { 0 < blank.parts }
    ensures value { Gives result (spec.apply scope.now.ring scope.now.budget function arguments.now) }
    ensures of_ring { IfOk result (IsValueOf scope.now.ring.algebra) }
    ensures ready { E.can_run engine.new }
    ensures seat { seat.new.algebra ≡ seat.old.algebra }
    ensures kept { Keeps seat.old seat.new }
{
    let mut steps = Steps::<L>::start(blank);
    match function {
        Function::Ideal => ideal(scope, arguments),
        Function::Std => std_list(scope, engine, seat, Mode::Left, arguments, &mut steps),
        Function::TwoStd => std_list(scope, engine, seat, Mode::TwoSided, arguments, &mut steps),
        Function::Nf | Function::Reduce => normal_form(scope, seat, arguments, &mut steps),
        Function::Cofactors => cofactors(scope, engine, seat, arguments, &mut steps),
        Function::Summary => summary(scope, engine, seat, arguments, &mut steps),
        Function::Eliminate => eliminate(scope, engine, arguments, &mut steps),
        Function::Syz => syz(scope, engine, seat, arguments, &mut steps),
        Function::TwoChain => twochain(scope, engine, seat, arguments, &mut steps),
    }
}

/// The ideal of polys and ideals, joined in order.
pub fn ideal(scope: &Scope, arguments: &[Value]) -> Result<Value, Stop>
    requires { Each (IsValueOf scope.now.ring.algebra) arguments.now }
    ensures value { Gives result (spec.ideal arguments.now) }
    ensures of_ring { IfOk result (IsValueOf scope.now.ring.algebra) }
{
    let generators = joined(scope, arguments)?;
    Ok(Value::Ideal(generators))
}
