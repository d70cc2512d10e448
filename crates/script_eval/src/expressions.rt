//! The values of expressions.

ghost use Rattle.std.specs.Prelude.{◌≡◌, IfOk};
ghost use Rattle.monomials.specs.Polynomials.{Each, IsPolynomial};
ghost use Rattle.word_model.specs.Words.{Algebra};
ghost use Rattle.script_model.specs.Expressions as spec;
ghost use Rattle.script_model.specs.Statements as statement;
ghost use Rattle.script_values.specs.Gives.{Gives};
ghost use Rattle.script_values.specs.Values.{IsValueOf};

use gpoly::GPoly;
use gproduct::TableSeat;
use plural_lexer::Token;
use plural_syntax::{Added, Base, Expr, ExprList, Factor, Function, Power, Scaled, Term};
use run_records::Engine;
use script_functions::apply;
use script_model::values::{Refusal, Value};
use script_values::assigning::poly_of;
use script_values::names::named;
use script_values::tokens::{is_minus, number};
use script_values::{Scope, Stop, operations};
use sqlite_items::{Boxed, Items};

// One more than the levels of parentheses that a script may have.
const LEVELS: u32 = 65;

/// The value of an expression of a statement.
pub fn value_of<E: Engine>(
    scope: &Scope,
    engine: &mut E,
    seat: &mut TableSeat,
    expr: &Expr,
) -> Result<Value, Stop>
    requires ready { E.can_run engine.old }
    requires seat { seat.old.algebra ≡ scope.now.ring.algebra }
    ensures value { Gives result (statement.value scope.now.bytes scope.now.budget scope.now.environment scope.now.ring expr.now) }
    ensures of_ring { IfOk result (IsValueOf scope.now.ring.algebra) }
    ensures ready { E.can_run engine.new }
    ensures seat { seat.new.algebra ≡ seat.old.algebra }
{
    value(scope, engine, seat, LEVELS, expr)
}

/// The values of a list of a statement.
pub fn values_of<E: Engine>(
    scope: &Scope,
    engine: &mut E,
    seat: &mut TableSeat,
    list: &ExprList,
) -> Result<Items<Value>, Stop>
    requires ready { E.can_run engine.old }
    requires seat { seat.old.algebra ≡ scope.now.ring.algebra }
    ensures value { Gives result (statement.values scope.now.bytes scope.now.budget scope.now.environment scope.now.ring (spec.exprs_of list.now)) }
    ensures of_ring { IfOk result (Each (IsValueOf scope.now.ring.algebra)) }
    ensures ready { E.can_run engine.new }
    ensures seat { seat.new.algebra ≡ seat.old.algebra }
{
    all_values(scope, engine, seat, LEVELS, list)
}

// The value of an expression with fewer than `levels` levels of parentheses.
#[cycle(evaluate)]
#[tactic(auto, unfolding(script_model::specs::Expressions::value_within))]
fn value<E: Engine>(
    scope: &Scope,
    engine: &mut E,
    seat: &mut TableSeat,
    levels: u32,
    expr: &Expr,
) -> Result<Value, Stop>
    requires ready { E.can_run engine.old }
    requires seat { seat.old.algebra ≡ scope.now.ring.algebra }
    ensures value { Gives result (spec.value_within scope.now levels expr.now) }
    ensures of_ring { IfOk result (IsValueOf scope.now.ring.algebra) }
    ensures ready { E.can_run engine.new }
    ensures seat { seat.new.algebra ≡ seat.old.algebra }
{
    if levels == 0 {
        return Err(Stop::Refused(Refusal::Kind));
    }
    expression(scope, engine, seat, levels - 1, expr)
}

#[cycle(evaluate)]
#[tactic(auto, unfolding(script_model::specs::Expressions::expr_value))]
fn expression<E: Engine>(
    scope: &Scope,
    engine: &mut E,
    seat: &mut TableSeat,
    levels: u32,
    expr: &Expr,
) -> Result<Value, Stop>
    requires ready { E.can_run engine.old }
    requires seat { seat.old.algebra ≡ scope.now.ring.algebra }
    ensures value { Gives result (spec.expr_value scope.now (spec.value_within scope.now levels) expr.now) }
    ensures of_ring { IfOk result (IsValueOf scope.now.ring.algebra) }
    ensures ready { E.can_run engine.new }
    ensures seat { seat.new.algebra ≡ seat.old.algebra }
{
    let first = term(scope, engine, seat, levels, &expr.first)?;
    let mut sum = signed(scope, &expr.sign, first)?;
    for added in expr.more.as_slice() {
        sum = with_added(scope, engine, seat, levels, sum, added)?;
    }
    Ok(sum)
}

#[cycle(evaluate)]
#[tactic(auto, unfolding(script_model::specs::Expressions::with_added))]
fn with_added<E: Engine>(
    scope: &Scope,
    engine: &mut E,
    seat: &mut TableSeat,
    levels: u32,
    sum: Value,
    added: &Added,
) -> Result<Value, Stop>
    requires ready { E.can_run engine.old }
    requires seat { seat.old.algebra ≡ scope.now.ring.algebra }
    requires of_ring { IsValueOf scope.now.ring.algebra sum }
    ensures value { Gives result (spec.with_added scope.now (spec.value_within scope.now levels) sum added.now) }
    ensures of_ring { IfOk result (IsValueOf scope.now.ring.algebra) }
    ensures ready { E.can_run engine.new }
    ensures seat { seat.new.algebra ≡ seat.old.algebra }
{
    let value = term(scope, engine, seat, levels, &added.term)?;
    added_to(scope, sum, &added.sign, value)
}

#[cycle(evaluate)]
#[tactic(auto, unfolding(script_model::specs::Expressions::term_value))]
fn term<E: Engine>(
    scope: &Scope,
    engine: &mut E,
    seat: &mut TableSeat,
    levels: u32,
    term: &Term,
) -> Result<Value, Stop>
    requires ready { E.can_run engine.old }
    requires seat { seat.old.algebra ≡ scope.now.ring.algebra }
    ensures value { Gives result (spec.term_value scope.now (spec.value_within scope.now levels) term.now) }
    ensures of_ring { IfOk result (IsValueOf scope.now.ring.algebra) }
    ensures ready { E.can_run engine.new }
    ensures seat { seat.new.algebra ≡ seat.old.algebra }
{
    let mut product = factor(scope, engine, seat, levels, &term.first)?;
    for scaled in term.more.as_slice() {
        product = scaled_by(scope, engine, seat, levels, product, scaled)?;
    }
    Ok(product)
}

#[cycle(evaluate)]
#[tactic(auto, unfolding(script_model::specs::Expressions::scaled_by))]
fn scaled_by<E: Engine>(
    scope: &Scope,
    engine: &mut E,
    seat: &mut TableSeat,
    levels: u32,
    product: Value,
    scaled: &Scaled,
) -> Result<Value, Stop>
    requires ready { E.can_run engine.old }
    requires seat { seat.old.algebra ≡ scope.now.ring.algebra }
    requires of_ring { IsValueOf scope.now.ring.algebra product }
    ensures value { Gives result (spec.scaled_by scope.now (spec.value_within scope.now levels) product scaled.now) }
    ensures of_ring { IfOk result (IsValueOf scope.now.ring.algebra) }
    ensures ready { E.can_run engine.new }
    ensures seat { seat.new.algebra ≡ seat.old.algebra }
{
    match scaled {
        Scaled::Times { factor: by, .. } => {
            let value = factor(scope, engine, seat, levels, by)?;
            multiplied(scope, seat, product, value)
        }
        Scaled::Over { number, .. } => over(scope, product, number),
    }
}

#[cycle(evaluate)]
#[tactic(auto, unfolding(script_model::specs::Expressions::factor_value))]
fn factor<E: Engine>(
    scope: &Scope,
    engine: &mut E,
    seat: &mut TableSeat,
    levels: u32,
    factor: &Factor,
) -> Result<Value, Stop>
    requires ready { E.can_run engine.old }
    requires seat { seat.old.algebra ≡ scope.now.ring.algebra }
    ensures value { Gives result (spec.factor_value scope.now (spec.value_within scope.now levels) factor.now) }
    ensures of_ring { IfOk result (IsValueOf scope.now.ring.algebra) }
    ensures ready { E.can_run engine.new }
    ensures seat { seat.new.algebra ≡ seat.old.algebra }
{
    let value = base(scope, engine, seat, levels, &factor.base)?;
    powered(scope, seat, &factor.power, value)
}

#[cycle(evaluate)]
#[tactic(auto, unfolding(script_model::specs::Expressions::base_value))]
fn base<E: Engine>(
    scope: &Scope,
    engine: &mut E,
    seat: &mut TableSeat,
    levels: u32,
    base: &Base,
) -> Result<Value, Stop>
    requires ready { E.can_run engine.old }
    requires seat { seat.old.algebra ≡ scope.now.ring.algebra }
    ensures value { Gives result (spec.base_value scope.now (spec.value_within scope.now levels) base.now) }
    ensures of_ring { IfOk result (IsValueOf scope.now.ring.algebra) }
    ensures ready { E.can_run engine.new }
    ensures seat { seat.new.algebra ≡ seat.old.algebra }
{
    match base {
        Base::Int { number } => integer(scope, number),
        Base::Name { name, index } => named(scope, name, index),
        Base::Group { expr, .. } => value(scope, engine, seat, levels, expr.get()),
        Base::Call {
            name,
            arguments,
            ..
        } => called(scope, engine, seat, levels, name.function, arguments.get()),
    }
}

// A function at its arguments.
#[cycle(evaluate)]
fn called<E: Engine>(
    scope: &Scope,
    engine: &mut E,
    seat: &mut TableSeat,
    levels: u32,
    function: Function,
    arguments: &ExprList,
) -> Result<Value, Stop>
    requires ready { E.can_run engine.old }
    requires seat { seat.old.algebra ≡ scope.now.ring.algebra }
    ensures value { Gives result (spec.called scope.now (spec.value_within scope.now levels) function (spec.exprs_of arguments.now)) }
    ensures of_ring { IfOk result (IsValueOf scope.now.ring.algebra) }
    ensures ready { E.can_run engine.new }
    ensures seat { seat.new.algebra ≡ seat.old.algebra }
{
    let values = all_values(scope, engine, seat, levels, arguments)?;
    apply(scope, engine, seat, function, values)
}

// The values of arguments.
#[cycle(evaluate)]
fn all_values<E: Engine>(
    scope: &Scope,
    engine: &mut E,
    seat: &mut TableSeat,
    levels: u32,
    arguments: &ExprList,
) -> Result<Items<Value>, Stop>
    requires ready { E.can_run engine.old }
    requires seat { seat.old.algebra ≡ scope.now.ring.algebra }
    ensures value { Gives result (spec.all_values (spec.value_within scope.now levels) (spec.exprs_of arguments.now)) }
    ensures of_ring { IfOk result (Each (IsValueOf scope.now.ring.algebra)) }
    ensures ready { E.can_run engine.new }
    ensures seat { seat.new.algebra ≡ seat.old.algebra }
{
    let first = value(scope, engine, seat, levels, &arguments.first)?;
    let mut values = Items::new(scope.alloc);
    values.push(first)?;
    for after in arguments.more.as_slice() {
        let next = value(scope, engine, seat, levels, &after.expr)?;
        values.push(next)?;
    }
    Ok(values)
}

// A number.
fn integer(scope: &Scope, token: &Token) -> Result<Value, Stop>
    ensures value { Gives result (spec.integer scope.now token.now) }
    ensures of_ring { IfOk result (IsValueOf scope.now.ring.algebra) }
{
    let number = number(scope.bytes, token);
    let f = operations::constant(scope.alloc, scope.ring.algebra(), number)?;
    Ok(Value::Poly(f))
}

// The value with this sign.
fn signed(scope: &Scope, sign: &Option<Token>, value: Value) -> Result<Value, Stop>
    requires { IsValueOf scope.now.ring.algebra value }
    ensures value { Gives result (spec.signed scope.now sign.now value) }
    ensures of_ring { IfOk result (IsValueOf scope.now.ring.algebra) }
{
    let Some(sign) = sign else {
        return Ok(value);
    };
    let f = poly_of(value)?;
    if is_minus(scope.bytes, sign) {
        let negative = operations::negative(scope.alloc, scope.ring.algebra(), &f)?;
        Ok(Value::Poly(negative))
    } else {
        Ok(Value::Poly(f))
    }
}

// The sum, or the difference.
fn added_to(scope: &Scope, sum: Value, sign: &Token, value: Value) -> Result<Value, Stop>
    requires sum { IsValueOf scope.now.ring.algebra sum }
    requires value { IsValueOf scope.now.ring.algebra value }
    ensures value { Gives result (spec.added_to scope.now sum sign.now value) }
    ensures of_ring { IfOk result (IsValueOf scope.now.ring.algebra) }
{
    let f = poly_of(sum)?;
    let g = poly_of(value)?;
    let minus = is_minus(scope.bytes, sign);
    let h = operations::added(scope.alloc, scope.ring.algebra(), minus, &f, &g)?;
    Ok(Value::Poly(h))
}

// The product.
fn multiplied(
    scope: &Scope,
    seat: &mut TableSeat,
    product: Value,
    value: Value,
) -> Result<Value, Stop>
    requires seat { seat.old.algebra ≡ scope.now.ring.algebra }
    requires product { IsValueOf scope.now.ring.algebra product }
    requires value { IsValueOf scope.now.ring.algebra value }
    ensures value { Gives result (spec.multiplied scope.now product value) }
    ensures seat { seat.new.algebra ≡ seat.old.algebra }
    ensures of_ring { IfOk result (IsValueOf scope.now.ring.algebra) }
{
    let f = poly_of(product)?;
    let g = poly_of(value)?;
    let h = operations::times(scope.alloc, seat, &f, &g)?;
    Ok(Value::Poly(h))
}

// The quotient by a number.
fn over(scope: &Scope, product: Value, divisor: &Token) -> Result<Value, Stop>
    requires { IsValueOf scope.now.ring.algebra product }
    ensures value { Gives result (spec.over scope.now product divisor.now) }
    ensures of_ring { IfOk result (IsValueOf scope.now.ring.algebra) }
{
    let f = poly_of(product)?;
    let divisor = number(scope.bytes, divisor);
    let g = operations::divided(scope.alloc, scope.ring.algebra(), &f, divisor)?;
    Ok(Value::Poly(g))
}

// The power.
fn powered(
    scope: &Scope,
    seat: &mut TableSeat,
    power: &Option<Boxed<Power>>,
    value: Value,
) -> Result<Value, Stop>
    requires seat { seat.old.algebra ≡ scope.now.ring.algebra }
    requires of_ring { IsValueOf scope.now.ring.algebra value }
    ensures value { Gives result (spec.powered scope.now power.now value) }
    ensures seat { seat.new.algebra ≡ seat.old.algebra }
    ensures of_ring { IfOk result (IsValueOf scope.now.ring.algebra) }
{
    let Some(power) = power else {
        return Ok(value);
    };
    let f = poly_of(value)?;
    let exponent = number(scope.bytes, &power.get().exponent);
    let g = operations::power(scope.alloc, seat, &f, exponent)?;
    Ok(Value::Poly(g))
}
