//! Operations on polynomials.

ghost use Rattle.std.specs.Prelude.{◌≡◌, ◌<◌, ◌≤◌, suc, Ok, IfOk, if◌then◌else◌};
ghost use Rattle.monomials.specs.Polynomials.{IsPolynomial};
ghost use Rattle.word_model.specs.Products.{variable_polynomial};
ghost use Rattle.gproduct.specs.Seats.{Keeps};
ghost use Rattle.script_model.specs.Operations.{constant, negative, sum, difference, times, divided, power, power_of};
ghost use Rattle.script_values.specs.Gives.{Gives};

use crate::Stop;
use algebra::{Algebra, ProductFault};
use gpoly::{GPoly, Term};
use gproduct::{Steps, TableSeat};
use monomials::Expo;
use script_model::values::Refusal;
use std::alloc::{AllocError, Global};
use std::marker::Brand;
use std::sync::ledger::{Blank, Ledger};

/// A number as a polynomial.
pub fn constant(alloc: Global, algebra: &Algebra, number: u64) -> Result<GPoly, AllocError>
    ensures value { IfOk result (λ r. r ≡ constant algebra.now number) }
    ensures polynomial { IfOk result (λ r. IsPolynomial algebra.now.p algebra.now.order r) }
{
    let field = algebra.field();
    let term = Term {
        coef: field.from_int(number),
        mono: Expo::one(algebra.n()),
    };
    GPoly::from_terms(alloc, field, algebra.order(), &[term])
}

/// The variable at this place, which counts from 0.
pub fn variable(alloc: Global, algebra: &Algebra, place: usize) -> Result<GPoly, AllocError>
    requires { place < algebra.now.order.vars }
    ensures value { IfOk result (λ r. r ≡ variable_polynomial algebra.now (suc place)) }
    ensures polynomial { IfOk result (λ r. IsPolynomial algebra.now.p algebra.now.order r) }
{
    let n = algebra.n();
    let term = Term {
        coef: 1,
        mono: Expo::var(n, place as u8 + 1),
    };
    GPoly::from_terms(alloc, algebra.field(), algebra.order(), &[term])
}

/// The polynomial times -1.
pub fn negative(alloc: Global, algebra: &Algebra, f: &GPoly) -> Result<GPoly, AllocError>
    requires { IsPolynomial algebra.now.p algebra.now.order f.now }
    ensures value { IfOk result (λ r. r ≡ negative algebra.now f.now) }
    ensures polynomial { IfOk result (λ r. IsPolynomial algebra.now.p algebra.now.order r) }
{
    let field = algebra.field();
    f.scale(alloc, field, field.p() - 1)
}

/// The difference where `minus` says so, and else the sum.
pub fn added(
    alloc: Global,
    algebra: &Algebra,
    minus: bool,
    f: &GPoly,
    g: &GPoly,
) -> Result<GPoly, AllocError>
    requires first { IsPolynomial algebra.now.p algebra.now.order f.now }
    requires second { IsPolynomial algebra.now.p algebra.now.order g.now }
    ensures value { IfOk result (λ r. r ≡ (if minus then difference algebra.now f.now g.now else sum algebra.now f.now g.now)) }
    ensures polynomial { IfOk result (λ r. IsPolynomial algebra.now.p algebra.now.order r) }
{
    if minus {
        f.sub(alloc, algebra.field(), algebra.order(), g)
    } else {
        f.add(alloc, algebra.field(), algebra.order(), g)
    }
}

/// The product, over the table of the seat.
pub fn times(alloc: Global, seat: &mut TableSeat, f: &GPoly, g: &GPoly) -> Result<GPoly, Stop>
    requires first { IsPolynomial seat.old.algebra.p seat.old.algebra.order f.now }
    requires second { IsPolynomial seat.old.algebra.p seat.old.algebra.order g.now }
    ensures value { Gives result (times seat.old.algebra f.now g.now) }
    ensures polynomial { IfOk result (λ r. IsPolynomial seat.old.algebra.p seat.old.algebra.order r) }
    ensures algebra { seat.new.algebra ≡ seat.old.algebra }
    ensures kept { Keeps seat.old seat.new }
{
    counted_times::<Brand>(alloc, seat, f, g, Blank::new(1))
}

// The same, with the products that it takes counted on the blank.
fn counted_times<L: Ledger>(
    alloc: Global,
    seat: &mut TableSeat,
    f: &GPoly,
    g: &GPoly,
    blank: Blank,
) -> Result<GPoly, Stop>
    requires first { IsPolynomial seat.old.algebra.p seat.old.algebra.order f.now }
    requires second { IsPolynomial seat.old.algebra.p seat.old.algebra.order g.now }
    requires name { blank.name ≡ L.name }
    requires parts { blank.parts ≡ L.parts }
    requires some { 0 < blank.parts }
    ensures value { Gives result (times seat.old.algebra f.now g.now) }
    ensures polynomial { IfOk result (λ r. IsPolynomial seat.old.algebra.p seat.old.algebra.order r) }
    ensures algebra { seat.new.algebra ≡ seat.old.algebra }
    ensures kept { Keeps seat.old seat.new }
{
    let mut steps = Steps::<L>::start(blank);
    match gproduct::times(alloc, seat, f, g, &mut steps) {
        Ok(product) => Ok(product),
        Err(ProductFault::DegreeOver) => Err(Stop::Refused(Refusal::DegreeOver)),
        Err(ProductFault::Memory) => Err(Stop::Memory),
    }
}

/// The quotient by a number.
pub fn divided(alloc: Global, algebra: &Algebra, f: &GPoly, number: u64) -> Result<GPoly, Stop>
    requires { IsPolynomial algebra.now.p algebra.now.order f.now }
    ensures value { Gives result (divided algebra.now f.now number) }
    ensures polynomial { IfOk result (λ r. IsPolynomial algebra.now.p algebra.now.order r) }
{
    let field = algebra.field();
    let divisor = field.from_int(number);
    if divisor == 0 {
        return Err(Stop::Refused(Refusal::ZeroDivisor));
    }
    Ok(f.scale(alloc, field, field.inv(divisor))?)
}

/// The power, whose exponent is at most 4095.
pub fn power(alloc: Global, seat: &mut TableSeat, f: &GPoly, exponent: u64) -> Result<GPoly, Stop>
    requires { IsPolynomial seat.old.algebra.p seat.old.algebra.order f.now }
    ensures value { Gives result (power seat.old.algebra f.now exponent) }
    ensures polynomial { IfOk result (λ r. IsPolynomial seat.old.algebra.p seat.old.algebra.order r) }
    ensures algebra { seat.new.algebra ≡ seat.old.algebra }
    ensures kept { Keeps seat.old seat.new }
{
    if exponent > 4095 {
        return Err(Stop::Refused(Refusal::Limit));
    }
    power_of(alloc, seat, f, exponent)
}

fn power_of(alloc: Global, seat: &mut TableSeat, f: &GPoly, exponent: u64) -> Result<GPoly, Stop>
    requires { IsPolynomial seat.old.algebra.p seat.old.algebra.order f.now }
    ensures value { Gives result (power_of seat.old.algebra f.now exponent) }
    ensures polynomial { IfOk result (λ r. IsPolynomial seat.old.algebra.p seat.old.algebra.order r) }
    ensures algebra { seat.new.algebra ≡ seat.old.algebra }
    ensures kept { Keeps seat.old seat.new }
{
    let mut power = constant(alloc, seat.algebra(), 1)?;
    for _turn in 0..exponent {
        power = times(alloc, seat, &power, f)?;
    }
    Ok(power)
}
