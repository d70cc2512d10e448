//! Products of terms, variables and polynomials.

ghost use Rattle.std.specs.Prelude.{◌≡◌, ◌≢◌, ◌+◌, ◌<◌, ◌≤◌, true, false, ◌∷◌, ◌++◌, [], length, map, IfOk, OnOk, Err};
ghost use Rattle.monomials.specs.Monomials.{degree, power};
ghost use Rattle.monomials.specs.Polynomials.{IsPolynomial, poly_degree};
ghost use Rattle.gpoly.specs.Terms.{pairs_of};
ghost use Rattle.word_model.specs.Products.{product, variable_polynomial, in_reach};
ghost use Rattle.algebra.specs.Limited.{AnswersWithin};
ghost use Rattle.gproduct.specs.Seats.{Keeps};
ghost use Rattle.gproduct.specs.Counting.{Counts};
ghost use Rattle.gproduct.specs.Inside.Factors.{factor_count, products_in};

use crate::multiplying::{crossed_times, multiply_out};
use crate::parts::{add_part, total};
use crate::pending::Pending;
use crate::portion::portion;
use crate::seat::TableSeat;
use crate::split::{SplitProduct, split};
use crate::steps::Steps;
use algebra::{DEGREE_LIMIT, ProductFault};
use gpoly::{GPoly, Term};
use monomials::Expo;
use std::alloc::{AllocError, Global};
use std::sync::ledger::Ledger;

// Adds the products of each of the terms with `mono` behind it.
fn push_behind(pending: &mut Pending, terms: &[Term], mono: &Expo) -> Result<(), AllocError>
    requires { factor_count pending.old.open.items ≡ length pending.old.factors.items }
    ensures counted { OnOk result (factor_count pending.new.open.items ≡ length pending.new.factors.items) }
    ensures products { OnOk result (products_in pending.new.open.items pending.new.factors.items
        ≡ products_in pending.old.open.items pending.old.factors.items
        ++ map (λ t. (t.0, mono.now ∷ t.1 ∷ [])) (pairs_of terms.now)) }
{
    for term in terms {
        pending.push(term.coef, &[], &[*mono, term.mono])?;
    }
    Ok(())
}

// The product of a power of a variable with `f`, at once: with the terms that it passes, and with the
// others by multiplying out.
fn part_times(
    alloc: Global,
    seat: &mut TableSeat,
    pending: &mut Pending,
    v: u8,
    exponent: u16,
    f: GPoly,
) -> Result<GPoly, AllocError>
    requires counted { factor_count pending.old.open.items ≡ length pending.old.factors.items }
    requires empty { pending.old.open.items ≡ [] }
    requires first { 1 ≤ v }
    requires last { v ≤ seat.old.algebra.order.vars }
    requires sorted { IsPolynomial seat.old.algebra.p seat.old.algebra.order f }
    requires within { exponent + poly_degree f ≤ 4095 }
    ensures counted { IfOk result (λ r. factor_count pending.new.open.items ≡ length pending.new.factors.items) }
    ensures empty { IfOk result (λ r. pending.new.open.items ≡ []) }
    ensures value { IfOk result (λ r. r ≡ product seat.old.algebra ((1, power seat.old.algebra.order.vars v exponent) ∷ []) f) }
    ensures sorted { IfOk result (λ r. IsPolynomial seat.old.algebra.p seat.old.algebra.order r) }
    ensures algebra { seat.new.algebra ≡ seat.old.algebra }
    ensures kept { Keeps seat.old seat.new }
{
    let algebra = seat.algebra();
    let n = algebra.n();
    let power = Expo::power(n, v, exponent);
    let SplitProduct { passed, rest } = split(alloc, seat, 1, &power, &f)?;
    if rest.is_zero() {
        return Ok(passed);
    }
    let crossed = crossed_times(alloc, seat, pending, v, exponent, &rest)?;
    passed.add(alloc, algebra.field(), algebra.order(), &crossed)
}

// The product of a power of a variable with `f`, in parts: like terms are added up after each.
fn power_times(
    alloc: Global,
    seat: &mut TableSeat,
    pending: &mut Pending,
    v: u8,
    exponent: u16,
    f: GPoly,
) -> Result<GPoly, AllocError>
    requires counted { factor_count pending.old.open.items ≡ length pending.old.factors.items }
    requires empty { pending.old.open.items ≡ [] }
    requires first { 1 ≤ v }
    requires last { v ≤ seat.old.algebra.order.vars }
    requires sorted { IsPolynomial seat.old.algebra.p seat.old.algebra.order f }
    requires within { exponent + poly_degree f ≤ 4095 }
    ensures counted { IfOk result (λ r. factor_count pending.new.open.items ≡ length pending.new.factors.items) }
    ensures empty { IfOk result (λ r. pending.new.open.items ≡ []) }
    ensures value { IfOk result (λ r. r ≡ product seat.old.algebra ((1, power seat.old.algebra.order.vars v exponent) ∷ []) f) }
    ensures sorted { IfOk result (λ r. IsPolynomial seat.old.algebra.p seat.old.algebra.order r) }
    ensures algebra { seat.new.algebra ≡ seat.old.algebra }
    ensures kept { Keeps seat.old seat.new }
{
    let _n = seat.algebra().n();
    let mut product = f;
    let mut left = exponent;
    while left > 0 {
        let part = portion(seat, v, left, product.terms());
        product = part_times(alloc, seat, pending, v, part, product)?;
        left -= part;
    }
    Ok(product)
}

// The product of a term with `f`: by the powers of its variables, from the last to the first.
fn staged_times(
    alloc: Global,
    seat: &mut TableSeat,
    pending: &mut Pending,
    coef: u32,
    mono: &Expo,
    f: &GPoly,
) -> Result<GPoly, AllocError>
    requires counted { factor_count pending.old.open.items ≡ length pending.old.factors.items }
    requires empty { pending.old.open.items ≡ [] }
    requires sorted { IsPolynomial seat.old.algebra.p seat.old.algebra.order f.now }
    requires in_range { coef < seat.old.algebra.p }
    requires vars { length mono.now ≡ seat.old.algebra.order.vars }
    requires within { degree mono.now + poly_degree f.now ≤ 4095 }
    ensures counted { IfOk result (λ r. factor_count pending.new.open.items ≡ length pending.new.factors.items) }
    ensures empty { IfOk result (λ r. pending.new.open.items ≡ []) }
    ensures value { IfOk result (λ r. r ≡ product seat.old.algebra ((coef, mono.now) ∷ []) f.now) }
    ensures sorted { IfOk result (λ r. IsPolynomial seat.old.algebra.p seat.old.algebra.order r) }
    ensures algebra { seat.new.algebra ≡ seat.old.algebra }
    ensures kept { Keeps seat.old seat.new }
{
    let algebra = seat.algebra();
    let mut v = algebra.n() as u8;
    let mut product = f.scale(alloc, algebra.field(), coef)?;
    while v > 0 {
        product = power_times(alloc, seat, pending, v, mono.get(v), product)?;
        v -= 1;
    }
    Ok(product)
}

// The product of a term with `f`: at once with the terms that it passes, and by stages with the others.
fn term_times_within(
    alloc: Global,
    seat: &mut TableSeat,
    pending: &mut Pending,
    coef: u32,
    mono: &Expo,
    f: &GPoly,
) -> Result<GPoly, AllocError>
    requires counted { factor_count pending.old.open.items ≡ length pending.old.factors.items }
    requires empty { pending.old.open.items ≡ [] }
    requires sorted { IsPolynomial seat.old.algebra.p seat.old.algebra.order f.now }
    requires in_range { coef < seat.old.algebra.p }
    requires vars { length mono.now ≡ seat.old.algebra.order.vars }
    requires within { degree mono.now + poly_degree f.now ≤ 4095 }
    ensures counted { IfOk result (λ r. factor_count pending.new.open.items ≡ length pending.new.factors.items) }
    ensures empty { IfOk result (λ r. pending.new.open.items ≡ []) }
    ensures value { IfOk result (λ r. r ≡ product seat.old.algebra ((coef, mono.now) ∷ []) f.now) }
    ensures sorted { IfOk result (λ r. IsPolynomial seat.old.algebra.p seat.old.algebra.order r) }
    ensures algebra { seat.new.algebra ≡ seat.old.algebra }
    ensures kept { Keeps seat.old seat.new }
{
    let algebra = seat.algebra();
    let _n = algebra.n();
    let SplitProduct { passed, rest } = split(alloc, seat, coef, mono, f)?;
    if rest.is_zero() {
        return Ok(passed);
    }
    let crossed = staged_times(alloc, seat, pending, coef, mono, &rest)?;
    passed.add(alloc, algebra.field(), algebra.order(), &crossed)
}

// The products of the terms of `f` with `g`, summed. Each counts a step.
fn times_within<L: Ledger>(
    alloc: Global,
    seat: &mut TableSeat,
    f: &GPoly,
    g: &GPoly,
    steps: &mut Steps<L>,
) -> Result<GPoly, AllocError>
    requires f_sorted { IsPolynomial seat.old.algebra.p seat.old.algebra.order f.now }
    requires g_sorted { IsPolynomial seat.old.algebra.p seat.old.algebra.order g.now }
    requires within { poly_degree f.now + poly_degree g.now ≤ 4095 }
    ensures value { IfOk result (λ r. r ≡ product seat.old.algebra f.now g.now) }
    ensures sorted { IfOk result (λ r. IsPolynomial seat.old.algebra.p seat.old.algebra.order r) }
    ensures algebra { seat.new.algebra ≡ seat.old.algebra }
    ensures kept { Keeps seat.old seat.new }
    ensures counted { OnOk result (steps.new ≡ steps.old + length f.now) }
    ensures rises { steps.old ≤ steps.new }
    ensures at_most { steps.new ≤ steps.old + length f.now }
{
    let algebra = seat.algebra();
    let _n = algebra.n();
    let mut pending = Pending::new(alloc);
    let mut parts = Vec::new(alloc);
    for term in f.terms() {
        steps.tick();
        let part = term_times_within(alloc, seat, &mut pending, term.coef, &term.mono, g)?;
        add_part(alloc, algebra.field(), algebra.order(), &mut parts, part)?;
    }
    total(alloc, algebra.field(), algebra.order(), parts)
}

/// The product of the term `coef * mono` with `f`. `DegreeOver` comes exactly where both are nonzero
/// and their degrees add up to more than 4095.
pub fn term_times<L: Ledger>(
    alloc: Global,
    seat: &mut TableSeat,
    coef: u32,
    mono: &Expo,
    f: &GPoly,
    steps: &mut Steps<L>,
) -> Result<GPoly, ProductFault>
    requires sorted { IsPolynomial seat.old.algebra.p seat.old.algebra.order f.now }
    requires nonzero { coef ≢ 0 }
    requires in_range { coef < seat.old.algebra.p }
    requires vars { length mono.now ≡ seat.old.algebra.order.vars }
    ensures value { IfOk result (λ r. r ≡ product seat.old.algebra ((coef, mono.now) ∷ []) f.now) }
    ensures sorted { IfOk result (λ r. IsPolynomial seat.old.algebra.p seat.old.algebra.order r) }
    ensures within { OnOk result (in_reach ((coef, mono.now) ∷ []) f.now ≡ true) }
    ensures over { result ≡ Err ProductFault.DegreeOver → in_reach ((coef, mono.now) ∷ []) f.now ≡ false }
    ensures reach { AnswersWithin (in_reach ((coef, mono.now) ∷ []) f.now) result }
    ensures algebra { seat.new.algebra ≡ seat.old.algebra }
    ensures kept { Keeps seat.old seat.new }
    ensures counted { Counts 1 result steps.old steps.new }
{
    if f.is_zero() {
        steps.tick();
        return Ok(GPoly::zero(alloc));
    }
    if mono.degree() + f.degree() > DEGREE_LIMIT {
        return Err(ProductFault::DegreeOver);
    }
    steps.tick();
    let mut pending = Pending::new(alloc);
    Ok(term_times_within(alloc, seat, &mut pending, coef, mono, f)?)
}

// The product of a monomial with `f`: one that the seat kept under the number, or a new one, which it
// may keep.
fn kept_times_within(
    alloc: Global,
    seat: &mut TableSeat,
    number: u32,
    mono: &Expo,
    f: &GPoly,
) -> Result<GPoly, AllocError>
    requires nonzero { f.now ≢ [] }
    requires sorted { IsPolynomial seat.old.algebra.p seat.old.algebra.order f.now }
    requires vars { length mono.now ≡ seat.old.algebra.order.vars }
    requires within { degree mono.now + poly_degree f.now ≤ 4095 }
    ensures value { IfOk result (λ r. r ≡ product seat.old.algebra ((1, mono.now) ∷ []) f.now) }
    ensures sorted { IfOk result (λ r. IsPolynomial seat.old.algebra.p seat.old.algebra.order r) }
    ensures algebra { seat.new.algebra ≡ seat.old.algebra }
    ensures kept { Keeps seat.old seat.new }
{
    if let Some(product) = seat.kept(number, mono, f) {
        return product.copy(alloc);
    }
    let _n = seat.algebra().n();
    let mut pending = Pending::new(alloc);
    let product = term_times_within(alloc, seat, &mut pending, 1, mono, f)?;
    seat.keep(alloc, number, mono, f, &product);
    Ok(product)
}

/// The product of a monomial with `f`, which the seat may keep under the number and find again. The
/// number is a hint: where another polynomial comes with it, the products that are kept are dropped.
/// `DegreeOver` comes exactly where `f` is not zero and the degrees add up to more than 4095. A product
/// that was kept is counted as a new one.
pub fn kept_times<L: Ledger>(
    alloc: Global,
    seat: &mut TableSeat,
    number: u32,
    mono: &Expo,
    f: &GPoly,
    steps: &mut Steps<L>,
) -> Result<GPoly, ProductFault>
    requires sorted { IsPolynomial seat.old.algebra.p seat.old.algebra.order f.now }
    requires vars { length mono.now ≡ seat.old.algebra.order.vars }
    ensures value { IfOk result (λ r. r ≡ product seat.old.algebra ((1, mono.now) ∷ []) f.now) }
    ensures sorted { IfOk result (λ r. IsPolynomial seat.old.algebra.p seat.old.algebra.order r) }
    ensures within { OnOk result (in_reach ((1, mono.now) ∷ []) f.now ≡ true) }
    ensures over { result ≡ Err ProductFault.DegreeOver → in_reach ((1, mono.now) ∷ []) f.now ≡ false }
    ensures reach { AnswersWithin (in_reach ((1, mono.now) ∷ []) f.now) result }
    ensures algebra { seat.new.algebra ≡ seat.old.algebra }
    ensures kept { Keeps seat.old seat.new }
    ensures counted { Counts 1 result steps.old steps.new }
{
    if f.terms().len() < 2 || mono.degree() == 0 {
        let _n = seat.algebra().n();
        return term_times(alloc, seat, 1, mono, f, steps);
    }
    if f.degree() + mono.degree() > DEGREE_LIMIT {
        return Err(ProductFault::DegreeOver);
    }
    steps.tick();
    Ok(kept_times_within(alloc, seat, number, mono, f)?)
}

/// The product of `f` with the variable of number `v`. `DegreeOver` comes exactly where `f` is not
/// zero and has a degree of 4095.
pub fn right_times<L: Ledger>(
    alloc: Global,
    seat: &mut TableSeat,
    f: &GPoly,
    v: u8,
    steps: &mut Steps<L>,
) -> Result<GPoly, ProductFault>
    requires sorted { IsPolynomial seat.old.algebra.p seat.old.algebra.order f.now }
    requires first { 1 ≤ v }
    requires last { v ≤ seat.old.algebra.order.vars }
    ensures value { IfOk result (λ r. r ≡ product seat.old.algebra f.now (variable_polynomial seat.old.algebra v)) }
    ensures sorted { IfOk result (λ r. IsPolynomial seat.old.algebra.p seat.old.algebra.order r) }
    ensures within { OnOk result (in_reach f.now (variable_polynomial seat.old.algebra v) ≡ true) }
    ensures over { result ≡ Err ProductFault.DegreeOver →
        in_reach f.now (variable_polynomial seat.old.algebra v) ≡ false }
    ensures reach { AnswersWithin (in_reach f.now (variable_polynomial seat.old.algebra v)) result }
    ensures algebra { seat.new.algebra ≡ seat.old.algebra }
    ensures kept { Keeps seat.old seat.new }
    ensures counted { Counts 1 result steps.old steps.new }
{
    if f.degree() >= DEGREE_LIMIT {
        return Err(ProductFault::DegreeOver);
    }
    steps.tick();
    let n = seat.algebra().n();
    let mut pending = Pending::new(alloc);
    push_behind(&mut pending, f.terms(), &Expo::var(n, v))?;
    Ok(multiply_out(alloc, seat, &mut pending)?)
}

/// The product of `f` and `g`. `DegreeOver` comes exactly where both are nonzero and their degrees
/// add up to more than 4095.
pub fn times<L: Ledger>(
    alloc: Global,
    seat: &mut TableSeat,
    f: &GPoly,
    g: &GPoly,
    steps: &mut Steps<L>,
) -> Result<GPoly, ProductFault>
    requires f_sorted { IsPolynomial seat.old.algebra.p seat.old.algebra.order f.now }
    requires g_sorted { IsPolynomial seat.old.algebra.p seat.old.algebra.order g.now }
    ensures value { IfOk result (λ r. r ≡ product seat.old.algebra f.now g.now) }
    ensures sorted { IfOk result (λ r. IsPolynomial seat.old.algebra.p seat.old.algebra.order r) }
    ensures within { OnOk result (in_reach f.now g.now ≡ true) }
    ensures over { result ≡ Err ProductFault.DegreeOver → in_reach f.now g.now ≡ false }
    ensures reach { AnswersWithin (in_reach f.now g.now) result }
    ensures algebra { seat.new.algebra ≡ seat.old.algebra }
    ensures kept { Keeps seat.old seat.new }
    ensures counted { Counts (length f.now) result steps.old steps.new }
{
    if !algebra::in_reach(f, g) {
        return Err(ProductFault::DegreeOver);
    }
    Ok(times_within(alloc, seat, f, g, steps)?)
}
