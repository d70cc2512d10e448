//! What steps leave of a polynomial.

ghost use Rattle.std.specs.Prelude.{◌≡◌, ◌≤◌, true, false, length, IfOk, OnOk, Err};
ghost use Rattle.monomials.specs.Orders.{order_cmp};
ghost use Rattle.monomials.specs.Polynomials.{Each, IsPolynomial};
ghost use Rattle.gpoly.specs.Sums.{poly_sum, AreSorted};
ghost use Rattle.word_model.specs.Reduction.{element, is_within, less_step};
ghost use Rattle.word_model.specs.Certificates.{less_trace};
ghost use Rattle.word_model.specs.Machine.{IsElement};
ghost use Rattle.gproduct.specs.Seats.{Keeps};
ghost use Rattle.two_sided.specs.Checks.{IsTerm, names_elements, trace_within};

use algebra::ProductFault;
use gpoly::{Buckets, GPoly};
use gproduct::{Steps, TableSeat, term_times};
use run_records::{Trace, TraceStep};
use std::alloc::Global;
use std::sync::ledger::Ledger;

// What is left of `start` after these steps by elements of the basis.
pub(crate) fn less_trace<L: Ledger>(
    alloc: Global,
    seat: &mut TableSeat,
    basis: &[GPoly],
    start: GPoly,
    trace: &Trace,
    steps: &mut Steps<L>,
) -> Result<GPoly, ProductFault>
    requires elements { Each (IsElement seat.old.algebra) basis.now }
    requires sorted { IsPolynomial seat.old.algebra.p seat.old.algebra.order start }
    requires terms { Each (IsTerm seat.old.algebra) trace.now }
    requires named { names_elements (length basis.now) trace.now ≡ true }
    ensures value { IfOk result (λ r. r ≡ less_trace seat.old.algebra basis.now start trace.now) }
    ensures sorted { IfOk result (λ r. IsPolynomial seat.old.algebra.p seat.old.algebra.order r) }
    ensures within { OnOk result (trace_within basis.now trace.now ≡ true) }
    ensures over { result ≡ Err ProductFault.DegreeOver → trace_within basis.now trace.now ≡ false }
    ensures algebra { seat.new.algebra ≡ seat.old.algebra }
    ensures kept { Keeps seat.old seat.new }
{
    let alg = seat.algebra();
    let (field, order) = (alg.field(), alg.order());
    let mut rest = Buckets::new(alloc);
    rest.add(alloc, field, order, start)?;
    let made = trace.steps();
    for step in made {
        add_step(alloc, seat, basis, &mut rest, step, steps)?;
    }
    Ok(rest.into_poly(alloc, field, order)?)
}

// Subtracts the multiple of an element that a step names.
fn add_step<L: Ledger>(
    alloc: Global,
    seat: &mut TableSeat,
    basis: &[GPoly],
    rest: &mut Buckets,
    step: &TraceStep,
    steps: &mut Steps<L>,
) -> Result<(), ProductFault>
    requires elements { Each (IsElement seat.old.algebra) basis.now }
    requires sorted { AreSorted seat.old.algebra.p seat.old.algebra.order rest.old }
    requires term { IsTerm seat.old.algebra step.now }
    requires first { 1 ≤ step.now.index }
    requires last { step.now.index ≤ length basis.now }
    ensures value { OnOk result (poly_sum (order_cmp seat.old.algebra.order.rows) seat.old.algebra.p rest.new
        ≡ less_step seat.old.algebra basis.now
        (poly_sum (order_cmp seat.old.algebra.order.rows) seat.old.algebra.p rest.old) step.now) }
    ensures sorted { OnOk result (AreSorted seat.old.algebra.p seat.old.algebra.order rest.new) }
    ensures within { OnOk result (is_within step.now.mono (element basis.now step.now.index) ≡ true) }
    ensures over { result ≡ Err ProductFault.DegreeOver →
        is_within step.now.mono (element basis.now step.now.index) ≡ false }
    ensures algebra { seat.new.algebra ≡ seat.old.algebra }
    ensures kept { Keeps seat.old seat.new }
{
    let alg = seat.algebra();
    let field = alg.field();
    let element = &basis[step.index as usize - 1];
    let product = term_times(alloc, seat, step.coef, &step.mono, element, steps)?;
    let negative = product.into_multiple(field, field.p() - 1);
    rest.add(alloc, field, alg.order(), negative)?;
    Ok(())
}
