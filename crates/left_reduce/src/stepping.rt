//! The steps of reductions.

ghost use Rattle.std.specs.Prelude.{◌≡◌, ◌+◌, ◌<◌, ◌≤◌, IfOk, OnOk, length, Some};
ghost use Rattle.monomials.specs.Polynomials.{Polynomial, Each, IsPolynomial};
ghost use Rattle.word_model.specs.Reduction.{first_divisor, next_step};
ghost use Rattle.gproduct.specs.Seats.{Keeps};
ghost use Rattle.left_reduce.specs.Inside.Steps.{target_of, next_of, IsSorted, products_of, after_steps, reduction_by};

use crate::multiples::multiple;
use crate::targets::{Aim, Target, Work};
use algebra::ProductFault;
use gpoly::GPoly;
use gproduct::{Steps, TableSeat};
use run_records::{Elements, Trace, TraceStep};
use std::alloc::{AllocError, Global};
use std::marker::Model;
use std::sync::ledger::Ledger;

// A step and what it adds, or that its product has too high a degree.
#[derive(Drop)]
pub(crate) enum Next {
    Step(TraceStep, GPoly),
    Over,
}

// What a reduction did and left, and whether the next step has a product of too high a degree.
#[derive(Drop)]
pub(crate) struct Stepped {
    pub(crate) trace: Trace,
    pub(crate) rest: GPoly,
    pub(crate) over: bool,
}

impl Model for Stepped {
    ghost use Rattle.word_model.specs.Reduction.{Reduced};

    ghost Value = { Reduced };

    ghost view = { λ s. record { trace = s.trace; rest = s.rest; over = s.over } };
}

// All steps of `h` with this aim, put behind those of `trace`.
pub(crate) fn all_steps<B: Elements, L: Ledger>(
    alloc: Global,
    seat: &mut TableSeat,
    basis: &B,
    aim: Aim,
    h: GPoly,
    trace: Trace,
    steps: &mut Steps<L>,
) -> Result<Stepped, AllocError>
    requires few { length (B.elements basis.now) ≤ 4294967295 }
    requires sorted { Each (IsPolynomial seat.old.algebra.p seat.old.algebra.order) (B.elements basis.now) }
    requires h_sorted { IsPolynomial seat.old.algebra.p seat.old.algebra.order h }
    ensures value { IfOk result (λ r.
        r ≡ after_steps trace (reduction_by aim seat.old.algebra (B.elements basis.now) h)) }
    ensures sorted { IfOk result (λ r. IsPolynomial seat.old.algebra.p seat.old.algebra.order r.rest) }
    ensures counted { OnOk result
        (steps.new ≡ steps.old + length (reduction_by aim seat.old.algebra (B.elements basis.now) h).trace) }
    ensures algebra { seat.new.algebra ≡ seat.old.algebra }
    ensures kept { Keeps seat.old seat.new }
{
    let alg = seat.algebra();
    let _n = alg.n();
    let field = alg.field();
    let order = alg.order();
    let mut trace = trace;
    let mut work = Work::new(alloc, field, order, h)?;
    while let Some(target) = work.target(field, order, basis, aim)? {
        match next_step(alloc, seat, basis, &target, steps)? {
            Next::Step(step, multiple) => {
                work.add(alloc, field, order, multiple)?;
                trace.push(step)?;
            }
            Next::Over => {
                let rest = work.into_poly(alloc, field, order)?;
                return Ok(Stepped {
                    trace,
                    rest,
                    over: true,
                });
            }
        }
    }
    trace.shrink();
    let rest = work.into_poly(alloc, field, order)?;
    Ok(Stepped {
        trace,
        rest,
        over: false,
    })
}

// The step at a target, of any polynomial: the multiple of the element whose leading term is the
// target's is subtracted.
fn next_step<B: Elements, L: Ledger>(
    alloc: Global,
    seat: &mut TableSeat,
    basis: &B,
    target: &Target,
    steps: &mut Steps<L>,
) -> Result<Next, AllocError>
    requires sorted { Each (IsPolynomial seat.old.algebra.p seat.old.algebra.order) (B.elements basis.now) }
    requires vars { length target.now.term.mono ≡ seat.old.algebra.order.vars }
    requires in_range { target.now.term.coef < seat.old.algebra.p }
    requires not_zero { 0 < target.now.term.coef }
    requires divisor { first_divisor (B.elements basis.now) target.now.term.mono ≡ Some target.now.index }
    ensures value { IfOk result (λ n. (h : Polynomial) →
        next_step seat.old.algebra (B.elements basis.now) h (Some (target_of target.now))
        ≡ next_of seat.old.algebra n h) }
    ensures sorted { IfOk result (λ n. IsSorted seat.old.algebra n) }
    ensures counted { IfOk result (λ n. steps.new ≡ steps.old + products_of n) }
    ensures algebra { seat.new.algebra ≡ seat.old.algebra }
    ensures kept { Keeps seat.old seat.new }
{
    let alg = seat.algebra();
    let _n = alg.n();
    let field = alg.field();
    let element = basis.at(target.index);
    let mono = target.term.mono.minus(&element.lead().mono);
    let product = match multiple(alloc, seat, target.index, &mono, element, steps) {
        Ok(product) => product,
        Err(ProductFault::DegreeOver) => return Ok(Next::Over),
        Err(ProductFault::Memory) => return Err(AllocError),
    };
    let coef = field.div(target.term.coef, product.lead().coef);
    let multiple = product.into_multiple(field, field.neg(coef));
    let step = TraceStep {
        coef,
        mono,
        index: target.index,
    };
    Ok(Next::Step(step, multiple))
}
