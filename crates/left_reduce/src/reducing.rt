//! Reductions, normal forms and reductions of tails.

ghost use Rattle.std.specs.Prelude.{◌≡◌, ◌+◌, ◌≤◌, true, false, IfOk, OnOk, Err, length};
ghost use Rattle.monomials.specs.Polynomials.{Each, IsPolynomial};
ghost use Rattle.word_model.specs.Reduction.{reduce, normal_form_by, reduce_tail};
ghost use Rattle.gproduct.specs.Seats.{Keeps};
ghost use Rattle.left_reduce.specs.Reductions.{behind_steps};
ghost use Rattle.left_reduce.specs.Inside.Steps.{reduction_by};

use crate::stepping::all_steps;
use crate::targets::Aim;
use algebra::ProductFault;
use gpoly::GPoly;
use gproduct::{Steps, TableSeat};
use run_records::{Elements, Trace};
use std::alloc::{AllocError, Global};
use std::marker::Model;
use std::sync::ledger::Ledger;

/// How a reduction ended.
#[derive(Clone, Copy, Debug, PartialEq, Eq)]
pub enum Ended {
    /// Nothing is left.
    Zero,
    /// No leading monomial of an element divides that of what is left.
    Irreducible,
    /// The factors of the next step have degrees that add up to more than 4095, so that it was not
    /// made.
    DegreeOver,
}

/// What a reduction did, what it left, and how it ended.
#[derive(Debug, Drop)]
pub struct Reduced {
    pub trace: Trace,
    pub rest: GPoly,
    pub ended: Ended,
}

impl Model for Reduced {
    ghost use Rattle.left_reduce.specs.Reductions.{GoneOn};

    ghost Value = { GoneOn };

    ghost view = { λ r. record { trace = r.trace; rest = r.rest; ended = r.ended } };
}

/// The reduction of `h` by the elements: the first one whose leading monomial divides that of `h`
/// cancels the leading term, and so on. Its steps are put behind those of `trace`, so that a
/// reduction by the first elements of a list is gone on with by all of them. Counts a product for
/// each step that it adds.
pub fn reduce_from<B: Elements, L: Ledger>(
    alloc: Global,
    seat: &mut TableSeat,
    basis: &B,
    h: GPoly,
    trace: Trace,
    steps: &mut Steps<L>,
) -> Result<Reduced, AllocError>
    requires few { length (B.elements basis.now) ≤ 4294967295 }
    requires sorted { Each (IsPolynomial seat.old.algebra.p seat.old.algebra.order) (B.elements basis.now) }
    requires h_sorted { IsPolynomial seat.old.algebra.p seat.old.algebra.order h }
    ensures value { IfOk result (λ r. r ≡ behind_steps trace (reduce seat.old.algebra (B.elements basis.now) h)) }
    ensures sorted { IfOk result (λ r. IsPolynomial seat.old.algebra.p seat.old.algebra.order r.rest) }
    ensures counted { OnOk result
        (steps.new ≡ steps.old + length (reduce seat.old.algebra (B.elements basis.now) h).trace) }
    ensures algebra { seat.new.algebra ≡ seat.old.algebra }
    ensures kept { Keeps seat.old seat.new }
{
    let done = all_steps(alloc, seat, basis, Aim::Leading, h, trace, steps)?;
    let ended = if done.over {
        Ended::DegreeOver
    } else if done.rest.is_zero() {
        Ended::Zero
    } else {
        Ended::Irreducible
    };
    Ok(Reduced {
        trace: done.trace,
        rest: done.rest,
        ended,
    })
}

/// The normal form of `h` by the elements, with its steps: the greatest term that some element's
/// leading monomial divides, leading or not, is cancelled by the first such element, until there is
/// none. `DegreeOver` comes exactly where the factors of one of its steps have degrees that add up to
/// more than 4095. Counts a product for each step.
pub fn normal_form<B: Elements, L: Ledger>(
    alloc: Global,
    seat: &mut TableSeat,
    basis: &B,
    h: &GPoly,
    steps: &mut Steps<L>,
) -> Result<(GPoly, Trace), ProductFault>
    requires few { length (B.elements basis.now) ≤ 4294967295 }
    requires sorted { Each (IsPolynomial seat.old.algebra.p seat.old.algebra.order) (B.elements basis.now) }
    requires h_sorted { IsPolynomial seat.old.algebra.p seat.old.algebra.order h.now }
    ensures value { IfOk result (λ r. normal_form_by seat.old.algebra (B.elements basis.now) h.now
        ≡ record { trace = r.1; rest = r.0; over = false }) }
    ensures over { result ≡ Err ProductFault.DegreeOver →
        (normal_form_by seat.old.algebra (B.elements basis.now) h.now).over ≡ true }
    ensures sorted { IfOk result (λ r. IsPolynomial seat.old.algebra.p seat.old.algebra.order r.0) }
    ensures counted { OnOk result
        (steps.new ≡ steps.old + length (normal_form_by seat.old.algebra (B.elements basis.now) h.now).trace) }
    ensures algebra { seat.new.algebra ≡ seat.old.algebra }
    ensures kept { Keeps seat.old seat.new }
{
    finished(alloc, seat, basis, Aim::Greatest, h, steps)
}

/// The reduction of the tail of `h` by the elements, with its steps: as the normal form, but the
/// leading term stays. `DegreeOver` comes exactly where the factors of one of its steps have degrees
/// that add up to more than 4095. Counts a product for each step.
pub fn reduce_tail<B: Elements, L: Ledger>(
    alloc: Global,
    seat: &mut TableSeat,
    basis: &B,
    h: &GPoly,
    steps: &mut Steps<L>,
) -> Result<(GPoly, Trace), ProductFault>
    requires few { length (B.elements basis.now) ≤ 4294967295 }
    requires sorted { Each (IsPolynomial seat.old.algebra.p seat.old.algebra.order) (B.elements basis.now) }
    requires h_sorted { IsPolynomial seat.old.algebra.p seat.old.algebra.order h.now }
    ensures value { IfOk result (λ r. reduce_tail seat.old.algebra (B.elements basis.now) h.now
        ≡ record { trace = r.1; rest = r.0; over = false }) }
    ensures over { result ≡ Err ProductFault.DegreeOver →
        (reduce_tail seat.old.algebra (B.elements basis.now) h.now).over ≡ true }
    ensures sorted { IfOk result (λ r. IsPolynomial seat.old.algebra.p seat.old.algebra.order r.0) }
    ensures counted { OnOk result
        (steps.new ≡ steps.old + length (reduce_tail seat.old.algebra (B.elements basis.now) h.now).trace) }
    ensures algebra { seat.new.algebra ≡ seat.old.algebra }
    ensures kept { Keeps seat.old seat.new }
{
    finished(alloc, seat, basis, Aim::Tail, h, steps)
}

// What the reduction of `h` with this aim leaves, and its steps, where none of them is undefined.
fn finished<B: Elements, L: Ledger>(
    alloc: Global,
    seat: &mut TableSeat,
    basis: &B,
    aim: Aim,
    h: &GPoly,
    steps: &mut Steps<L>,
) -> Result<(GPoly, Trace), ProductFault>
    requires few { length (B.elements basis.now) ≤ 4294967295 }
    requires sorted { Each (IsPolynomial seat.old.algebra.p seat.old.algebra.order) (B.elements basis.now) }
    requires h_sorted { IsPolynomial seat.old.algebra.p seat.old.algebra.order h.now }
    ensures value { IfOk result (λ r. reduction_by aim seat.old.algebra (B.elements basis.now) h.now
        ≡ record { trace = r.1; rest = r.0; over = false }) }
    ensures over { result ≡ Err ProductFault.DegreeOver →
        (reduction_by aim seat.old.algebra (B.elements basis.now) h.now).over ≡ true }
    ensures sorted { IfOk result (λ r. IsPolynomial seat.old.algebra.p seat.old.algebra.order r.0) }
    ensures counted { OnOk result
        (steps.new ≡ steps.old + length (reduction_by aim seat.old.algebra (B.elements basis.now) h.now).trace) }
    ensures algebra { seat.new.algebra ≡ seat.old.algebra }
    ensures kept { Keeps seat.old seat.new }
{
    let start = h.copy(alloc)?;
    let done = all_steps(alloc, seat, basis, aim, start, Trace::new(alloc), steps)?;
    if done.over {
        return Err(ProductFault::DegreeOver);
    }
    Ok((done.rest, done.trace))
}
