//! Whether a finished list is what a basis gives.

ghost use Rattle.std.specs.Prelude.{◌≡◌, length, IfOk, Err};
ghost use Rattle.monomials.specs.Polynomials.{Each};
ghost use Rattle.word_model.specs.Machine.{IsElement};
ghost use Rattle.gproduct.specs.Seats.{Keeps};
ghost use Rattle.two_sided.specs.Checks.{IsTerm, TooHigh, first_answer, tested, one_each, final_answers, list_answers};

use crate::naming::{names_element, names_elements};
use crate::subtracting::less_trace;
use algebra::ProductFault;
use gpoly::GPoly;
use gproduct::{Steps, TableSeat};
use run_records::{Finished, Trace};
use std::alloc::Global;
use std::sync::ledger::Ledger;

// Whether each element of a finished list is what its tail leaves of its origin in the basis.
pub(crate) fn list_holds<L: Ledger>(
    alloc: Global,
    seat: &mut TableSeat,
    basis: &[GPoly],
    finished: &Finished,
    steps: &mut Steps<L>,
) -> Result<bool, ProductFault>
    requires elements { Each (IsElement seat.old.algebra) basis.now }
    requires terms { Each (Each (IsTerm seat.old.algebra)) finished.now.tails }
    ensures value { IfOk result (λ holds. first_answer (list_answers seat.old.algebra basis.now finished.now) ≡ tested holds) }
    ensures over { result ≡ Err ProductFault.DegreeOver →
        first_answer (list_answers seat.old.algebra basis.now finished.now) ≡ TooHigh }
    ensures algebra { seat.new.algebra ≡ seat.old.algebra }
    ensures kept { Keeps seat.old seat.new }
{
    if !one_each(finished) {
        return Ok(false);
    }
    let (list, origin, tails) = (&finished.list, &finished.origin, &finished.tails);
    for place in 0..list.len() {
        let (element, tail) = (&list[place], &tails[place]);
        if !element_holds(alloc, seat, basis, element, origin[place], tail, steps)? {
            return Ok(false);
        }
    }
    Ok(true)
}

// Whether there is an origin and a tail for each element.
fn one_each(finished: &Finished) -> bool
    ensures { result ≡ one_each finished.now }
{
    let count = finished.list.len();
    finished.origin.len() == count && finished.tails.len() == count
}

// Whether an element is what a tail leaves of the element of number `origin` in the basis.
fn element_holds<L: Ledger>(
    alloc: Global,
    seat: &mut TableSeat,
    basis: &[GPoly],
    element: &GPoly,
    origin: u32,
    tail: &Trace,
    steps: &mut Steps<L>,
) -> Result<bool, ProductFault>
    requires elements { Each (IsElement seat.old.algebra) basis.now }
    requires terms { Each (IsTerm seat.old.algebra) tail.now }
    ensures value { IfOk result (λ holds.
        first_answer (final_answers seat.old.algebra basis.now element.now origin tail.now) ≡ tested holds) }
    ensures over { result ≡ Err ProductFault.DegreeOver →
        first_answer (final_answers seat.old.algebra basis.now element.now origin tail.now) ≡ TooHigh }
    ensures algebra { seat.new.algebra ≡ seat.old.algebra }
    ensures kept { Keeps seat.old seat.new }
{
    let count = basis.len();
    if !names_element(count, origin) {
        return Ok(false);
    }
    if !names_elements(count, tail) {
        return Ok(false);
    }
    let start = basis[origin as usize - 1].copy(alloc)?;
    let left = less_trace(alloc, seat, basis, start, tail, steps)?;
    Ok(left.equals(element))
}
