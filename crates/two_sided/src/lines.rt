//! The elements that the lines of a certificate give.

ghost use Rattle.std.specs.Prelude.{◌≡◌, ◌&&◌, ◌==◌, true, false, [], length, is_some, IfOk, IfSome, MatchOption, Err, Some, None};
ghost use Rattle.std.specs.Option.{unwrap_or};
ghost use Rattle.monomials.specs.Leading.{leading_coefficient};
ghost use Rattle.monomials.specs.Polynomials.{Each, IsPolynomial};
ghost use Rattle.word_model.specs.Certificates.{less_trace};
ghost use Rattle.word_model.specs.Jobs.{start_of, IsJob};
ghost use Rattle.word_model.specs.Machine.{IsElement};
ghost use Rattle.gproduct.specs.Seats.{Keeps};
ghost use Rattle.two_sided.specs.Checks.{IsTerm, IsLine, Holds, Fails, TooHigh, first_answer, names_job, names_elements, trace_within, line_value, line_answers, lines_values, lines_answers};

use crate::naming::{names_elements, names_job};
use crate::pushing::push;
use crate::subtracting::less_trace;
use algebra::ProductFault;
use gpoly::GPoly;
use gproduct::{Steps, TableSeat};
use left_reduce::start_of;
use run_records::{Entry, Job, Trace};
use std::alloc::Global;
use std::sync::ledger::Ledger;

// The elements that lines give, one each, or none of them where a line fails.
pub(crate) fn elements_of<L: Ledger>(
    alloc: Global,
    seat: &mut TableSeat,
    gens: &[GPoly],
    lines: &[Entry],
    steps: &mut Steps<L>,
) -> Result<Option<Vec<GPoly>>, ProductFault>
    requires generators { Each (IsPolynomial seat.old.algebra.p seat.old.algebra.order) gens.now }
    requires numbers { Each (IsLine seat.old.algebra) lines.now }
    ensures value { IfOk result (λ made.
        MatchOption made (first_answer (lines_answers seat.old.algebra gens.now [] lines.now) ≡ Fails)
        (λ basis. (first_answer (lines_answers seat.old.algebra gens.now [] lines.now) ≡ Holds)
        × (basis.items ≡ lines_values seat.old.algebra gens.now [] lines.now))) }
    ensures elements { IfOk result (λ made. IfSome made (λ basis. Each (IsElement seat.old.algebra) basis.items)) }
    ensures over { result ≡ Err ProductFault.DegreeOver →
        first_answer (lines_answers seat.old.algebra gens.now [] lines.now) ≡ TooHigh }
    ensures algebra { seat.new.algebra ≡ seat.old.algebra }
    ensures kept { Keeps seat.old seat.new }
{
    let mut basis = Vec::new(alloc);
    for line in lines {
        let Some(element) = line_element(alloc, seat, gens, &basis, line, steps)? else {
            return Ok(None);
        };
        push(&mut basis, element)?;
    }
    Ok(Some(basis))
}

// The element that a line gives, unless the line fails.
fn line_element<L: Ledger>(
    alloc: Global,
    seat: &mut TableSeat,
    gens: &[GPoly],
    basis: &Vec<GPoly>,
    line: &Entry,
    steps: &mut Steps<L>,
) -> Result<Option<GPoly>, ProductFault>
    requires generators { Each (IsPolynomial seat.old.algebra.p seat.old.algebra.order) gens.now }
    requires elements { Each (IsElement seat.old.algebra) basis.now.items }
    requires numbers { IsLine seat.old.algebra line.now }
    ensures value { IfOk result (λ made.
        MatchOption made (first_answer (line_answers seat.old.algebra gens.now basis.now.items line.now) ≡ Fails)
        (λ g. (first_answer (line_answers seat.old.algebra gens.now basis.now.items line.now) ≡ Holds)
        × (g ≡ line_value seat.old.algebra gens.now basis.now.items line.now))) }
    ensures element { IfOk result (λ made. IfSome made (IsElement seat.old.algebra)) }
    ensures over { result ≡ Err ProductFault.DegreeOver →
        first_answer (line_answers seat.old.algebra gens.now basis.now.items line.now) ≡ TooHigh }
    ensures algebra { seat.new.algebra ≡ seat.old.algebra }
    ensures kept { Keeps seat.old seat.new }
{
    let Entry::New { job, trace, scale } = line else {
        return Ok(None);
    };
    let Some(left) = start_left(alloc, seat, gens, basis, job, trace, steps)? else {
        return Ok(None);
    };
    let element = left.scale(alloc, seat.algebra().field(), *scale)?;
    Ok(only_monic(element))
}

// The polynomial, if it is monic. The zero polynomial is not.
fn only_monic(f: GPoly) -> Option<GPoly>
    ensures { MatchOption result ((leading_coefficient f == 1) ≡ false)
        (λ g. ((leading_coefficient f == 1) ≡ true) × (g ≡ f)) }
{
    if f.is_zero() || f.lead().coef != 1 {
        return None;
    }
    Some(f)
}

// What steps leave of a job's start, unless they name what is not there.
fn start_left<L: Ledger>(
    alloc: Global,
    seat: &mut TableSeat,
    gens: &[GPoly],
    basis: &Vec<GPoly>,
    job: &Job,
    trace: &Trace,
    steps: &mut Steps<L>,
) -> Result<Option<GPoly>, ProductFault>
    requires generators { Each (IsPolynomial seat.old.algebra.p seat.old.algebra.order) gens.now }
    requires elements { Each (IsElement seat.old.algebra) basis.now.items }
    requires terms { Each (IsTerm seat.old.algebra) trace.now }
    ensures value { IfOk result (λ left. MatchOption left
        ((names_job (length gens.now) (length basis.now.items) seat.old.algebra.order.vars job.now
        && names_elements (length basis.now.items) trace.now) ≡ false)
        (λ f. ((names_job (length gens.now) (length basis.now.items) seat.old.algebra.order.vars job.now
        && names_elements (length basis.now.items) trace.now) ≡ true)
        × ((is_some (start_of seat.old.algebra gens.now basis.now.items job.now)
        && trace_within basis.now.items trace.now) ≡ true)
        × (f ≡ less_trace seat.old.algebra basis.now.items
        (unwrap_or (start_of seat.old.algebra gens.now basis.now.items job.now) []) trace.now))) }
    ensures sorted { IfOk result (λ left. IfSome left (IsPolynomial seat.old.algebra.p seat.old.algebra.order)) }
    ensures over { result ≡ Err ProductFault.DegreeOver →
        ((names_job (length gens.now) (length basis.now.items) seat.old.algebra.order.vars job.now
        && names_elements (length basis.now.items) trace.now) ≡ true)
        × ((is_some (start_of seat.old.algebra gens.now basis.now.items job.now)
        && trace_within basis.now.items trace.now) ≡ false) }
    ensures algebra { seat.new.algebra ≡ seat.old.algebra }
    ensures kept { Keeps seat.old seat.new }
{
    let count = basis.len();
    if !(names_job(gens.len(), count, seat.algebra().n(), job) && names_elements(count, trace)) {
        return Ok(None);
    }
    let start = start(alloc, seat, gens, basis, job, steps)?;
    Ok(Some(less_trace(alloc, seat, basis, start, trace, steps)?))
}

// The start of a job that names what is there. A generator may be zero.
fn start<L: Ledger>(
    alloc: Global,
    seat: &mut TableSeat,
    gens: &[GPoly],
    basis: &Vec<GPoly>,
    job: &Job,
    steps: &mut Steps<L>,
) -> Result<GPoly, ProductFault>
    requires generators { Each (IsPolynomial seat.old.algebra.p seat.old.algebra.order) gens.now }
    requires elements { Each (IsElement seat.old.algebra) basis.now.items }
    requires in_range { IsJob (length gens.now) (length basis.now.items) seat.old.algebra.order.vars job.now }
    ensures value { IfOk result (λ h. start_of seat.old.algebra gens.now basis.now.items job.now ≡ Some h) }
    ensures sorted { IfOk result (λ h. IsPolynomial seat.old.algebra.p seat.old.algebra.order h) }
    ensures over { result ≡ Err ProductFault.DegreeOver →
        start_of seat.old.algebra gens.now basis.now.items job.now ≡ None }
    ensures algebra { seat.new.algebra ≡ seat.old.algebra }
    ensures kept { Keeps seat.old seat.new }
{
    if let Job::Seed { s } = *job {
        return Ok(gens[s as usize - 1].copy(alloc)?);
    }
    start_of(alloc, seat, basis, gens, job, steps)
}
