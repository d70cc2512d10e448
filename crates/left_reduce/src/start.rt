//! The start polynomials of jobs.

ghost use Rattle.std.specs.Prelude.{◌≡◌, ◌≢◌, ◌+◌, true, false, IfOk, OnOk, Err, [], length, Some, None};
ghost use Rattle.monomials.specs.Polynomials.{Each, IsPolynomial};
ghost use Rattle.word_model.specs.Jobs.{start_of, s_polynomial, both_within, IsJob, NamesNonzero};
ghost use Rattle.gproduct.specs.Seats.{Keeps};
ghost use Rattle.left_reduce.specs.Reductions.{start_count};

use crate::multiples::multiple;
use algebra::ProductFault;
use gpoly::GPoly;
use gproduct::{Steps, TableSeat, right_times};
use run_records::{Elements, Job};
use std::alloc::Global;
use std::sync::ledger::Ledger;

/// The start polynomial of a job over these generators and this basis: a generator, the S-polynomial
/// of two elements, or an element times a variable. The job's numbers are in range, and what it names
/// is not zero. `DegreeOver` comes exactly where the factors of a product of it have degrees that add
/// up to more than 4095. Counts no product for a generator, two for an S-polynomial, one else.
pub fn start_of<B: Elements, L: Ledger>(
    alloc: Global,
    seat: &mut TableSeat,
    basis: &B,
    gens: &[GPoly],
    job: &Job,
    steps: &mut Steps<L>,
) -> Result<GPoly, ProductFault>
    requires generators { Each (IsPolynomial seat.old.algebra.p seat.old.algebra.order) gens.now }
    requires sorted { Each (IsPolynomial seat.old.algebra.p seat.old.algebra.order) (B.elements basis.now) }
    requires in_range { IsJob (length gens.now) (length (B.elements basis.now)) seat.old.algebra.order.vars job.now }
    requires nonzero { NamesNonzero gens.now (B.elements basis.now) job.now }
    ensures value { IfOk result (λ h. start_of seat.old.algebra gens.now (B.elements basis.now) job.now ≡ Some h) }
    ensures over { result ≡ Err ProductFault.DegreeOver →
        start_of seat.old.algebra gens.now (B.elements basis.now) job.now ≡ None }
    ensures sorted { IfOk result (λ h. IsPolynomial seat.old.algebra.p seat.old.algebra.order h) }
    ensures counted { OnOk result (steps.new ≡ steps.old + start_count job.now) }
    ensures algebra { seat.new.algebra ≡ seat.old.algebra }
    ensures kept { Keeps seat.old seat.new }
{
    match *job {
        Job::Seed { s } => Ok(gens[s as usize - 1].copy(alloc)?),
        Job::Pair { i, j } => s_polynomial(alloc, seat, i, basis.at(i), j, basis.at(j), steps),
        Job::Right { i, v } => right_times(alloc, seat, basis.at(i), v, steps),
    }
}

// The S-polynomial of the elements of these numbers. `DegreeOver` comes exactly where a product of it
// has a degree above 4095.
fn s_polynomial<L: Ledger>(
    alloc: Global,
    seat: &mut TableSeat,
    i: u32,
    f: &GPoly,
    j: u32,
    g: &GPoly,
    steps: &mut Steps<L>,
) -> Result<GPoly, ProductFault>
    requires f_sorted { IsPolynomial seat.old.algebra.p seat.old.algebra.order f.now }
    requires g_sorted { IsPolynomial seat.old.algebra.p seat.old.algebra.order g.now }
    requires f_nonzero { f.now ≢ [] }
    requires g_nonzero { g.now ≢ [] }
    ensures value { IfOk result (λ h. h ≡ s_polynomial seat.old.algebra f.now g.now) }
    ensures within { OnOk result (both_within f.now g.now ≡ true) }
    ensures over { result ≡ Err ProductFault.DegreeOver → both_within f.now g.now ≡ false }
    ensures sorted { IfOk result (λ h. IsPolynomial seat.old.algebra.p seat.old.algebra.order h) }
    ensures counted { OnOk result (steps.new ≡ steps.old + 2) }
    ensures algebra { seat.new.algebra ≡ seat.old.algebra }
    ensures kept { Keeps seat.old seat.new }
{
    let alg = seat.algebra();
    let _n = alg.n();
    let field = alg.field();
    let (f_lead, g_lead) = (f.lead(), g.lead());
    let reached = f_lead.mono.lcm(&g_lead.mono);
    let first = multiple(alloc, seat, i, &reached.minus(&f_lead.mono), f, steps)?;
    let second = multiple(alloc, seat, j, &reached.minus(&g_lead.mono), g, steps)?;
    let k = field.div(first.lead().coef, second.lead().coef);
    Ok(first.add_multiple(alloc, field, alg.order(), field.neg(k), &second)?)
}
