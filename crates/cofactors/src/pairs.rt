//! The terms by which an S-polynomial multiplies its elements.

ghost use Rattle.std.specs.Prelude.{◌≡◌, ◌≢◌, ◌<◌, ◌≤◌, true, [], length, IfOk, Err};
ghost use Rattle.monomials.specs.Polynomials.{IsPolynomial};
ghost use Rattle.monomials.specs.Leading.{leading_coefficient};
ghost use Rattle.word_model.specs.Reduction.{multiple, is_within};
ghost use Rattle.word_model.specs.Jobs.{first_cofactor, second_cofactor, second_number, both_within};
ghost use Rattle.word_model.specs.Machine.{IsElement};
ghost use Rattle.gproduct.specs.Seats.{Keeps};
ghost use Rattle.cofactors.specs.Rows.{IsFactor};

use algebra::ProductFault;
use gpoly::{GPoly, Term};
use gproduct::{Steps, TableSeat, term_times};
use monomials::Expo;
use std::alloc::Global;
use std::sync::ledger::Ledger;

/// The terms by which the S-polynomial of two elements multiplies the first and the second: they
/// bring the leading monomials to their least common multiple, and the leading terms cancel. The
/// products of the elements are within the limit of degrees, so `DegreeOver` never comes.
pub fn pair_terms<L: Ledger>(
    alloc: Global,
    seat: &mut TableSeat,
    f: &GPoly,
    g: &GPoly,
    steps: &mut Steps<L>,
) -> Result<(Term, Term), ProductFault>
    requires f_element { IsElement seat.old.algebra f.now }
    requires g_element { IsElement seat.old.algebra g.now }
    requires within { both_within f.now g.now ≡ true }
    ensures first { IfOk result (λ (a, _). (a.coef ≡ 1) × (a.mono ≡ first_cofactor f.now g.now)) }
    ensures second { IfOk result (λ (_, b).
        (b.coef ≡ second_number seat.old.algebra f.now g.now) × (b.mono ≡ second_cofactor f.now g.now)) }
    ensures first_factor { IfOk result (λ (a, _). IsFactor seat.old.algebra a.coef a.mono) }
    ensures second_factor { IfOk result (λ (_, b). IsFactor seat.old.algebra b.coef b.mono) }
    ensures never_over { result ≢ Err ProductFault.DegreeOver }
    ensures algebra { seat.new.algebra ≡ seat.old.algebra }
    ensures kept { Keeps seat.old seat.new }
{
    let (f_lead, g_lead) = (f.lead(), g.lead());
    let reached = f_lead.mono.lcm(&g_lead.mono);
    let (a, b) = (reached.minus(&f_lead.mono), reached.minus(&g_lead.mono));
    let x = leading_number(alloc, seat, &a, f, steps)?;
    let y = leading_number(alloc, seat, &b, g, steps)?;
    let k = seat.algebra().field().div(x, y);
    Ok((Term { coef: 1, mono: a }, Term { coef: k, mono: b }))
}

// The leading number of the product of a monomial and an element, which is within the limit.
fn leading_number<L: Ledger>(
    alloc: Global,
    seat: &mut TableSeat,
    mono: &Expo,
    f: &GPoly,
    steps: &mut Steps<L>,
) -> Result<u32, ProductFault>
    requires element { IsElement seat.old.algebra f.now }
    requires vars { length mono.now ≡ seat.old.algebra.order.vars }
    requires within { is_within mono.now f.now ≡ true }
    ensures value { IfOk result (λ x. x ≡ leading_coefficient (multiple seat.old.algebra 1 mono.now f.now)) }
    ensures some { IfOk result (λ x. 0 < x) }
    ensures small { IfOk result (λ x. x < seat.old.algebra.p) }
    ensures never_over { result ≢ Err ProductFault.DegreeOver }
    ensures algebra { seat.new.algebra ≡ seat.old.algebra }
    ensures kept { Keeps seat.old seat.new }
{
    let _n = seat.algebra().n();
    let product = term_times(alloc, seat, 1, mono, f, steps)?;
    Ok(product.lead().coef)
}
