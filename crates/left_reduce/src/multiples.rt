//! Multiples by a monomial.

ghost use Rattle.std.specs.Prelude.{◌≡◌, ◌≢◌, true, false, IfOk, OnOk, Err, [], length};
ghost use Rattle.monomials.specs.Polynomials.{IsPolynomial};
ghost use Rattle.word_model.specs.Reduction.{multiple, is_within};
ghost use Rattle.gproduct.specs.Seats.{Keeps};
ghost use Rattle.gproduct.specs.Counting.{Counts};

use algebra::ProductFault;
use gpoly::GPoly;
use gproduct::{Steps, TableSeat, kept_times};
use monomials::Expo;
use std::alloc::Global;
use std::sync::ledger::Ledger;

// The product of a monomial and a nonzero polynomial, the element of this number. `DegreeOver` comes
// exactly where their degrees add up to more than 4095.
pub(crate) fn multiple<L: Ledger>(
    alloc: Global,
    seat: &mut TableSeat,
    number: u32,
    mono: &Expo,
    g: &GPoly,
    steps: &mut Steps<L>,
) -> Result<GPoly, ProductFault>
    requires vars { length mono.now ≡ seat.old.algebra.order.vars }
    requires sorted { IsPolynomial seat.old.algebra.p seat.old.algebra.order g.now }
    requires nonzero { g.now ≢ [] }
    ensures value { IfOk result (λ r. r ≡ multiple seat.old.algebra 1 mono.now g.now) }
    ensures nonzero { IfOk result (λ r. r ≢ []) }
    ensures sorted { IfOk result (λ r. IsPolynomial seat.old.algebra.p seat.old.algebra.order r) }
    ensures within { OnOk result (is_within mono.now g.now ≡ true) }
    ensures over { result ≡ Err ProductFault.DegreeOver → is_within mono.now g.now ≡ false }
    ensures algebra { seat.new.algebra ≡ seat.old.algebra }
    ensures kept { Keeps seat.old seat.new }
    ensures counted { Counts 1 result steps.old steps.new }
{
    let _n = seat.algebra().n();
    kept_times(alloc, seat, number, mono, g, steps)
}
