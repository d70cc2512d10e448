//! The check of a certificate.

ghost use Rattle.std.specs.Prelude.{◌≡◌, ◌⊎◌, ℕ, IfOk, IsTrue, true, Ok, Err, Some};
ghost use Rattle.monomials.specs.Polynomials.{Each, IsPolynomial};
ghost use Rattle.word_model.specs.Certificates.{made_lines};
ghost use Rattle.word_model.specs.Finished.{finished};
ghost use Rattle.word_model.specs.Machine.{machine};
ghost use Rattle.word_model.specs.TwoSided.{InTwoSidedIdeal};
ghost use Rattle.word_model.specs.declared.records.Mode.{Mode};
ghost use Rattle.gproduct.specs.Seats.{Keeps};
ghost use Rattle.two_sided.specs.Checks.{IsTerm, IsLine, IsCheckable, TooHigh, tested, chain_check};

use crate::lines::elements_of;
use crate::lists::list_holds;
use algebra::ProductFault;
use gpoly::GPoly;
use gproduct::{Steps, TableSeat};
use run_records::{Chain, Entry, Finished};
use std::alloc::Global;
use std::sync::ledger::Ledger;

/// Whether a certificate over these generators holds: whether each line is a `New` that names
/// generators, variables and earlier lines, and gives a monic polynomial, and the finished list has an
/// origin and a tail for each element, and is what they give. The lines are taken in order, and then
/// the elements, up to the first that fails; of each what it names is tested first, then that its
/// products are computed, then what it gives. `DegreeOver` comes exactly where a product that is
/// reached so has factors whose degrees add up to more than 4095.
///
/// The answer true proves each element of the finished list to be in the two-sided ideal of the
/// generators, wherever the certificate comes from. That of a run holds.
pub fn check_chain<L: Ledger>(
    alloc: Global,
    seat: &mut TableSeat,
    gens: &[GPoly],
    chain: &Chain,
    steps: &mut Steps<L>,
) -> Result<bool, ProductFault>
    requires generators { Each (IsPolynomial seat.old.algebra.p seat.old.algebra.order) gens.now }
    requires numbers { IsCheckable seat.old.algebra chain.now }
    ensures value { IfOk result (λ holds. chain_check seat.old.algebra gens.now chain.now ≡ tested holds) }
    ensures over { result ≡ Err ProductFault.DegreeOver → chain_check seat.old.algebra gens.now chain.now ≡ TooHigh }
    ensures inside { IfOk result (λ holds. IsTrue holds →
        Each (InTwoSidedIdeal seat.old.algebra gens.now) chain.now.finished.list) }
    ensures of_run { (mode : Mode) (budget : ℕ) →
        finished seat.old.algebra (machine seat.old.algebra gens.now mode budget).basis ≡ Some chain.now.finished →
        chain.now.lines ≡ made_lines (machine seat.old.algebra gens.now mode budget).entries →
        (result ≡ Ok true) ⊎ (result ≡ Err ProductFault.Memory) }
    ensures algebra { seat.new.algebra ≡ seat.old.algebra }
    ensures kept { Keeps seat.old seat.new }
{
    let _n = seat.algebra().n();
    both_hold(
        alloc,
        seat,
        gens,
        &chain.journal_lines,
        &chain.finished,
        steps,
    )
}

// Whether lines hold, and then a finished list over the basis that they give.
fn both_hold<L: Ledger>(
    alloc: Global,
    seat: &mut TableSeat,
    gens: &[GPoly],
    lines: &[Entry],
    list: &Finished,
    steps: &mut Steps<L>,
) -> Result<bool, ProductFault>
    requires generators { Each (IsPolynomial seat.old.algebra.p seat.old.algebra.order) gens.now }
    requires numbers { Each (IsLine seat.old.algebra) lines.now }
    requires terms { Each (Each (IsTerm seat.old.algebra)) list.now.tails }
    ensures value { IfOk result (λ holds.
        chain_check seat.old.algebra gens.now (record { lines = lines.now; finished = list.now }) ≡ tested holds) }
    ensures over { result ≡ Err ProductFault.DegreeOver →
        chain_check seat.old.algebra gens.now (record { lines = lines.now; finished = list.now }) ≡ TooHigh }
    ensures algebra { seat.new.algebra ≡ seat.old.algebra }
    ensures kept { Keeps seat.old seat.new }
{
    match elements_of(alloc, seat, gens, lines, steps)? {
        Some(basis) => list_holds(alloc, seat, &basis, list, steps),
        None => Ok(false),
    }
}
