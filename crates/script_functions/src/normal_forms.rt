//! Normal forms of polys and ideals.

ghost use Rattle.std.specs.Prelude.{◌≡◌, ◌≤◌, length, IfOk};
ghost use Rattle.monomials.specs.Polynomials.{Each, IsPolynomial};
ghost use Rattle.word_model.specs.Reduction.{normal_form_by};
ghost use Rattle.gproduct.specs.Seats.{Keeps};
ghost use Rattle.script_model.specs.Functions as spec;
ghost use Rattle.script_values.specs.Gives.{Gives};
ghost use Rattle.script_values.specs.Values.{ArePolynomials, IsValueOf};

use crate::generators::given;
use crate::stopping::stop_of;
use gpoly::GPoly;
use gproduct::{Steps, TableSeat};
use run_records::Elements;
use script_model::values::{Refusal, Value};
use script_values::{Scope, Stop};
use sqlite_items::Items;
use std::sync::ledger::Ledger;

// The generators that reduce, where they stand.
#[derive(Drop)]
struct Reducers<'a> {
    polys: &'a [GPoly],
}

impl Elements for Reducers<'_> {
    ghost elements = { λ r. r.polys.now };

    fn count(&self) -> usize {
        self.polys.len()
    }

    fn at(&self, k: u32) -> &GPoly {
        &self.polys[k as usize - 1]
    }
}

// The normal form of a poly, or of each generator of an ideal, by a poly or an ideal.
pub(crate) fn normal_form<L: Ledger>(
    scope: &Scope,
    seat: &mut TableSeat,
    arguments: &[Value],
    steps: &mut Steps<L>,
) -> Result<Value, Stop>
    requires seat { seat.old.algebra ≡ scope.now.ring.algebra }
    requires of_ring { Each (IsValueOf scope.now.ring.algebra) arguments.now }
    ensures value { Gives result (spec.normal_form scope.now.ring.algebra arguments.now) }
    ensures of_ring { IfOk result (IsValueOf scope.now.ring.algebra) }
    ensures seat { seat.new.algebra ≡ seat.old.algebra }
    ensures kept { Keeps seat.old seat.new }
{
    let [value, by] = arguments else {
        return Err(Stop::Refused(Refusal::Kind));
    };
    given(value)?;
    let reducers = Reducers { polys: given(by)? };
    match value {
        Value::Poly(f) => Ok(Value::Poly(normal_form_of(scope, seat, &reducers, f, steps)?)),
        Value::Ideal(polys) => {
            let polys = polys.as_slice();
            Ok(Value::Ideal(normal_forms(scope, seat, &reducers, polys, steps)?))
        }
        _ => Err(Stop::Refused(Refusal::Kind)),
    }
}

// The normal forms of some polynomials.
fn normal_forms<L: Ledger>(
    scope: &Scope,
    seat: &mut TableSeat,
    reducers: &Reducers,
    polys: &[GPoly],
    steps: &mut Steps<L>,
) -> Result<Items<GPoly>, Stop>
    requires few { length reducers.now.polys.now ≤ 4294967295 }
    requires reducers { ArePolynomials seat.old.algebra reducers.now.polys.now }
    requires polys { ArePolynomials seat.old.algebra polys.now }
    ensures value { Gives result (spec.normal_forms seat.old.algebra reducers.now.polys.now polys.now) }
    ensures polynomials { IfOk result (ArePolynomials seat.old.algebra) }
    ensures one_each { IfOk result (λ forms. length forms ≡ length polys.now) }
    ensures seat { seat.new.algebra ≡ seat.old.algebra }
    ensures kept { Keeps seat.old seat.new }
{
    let mut forms = Items::new(scope.alloc);
    for f in polys {
        forms.push(normal_form_of(scope, seat, reducers, f, steps)?)?;
    }
    Ok(forms)
}

// The normal form of a polynomial.
fn normal_form_of<L: Ledger>(
    scope: &Scope,
    seat: &mut TableSeat,
    reducers: &Reducers,
    f: &GPoly,
    steps: &mut Steps<L>,
) -> Result<GPoly, Stop>
    requires few { length reducers.now.polys.now ≤ 4294967295 }
    requires reducers { ArePolynomials seat.old.algebra reducers.now.polys.now }
    requires f { IsPolynomial seat.old.algebra.p seat.old.algebra.order f.now }
    ensures value { Gives result (spec.rest_of (normal_form_by seat.old.algebra reducers.now.polys.now f.now)) }
    ensures polynomial { IfOk result (IsPolynomial seat.old.algebra.p seat.old.algebra.order) }
    ensures seat { seat.new.algebra ≡ seat.old.algebra }
    ensures kept { Keeps seat.old seat.new }
{
    match left_reduce::normal_form(scope.alloc, seat, reducers, f, steps) {
        Ok((form, _)) => Ok(form),
        Err(fault) => Err(stop_of(fault)),
    }
}
