//! How much of a power goes at once.

ghost use Rattle.std.specs.Prelude.{ℕ, ◌≤◌};
ghost use Rattle.monomials.specs.Polynomials.{HasVars};
ghost use Rattle.gpoly.specs.Terms.{pairs_of};

use crate::place::MOST_EXPONENT;
use crate::seat::TableSeat;
use gpoly::Term;

// The highest power of x_u in the terms.
fn highest_power(terms: &[Term], u: u8) -> u16
    requires first { 1 ≤ u }
    requires last { (n : ℕ) × ((u ≤ n) × HasVars n (pairs_of terms.now)) }
{
    let mut highest = 0;
    for term in terms {
        highest = term.mono.get(u).max(highest);
    }
    highest
}

// The highest power in the terms of a variable whose relation with x_v has no closed form.
fn highest_open(seat: &TableSeat, v: u8, terms: &[Term]) -> u16
    requires last { v ≤ seat.now.algebra.order.vars }
    requires vars { HasVars seat.now.algebra.order.vars (pairs_of terms.now) }
{
    let mut highest = 0;
    for u in 1..v {
        if seat.kind(u, v).is_none() {
            highest = highest_power(terms, u).max(highest);
        }
    }
    highest
}

/// How much of an exponent of x_v goes at once: all where closed forms or single places exchange the
/// powers, and else one letter, since many places one after another leave many like terms.
pub(crate) fn portion(seat: &TableSeat, v: u8, exponent: u16, terms: &[Term]) -> u16
    requires last { v ≤ seat.now.algebra.order.vars }
    requires vars { HasVars seat.now.algebra.order.vars (pairs_of terms.now) }
    requires some { 1 ≤ exponent }
    ensures some { 1 ≤ result }
    ensures within { result ≤ exponent }
{
    let open = highest_open(seat, v, terms);
    if exponent.min(open) <= 1 || exponent.max(open) <= MOST_EXPONENT {
        exponent
    } else {
        1
    }
}
