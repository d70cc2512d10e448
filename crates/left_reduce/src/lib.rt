//! Reductions by lists of polynomials, and the start polynomials of jobs.
#![tactic(auto)]

ghost use Rattle.std.specs.Prelude.{◌≡◌, ◌≤◌, length};
ghost use Rattle.monomials.specs.Polynomials.{Each, HasVars};
ghost use Rattle.word_model.specs.Reduction.{first_divisor};

use monomials::Expo;
use run_records::Elements;

pub mod laws;
mod multiples;
mod reducing;
mod start;
mod stepping;
mod targets;

pub use reducing::{Ended, Reduced, normal_form, reduce_from, reduce_tail};
pub use start::start_of;

/// The number of the first element whose leading monomial divides `mono`, counted from 1. The zero
/// polynomial divides nothing. Takes no memory.
pub fn first_divisor<B: Elements>(basis: &B, mono: &Expo) -> Option<u32>
    requires few { length (B.elements basis.now) ≤ 4294967295 }
    requires vars { Each (HasVars (length mono.now)) (B.elements basis.now) }
    ensures { result ≡ first_divisor (B.elements basis.now) mono.now }
{
    for k in 1..=basis.count() as u32 {
        if basis.at(k).lead_divides(mono) {
            return Some(k);
        }
    }
    None
}

#[cfg(test)]
mod tests;
