//! Polynomials without given variables.

ghost use Rattle.std.specs.Prelude.{◌≡◌, ◌≤◌, ◌==◌, ℕ, All, length};
ghost use Rattle.monomials.specs.Polynomials.{HasVars};
ghost use Rattle.word_model.specs.Elimination as elimination;

use gpoly::GPoly;
use monomials::Expo;

// Whether none of the variables occurs in the polynomial.
pub(crate) fn is_free(poly: &GPoly, vars: &[u8]) -> bool
    requires { (n : ℕ) × HasVars n poly.now × All (λ v. (1 ≤ v) × (v ≤ n)) vars.now }
    ensures { (n : ℕ) → HasVars n poly.now → result ≡ elimination.is_free n vars.now poly.now }
{
    for term in poly.terms() {
        if !avoids(&term.mono, vars) {
            return false;
        }
    }
    true
}

// Whether none of them occurs in the monomial.
fn avoids(mono: &Expo, vars: &[u8]) -> bool
    requires { All (λ v. (1 ≤ v) × (v ≤ length mono.now)) vars.now }
    ensures { result ≡ (elimination.occurrences (length mono.now) vars.now mono.now == 0) }
{
    for v in vars {
        if mono.get(*v) != 0 {
            return false;
        }
    }
    true
}
