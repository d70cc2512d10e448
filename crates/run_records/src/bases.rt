//! What is proved of the machine's runs over given generators.

ghost use Rattle.std.specs.Prelude.{ℕ, ◌≤◌};
ghost use Rattle.monomials.specs.Polynomials.{Each, IsPolynomial, poly_degree};
ghost use Rattle.word_model.specs.Bases.{RunLaws};
ghost use Rattle.word_model.specs.Machine.{machine};
ghost use Rattle.word_model.specs.Products.{degree_limit};

use crate::Mode;
use algebra::Algebra;
use gpoly::GPoly;

/// Each run of the machine over these generators has the laws of runs. An engine calls it once for
/// its clause `run`. Takes no memory.
pub fn runs_have_laws(alg: &Algebra, gens: &[GPoly])
    requires sorted { Each (IsPolynomial alg.now.p alg.now.order) gens.now }
    ensures { (mode : Mode) (budget : ℕ) → RunLaws alg.now mode gens.now (machine alg.now gens.now mode budget) }
{
    let _n = alg.n();
    monomials::laws::order_is_well_founded(alg.order());
    have_small_degrees(gens);
}

// No degree is above the limit: polynomials have it by their type.
fn have_small_degrees(polys: &[GPoly])
    ensures { Each (λ f. poly_degree f ≤ degree_limit) polys.now }
{
    for poly in polys {
        let _terms = poly.terms();
    }
}
