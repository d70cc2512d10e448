//! Laws of reductions, each the contract of a function that computes nothing. They hold over the
//! algebra that it is given.

ghost use Rattle.std.specs.Prelude.{◌≡◌, List, ◌++◌};
ghost use Rattle.monomials.specs.Polynomials.{Polynomial, Each, IsPolynomial};
ghost use Rattle.word_model.specs.Reduction.{reduce};
ghost use Rattle.left_reduce.specs.Reductions.{goes_on_with, SameLeads, SameUsed};

use algebra::Algebra;

/// A reduction by a longer list begins with the reduction by the shorter one: its steps are those by
/// the shorter list, and then those by the longer list from where that ended, also where it ended
/// before a product of too high a degree.
pub fn longer_lists(alg: &Algebra)
    ensures { (G H : List Polynomial) (h : Polynomial) →
        Each (IsPolynomial alg.now.p alg.now.order) G → Each (IsPolynomial alg.now.p alg.now.order) H →
        IsPolynomial alg.now.p alg.now.order h →
        reduce alg.now (G ++ H) h
        ≡ goes_on_with (reduce alg.now G h) (reduce alg.now (G ++ H) (reduce alg.now G h).rest) }
{
    let _n = alg.n();
}

/// A reduction depends on the leading monomials of the elements, and on those elements that its steps
/// use, also on that of a step which is undefined: whatever else a list of as many elements has, the
/// reduction by it is the same.
pub fn same_leads(alg: &Algebra)
    ensures { (G H : List Polynomial) (h : Polynomial) →
        Each (IsPolynomial alg.now.p alg.now.order) G → Each (IsPolynomial alg.now.p alg.now.order) H →
        IsPolynomial alg.now.p alg.now.order h →
        SameLeads G H → SameUsed G H (reduce alg.now G h) → reduce alg.now H h ≡ reduce alg.now G h }
{
    let _n = alg.n();
}
