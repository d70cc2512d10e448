//! Laws of products in an accepted algebra, each the contract of a function that computes nothing. They hold of
//! all polynomials over the algebra that it is given.

ghost use Rattle.std.specs.Prelude.{◌≡◌, ◌≢◌, ℕ, ◌+◌, ◌*◌, ◌<◌, ◌≤◌, [], ◌∷◌, ◌++◌, map};
ghost use Rattle.monomials.specs.Leading.{leading_coefficient, leading_monomial};
ghost use Rattle.monomials.specs.Monomials.{one, plus};
ghost use Rattle.monomials.specs.Orders.{order_cmp};
ghost use Rattle.monomials.specs.Polynomials.{Polynomial, HasVars, IsPolynomial, poly_add, poly_degree, poly_scale};
ghost use Rattle.word_model.specs.Conditions.{NonZero};
ghost use Rattle.word_model.specs.Products.{product};
ghost use Rattle.word_model.specs.Words.{IsWord, Word, WordSum, normal_form, rewritten, word_value};

use crate::Algebra;

/// The product is associative.
pub fn associate(alg: &Algebra)
    ensures { (f g h : Polynomial) → HasVars alg.now.order.vars f → HasVars alg.now.order.vars g →
        HasVars alg.now.order.vars h →
        product alg.now (product alg.now f g) h ≡ product alg.now f (product alg.now g h) }
{
    let _n = alg.n();
}

/// The product is linear in each factor, and 1 is neutral on both sides.
pub fn distribute(alg: &Algebra)
    ensures sum_left { (f g h : Polynomial) →
        product alg.now (poly_add (order_cmp alg.now.order.rows) alg.now.p f g) h
        ≡ poly_add (order_cmp alg.now.order.rows) alg.now.p (product alg.now f h) (product alg.now g h) }
    ensures sum_right { (f g h : Polynomial) →
        product alg.now f (poly_add (order_cmp alg.now.order.rows) alg.now.p g h)
        ≡ poly_add (order_cmp alg.now.order.rows) alg.now.p (product alg.now f g) (product alg.now f h) }
    ensures multiple_left { (k : ℕ) (f g : Polynomial) →
        product alg.now (poly_scale alg.now.p k f) g ≡ poly_scale alg.now.p k (product alg.now f g) }
    ensures multiple_right { (k : ℕ) (f g : Polynomial) →
        product alg.now f (poly_scale alg.now.p k g) ≡ poly_scale alg.now.p k (product alg.now f g) }
    ensures one_left { (f : Polynomial) → IsPolynomial alg.now.p alg.now.order f →
        product alg.now ((1, one alg.now.order.vars) ∷ []) f ≡ f }
    ensures one_right { (f : Polynomial) → IsPolynomial alg.now.p alg.now.order f →
        product alg.now f ((1, one alg.now.order.vars) ∷ []) ≡ f }
{
    let _n = alg.n();
}

/// Wherever two adjacent letters stand in descending order, they may be rewritten first: the value of a sum of
/// words stays the same, and so does not depend on the choice.
pub fn any_pair_first(alg: &Algebra)
    ensures word { (u : Word) (j i : ℕ) (v : Word) → IsWord alg.now.order.vars (u ++ j ∷ i ∷ v) →
        i < j → normal_form alg.now (u ++ j ∷ i ∷ v)
        ≡ word_value alg.now (rewritten alg.now (record { before = u; high = j; low = i; after = v })) }
    ensures sum { (f : WordSum) (k : ℕ) (u : Word) (j i : ℕ) (v : Word) (g : WordSum) →
        IsWord alg.now.order.vars (u ++ j ∷ i ∷ v) → i < j →
        word_value alg.now (f ++ (k, u ++ j ∷ i ∷ v) ∷ g)
        ≡ word_value alg.now (f ++ (map (λ t. (k * t.0, t.1))
        (rewritten alg.now (record { before = u; high = j; low = i; after = v })) ++ g)) }
{
    let _n = alg.n();
}

/// The degree of a product is at most the sum of the degrees.
pub fn degree_bound(alg: &Algebra)
    ensures { (f g : Polynomial) → HasVars alg.now.order.vars f → HasVars alg.now.order.vars g →
        poly_degree (product alg.now f g) ≤ poly_degree f + poly_degree g }
{
    let _n = alg.n();
}

/// The product of nonzero polynomials is not zero, and its leading monomial is the product of theirs.
pub fn leading_adds(alg: &Algebra)
    ensures nonzero { (f g : Polynomial) → IsPolynomial alg.now.p alg.now.order f →
        IsPolynomial alg.now.p alg.now.order g → f ≢ [] → g ≢ [] → product alg.now f g ≢ [] }
    ensures monomial { (f g : Polynomial) → IsPolynomial alg.now.p alg.now.order f →
        IsPolynomial alg.now.p alg.now.order g → f ≢ [] → g ≢ [] →
        leading_monomial (product alg.now f g) ≡ plus (leading_monomial f) (leading_monomial g) }
    ensures number { (f g : Polynomial) → IsPolynomial alg.now.p alg.now.order f →
        IsPolynomial alg.now.p alg.now.order g → f ≢ [] → g ≢ [] →
        NonZero alg.now.p (leading_coefficient (product alg.now f g)) }
{
    let _n = alg.n();
}
