//! Laws of orders and polynomials, each the contract of a function without a body.

ghost use Rattle.std.specs.Prelude.{◌≡◌, ℕ, List, [], ◌∷◌, ℤ, pos, negsuc, IsTrue, length};
ghost use Rattle.std.specs.Int.Bits.{bit_and};
ghost use Rattle.std.specs.Cmp.{IsTotalOrder};
ghost use Rattle.std.specs.declared.cmp.Ordering.TheVariants.{Equal, Greater};
ghost use Rattle.monomials.specs.Monomials.{Monomial, plus, divides};
ghost use Rattle.monomials.specs.Masks.{mask};
ghost use Rattle.monomials.specs.Orders.{RowOrder, order_cmp};
ghost use Rattle.monomials.specs.declared.order.Block.{Block};
ghost use Rattle.monomials.specs.declared.order.Block.TheVariants.{WeightRev};
ghost use Rattle.monomials.specs.Blocks.{AreWeighted, Covers, order_of};
ghost use Rattle.monomials.specs.ExtraRows.{with_rows};
ghost use Rattle.monomials.specs.WellFounded.{IsWellFounded, IsDescent};
ghost use Rattle.monomials.specs.Polynomials.{Polynomial, Each, IsPolynomial, coefficient_at};

use crate::order::Order;

/// Rows order all monomials totally, and equal monomials alone tie.
pub fn order_is_total()
    ensures total { (rows : List (List ℤ)) → IsTotalOrder (order_cmp rows) }
    ensures equal { (rows : List (List ℤ)) (a b : Monomial) → order_cmp rows a b ≡ Equal → a ≡ b }
{}

/// Multiplying by a monomial keeps the order.
pub fn order_is_kept()
    ensures { (rows : List (List ℤ)) (a b c : Monomial) → length a ≡ length c → length b ≡ length c →
        order_cmp rows (plus a c) (plus b c) ≡ order_cmp rows a b }
{}

/// No monomials in the order's variables fall forever, each below the one before: every monomial is
/// reached from below.
pub fn order_is_well_founded(order: &Order)
    ensures reached { IsWellFounded order.now }
    ensures no_descent { (s : ℕ → Monomial) → IsDescent order.now s → ⊥ }
{
    let _n = order.vars();
}

/// The same holds of the order of any blocks that `Order::new` takes, with any rows of weights that
/// are not negative in front, also zero ones.
pub fn blocks_are_well_founded()
    ensures { (n : ℕ) (blocks : List Block) (extra : List (List ℕ)) → Covers n blocks → AreWeighted blocks →
        IsWellFounded (with_rows extra (order_of n blocks)) }
{}

/// The mask of a divisor has no bit that the other's lacks.
pub fn masks_divide()
    ensures { (a b : Monomial) → length a ≡ length b → IsTrue (divides a b) →
        bit_and (mask a) (mask b) ≡ mask a }
{}

/// Sorted polynomials with the same number at each monomial are equal.
pub fn coefficients_decide()
    ensures { (p : ℕ) (order : RowOrder) (f g : Polynomial) →
        IsPolynomial p order f → IsPolynomial p order g →
        ((m : Monomial) → coefficient_at m f ≡ coefficient_at m g) → f ≡ g }
{}

/// The first term of a sorted polynomial is the greatest.
pub fn first_term_is_greatest()
    ensures { (p : ℕ) (order : RowOrder) (t : ℕ × Monomial) (f : Polynomial) → IsPolynomial p order (t ∷ f) →
        Each (λ u. order_cmp order.rows t.1 u.1 ≡ Greater) f }
{}

/// Definitions make blocks from numbers: the rows of `wp(2,1)`.
pub fn blocks_are_made_of_numbers()
    ensures { (order_of 2 (WeightRev (2 ∷ 1 ∷ []) ∷ [])).rows
        ≡ ((pos 2 ∷ pos 1 ∷ []) ∷ (pos 0 ∷ negsuc 0 ∷ []) ∷ []) }
{}
