//! Laws of texts, each the contract of a function without a body.

ghost use Rattle.std.specs.Prelude.{◌≡◌, ℕ, ◌<◌, ◌^◌, List};
ghost use Rattle.monomials.specs.Orders.{RowOrder};
ghost use Rattle.monomials.specs.Polynomials.{Polynomial};
ghost use Rattle.plural_text.specs.Names.{AreNames};
ghost use Rattle.plural_text.specs.Spelling.{Spells};

/// Two polynomials with the same text are equal. So reading a printed polynomial gives it back.
/// The numbers are below 2^64, since `decimal` writes 64 digits at most.
pub fn texts_decide()
    ensures { (p : ℕ) (order : RowOrder) (names : List (List ℕ)) (bytes : List ℕ) (f g : Polynomial) →
        1 < p → p < 2 ^ 64 → AreNames order.vars names → Spells p order names bytes f → Spells p order names bytes g → f ≡ g }
{}
