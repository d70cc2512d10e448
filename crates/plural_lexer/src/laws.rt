//! Laws of tokens, each the contract of a function without a body.

ghost use Rattle.std.specs.Prelude.{◌≡◌, ℕ, List, [], ◌∷◌, ◌++◌, Result, Ok};
ghost use Rattle.plural_lexer.specs.declared.token.Token.{Token};
ghost use Rattle.plural_lexer.specs.declared.fault.LexFault.{LexFault};
ghost use Rattle.plural_lexer.specs.Tokens.{IsLexed, AreTokensOf, HasNoEnd, end_of};

/// A script has one answer at most.
pub fn one_answer()
    ensures { (bytes : List ℕ) (r s : Result (List Token) LexFault) →
        IsLexed [] bytes r → IsLexed [] bytes s → r ≡ s }
{}

/// The last token is `End`, behind the last byte, and no other is.
pub fn end_stands_last()
    ensures { (bytes : List ℕ) (ts : List Token) → AreTokensOf bytes ts →
        (front : List Token) × (ts ≡ front ++ end_of bytes ∷ []) × HasNoEnd front }
{}
