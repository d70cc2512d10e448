//! Laws of the trees of scripts, each the contract of a function without a body.

ghost use Rattle.std.specs.Prelude.{◌≡◌, ℕ, List, Ok};
ghost use Rattle.monomials.specs.Polynomials.{Each};
ghost use Rattle.plural_lexer.specs.Tokens.{AreTokensOf};
ghost use Rattle.plural_lexer.specs.declared.token.Token.{Token};
ghost use Rattle.plural_syntax.specs.Outcome.{Answers};
ghost use Rattle.plural_syntax.specs.Words.{lexemes};
ghost use Rattle.plural_syntax.specs.declared.tree.Script.{Script};
ghost use Rattle.script_names.specs.Named.{HasNames};

/// The variables of the rings of a script that was read from bytes have names: a letter, and behind it
/// letters, digits and `_`.
pub fn variables_have_names()
    ensures { (bytes : List ℕ) (tokens : List Token) (script : Script) → AreTokensOf bytes tokens →
        Answers (lexemes bytes tokens) (Ok script) → Each (HasNames bytes) script.statements }
{}
