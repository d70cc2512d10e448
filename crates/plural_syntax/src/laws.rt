//! Laws of the grammar, each the contract of a function without a body.

ghost use Rattle.std.specs.Prelude.{◌≡◌, ◌≢◌, ℕ, List, Some, Result, Err};
ghost use Rattle.plural_syntax.specs.declared.tree.Script.{Script};
ghost use Rattle.plural_syntax.specs.declared.parsing.SyntaxFault.{SyntaxFault};
ghost use Rattle.plural_syntax.specs.declared.parsing.SyntaxFault.TheVariants as fault;
ghost use Rattle.plural_syntax.specs.Words.{Lexeme};
ghost use Rattle.plural_syntax.specs.Levels.{walk, levels};
ghost use Rattle.plural_syntax.specs.Grammar.{IsScript};
ghost use Rattle.plural_syntax.specs.Leaves.{tokens_of, leaves_within};
ghost use Rattle.plural_syntax.specs.Outcome.{Answers};

/// Tokens spell one script at most.
pub fn one_tree()
    ensures { (ls : List Lexeme) (s t : Script) → IsScript s ls → IsScript t ls → s ≡ t }
{}

/// Tokens have one answer at most, so each of `parse` comes exactly where its condition holds.
pub fn one_answer()
    ensures { (ls : List Lexeme) (r s : Result Script SyntaxFault) →
        r ≢ Err fault.Memory → s ≢ Err fault.Memory → Answers ls r → Answers ls s → r ≡ s }
{}

/// The leaves of a tree are the tokens that spell it, in order. This is said of tokens that open no level beyond `d`;
/// those that `parse` answers a tree for open none beyond 64.
pub fn leaves_are_tokens()
    ensures { (d : ℕ) (ls : List Lexeme) (s : Script) → IsScript s ls → walk levels d ls ≡ Some d → leaves_within d s ≡ tokens_of ls }
{}
