//! Laws of the definitions, each the contract of a function without a body.

ghost use Rattle.std.specs.Prelude.{◌≡◌, ◌≤◌, ℕ, List};
ghost use Rattle.command_words.specs.declared.settings.Program.{Program};
ghost use Rattle.word_model.specs.Answers.{Answer};
ghost use Rattle.program_model.specs.Replies.{IsReply};

/// Words and bytes have one reply at most.
pub fn one_reply()
    ensures { (program : Program) (words : List (List ℕ)) (bytes : List ℕ) (a b : Answer) →
        IsReply program words bytes a → IsReply program words bytes b → a ≡ b }
{}

/// A reply has a status of at most 4, so that 5, 6 and 7 tell a run without a whole reply.
pub fn statuses()
    ensures { (program : Program) (words : List (List ℕ)) (bytes : List ℕ) (a : Answer) →
        IsReply program words bytes a → a.status ≤ 4 }
{}
