//! Laws of the definition, each the contract of a function without a body.

ghost use Rattle.std.specs.Prelude.{◌≡◌, ◌≤◌, ◌↔◌, ℕ, List, IsTrue};
ghost use Rattle.monomials.specs.Blocks.{Covers, AreWeighted};
ghost use Rattle.monomials.specs.declared.order.Block.{Block};
ghost use Rattle.word_model.specs.Answers.{Answer};
ghost use Rattle.script_model.specs.Orders.{is_order};
ghost use Rattle.script_model.specs.Scripts.{IsAnswer};

/// Bytes have one answer at most, whatever tokens and tree it was found by.
pub fn one_answer()
    ensures { (budget : ℕ) (bytes : List ℕ) (a b : Answer) → IsAnswer budget bytes a →
        IsAnswer budget bytes b → a ≡ b }
{}

/// What bytes are answered has a status of at most 4.
pub fn statuses()
    ensures { (budget : ℕ) (bytes : List ℕ) (a : Answer) → IsAnswer budget bytes a → a.status ≤ 4 }
{}

/// The test of an order's blocks is what `Order::new` asks of them: they cover the variables, and their
/// weights are in range.
pub fn orders()
    ensures { (n : ℕ) (blocks : List Block) →
        IsTrue (is_order n blocks) ↔ (Covers n blocks × AreWeighted blocks) }
{}
