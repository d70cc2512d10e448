//! Laws of reductions and of runs of the machine, each the contract of a function without a body.

ghost use Rattle.std.specs.Prelude.{◌≡◌, ◌≤◌, ℕ, List, length};
ghost use Rattle.std.specs.declared.cmp.Ordering.TheVariants.{Equal};
ghost use Rattle.monomials.specs.Polynomials.{Polynomial, Each, IsPolynomial};
ghost use Rattle.word_model.specs.Words.{Algebra};
ghost use Rattle.word_model.specs.Conditions.{IsGAlgebra};
ghost use Rattle.word_model.specs.Reduction.{leading_target, greatest_target, tail_target, next_step, after_step, reduce, normal_form_by, reduce_tail};
ghost use Rattle.word_model.specs.Jobs.{key_cmp};
ghost use Rattle.word_model.specs.Machine.{State, On, step, first_state, machine, most_elements, IsElement, IsState};
ghost use Rattle.word_model.specs.declared.records.Job.{Job};
ghost use Rattle.word_model.specs.declared.records.Mode.{Mode};

/// Reductions as recursions: a reduction is its first step and the reduction of what that leaves.
pub fn reductions()
    ensures reduction { (A : Algebra) (G : List Polynomial) (h : Polynomial) → IsGAlgebra A →
        Each (IsPolynomial A.p A.order) G → IsPolynomial A.p A.order h →
        reduce A G h ≡ after_step (reduce A G) h (next_step A G h (leading_target G h)) }
    ensures normal_form { (A : Algebra) (G : List Polynomial) (h : Polynomial) → IsGAlgebra A →
        Each (IsPolynomial A.p A.order) G → IsPolynomial A.p A.order h →
        normal_form_by A G h ≡ after_step (normal_form_by A G) h (next_step A G h (greatest_target G h)) }
    ensures tail { (A : Algebra) (G : List Polynomial) (h : Polynomial) → IsGAlgebra A →
        Each (IsPolynomial A.p A.order) G → IsPolynomial A.p A.order h →
        reduce_tail A G h ≡ after_step (reduce_tail A G) h (next_step A G h (tail_target G h)) }
    ensures rest { (A : Algebra) (G : List Polynomial) (h : Polynomial) → IsGAlgebra A →
        Each (IsPolynomial A.p A.order) G → IsPolynomial A.p A.order h →
        IsPolynomial A.p A.order (reduce A G h).rest
        × IsPolynomial A.p A.order (normal_form_by A G h).rest
        × IsPolynomial A.p A.order (reduce_tail A G h).rest }
{}

/// Keys of different jobs differ.
pub fn keys()
    ensures { (A : Algebra) (gens G : List Polynomial) (sugars : List ℕ) (a b : Job) →
        key_cmp A gens G sugars a b ≡ Equal → a ≡ b }
{}

/// What every state of a run has, among it that an element's sugar is at least its degree.
pub fn states()
    ensures first { (A : Algebra) (gens : List Polynomial) → IsGAlgebra A →
        Each (IsPolynomial A.p A.order) gens → IsState A gens (first_state gens) }
    ensures kept { (A : Algebra) (gens : List Polynomial) (mode : Mode) (budget : ℕ) (s t : State) →
        IsGAlgebra A → Each (IsPolynomial A.p A.order) gens → IsState A gens s →
        step A gens mode budget s ≡ On t → IsState A gens t }
{}

/// The basis of a run has nonzero polynomials of the algebra alone, at most 2048 of them.
pub fn runs()
    ensures elements { (A : Algebra) (gens : List Polynomial) (mode : Mode) (budget : ℕ) → IsGAlgebra A →
        Each (IsPolynomial A.p A.order) gens → Each (IsElement A) (machine A gens mode budget).basis }
    ensures few { (A : Algebra) (gens : List Polynomial) (mode : Mode) (budget : ℕ) → IsGAlgebra A →
        Each (IsPolynomial A.p A.order) gens → length (machine A gens mode budget).basis ≤ most_elements }
{}
