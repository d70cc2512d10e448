//! Laws of the formulas, each the contract of a function without a body.

ghost use Rattle.std.specs.Prelude.{◌≡◌, ℕ, ◌<◌, ◌++◌, replicate};
ghost use Rattle.word_model.specs.Words.{Algebra, RewritesDown, normal_form};
ghost use Rattle.closed_forms.specs.declared.PairKind.{PairKind};
ghost use Rattle.closed_forms.specs.Kinds.{HasKind};
ghost use Rattle.closed_forms.specs.Forms.{closed_form, in_algebra};

/// The closed form is the normal form of the word `x_j^a x_i^b`, in each algebra in which rewriting
/// leads downwards and in which the relation of x_i and x_j is of the kind.
pub fn powers_multiply()
    ensures { (A : Algebra) (i j : ℕ) (kind : PairKind) (a b : ℕ) → 1 < A.p → RewritesDown A →
        HasKind A i j kind →
        normal_form A (replicate a j ++ replicate b i)
        ≡ in_algebra A i j (closed_form A.p kind a b) }
{}
