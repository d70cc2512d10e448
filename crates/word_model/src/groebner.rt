//! Laws of the bases that finished runs leave, each the contract of a function without a body.

ghost use Rattle.std.specs.Prelude.{◌≡◌, ◌≤◌, ◌↔◌, ℕ, List, [], length, map, true, false, Some};
ghost use Rattle.monomials.specs.Orders.{RowOrder};
ghost use Rattle.monomials.specs.Leading.{leading_monomial};
ghost use Rattle.monomials.specs.Polynomials.{Polynomial, Each, IsPolynomial, poly_degree};
ghost use Rattle.monomials.specs.WellFounded.{IsWellFounded};
ghost use Rattle.word_model.specs.Words.{Algebra};
ghost use Rattle.word_model.specs.Conditions.{IsGAlgebra};
ghost use Rattle.word_model.specs.Products.{degree_limit, product};
ghost use Rattle.word_model.specs.Reduction.{element, reduce, normal_form_by};
ghost use Rattle.word_model.specs.Jobs.{pair_lcm, s_polynomial};
ghost use Rattle.word_model.specs.Machine.{machine};
ghost use Rattle.word_model.specs.Finished.{FinishedList, finished};
ghost use Rattle.word_model.specs.Cofactors.{Row, row_value, basis_rows, cofactor_rows};
ghost use Rattle.word_model.specs.Certificates.{CertificateHolds, made_lines};
ghost use Rattle.word_model.specs.Elimination.{elimination_order, occurrences, is_free, restricted, InIdealFreeOf};
ghost use Rattle.word_model.specs.TwoSided.{InTwoSidedIdeal};
ghost use Rattle.word_model.specs.Syzygies.{syzygies, IsRowCombination};
ghost use Rattle.word_model.specs.Bases.{InIdeal, IsFinishedBasis};
ghost use Rattle.word_model.specs.Ideals.{IsOneOf, InLeftIdeal, IsCombinationBelow, ReducesToZero, EntryReducesToZero, IsReducedBasis};
ghost use Rattle.word_model.specs.declared.records.Entry.{Entry};
ghost use Rattle.word_model.specs.declared.records.Mode.{Mode};
ghost use Rattle.word_model.specs.declared.records.Mode.TheVariants.{Left, TwoSided};
ghost use Rattle.word_model.specs.declared.records.Outcome.TheVariants.{Finished};

/// By the basis of a finished run each generator is reduced to zero, with no undefined step. By that
/// of any run so is the start of each job that was not skipped.
pub fn starts_vanish()
    ensures generators { (A : Algebra) (gens : List Polynomial) (mode : Mode) (budget s : ℕ) → IsGAlgebra A →
        Each (IsPolynomial A.p A.order) gens → Each (λ f. poly_degree f ≤ degree_limit) gens →
        (machine A gens mode budget).outcome ≡ Finished → 1 ≤ s → s ≤ length gens →
        ReducesToZero A (machine A gens mode budget).basis (element gens s) }
    ensures starts { (A : Algebra) (gens : List Polynomial) (mode : Mode) (budget : ℕ) → IsGAlgebra A →
        Each (IsPolynomial A.p A.order) gens → Each (λ f. poly_degree f ≤ degree_limit) gens →
        Each (EntryReducesToZero A gens (machine A gens mode budget).basis) (machine A gens mode budget).entries }
{}

/// Each S-polynomial of a finished run's basis, also of a pair that was skipped, is a left
/// combination of it below the least common multiple, and is reduced to zero where no step of that is
/// undefined.
pub fn pairs_vanish()
    ensures below { (A : Algebra) (gens : List Polynomial) (mode : Mode) (budget i j : ℕ) → IsGAlgebra A →
        Each (IsPolynomial A.p A.order) gens → let G : List Polynomial = (machine A gens mode budget).basis in
        (machine A gens mode budget).outcome ≡ Finished → 1 ≤ i → i ≤ length G → 1 ≤ j → j ≤ length G →
        IsCombinationBelow A G (pair_lcm G i j) (s_polynomial A (element G i) (element G j)) }
    ensures zero { (A : Algebra) (gens : List Polynomial) (mode : Mode) (budget i j : ℕ) → IsGAlgebra A →
        IsWellFounded A.order →
        Each (IsPolynomial A.p A.order) gens → let G : List Polynomial = (machine A gens mode budget).basis in
        (machine A gens mode budget).outcome ≡ Finished → 1 ≤ i → i ≤ length G → 1 ≤ j → j ≤ length G →
        (reduce A G (s_polynomial A (element G i) (element G j))).over ≡ false →
        (reduce A G (s_polynomial A (element G i) (element G j))).rest ≡ [] }
{}

/// The basis of a finished run is a Gröbner basis of the ideal that its generators generate, which is
/// the left ideal of the basis. After a two-sided run this left ideal is closed under products on the
/// right as well.
pub fn finished_bases()
    ensures basis { (A : Algebra) (gens : List Polynomial) (mode : Mode) (budget : ℕ) → IsGAlgebra A →
        IsWellFounded A.order → Each (IsPolynomial A.p A.order) gens →
        (machine A gens mode budget).outcome ≡ Finished →
        IsFinishedBasis A mode gens (machine A gens mode budget).basis }
    ensures ideal { (A : Algebra) (gens : List Polynomial) (mode : Mode) (budget : ℕ) (f : Polynomial) →
        IsGAlgebra A → Each (IsPolynomial A.p A.order) gens →
        (machine A gens mode budget).outcome ≡ Finished →
        InIdeal A mode gens f ↔ InLeftIdeal A (machine A gens mode budget).basis f }
    ensures right { (A : Algebra) (gens : List Polynomial) (budget : ℕ) (f b : Polynomial) → IsGAlgebra A →
        Each (IsPolynomial A.p A.order) gens → let G : List Polynomial = (machine A gens TwoSided budget).basis in
        (machine A gens TwoSided budget).outcome ≡ Finished → IsPolynomial A.p A.order b →
        InLeftIdeal A G f → InLeftIdeal A G (product A f b) }
{}

/// In a left run each element of the basis is the value of its row of cofactors, and so is each of the
/// finished list where the rows are computed.
pub fn rows_are_values()
    ensures basis { (A : Algebra) (gens : List Polynomial) (budget : ℕ) → IsGAlgebra A →
        Each (IsPolynomial A.p A.order) gens →
        map (λ row. row_value A row gens) (basis_rows A (length gens) (machine A gens Left budget))
        ≡ (machine A gens Left budget).basis }
    ensures list { (A : Algebra) (gens : List Polynomial) (budget : ℕ) (F : FinishedList) (rows : List Row) →
        IsGAlgebra A → Each (IsPolynomial A.p A.order) gens →
        finished A (machine A gens Left budget).basis ≡ Some F →
        cofactor_rows A gens (machine A gens Left budget) F ≡ Some rows →
        map (λ row. row_value A row gens) rows ≡ F.list }
{}

/// The finished list of a finished run is the reduced Gröbner basis of the ideal that its generators
/// generate. An ideal has one such list, and is the left ideal of it.
pub fn finished_lists()
    ensures reduced { (A : Algebra) (gens : List Polynomial) (mode : Mode) (budget : ℕ) (F : FinishedList) →
        IsGAlgebra A → IsWellFounded A.order → Each (IsPolynomial A.p A.order) gens →
        (machine A gens mode budget).outcome ≡ Finished →
        finished A (machine A gens mode budget).basis ≡ Some F →
        IsReducedBasis A (InIdeal A mode gens) F.list }
    ensures generators { (A : Algebra) (gens F : List Polynomial) (mode : Mode) → IsGAlgebra A → IsWellFounded A.order →
        Each (IsPolynomial A.p A.order) gens → IsReducedBasis A (InIdeal A mode gens) F →
        Each (InLeftIdeal A F) gens }
    ensures generates { (A : Algebra) (gens F : List Polynomial) (mode : Mode) (f : Polynomial) → IsGAlgebra A →
        IsWellFounded A.order → Each (IsPolynomial A.p A.order) gens →
        IsReducedBasis A (InIdeal A mode gens) F → InIdeal A mode gens f ↔ InLeftIdeal A F f }
    ensures unique { (A : Algebra) (gens F H : List Polynomial) (mode : Mode) → IsGAlgebra A →
        IsWellFounded A.order → Each (IsPolynomial A.p A.order) gens →
        IsReducedBasis A (InIdeal A mode gens) F → IsReducedBasis A (InIdeal A mode gens) H → F ≡ H }
{}

/// By the finished list of a finished run a polynomial whose normal form is defined lies in the ideal
/// of the generators exactly where its normal form is zero.
pub fn members_have_normal_form_zero()
    ensures { (A : Algebra) (gens : List Polynomial) (mode : Mode) (budget : ℕ) (F : FinishedList)
        (f : Polynomial) → IsGAlgebra A → IsWellFounded A.order → Each (IsPolynomial A.p A.order) gens →
        (machine A gens mode budget).outcome ≡ Finished →
        finished A (machine A gens mode budget).basis ≡ Some F → IsPolynomial A.p A.order f →
        (normal_form_by A F.list f).over ≡ false →
        InIdeal A mode gens f ↔ ((normal_form_by A F.list f).rest ≡ []) }
{}

/// Finished runs over lists that generate the same ideal have the same finished list, so that one text
/// is printed for both.
pub fn same_ideal_same_list()
    ensures { (A : Algebra) (gens gens' : List Polynomial) (mode : Mode) (budget budget' : ℕ)
        (F F' : FinishedList) →
        IsGAlgebra A → IsWellFounded A.order → Each (IsPolynomial A.p A.order) gens →
        Each (IsPolynomial A.p A.order) gens' →
        ((f : Polynomial) → InIdeal A mode gens f ↔ InIdeal A mode gens' f) →
        (machine A gens mode budget).outcome ≡ Finished → (machine A gens' mode budget').outcome ≡ Finished →
        finished A (machine A gens mode budget).basis ≡ Some F →
        finished A (machine A gens' mode budget').basis ≡ Some F' → F.list ≡ F'.list }
{}

/// The syzygies of a left run are relations of the generators, and those of a finished run generate all
/// relations: each is a left combination of them.
pub fn syzygies_generate()
    ensures relations { (A : Algebra) (gens : List Polynomial) (budget : ℕ) (row : Row) → IsGAlgebra A →
        Each (IsPolynomial A.p A.order) gens → IsOneOf row (syzygies A gens (machine A gens Left budget)) →
        (length row ≡ length gens) × (row_value A row gens ≡ []) }
    ensures all { (A : Algebra) (gens : List Polynomial) (budget : ℕ) (q : Row) → IsGAlgebra A →
        IsWellFounded A.order → Each (IsPolynomial A.p A.order) gens →
        (machine A gens Left budget).outcome ≡ Finished →
        length q ≡ length gens → Each (IsPolynomial A.p A.order) q → row_value A q gens ≡ [] →
        IsRowCombination A (syzygies A gens (machine A gens Left budget)) q }
{}

/// Under an elimination order the polynomials without the variables are closed under products, and a
/// polynomial whose leading monomial is without them is so itself. The elements without them of a
/// reduced basis of a left ideal generate, with polynomials without them, just what the ideal has
/// without them.
pub fn eliminations()
    ensures closed { (A : Algebra) (vars : List ℕ) (old : RowOrder) (f g : Polynomial) → IsGAlgebra A →
        A.order ≡ elimination_order vars old → IsPolynomial A.p A.order f → IsPolynomial A.p A.order g →
        is_free A.order.vars vars f ≡ true → is_free A.order.vars vars g ≡ true →
        is_free A.order.vars vars (product A f g) ≡ true }
    ensures leading { (A : Algebra) (vars : List ℕ) (old : RowOrder) (f : Polynomial) → IsGAlgebra A →
        A.order ≡ elimination_order vars old → IsPolynomial A.p A.order f →
        occurrences A.order.vars vars (leading_monomial f) ≡ 0 → is_free A.order.vars vars f ≡ true }
    ensures ideal { (A : Algebra) (vars : List ℕ) (old : RowOrder) (gens F : List Polynomial) (f : Polynomial) →
        IsGAlgebra A → IsWellFounded A.order → A.order ≡ elimination_order vars old →
        Each (IsPolynomial A.p A.order) gens → IsReducedBasis A (InLeftIdeal A gens) F →
        (InLeftIdeal A gens f → is_free A.order.vars vars f ≡ true →
        InIdealFreeOf A vars (restricted A.order.vars vars F) f)
        × (InIdealFreeOf A vars (restricted A.order.vars vars F) f →
        InLeftIdeal A gens f × (is_free A.order.vars vars f ≡ true)) }
{}

/// The finished list of a certificate that holds is in the two-sided ideal of the generators. The entries
/// by which a run made its elements, with its finished list, are one.
pub fn certificates()
    ensures inside { (A : Algebra) (gens : List Polynomial) (lines : List Entry) (F : FinishedList) → IsGAlgebra A →
        Each (IsPolynomial A.p A.order) gens → CertificateHolds A gens lines F →
        Each (InTwoSidedIdeal A gens) F.list }
    ensures runs { (A : Algebra) (gens : List Polynomial) (mode : Mode) (budget : ℕ) (F : FinishedList) →
        IsGAlgebra A → Each (IsPolynomial A.p A.order) gens →
        finished A (machine A gens mode budget).basis ≡ Some F →
        CertificateHolds A gens (made_lines (machine A gens mode budget).entries) F }
{}
