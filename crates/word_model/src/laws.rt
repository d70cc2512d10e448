//! Laws of words and products, each the contract of a function without a body.

ghost use Rattle.std.specs.Prelude.{◌≡◌, ◌≢◌, ℕ, suc, ◌+◌, ◌-◌, ◌*◌, ◌<◌, ◌≤◌, ◌⊎◌, nat_le, List, [], ◌∷◌, ◌++◌, length, Option, Some, None};
ghost use Rattle.prime_field.specs.Modular.{IsPrime};
ghost use Rattle.monomials.specs.Monomials.{Monomial, degree, plus, variable};
ghost use Rattle.monomials.specs.Orders.{order_cmp};
ghost use Rattle.monomials.specs.Polynomials.{Polynomial, HasVars, IsPolynomial, poly_add, poly_degree, poly_scale, poly_sub, sum_over};
ghost use Rattle.word_model.specs.Words.{Algebra, Word, WordSum, IsWord, pair_index, pair_monomial, monomial_of, sorted_word, Descent, leftmost_descent, rewritten, normal_form, word_value, RewritesDown};
ghost use Rattle.monomials.specs.Leading.{leading_monomial};
ghost use Rattle.word_model.specs.Conditions.{Fault, pair_fault, triple_fault, triple_rest, first_from, relations_fault, NonZero, IsField, HasNonzeroNumbers, IsAlgebraData, IsGAlgebra};
ghost use Rattle.word_model.specs.Products.{product, letters_product, times_letters, degree_limit, in_reach};
ghost use Rattle.word_model.specs.Reduction.{is_within};
ghost use Rattle.word_model.specs.TwoVariables.{two_variables};

/// The number of a pair is its place in lexicographic order: the first pair has the number 0, and each
/// pair the number after that of the one before, whose row it shares or ends.
pub fn pair_numbers()
    ensures first { (n : ℕ) → pair_index n 1 2 ≡ 0 }
    ensures next { (n i j : ℕ) → 1 ≤ i → i < j → j < n →
        pair_index n i (suc j) ≡ suc (pair_index n i j) }
    ensures next_row { (n i : ℕ) → 1 ≤ i → i + 2 ≤ n →
        pair_index n (i + 1) (i + 2) ≡ suc (pair_index n i n) }
    ensures last { (n : ℕ) → 2 ≤ n → 2 * suc (pair_index n (n - 1) n) ≡ n * (n - 1) }
{}

/// The sorted words are the words without a descent, one for each monomial.
pub fn sorted_word_form()
    ensures variable { (n v : ℕ) → 1 ≤ v → sorted_word (variable n v) ≡ v ∷ [] }
    ensures monomial { (n : ℕ) (m : Monomial) → length m ≡ n → monomial_of n (sorted_word m) ≡ m }
    ensures no_descent { (m : Monomial) → leftmost_descent (sorted_word m) ≡ None }
    ensures no_other { (n : ℕ) (w : Word) → IsWord n w → leftmost_descent w ≡ None →
        sorted_word (monomial_of n w) ≡ w }
    ensures sorted_length { (m : Monomial) → length (sorted_word m) ≡ degree m }
    ensures word_degree { (n : ℕ) (w : Word) → IsWord n w → degree (monomial_of n w) ≡ length w }
    ensures pair { (n i j : ℕ) → 1 ≤ i → i ≤ n → 1 ≤ j → j ≤ n →
        pair_monomial n i j ≡ plus (variable n i) (variable n j) }
{}

/// The recursion of normal forms, where rewriting leads downwards at each pair of variables, as it
/// does in each algebra of two variables with a constant.
pub fn rewriting()
    ensures sorted { (A : Algebra) (w : Word) → leftmost_descent w ≡ None →
        normal_form A w ≡ (1, monomial_of A.order.vars w) ∷ [] }
    ensures rewritten { (A : Algebra) (w : Word) (s : Descent) → RewritesDown A →
        IsWord A.order.vars w → leftmost_descent w ≡ Some s →
        normal_form A w ≡ word_value A (rewritten A s) }
    ensures two_variables { (p c e : ℕ) → RewritesDown (two_variables p c e) }
{}

/// Where rewriting leads downwards, the normal form is the only function on words that gives a word
/// without a descent its monomial, and another the sum of its values at the words that the leftmost
/// descent is rewritten to.
pub fn only_normal_form()
    ensures { (A : Algebra) (value : Word → Polynomial) → RewritesDown A →
        ((w : Word) → IsWord A.order.vars w → leftmost_descent w ≡ None →
        value w ≡ (1, monomial_of A.order.vars w) ∷ []) →
        ((w : Word) (s : Descent) → IsWord A.order.vars w → leftmost_descent w ≡ Some s →
        value w ≡ sum_over (order_cmp A.order.rows) A.p value (rewritten A s)) →
        (w : Word) → IsWord A.order.vars w → value w ≡ normal_form A w }
{}

/// The rest of a triple i < j < k is the difference of the two rewritings of x_k x_j x_i: the value of
/// the words that x_k x_j is rewritten to, less that of the words that x_j x_i is rewritten to.
pub fn triple_rests()
    ensures { (A : Algebra) (i j k : ℕ) → 1 < A.p → RewritesDown A → 1 ≤ i → i < j → j < k →
        k ≤ A.order.vars →
        triple_rest A i j k ≡ poly_sub (order_cmp A.order.rows) A.p
        (word_value A (rewritten A (record { before = []; high = k; low = j; after = i ∷ [] })))
        (word_value A (rewritten A (record { before = k ∷ []; high = j; low = i; after = [] }))) }
{}

/// Normal forms of words and of sums of words, and products, are polynomials of the algebra.
pub fn normal_forms_are_polynomials()
    ensures word { (A : Algebra) (w : Word) → 1 < A.p → IsPolynomial A.p A.order (normal_form A w) }
    ensures sum { (A : Algebra) (f : WordSum) → 1 < A.p →
        IsPolynomial A.p A.order (word_value A f) }
    ensures product { (A : Algebra) (f g : Polynomial) → 1 < A.p →
        IsPolynomial A.p A.order (product A f g) }
{}

/// Products distribute over sums, on both sides.
pub fn distribute()
    ensures left { (A : Algebra) (f g h : Polynomial) → 0 < A.p →
        product A (poly_add (order_cmp A.order.rows) A.p f g) h
        ≡ poly_add (order_cmp A.order.rows) A.p (product A f h) (product A g h) }
    ensures right { (A : Algebra) (f g h : Polynomial) → 0 < A.p →
        product A f (poly_add (order_cmp A.order.rows) A.p g h)
        ≡ poly_add (order_cmp A.order.rows) A.p (product A f g) (product A f h) }
{}

/// The degree of a product is at most the sum of the degrees, where rewriting leads downwards.
pub fn degree_bound()
    ensures { (A : Algebra) (f g : Polynomial) → RewritesDown A → HasVars A.order.vars f →
        HasVars A.order.vars g → poly_degree (product A f g) ≤ poly_degree f + poly_degree g }
{}

/// Whether a step's product is within the limit of degrees does not depend on its number, and for a
/// polynomial other than zero it is so exactly where the two degrees add up to at most the limit.
pub fn steps_in_reach()
    ensures any_number { (c : ℕ) (m : Monomial) (g : Polynomial) →
        is_within m g ≡ in_reach ((c, m) ∷ []) g }
    ensures degrees { (m : Monomial) (g : Polynomial) → g ≢ [] →
        is_within m g ≡ nat_le (degree m + poly_degree g) degree_limit }
{}

/// Products of nonzero polynomials are not zero, and leading monomials multiply: over a field,
/// where rewriting leads downwards and no number of a relation is zero.
pub fn leading_terms()
    ensures nonzero { (A : Algebra) (f g : Polynomial) → IsField A.p → RewritesDown A → HasNonzeroNumbers A →
        IsPolynomial A.p A.order f → IsPolynomial A.p A.order g → f ≢ [] → g ≢ [] →
        product A f g ≢ [] }
    ensures leading { (A : Algebra) (f g : Polynomial) → IsField A.p → RewritesDown A → HasNonzeroNumbers A →
        IsPolynomial A.p A.order f → IsPolynomial A.p A.order g → f ≢ [] → g ≢ [] →
        leading_monomial (product A f g) ≡ plus (leading_monomial f) (leading_monomial g) }
{}

/// Relations without a fault are accepted over a field, as those of each algebra of two variables
/// with a constant and a nonzero number are. The numbers modulo a prime are a field.
pub fn acceptance()
    ensures accepted { (A : Algebra) → relations_fault A ≡ None → IsAlgebraData A → IsField A.p →
        IsGAlgebra A }
    ensures field { (p : ℕ) → IsPrime p → IsField p }
    ensures two_variables { (p c e : ℕ) → IsField p → NonZero p c →
        (relations_fault (two_variables p c e) ≡ None) × IsAlgebraData (two_variables p c e)
        × IsGAlgebra (two_variables p c e) }
{}

/// The first test that fails gives the fault: all pairs are tested in lexicographic order, and then
/// all triples.
pub fn first_fault()
    ensures passed { (test : ℕ → Option Fault) (k m : ℕ) →
        ((i : ℕ) → k ≤ i → i < k + m → test i ≡ None) → first_from test k m ≡ None }
    ensures found { (test : ℕ → Option Fault) (k m i : ℕ) (f : Fault) → k ≤ i → i < k + m →
        ((j : ℕ) → k ≤ j → j < i → test j ≡ None) → test i ≡ Some f → first_from test k m ≡ Some f }
    ensures none { (A : Algebra) →
        ((i j : ℕ) → 1 ≤ i → i < j → j ≤ A.order.vars → pair_fault A i j ≡ None) →
        ((i j k : ℕ) → 1 ≤ i → i < j → j < k → k ≤ A.order.vars → triple_fault A i j k ≡ None) →
        relations_fault A ≡ None }
    ensures pair { (A : Algebra) (i j : ℕ) (f : Fault) → 1 ≤ i → i < j → j ≤ A.order.vars →
        ((a b : ℕ) → 1 ≤ a → a < b → b ≤ A.order.vars → (a < i) ⊎ ((a ≡ i) × (b < j)) →
        pair_fault A a b ≡ None) →
        pair_fault A i j ≡ Some f → relations_fault A ≡ Some f }
    ensures triple { (A : Algebra) (i j k : ℕ) (f : Fault) →
        ((i j : ℕ) → 1 ≤ i → i < j → j ≤ A.order.vars → pair_fault A i j ≡ None) →
        1 ≤ i → i < j → j < k → k ≤ A.order.vars →
        ((a b c : ℕ) → 1 ≤ a → a < b → b < c → c ≤ A.order.vars →
        (a < i) ⊎ ((a ≡ i) × ((b < j) ⊎ ((b ≡ j) × (c < k)))) → triple_fault A a b c ≡ None) →
        triple_fault A i j k ≡ Some f → relations_fault A ≡ Some f }
{}

/// A word has the same normal form whichever two letters in descending order are rewritten first.
pub fn any_pair_first()
    ensures { (A : Algebra) (u : Word) (j i : ℕ) (v : Word) → IsGAlgebra A →
        IsWord A.order.vars (u ++ j ∷ i ∷ v) → i < j →
        normal_form A (u ++ j ∷ i ∷ v)
        ≡ word_value A (rewritten A (record { before = u; high = j; low = i; after = v })) }
{}

/// The product of an accepted algebra is associative.
pub fn associate()
    ensures { (A : Algebra) (f g h : Polynomial) → IsGAlgebra A → HasVars A.order.vars f →
        HasVars A.order.vars g → HasVars A.order.vars h →
        product A (product A f g) h ≡ product A f (product A g h) }
{}

/// In an accepted algebra normal forms multiply as words do: the letters of a word, multiplied from
/// left to right, give its normal form.
pub fn letters_multiply()
    ensures letters { (A : Algebra) (w : Word) → IsGAlgebra A → IsWord A.order.vars w →
        letters_product A w ≡ normal_form A w }
    ensures words { (A : Algebra) (u w : Word) → IsGAlgebra A → IsWord A.order.vars (u ++ w) →
        product A (normal_form A u) (normal_form A w) ≡ normal_form A (u ++ w) }
{}

/// A product is the sum of the products with the terms of its second factor, and the product with a
/// term is the multiple by its number, times the letters of its sorted word.
pub fn multiply_by_parts()
    ensures terms { (A : Algebra) (f g h : Polynomial) → 1 < A.p →
        product A f (g ++ h)
        ≡ poly_add (order_cmp A.order.rows) A.p (product A f g) (product A f h) }
    ensures letters { (A : Algebra) (f : Polynomial) (k : ℕ) (m : Monomial) → IsGAlgebra A →
        IsPolynomial A.p A.order f → length m ≡ A.order.vars →
        product A f ((k, m) ∷ []) ≡ times_letters A (poly_scale A.p k f) (sorted_word m) }
{}
