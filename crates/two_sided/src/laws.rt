//! What the check of a certificate says, as the contracts of functions without a body.

ghost use Rattle.std.specs.Prelude.{◌≡◌, ◌≤◌, ℕ, List, Some};
ghost use Rattle.monomials.specs.Polynomials.{Polynomial, Each, IsPolynomial};
ghost use Rattle.word_model.specs.Words.{Algebra};
ghost use Rattle.word_model.specs.Conditions.{IsGAlgebra};
ghost use Rattle.word_model.specs.Certificates.{Certificate, CertificateHolds, made_lines};
ghost use Rattle.word_model.specs.Finished.{FinishedList, finished};
ghost use Rattle.word_model.specs.Machine.{machine};
ghost use Rattle.word_model.specs.declared.records.Mode.{Mode};
ghost use Rattle.two_sided.specs.Checks.{IsCheckable, Holds, chain_check};

/// A certificate of which the check answers that it holds is one: its lines make a basis from the
/// generators, and its finished list is what that gives.
pub fn checked_certificates_hold()
    ensures { (A : Algebra) (gens : List Polynomial) (C : Certificate) → IsCheckable A C →
        chain_check A gens C ≡ Holds → CertificateHolds A gens C.lines C.finished }
{}

/// The check of a run's own certificate, of its new entries with its finished list, answers that it
/// holds: each of its products was computed by the run or by the finish.
pub fn run_certificates_hold()
    ensures checkable { (A : Algebra) (gens : List Polynomial) (mode : Mode) (budget : ℕ) (F : FinishedList) →
        IsGAlgebra A → Each (IsPolynomial A.p A.order) gens →
        finished A (machine A gens mode budget).basis ≡ Some F →
        IsCheckable A (record { lines = made_lines (machine A gens mode budget).entries; finished = F }) }
    ensures holds { (A : Algebra) (gens : List Polynomial) (mode : Mode) (budget : ℕ) (F : FinishedList) →
        IsGAlgebra A → Each (IsPolynomial A.p A.order) gens →
        finished A (machine A gens mode budget).basis ≡ Some F →
        chain_check A gens (record { lines = made_lines (machine A gens mode budget).entries; finished = F }) ≡ Holds }
{}
