//! Laws of queues, each the contract of a function without a body.

ghost use Rattle.std.specs.Prelude.{◌≡◌, ℕ, ◌||◌, List, ◌∷◌, false};
ghost use Rattle.monomials.specs.Orders.{RowOrder};
ghost use Rattle.monomials.specs.Polynomials.{Polynomial, Each};
ghost use Rattle.word_model.specs.Words.{Algebra};
ghost use Rattle.word_model.specs.Jobs.{same_job, is_queued, without, least_job, chain_witness};
ghost use Rattle.word_model.specs.declared.records.Job.{Job};
ghost use Rattle.pair_strategy.specs.Queues.{jobs_in, with_item, IsRising, IsSet, HasKey, SameJobs};
ghost use Rattle.pair_strategy.specs.declared.keys.Keyed.{Keyed};

/// The job of the least key, among any list of the jobs that a queue has, is the queue's first.
pub fn first_is_least()
    ensures { (A : Algebra) (gens G : List Polynomial) (sugars : List ℕ) (first : Keyed)
        (rest : List Keyed) (job : Job) (jobs : List Job) → IsRising A.order (first ∷ rest) →
        Each (HasKey A gens G sugars) (first ∷ rest) → SameJobs (job ∷ jobs) (jobs_in (first ∷ rest)) →
        least_job A gens G sugars job jobs ≡ first.job }
{}

/// A queue's items are a set in rising order of keys, which `push` adds one job to and `take_first`
/// takes one from; and the chain rule asks a queue for its set of jobs alone.
pub fn queues_are_sets()
    ensures added { (o : RowOrder) (k : Keyed) (items : List Keyed) (job : Job) →
        is_queued (jobs_in (with_item o k items)) job
        ≡ (same_job job k.job || is_queued (jobs_in items) job) }
    ensures rising { (o : RowOrder) (k : Keyed) (items : List Keyed) → IsRising o items →
        is_queued (jobs_in items) k.job ≡ false → IsRising o (with_item o k items) }
    ensures taken { (first : Keyed) (rest : List Keyed) (jobs : List Job) →
        IsSet (jobs_in (first ∷ rest)) → SameJobs jobs (jobs_in (first ∷ rest)) →
        SameJobs (without first.job jobs) (jobs_in rest) }
    ensures witness { (G : List Polynomial) (jobs others : List Job) (job : Job) →
        SameJobs jobs others → chain_witness G jobs job ≡ chain_witness G others job }
{}
