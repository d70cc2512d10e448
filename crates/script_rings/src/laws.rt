//! A law of relations, the contract of a function without a body.

ghost use Rattle.std.specs.Prelude.{◌≡◌, ℕ, ◌-◌, ◌*◌, ◌<◌, ◌≤◌, length, slice_get, Some};
ghost use Rattle.word_model.specs.Words.{pair_index};
ghost use Rattle.script_model.specs.Statements.{all_pairs};

/// The pairs of variables stand at their numbers, by which an algebra finds the relation of a pair. So the values
/// that `nc_algebra` takes for all pairs are those of their relations.
pub fn pairs_are_numbered()
    ensures place { (n i j : ℕ) → 1 ≤ i → i < j → j ≤ n → slice_get (all_pairs n) (pair_index n i j) ≡ Some (i, j) }
    ensures count { (n : ℕ) → 2 * length (all_pairs n) ≡ n * (n - 1) }
{}
