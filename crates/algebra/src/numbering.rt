//! The numbers of pairs of variables.

ghost use Rattle.std.specs.Prelude.{◌≡◌, ◌+◌, ◌-◌, ◌*◌, ◌<◌, ◌≤◌};
ghost use Rattle.word_model.specs.Words.{pair_index};

/// The number of the pair i < j of `n` variables: how many pairs come before it in lexicographic
/// order. From 0 to n (n - 1) / 2 - 1.
pub fn pair_index(n: usize, i: u8, j: u8) -> usize
    requires few { n ≤ 16 }
    requires first { 1 ≤ i }
    requires pair { i < j }
    requires last { j ≤ n }
    ensures value { result ≡ pair_index n i j }
    ensures within { 2 * result < n * (n - 1) }
{
    let (i, j) = (usize::from(i), usize::from(j));
    (i - 1) * (2 * n - i) / 2 + (j - i - 1)
}
