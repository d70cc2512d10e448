//! Pairs of variables.

ghost use Rattle.std.specs.Prelude.{◌≡◌, ◌+◌, ◌-◌, ◌*◌, ◌<◌, ◌≤◌, ◌++◌, length, suc, IfOk, OnOk};
ghost use Rattle.monomials.specs.Polynomials.{Each};
ghost use Rattle.script_model.specs.Statements as spec;
ghost use Rattle.script_rings.specs.Entries.{IsPair};

use std::alloc::{AllocError, Global};

/// The pairs i < j of the numbers from 1 to `n`, in lexicographic order.
pub(crate) fn all_pairs(alloc: Global, n: usize) -> Result<Vec<(usize, usize)>, AllocError>
    requires { n ≤ 16 }
    ensures value { IfOk result (λ pairs. pairs.items ≡ spec.all_pairs n) }
    ensures pairs { IfOk result (λ pairs. Each IsPair pairs.items) }
    ensures count { IfOk result (λ pairs. 2 * length pairs.items ≡ n * (n - 1)) }
{
    let mut pairs = Vec::new(alloc);
    for i in 1..n + 1 {
        push_row(&mut pairs, i, n)?;
    }
    Ok(pairs)
}

// Appends the pairs of `i` with the numbers behind it.
fn push_row(pairs: &mut Vec<(usize, usize)>, i: usize, n: usize) -> Result<(), AllocError>
    requires few { n ≤ 16 }
    requires within { i ≤ n }
    ensures { OnOk result (pairs.new.items ≡ pairs.old.items ++ spec.pairs_row i (suc i) (n - i)) }
{
    for j in i + 1..n + 1 {
        pairs.push((i, j))?;
    }
    Ok(())
}
