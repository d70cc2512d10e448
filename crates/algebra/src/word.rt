//! Words, as lists of the numbers of their variables.

ghost use Rattle.std.specs.Prelude.{◌≡◌, ◌+◌, ◌<◌, ◌≤◌, ◌++◌, length, IfOk, OnOk, MatchOption, None, Some};
ghost use Rattle.word_model.specs.Words.{IsWord, leftmost_descent, monomial_of, sorted_word};
ghost use Rattle.algebra.specs.Inside.Places.{descent_at};

use monomials::Expo;
use std::alloc::{AllocError, Global};

/// The leftmost place at which a letter stands before a smaller one.
pub fn leftmost_descent(word: &[u8]) -> Option<usize>
    ensures { MatchOption result (leftmost_descent word.now ≡ None)
        (λ k. (k + 1 < length word.now) × (leftmost_descent word.now ≡ Some (descent_at k word.now))) }
{
    for k in 1..word.len() {
        if word[k] < word[k - 1] {
            return Some(k - 1);
        }
    }
    None
}

/// The sorted word of a monomial, with a word before it and one behind it.
pub fn around(alloc: Global, front: &[u8], mono: &Expo, back: &[u8]) -> Result<Vec<u8>, AllocError>
    ensures { IfOk result (λ w. w.items ≡ front.now ++ (sorted_word mono.now ++ back.now)) }
{
    let mut word = Vec::from_slice(alloc, front)?;
    push_sorted(&mut word, mono)?;
    word.extend_from_slice(back)?;
    Ok(word)
}

// Adds the sorted word of a monomial.
fn push_sorted(word: &mut Vec<u8>, mono: &Expo) -> Result<(), AllocError>
    ensures { OnOk result (word.new.items ≡ word.old.items ++ sorted_word mono.now) }
{
    for place in 0..mono.len() as u8 {
        let variable = place + 1;
        let exponent = usize::from(mono.get(variable));
        word.resize(word.len() + exponent, variable)?;
    }
    Ok(())
}

/// The monomial of a word in `n` variables.
pub fn monomial_of(n: usize, word: &[u8]) -> Expo
    requires some { 1 ≤ n }
    requires few { n ≤ 16 }
    requires letters { IsWord n word.now }
    requires short { length word.now ≤ 4095 }
    ensures { result ≡ monomial_of n word.now }
{
    let mut exponents = [0; 16];
    for letter in word {
        exponents[usize::from(*letter) - 1] += 1;
    }
    Expo::of(&exponents[..n])
}
