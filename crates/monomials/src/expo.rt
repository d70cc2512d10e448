//! Monomials as exponents, four in each word.

ghost use Rattle.std.specs.Prelude.{◌≡◌, ◌+◌, ◌-◌, ◌*◌, ◌^◌, ◌≤◌, ◌<◌, ◌↔◌, ◌++◌, ℕ, IsTrue, nat_eq, length, sum, take, replicate, slice_index};
ghost use Rattle.std.specs.Int.{bit_at};
ghost use Rattle.std.specs.Cmp.Lexicographic.{pointwise};
ghost use Rattle.std.specs.Cmp.{partial_equiv_from_equiv};
ghost use Rattle.std.proofs.lemmas.Cmp.{nat_list_eq_equiv};
ghost use Rattle.monomials.specs.Monomials.{degree, plus, minus, lcm, divides, one, power, variable};
ghost use Rattle.monomials.specs.Words.{spread};
ghost use Rattle.monomials.specs.Masks.{nibble, mask};
ghost use Rattle.monomials.specs.Orders.{rows_cmp};
ghost use Rattle.monomials.specs.Blocks.{dp_rows};
ghost use Rattle.monomials.specs.Rows.{weighted};

use crate::word::{at_lane, greater_lanes, lane, lanes_divide, pack, total};
use std::cmp::Ordering;
use std::marker::Model;

/// A monomial in 1 to 16 variables: its exponents, whose sum is at most 32767.
#[derive(Clone, Copy, Debug, Eq)]
pub struct Expo {
    // Four exponents in each word, the first lowest. The lanes past `len` are zero.
    words: [u64; 4],
    degree: u16,
    len: u8,
}

impl Model for Expo {
    ghost use Rattle.std.specs.Prelude.{List, ℕ};

    ghost Value = { List ℕ };

    ghost use Rattle.monomials.specs.Padded.{IsPadded, exponents, padded, padded-exponents};

    ghost view = { exponents };

    ghost invariant = { IsPadded };

    ghost inverse = { padded };

    ghost inverse_ok = { padded-exponents };
}

impl PartialEq for Expo {
    ghost eq = { pointwise nat_eq };

    ghost laws = { partial_equiv_from_equiv nat_list_eq_equiv };

    fn eq(&self, other: &Expo) -> bool
        ensures eq { result ≡ pointwise nat_eq self.now other.now }
        ensures same { IsTrue result ↔ (self.now ≡ other.now) }
    {
        self.words == other.words && self.len == other.len
    }
}

impl Expo {
    /// The monomial 1 in `n` variables.
    pub fn one(n: usize) -> Expo
        requires not_empty { 1 ≤ n }
        requires fits { n ≤ 16 }
        ensures { result ≡ one n }
    {
        Expo {
            words: [0; 4],
            degree: 0,
            len: n as u8,
        }
    }

    /// The variable `x_v` as a monomial in `n` variables, which count from 1.
    pub fn var(n: usize, v: u8) -> Expo
        requires fits { n ≤ 16 }
        requires first { 1 ≤ v }
        requires last { v ≤ n }
        ensures { result ≡ variable n v }
    {
        Expo::power(n, v, 1)
    }

    /// The power `x_v^e` as a monomial in `n` variables, which count from 1.
    pub fn power(n: usize, v: u8, e: u16) -> Expo
        requires fits { n ≤ 16 }
        requires first { 1 ≤ v }
        requires last { v ≤ n }
        requires small { e ≤ 32767 }
        ensures { result ≡ power n v e }
    {
        let place = v - 1;
        let mut words = [0; 4];
        words[usize::from(place / 4)] = at_lane(e, place % 4);
        Expo {
            words,
            degree: e,
            len: n as u8,
        }
    }

    /// The monomial with these exponents.
    pub fn of(exps: &[u16]) -> Expo
        requires not_empty { 1 ≤ length exps.now }
        requires fits { length exps.now ≤ 16 }
        requires small { sum exps.now ≤ 32767 }
        ensures { result ≡ exps.now }
    {
        let mut places = [0; 16];
        for i in 0..exps.len() {
            places[i] = exps[i];
        }
        let words = pack(&places);
        Expo {
            words,
            degree: total(&words),
            len: exps.len() as u8,
        }
    }

    /// The number of variables.
    pub fn len(&self) -> usize
        ensures length { result ≡ length self.now }
        ensures not_empty { 1 ≤ result }
        ensures at_most { result ≤ 16 }
        ensures small { sum self.now ≤ 32767 }
    {
        self.len as usize
    }

    /// The exponent of `x_v`, where variables count from 1.
    pub fn get(&self, v: u8) -> u16
        requires first { 1 ≤ v }
        requires last { v ≤ length self.now }
        ensures { result ≡ slice_index self.now (v - 1) }
    {
        self.at(v - 1)
    }

    /// The total degree.
    pub fn degree(&self) -> u32
        ensures value { result ≡ degree self.now }
        ensures small { result ≤ 32767 }
    {
        u32::from(self.degree)
    }

    /// The product.
    pub fn plus(&self, other: &Expo) -> Expo
        requires same_length { length self.now ≡ length other.now }
        requires small { degree self.now + degree other.now ≤ 32767 }
        ensures { result ≡ plus self.now other.now }
    {
        Expo {
            words: [
                self.words[0] + other.words[0],
                self.words[1] + other.words[1],
                self.words[2] + other.words[2],
                self.words[3] + other.words[3],
            ],
            degree: self.degree + other.degree,
            len: self.len,
        }
    }

    /// The quotient by a monomial that divides this one.
    pub fn minus(&self, other: &Expo) -> Expo
        requires same_length { length self.now ≡ length other.now }
        requires divisible { IsTrue (divides other.now self.now) }
        ensures { result ≡ minus self.now other.now }
    {
        Expo {
            words: [
                self.words[0] - other.words[0],
                self.words[1] - other.words[1],
                self.words[2] - other.words[2],
                self.words[3] - other.words[3],
            ],
            degree: self.degree - other.degree,
            len: self.len,
        }
    }

    /// The least common multiple.
    pub fn lcm(&self, other: &Expo) -> Expo
        requires same_length { length self.now ≡ length other.now }
        requires small { degree self.now + degree other.now ≤ 32767 }
        ensures { result ≡ lcm self.now other.now }
    {
        let words = [
            greater_lanes(self.words[0], other.words[0]),
            greater_lanes(self.words[1], other.words[1]),
            greater_lanes(self.words[2], other.words[2]),
            greater_lanes(self.words[3], other.words[3]),
        ];
        Expo {
            words,
            degree: total(&words),
            len: self.len,
        }
    }

    /// Whether this monomial divides the other.
    pub fn divides(&self, other: &Expo) -> bool
        requires { length self.now ≡ length other.now }
        ensures { result ≡ divides self.now other.now }
    {
        lanes_divide(self.words[0], other.words[0])
            & lanes_divide(self.words[1], other.words[1])
            & lanes_divide(self.words[2], other.words[2])
            & lanes_divide(self.words[3], other.words[3])
    }

    /// The words that hold it: the exponent of `x_v` stands in the word `(v-1)/4`, at the bits from
    /// `16*((v-1)%4)` on.
    pub fn words(&self) -> [u64; 4]
        ensures { spread result ≡ self.now ++ replicate (16 - length self.now) 0 }
    {
        self.words
    }

    /// Four bits for each variable: the bit `4*(v-1)+t`, for `t` from 0 to 3, is set exactly where the
    /// exponent of `x_v` is at least `2^t`. A divisor's mask has no bit that the other's lacks, so two
    /// masks tell of most monomials at once that they don't divide.
    pub fn mask(&self) -> u64
        ensures value { result ≡ mask self.now }
        ensures bits { (v t : ℕ) → 1 ≤ v → v ≤ length self.now → t ≤ 3 →
            (bit_at result (4 * (v - 1) + t) ≡ 1) ↔ (2 ^ t ≤ slice_index self.now (v - 1)) }
    {
        let mut mask = 0;
        for place in (0..self.len).rev() {
            mask = mask * 16 + nibble(self.at(place));
        }
        mask
    }

    // The exponent of the variable behind the first `place`.
    pub(crate) fn at(&self, place: u8) -> u16
        requires { place < length self.now }
        ensures { result ≡ slice_index self.now place }
    {
        lane(self.words[usize::from(place / 4)], place % 4)
    }

    // How it compares by `dp`: by degree, and then the less exponent of the last variable in which the
    // two differ is the greater.
    pub(crate) fn compare_graded(&self, other: &Expo) -> Ordering
        requires { length self.now ≡ length other.now }
        ensures { let n = length self.now in result ≡ rows_cmp (dp_rows n 0 n) self.now other.now }
    {
        self.degree
            .cmp(&other.degree)
            .then(other.words[3].cmp(&self.words[3]))
            .then(other.words[2].cmp(&self.words[2]))
            .then(other.words[1].cmp(&self.words[1]))
            .then(other.words[0].cmp(&self.words[0]))
    }

    // The sum of weight times exponent.
    pub(crate) fn weighted(&self, weights: &[u16; 16]) -> u32
        ensures { result ≡ weighted (take (length self.now) weights.now) self.now }
    {
        let mut total = 0;
        for i in 0..16 {
            total += u32::from(weights[i]) * u32::from(lane(self.words[i / 4], (i % 4) as u8));
        }
        total
    }
}

// Whether an exponent is at least 1, 2, 4 and 8, from the lowest bit on.
fn nibble(exponent: u16) -> u64
    ensures { result ≡ nibble exponent }
{
    match exponent {
        0 => 0,
        1 => 1,
        2..=3 => 3,
        4..=7 => 7,
        _ => 15,
    }
}

#[cfg(test)]
mod tests {
    use super::*;

    #[test]
    fn words_and_masks(rt: HostRuntime) {
        let a = Expo::of(&[1, 2, 3]);
        assert_eq!(rt; a.words(), [12885032961, 0, 0, 0]);
        assert_eq!(rt; a.mask(), 817);
        assert_eq!(rt; [a.len(), a.degree() as usize], [3, 6]);
        assert_eq!(rt; [a.get(1), a.get(2), a.get(3)], [1, 2, 3]);
        assert_ne!(rt; Expo::one(2), Expo::one(3));
    }

    // Each variable of sixteen, with the greatest exponent.
    #[test]
    fn all_lanes(rt: HostRuntime) {
        for v in 1..=16 {
            let x = Expo::var(16, v);
            let high = Expo::power(16, v, 32767);
            let rest = Expo::power(16, v, 32766);
            assert_eq!(rt; x.plus(&rest), high);
            assert_eq!(rt; high.minus(&rest), x);
            assert_eq!(rt; [high.get(v), high.get(17 - v)], [32767, 0]);
            assert!(rt; x.divides(&high) && !high.divides(&rest));
            assert_eq!(rt; high.mask(), 15 << (4 * u32::from(v - 1)));
            let both = rest.lcm(&Expo::var(16, 17 - v));
            assert_eq!(rt; both.degree(), 32767);
        }
    }
}
