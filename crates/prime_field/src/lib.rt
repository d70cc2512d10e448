//! The fields of integers modulo a prime, for the primes of a fixed table.
#![tactic(auto)]

ghost use Rattle.std.specs.Prelude.{◌≡◌, ◌≢◌, ℕ, ◌+◌, ◌-◌, ◌*◌, ◌%◌, ◌^◌, ◌<◌, ◌↔◌, false, IsTrue, IsOk, IfOk, IfErr};
ghost use Rattle.prime_field.specs.Modular.{in_table, IsPrime, inverse, quotient, symmetric};

use std::marker::Model;

const CHARACTERISTICS: [u32; 29] = [
    2, 3, 5, 7, 11, 13, 17, 19, 23, 29, 31, 37, 41, 43, 47, 53, 59, 61, 67, 71, 73, 79, 83, 89, 97,
    101, 251, 32003, 65521,
];

/// The field of the integers modulo a prime of the table. Its elements are the numbers from 0
/// to below the prime. A contract sees a field as its prime.
#[derive(Clone, Copy, Debug, PartialEq, Eq)]
pub struct Field {
    p: u32,
}

impl Model for Field {
    ghost use Rattle.std.specs.Prelude.{ℕ};
    ghost use Rattle.prime_field.specs.Modular.{IsPrime};

    ghost Value = { ℕ };

    ghost view = { λ f. f.p };

    ghost invariant = { λ f. IsPrime f.p };

    ghost inverse = { λ p. record { p = p } };
}

/// A number that is not a characteristic of the table.
#[derive(Debug, Drop, Clone, Copy, PartialEq, Eq)]
pub struct NotInTable {
    /// The number that was asked for.
    pub p: u32,
}

impl Field {
    /// The field with `p` elements. Refuses a number that is not in the table, even a prime.
    pub fn of(p: u32) -> Result<Field, NotInTable>
        ensures ok { IsOk result ↔ IsTrue (in_table p) }
        ensures field { IfOk result (λ f. f ≡ p) }
        ensures listed { IfOk result (λ _. IsTrue (in_table p)) }
        ensures err { IfErr result (λ e. e.p ≡ p) }
        ensures refused { IfErr result (λ _. in_table p ≡ false) }
    {
        if CHARACTERISTICS.contains(&p) {
            Ok(Field { p })
        } else {
            Err(NotInTable { p })
        }
    }

    /// The characteristic, which is also the number of elements.
    pub fn p(self) -> u32
        ensures value { result ≡ self }
        ensures prime { IsPrime self }
    {
        self.p
    }

    /// The sum of two elements.
    pub fn add(self, a: u32, b: u32) -> u32
        requires a_in_range { a < self }
        requires b_in_range { b < self }
        ensures value { result ≡ (a + b) % self }
        ensures in_range { result < self }
    {
        let sum = a + b;
        if sum < self.p { sum } else { sum - self.p }
    }

    /// The difference `a - b` of two elements.
    pub fn sub(self, a: u32, b: u32) -> u32
        requires a_in_range { a < self }
        requires b_in_range { b < self }
        ensures value { result ≡ (a + (self - b)) % self }
        ensures in_range { result < self }
    {
        if a < b { a + (self.p - b) } else { a - b }
    }

    /// The element whose sum with `a` is zero.
    pub fn neg(self, a: u32) -> u32
        requires { a < self }
        ensures value { result ≡ (self - a) % self }
        ensures in_range { result < self }
    {
        if a == 0 { 0 } else { self.p - a }
    }

    /// The product of two elements, which is zero only where a factor is.
    pub fn mul(self, a: u32, b: u32) -> u32
        requires a_in_range { a < self }
        requires b_in_range { b < self }
        ensures value { result ≡ (a * b) % self }
        ensures in_range { result < self }
        ensures not_zero { 0 < a → 0 < b → 0 < result }
    {
        remainder(a * b, self.p)
    }

    /// The element that `n` is congruent to.
    pub fn from_int(self, n: u64) -> u32
        ensures value { result ≡ n % self }
        ensures in_range { result < self }
    {
        (n % self.p as u64) as u32
    }

    /// The integer between `-p / 2` and `p / 2` that is congruent to `a`. It stands for `a` in print.
    pub fn symmetric(self, a: u32) -> i32
        requires { a < self }
        ensures { result ≡ symmetric self a }
    {
        if a <= self.p / 2 {
            a as i32
        } else {
            a as i32 - self.p as i32
        }
    }

    /// The inverse of a nonzero element: the element whose product with `a` is 1. By Euclid's
    /// algorithm, in a number of divisions that is logarithmic in the prime.
    pub fn inv(self, a: u32) -> u32
        requires in_range { a < self }
        requires not_zero { a ≢ 0 }
        ensures value { result ≡ inverse self a }
        ensures product { (a * result) % self ≡ 1 }
        ensures in_range { result < self }
    {
        // In the field `before` is `a * before_factor`, and `rest` is `a * factor`.
        let (mut before, mut rest) = (self.p(), a);
        let (mut before_factor, mut factor) = (0, 1);
        while rest != 1 {
            let quotient = before / rest;
            (before, rest) = (rest, before % rest);
            let next = self.sub(before_factor, self.mul(quotient, factor));
            (before_factor, factor) = (factor, next);
        }
        factor
    }

    /// The quotient `a / b`, for nonzero `b`: the element whose product with `b` is `a`.
    pub fn div(self, a: u32, b: u32) -> u32
        requires a_in_range { a < self }
        requires b_in_range { b < self }
        requires not_zero { b ≢ 0 }
        ensures value { result ≡ quotient self a b }
        ensures product { (b * result) % self ≡ a }
        ensures in_range { result < self }
        ensures not_zero { 0 < a → 0 < result }
    {
        self.mul(a, self.inv(b))
    }

    /// The power of an element, in a number of products that is logarithmic in the exponent. The
    /// power with exponent 0 is 1, also of zero.
    pub fn pow(self, a: u32, exponent: u32) -> u32
        requires { a < self }
        ensures value { result ≡ a ^ exponent % self }
        ensures in_range { result < self }
    {
        let _p = self.p();
        let (mut square, mut rest, mut power) = (a, exponent, 1);
        while rest > 0 {
            if rest % 2 == 1 {
                power = self.mul(power, square);
            }
            square = self.mul(square, square);
            rest /= 2;
        }
        power
    }
}

// The remainder of a division by `p`. By a number that the compiler knows it is a product, so the
// two primes that most scripts take are named.
fn remainder(n: u32, p: u32) -> u32
    requires { 0 < p }
    ensures { result ≡ n % p }
{
    match p {
        32003 => n % 32003,
        65521 => n % 65521,
        _ => n % p,
    }
}

#[cfg(test)]
mod tests {
    use super::*;

    #[test]
    fn takes_the_table_alone(rt: HostRuntime) {
        for p in [2, 251, 32003, 65521] {
            assert_eq!(rt; Field::of(p).map(|field| field.p()), Ok(p));
        }
        for p in [4, 1, 0, 65537] {
            assert_eq!(rt; Field::of(p), Err(NotInTable { p }));
        }
    }

    #[test]
    fn inverts_every_number(rt: HostRuntime) -> Result<(), NotInTable> {
        for p in [2, 3, 7, 101, 251] {
            let field = Field::of(p)?;
            for a in 1..field.p() {
                assert_eq!(rt; field.mul(a, field.inv(a)), 1, "{a} modulo {p}");
            }
        }
        Ok(())
    }

    #[test]
    fn computes_modulo_seven(rt: HostRuntime) -> Result<(), NotInTable> {
        let field = Field::of(7)?;
        assert_eq!(rt; field.p(), 7);
        assert_eq!(rt; field.add(5, 4), 2);
        assert_eq!(rt; field.sub(2, 5), 4);
        assert_eq!(rt; field.neg(0), 0);
        assert_eq!(rt; field.neg(3), 4);
        assert_eq!(rt; field.from_int(u64::MAX), 1);
        assert_eq!(rt; field.div(3, 5), 2);
        for (exponent, want) in [(0, 1), (1, 3), (5, 5), (u32::MAX, 6)] {
            assert_eq!(rt; field.pow(3, exponent), want, "3 to the power {exponent}");
        }
        for (a, want) in [(0, 0), (3, 3), (4, -3), (6, -1)] {
            assert_eq!(rt; field.symmetric(a), want, "at {a}");
        }
        Ok(())
    }
}
