//! Exact fractions whose numerator and denominator are 128-bit whole numbers.
#![tactic(auto)]

ghost use Rattle.std.specs.Prelude.{◌↔◌, ◌≤ℤ◌, ◌*ℤ◌, pos, IsSome, IfSome};
ghost use Rattle.frac_128.specs.Quotient.{IsLowest, AreEqual, IsFractionSum, IsFractionProduct, SumFits, LowestFits};

mod divisor;
mod order;
mod text;

pub use divisor::gcd;
use divisor::without_common_divisor;

/// The number num/den, in lowest terms with den at least 1, so that equal numbers have equal fields.
#[derive(Clone, Copy, Debug, PartialEq, Eq)]
pub struct Fraction {
    pub num: i128,
    pub den: i128,
    pub ghost lowest: { IsLowest num den },
}

impl Fraction {
    /// num/den in lowest terms.
    pub fn new(num: i128, den: i128) -> Fraction
        requires { pos 1 ≤ℤ den }
        ensures { AreEqual result.num result.den num den }
    {
        let (num, den) = without_common_divisor(num, den);
        Fraction { num, den }
    }

    /// The sum, or None where a number on the way to it over the least common denominator leaves
    /// 128 bits: either numerator brought to that denominator, their sum, or that denominator.
    pub fn checked_add(self, other: Fraction) -> Option<Fraction>
        ensures sum { IfSome result (λ s. IsFractionSum self.num self.den other.num other.den s.num s.den) }
        ensures fits { IsSome result ↔ SumFits self.num self.den other.num other.den }
    {
        let (own, others) = without_common_divisor(self.den, other.den);
        let left = self.num.checked_mul(others)?;
        let right = other.num.checked_mul(own)?;
        let num = left.checked_add(right)?;
        let den = self.den.checked_mul(others)?;
        Some(Fraction::new(num, den))
    }

    /// The product, or None where its numerator or denominator in lowest terms leaves 128 bits.
    pub fn checked_mul(self, other: Fraction) -> Option<Fraction>
        ensures product { IfSome result
            (λ p. IsFractionProduct self.num self.den other.num other.den p.num p.den) }
        ensures fits { IsSome result ↔ LowestFits (self.num *ℤ other.num) (self.den *ℤ other.den) }
    {
        // Either numerator loses what it shares with the other denominator, so that the factors
        // multiply to the numbers of the product in lowest terms.
        let (a, d) = without_common_divisor(self.num, other.den);
        let (c, b) = without_common_divisor(other.num, self.den);
        let num = a.checked_mul(c)?;
        let den = b.checked_mul(d)?;
        Some(Fraction { num, den })
    }
}
