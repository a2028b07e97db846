//! The order of fractions.

ghost use Rattle.std.specs.Prelude.{◌≡◌, ◌≤◌, ◌*◌, ◌*ℤ◌};
ghost use Rattle.std.specs.Ordering.{nat_cmp, int_cmp};

use crate::Fraction;
use std::cmp::Ordering;

impl Fraction {
    /// By value, exact for all fractions.
    pub fn compare(self, other: Fraction) -> Ordering
        ensures { result ≡ int_cmp (self.num *ℤ other.den) (other.num *ℤ self.den) }
    {
        let (a, b) = (self.num.unsigned_abs(), self.den.unsigned_abs());
        let (c, d) = (other.num.unsigned_abs(), other.den.unsigned_abs());
        match (self.num < 0, other.num < 0) {
            (false, false) => compare_sizes(a, b, c, d),
            (false, true) => Ordering::Greater,
            (true, false) => Ordering::Less,
            (true, true) => compare_sizes(c, d, a, b),
        }
    }
}

/// a/b against c/d, by their continued fractions, since their cross products may need 256 bits.
fn compare_sizes(mut a: u128, mut b: u128, mut c: u128, mut d: u128) -> Ordering
    requires b { 1 ≤ b }
    requires d { 1 ≤ d }
    ensures { result ≡ nat_cmp (a * d) (c * b) }
{
    while a / b == c / d {
        let (rest, other_rest) = (a % b, c % d);
        if rest == 0 || other_rest == 0 {
            return rest.cmp(&other_rest);
        }
        // rest/b against other_rest/d is as d/other_rest against b/rest.
        (a, b, c, d) = (d, other_rest, b, rest);
    }
    (a / b).cmp(&(c / d))
}
