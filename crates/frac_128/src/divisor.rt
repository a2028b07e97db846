//! The greatest common divisor, and division by it.

ghost use Rattle.std.specs.Prelude.{pos, ◌≤ℤ◌};
ghost use Rattle.std.specs.Int.{IsGcd};
ghost use Rattle.frac_128.specs.Quotient.{AreReduced};

/// The greatest common divisor; that of 0 and 0 is 0.
pub fn gcd(a: u128, b: u128) -> u128
    ensures { IsGcd a b result }
{
    let mut x = a;
    let mut y = b;
    // a processor divides numbers of 64 bits many times faster
    while y > u64::MAX as u128 {
        let rest = x % y;
        x = y;
        y = rest;
    }
    if y == 0 {
        return x;
    }
    short_gcd(y as u64, (x % y) as u64) as u128
}

/// That of numbers of 64 bits.
fn short_gcd(a: u64, b: u64) -> u64
    ensures { IsGcd a b result }
{
    let mut x = a;
    let mut y = b;
    while y != 0 {
        let rest = x % y;
        x = y;
        y = rest;
    }
    x
}

/// Both numbers, divided by their greatest common divisor.
pub(crate) fn without_common_divisor(a: i128, b: i128) -> (i128, i128)
    requires { pos 1 ≤ℤ b }
    ensures { AreReduced a b result.0 result.1 }
{
    let common = gcd(a.unsigned_abs(), b.unsigned_abs()) as i128;
    (a / common, b / common)
}
