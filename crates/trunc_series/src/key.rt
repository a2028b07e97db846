// Keys: the powers of t1 to t8 and an exponent.

ghost use Rattle.std.specs.Prelude.{◌≡◌, ◌≤◌, ◌<◌, ◌+◌, IsTrue};
ghost use Rattle.scattering.specs.Series.{degree, key_eq, key_mul, powers_add, unit};
ghost use Rattle.trunc_series.specs.Shown.{key_of, powers_of};
ghost use Rattle.trunc_series.specs.Reduced.{key_order, IsNearKey};
ghost use Rattle.trunc_series.specs.Found.{PowersFit};

use std::cmp::Ordering;

/// An exponent: a pair of whole numbers.
#[derive(Clone, Copy, Debug, PartialEq, Eq, PartialOrd, Ord)]
pub struct Exp {
    pub a: i32,
    pub b: i32,
}

/// The monomial t1^p1 .. t8^p8 z^exp. Keys are ordered by the exponent's a, then its b, then the powers.
#[derive(Clone, Copy, Debug, PartialEq, Eq, PartialOrd, Ord)]
pub struct Key {
    pub exp: Exp,
    pub powers: [u8; 8],
}

impl Key {
    /// The constant key: no power, and exponent 0.
    pub const ONE: Key = Key {
        exp: Exp { a: 0, b: 0 },
        powers: [0; 8],
    };

    /// The sum of the powers.
    pub fn degree(&self) -> u32
        ensures value { result ≡ degree (key_of self.now) }
        ensures small { result ≤ 2040 }
    {
        let p = self.powers;
        let low = p[0] as u32 + p[1] as u32 + p[2] as u32 + p[3] as u32;
        low + p[4] as u32 + p[5] as u32 + p[6] as u32 + p[7] as u32
    }
}

/// How two keys stand.
pub fn compare(k: &Key, l: &Key) -> Ordering
    ensures { result ≡ key_order (key_of k.now) (key_of l.now) }
{
    k.cmp(l)
}

/// Whether it is the constant key.
pub fn is_constant(k: &Key) -> bool
    ensures { result ≡ key_eq (key_of k.now) unit }
{
    k.exp.a == 0 && k.exp.b == 0 && k.degree() == 0
}

/// Whether two lists of powers are the same.
#[inline(always)]
fn same_powers(p: [u8; 8], q: [u8; 8]) -> bool
    ensures { IsTrue result → p ≡ q }
{
    u64::from_le_bytes(p) == u64::from_le_bytes(q)
}

/// Whether two keys are the same, all eight powers compared as one number.
#[inline(always)]
pub fn same(k: &Key, l: &Key) -> bool
    ensures { IsTrue result → k.now ≡ l.now }
{
    if k.exp.a != l.exp.a {
        return false;
    }
    if k.exp.b != l.exp.b {
        return false;
    }
    same_powers(k.powers, l.powers)
}

/// The sums of the powers, all eight added as one number.
#[inline(always)]
fn powers_sum(p: [u8; 8], q: [u8; 8]) -> [u8; 8]
    requires { PowersFit p q }
    ensures { powers_of result ≡ powers_add (powers_of p) (powers_of q) }
{
    (u64::from_le_bytes(p) + u64::from_le_bytes(q)).to_le_bytes()
}

/// The product of two monomials.
#[inline(always)]
pub fn times(k: &Key, l: &Key) -> Key
    requires degrees { degree (key_of k.now) + degree (key_of l.now) < 256 }
    requires left { IsNearKey (key_of k.now) }
    requires right { IsNearKey (key_of l.now) }
    ensures { key_of result ≡ key_mul (key_of k.now) (key_of l.now) }
{
    Key {
        exp: Exp {
            a: k.exp.a + l.exp.a,
            b: k.exp.b + l.exp.b,
        },
        powers: powers_sum(k.powers, l.powers),
    }
}
