// Series with coefficients of at least 0, each kept as the lesser of its value and 2^126 + 1. They test
// the conditions on masses that exact series have.

ghost use Rattle.std.specs.Prelude.{◌≡◌, ◌≤◌, ◌+◌, ◌++◌, IfOk, min, pos};
ghost use Rattle.limits.specs.Limits.{largest_weight};
ghost use Rattle.scattering.specs.Series.{degree, coef, unit, rest, pow, absolute, geometric, mass_to};
ghost use Rattle.scattering.specs.Collections.{Every};
ghost use Rattle.trunc_series.specs.Shown.{sum_of, HasNearTerms, product_of};
ghost use Rattle.trunc_series.specs.Capped.{IsMajorant, IsMajorantOf, IsPowerNear, geometric_series};

use crate::arithmetic::{Arithmetic, LIMIT, total};
use crate::key::Key;
use crate::merge::{absolutes, merged};
use crate::power::{powered, powers_summed, without_constant};
use crate::product::multiplied;
use crate::series::Series;
use std::alloc::{AllocError, Global};
use std::marker::Model;

/// A series of an order from 0 to 24 with coefficients of at least 0, each kept as the lesser of its value
/// and 2^126 + 1. Its terms stand sorted by their keys.
#[derive(Drop)]
pub struct Majorant {
    alloc: Global,
    order: u32,
    terms: Vec<(Key, i128)>,
}

impl Model for Majorant {
    ghost use Rattle.trunc_series.specs.Shown.{Seen, sum_of};
    ghost use Rattle.trunc_series.specs.Capped.{IsMajorant};

    ghost Value = { Seen };

    ghost view = { λ s. record { order = s.order; terms = sum_of s.terms.items } };

    ghost invariant = { λ s. IsMajorant s.order (sum_of s.terms.items) };
}

impl Majorant {
    /// The highest degree of a term, as of the series that it bounds.
    pub fn order(&self) -> u32
        ensures { result ≡ self.now.order }
    {
        self.order
    }

    /// The absolute values of a series' coefficients.
    pub fn of(f: &Series) -> Result<Majorant, AllocError>
        ensures { IfOk result (λ m. IsMajorantOf m f.now.order (absolute f.now.terms)) }
    {
        let alloc = f.allocator();
        Ok(Majorant {
            alloc,
            order: f.order(),
            terms: absolutes(alloc, f.terms())?,
        })
    }

    /// The majorant with these terms, which stand sorted by their keys.
    pub fn from_sorted(alloc: Global, order: u32, terms: Vec<(Key, i128)>) -> Majorant
        requires { IsMajorant order (sum_of terms.items) }
        ensures order { result.order ≡ order }
        ensures terms { result.terms ≡ sum_of terms.items }
    {
        Majorant {
            alloc,
            order,
            terms,
        }
    }

    /// 1/(2 - |f|), the sum of all powers of |f| - 1, of a series that is 1 and terms of degree at least 1.
    pub fn geometric_of(f: &Series) -> Result<Majorant, AllocError>
        requires others { Every (λ t. 1 ≤ degree t.0) (rest f.now.terms) }
        requires near { HasNearTerms f.now.terms }
        ensures { IfOk result (λ m. IsMajorantOf m f.now.order (geometric f.now.order f.now.terms)) }
    {
        let alloc = f.allocator();
        let others = without_constant(alloc, f.terms())?;
        let others = absolutes(alloc, others.as_slice())?;
        let terms = powers_summed(alloc, Arithmetic::Saturating, f.order(), others.as_slice())?;
        Ok(Majorant {
            alloc,
            order: f.order(),
            terms,
        })
    }

    /// The terms, sorted as those of a series are. No coefficient is 0 and no key stands twice.
    pub fn terms(&self) -> &[(Key, i128)]
        ensures terms { sum_of result.now ≡ self.now.terms }
        ensures majorant { IsMajorant self.now.order self.now.terms }
    {
        self.terms.as_slice()
    }

    pub fn add(&self, other: &Majorant) -> Result<Majorant, AllocError>
        requires { other.now.order ≡ self.now.order }
        ensures { IfOk result (λ m. IsMajorantOf m self.now.order (self.now.terms ++ other.now.terms)) }
    {
        let left = self.terms.as_slice();
        let right = other.terms.as_slice();
        let terms = merged(self.alloc, Arithmetic::Saturating, left, right)?;
        Ok(Majorant {
            alloc: self.alloc,
            order: self.order,
            terms,
        })
    }

    /// The product without terms of degree above the order.
    pub fn mul(&self, other: &Majorant) -> Result<Majorant, AllocError>
        requires order { other.now.order ≡ self.now.order }
        requires near { HasNearTerms self.now.terms }
        requires near_too { HasNearTerms other.now.terms }
        ensures { IfOk result (λ m. IsMajorantOf m self.now.order (product_of self.now other.now)) }
    {
        let left = self.terms.as_slice();
        let right = other.terms.as_slice();
        let terms = multiplied(self.alloc, Arithmetic::Saturating, self.order, left, right)?;
        Ok(Majorant {
            alloc: self.alloc,
            order: self.order,
            terms,
        })
    }

    /// 1/(2 - f), the sum of all powers of f - 1.
    pub fn geometric(&self) -> Result<Majorant, AllocError>
        requires constant { coef self.now.terms unit ≡ pos 1 }
        requires others { Every (λ t. 1 ≤ degree t.0) (rest self.now.terms) }
        requires near { HasNearTerms self.now.terms }
        ensures { IfOk result (λ m. IsMajorantOf m self.now.order (geometric_series self.now)) }
    {
        let others = without_constant(self.alloc, self.terms.as_slice())?;
        let terms = powers_summed(
            self.alloc,
            Arithmetic::Saturating,
            self.order,
            others.as_slice(),
        )?;
        Ok(Majorant {
            alloc: self.alloc,
            order: self.order,
            terms,
        })
    }

    /// The power without terms of degree above the order. Exponents are within 2^16, and so are those of the
    /// power, unless all terms but that of the constant key have degree at least 1.
    pub fn power(&self, n: u32) -> Result<Majorant, AllocError>
        requires near { HasNearTerms self.now.terms }
        requires near_power { IsPowerNear self.now n }
        ensures { IfOk result (λ m. IsMajorantOf m self.now.order (pow self.now.order self.now.terms n)) }
    {
        let terms = powered(
            self.alloc,
            Arithmetic::Saturating,
            self.order,
            self.terms.as_slice(),
            n,
        )?;
        Ok(Majorant {
            alloc: self.alloc,
            order: self.order,
            terms,
        })
    }

    /// The sum of the coefficients, or 2^126 + 1 where it is above that.
    pub fn mass(&self) -> u128
        ensures { result ≡ min (mass_to self.now.order self.now.terms) (largest_weight + 1) }
    {
        let mut mass = 0;
        for t in self.terms.as_slice() {
            mass = total(mass, &t.1);
        }
        mass
    }

    pub fn copy(&self) -> Result<Majorant, AllocError>
        ensures { IfOk result (λ m. m ≡ self.now) }
    {
        let terms = Vec::from_slice(self.alloc, self.terms.as_slice())?;
        Ok(Majorant {
            alloc: self.alloc,
            order: self.order,
            terms,
        })
    }
}
