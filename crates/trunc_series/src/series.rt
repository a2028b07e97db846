// Series with exact coefficients.

ghost use Rattle.std.specs.Prelude.{◌≡◌, ◌≢◌, ◌≤◌, ◌<◌, ◌+◌, ◌^◌, [], ◌∷◌, ◌++◌, pos, nat_abs, IfOk, IsTrue, ◌↔◌};
ghost use Rattle.limits.specs.Limits.{highest_order, largest_weight};
ghost use Rattle.scattering.specs.Collections.{Every, EveryPair};
ghost use Rattle.scattering.specs.Series.{one, unit, degree, rest, coef, cut, power};
ghost use Rattle.trunc_series.specs.Shown.{key_of, sum_of, IsTerm, IsSeriesOf, IsValid, HasNearTerms, product_of, sum_mass, product_mass, power_mass};

use crate::arithmetic::Arithmetic;
use crate::key::{Key, compare};
use crate::merge::{low_terms, merged, rises, same_terms};
use crate::power::{inverse_powered, powered};
use crate::product::multiplied;
use crate::sorting::collected;
use std::alloc::{AllocError, Global};
use std::cmp::Ordering;
use std::marker::Model;

/// A series of an order from 0 to 24: a finite map from keys of degree at most the order to nonzero
/// whole numbers of 128 bits. Its terms stand sorted by their keys.
#[derive(Drop)]
pub struct Series {
    alloc: Global,
    order: u32,
    terms: Vec<(Key, i128)>,
}

impl Model for Series {
    ghost use Rattle.trunc_series.specs.Shown.{Seen, sum_of, IsValid};

    ghost Value = { Seen };

    ghost view = { λ s. record { order = s.order; terms = sum_of s.terms.items } };

    ghost invariant = { λ s. IsValid s.order (sum_of s.terms.items) };
}

impl Series {
    /// 0, with no term.
    pub fn zero(alloc: Global, order: u32) -> Result<Series, AllocError>
        requires { order ≤ highest_order }
        ensures { IfOk result (λ s. IsSeriesOf s order []) }
    {
        let terms = Vec::new(alloc);
        Ok(Series {
            alloc,
            order,
            terms,
        })
    }

    /// 1, the term at the constant key.
    pub fn one(alloc: Global, order: u32) -> Result<Series, AllocError>
        requires { order ≤ highest_order }
        ensures { IfOk result (λ s. IsSeriesOf s order one) }
    {
        Series::monomial(alloc, order, Key::ONE, 1)
    }

    /// The series with the term of `key` and `c`, or 0 where `c` is 0 or the key's degree is above the
    /// order.
    pub fn monomial(alloc: Global, order: u32, key: Key, c: i128) -> Result<Series, AllocError>
        requires order { order ≤ highest_order }
        requires coefficient { nat_abs c ≤ largest_weight }
        ensures { IfOk result (λ s. IsSeriesOf s order (cut order ((key_of key, c) ∷ []))) }
    {
        let mut terms = Vec::new(alloc);
        if c != 0 && key.degree() <= order {
            terms.push((key, c))?;
        }
        Ok(Series {
            alloc,
            order,
            terms,
        })
    }

    /// The series with exactly these terms, in whatever order they come. A series is read at a higher
    /// order by passing its own terms.
    pub fn from_terms(
        alloc: Global,
        order: u32,
        terms: &[(Key, i128)],
    ) -> Result<Series, AllocError>
        requires order { order ≤ highest_order }
        requires distinct { EveryPair (λ t u. t.0 ≢ u.0) (sum_of terms.now) }
        requires each { Every (IsTerm order) (sum_of terms.now) }
        ensures { IfOk result (λ s. IsSeriesOf s order (sum_of terms.now)) }
    {
        let terms = if rises(terms) {
            Vec::from_slice(alloc, terms)?
        } else {
            collected(alloc, order, terms)?
        };
        Ok(Series {
            alloc,
            order,
            terms,
        })
    }

    /// The series with these terms, which stand sorted by their keys.
    pub fn from_sorted(alloc: Global, order: u32, terms: Vec<(Key, i128)>) -> Series
        requires { IsValid order (sum_of terms.items) }
        ensures order { result.order ≡ order }
        ensures terms { result.terms ≡ sum_of terms.items }
    {
        Series {
            alloc,
            order,
            terms,
        }
    }

    /// The order: no term has a higher degree.
    pub fn order(&self) -> u32
        ensures value { result ≡ self.now.order }
        ensures bounded { result ≤ highest_order }
    {
        self.order
    }

    /// The terms, sorted by their keys: by the exponent's a, then its b, then the powers. No coefficient
    /// is 0 and no key stands twice.
    pub fn terms(&self) -> &[(Key, i128)]
        ensures terms { sum_of result.now ≡ self.now.terms }
        ensures valid { IsValid self.now.order self.now.terms }
    {
        self.terms.as_slice()
    }

    /// The coefficient at a key, by bisection.
    pub fn coefficient(&self, key: &Key) -> i128
        ensures { result ≡ coef self.now.terms (key_of key.now) }
    {
        let terms = self.terms.as_slice();
        let mut low = 0;
        let mut high = terms.len();
        'search: while low < high {
            let middle = low + (high - low) / 2;
            match compare(&terms[middle].0, key) {
                Ordering::Less => low = middle + 1,
                Ordering::Greater => high = middle,
                Ordering::Equal => return terms[middle].1,
            }
        }
        0
    }

    pub fn add(&self, other: &Series) -> Result<Series, AllocError>
        requires order { other.now.order ≡ self.now.order }
        requires mass { sum_mass self.now other.now ≤ largest_weight }
        ensures { IfOk result (λ s. IsSeriesOf s self.now.order (self.now.terms ++ other.now.terms)) }
    {
        let left = self.terms.as_slice();
        let right = other.terms.as_slice();
        let terms = merged(self.alloc, Arithmetic::Wrapping, left, right)?;
        Ok(Series {
            alloc: self.alloc,
            order: self.order,
            terms,
        })
    }

    /// The product without terms of degree above the order.
    pub fn mul(&self, other: &Series) -> Result<Series, AllocError>
        requires order { other.now.order ≡ self.now.order }
        requires near { HasNearTerms self.now.terms }
        requires near_too { HasNearTerms other.now.terms }
        requires mass { product_mass self.now other.now ≤ largest_weight }
        ensures { IfOk result (λ s. IsSeriesOf s self.now.order (product_of self.now other.now)) }
    {
        let left = self.terms.as_slice();
        let right = other.terms.as_slice();
        let terms = multiplied(self.alloc, Arithmetic::Wrapping, self.order, left, right)?;
        Ok(Series {
            alloc: self.alloc,
            order: self.order,
            terms,
        })
    }

    /// The power of either sign without terms of degree above the order, of a series that is 1 and terms of
    /// degree at least 1. `mass` bounds the majorant's power: that of |f|, or of 1/(2 - |f|) for 1/f.
    pub fn power(&self, n: i32) -> Result<Series, AllocError>
        requires constant { coef self.now.terms unit ≡ pos 1 }
        requires others { Every (λ t. 1 ≤ degree t.0) (rest self.now.terms) }
        requires near { HasNearTerms self.now.terms }
        requires mass { power_mass self.now n ≤ largest_weight }
        ensures { IfOk result (λ s. IsSeriesOf s self.now.order (power self.now.order self.now.terms n)) }
    {
        let f = self.terms.as_slice();
        let count = n.unsigned_abs();
        let terms = if n < 0 {
            inverse_powered(self.alloc, self.order, f, count)?
        } else {
            powered(self.alloc, Arithmetic::Wrapping, self.order, f, count)?
        };
        Ok(Series {
            alloc: self.alloc,
            order: self.order,
            terms,
        })
    }

    /// The terms of degree at most `order`.
    pub fn truncate(&self, order: u32) -> Result<Series, AllocError>
        requires { order ≤ self.now.order }
        ensures { IfOk result (λ s. IsSeriesOf s order (cut order self.now.terms)) }
    {
        let terms = low_terms(self.alloc, order, self.terms.as_slice())?;
        Ok(Series {
            alloc: self.alloc,
            order,
            terms,
        })
    }

    /// Whether the orders and the terms are the same.
    pub fn same(&self, other: &Series) -> bool
        ensures { IsTrue result ↔ (self.now ≡ other.now) }
    {
        self.order == other.order && same_terms(self.terms.as_slice(), other.terms.as_slice())
    }

    pub(crate) fn allocator(&self) -> Global {
        self.alloc
    }

    pub fn copy(&self) -> Result<Series, AllocError>
        ensures { IfOk result (λ s. s ≡ self.now) }
    {
        Ok(Series {
            alloc: self.alloc,
            order: self.order,
            terms: Vec::from_slice(self.alloc, self.terms.as_slice())?,
        })
    }
}
