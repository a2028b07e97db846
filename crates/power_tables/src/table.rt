// Tables of powers.

ghost use Rattle.std.specs.Prelude.{◌≡◌, ◌≤◌, ◌<◌, ◌+◌, ◌-◌, map, length, IfOk, IsTrue};
ghost use Rattle.scattering.specs.Collections.{Every};
ghost use Rattle.power_tables.specs.Kept.{seen_part, IsSoundPart};
ghost use Rattle.limits.specs.Limits.{highest_order};
ghost use Rattle.scattering.specs.Series.{Exp, IsWallFunction};
ghost use Rattle.trunc_series.specs.Shown.{HasNearTerms};
ghost use Rattle.power_tables.specs.Tables.{IsTableOf, IsLinear, keys_at, numbers_at};

use crate::column::Column;
use crate::making::{least_degree, made_parts, others_of};
use std::alloc::{AllocError, Global};
use std::marker::Model;
use trunc_series::sorted_terms::Arithmetic;
use trunc_series::{Key, Series};

/// The keys of one degree, and the coefficients of u at the first of them, with those of u^2 and so on.
#[derive(Drop)]
pub struct Part {
    pub keys: Vec<Key>,
    pub first: Vec<i128>,
    pub higher: Vec<Column>,
}

/// The powers of a wall's function f to an order: those of u = f - 1, or of |f| - 1 where numbers saturate.
#[derive(Drop)]
pub struct PowerTable {
    rule: Arithmetic,
    order: u32,
    least: u32,
    parts: Vec<Part>,
}

impl Model for PowerTable {
    ghost use Rattle.std.specs.Prelude.{map};
    ghost use Rattle.power_tables.specs.Tables.{SeenTable};
    ghost use Rattle.power_tables.specs.Kept.{seen_part, IsSound};

    ghost Value = { SeenTable };

    ghost view = { λ t. record {
      rule = t.rule;
      order = t.order;
      least = t.least;
      parts = map seen_part t.parts.items;
    } };

    ghost invariant = { λ t. IsSound t.rule t.order t.least t.parts.items };
}

impl PowerTable {
    /// The table of a wall's function to an order, which may be above or below that of the function.
    pub fn new(
        alloc: Global,
        rule: Arithmetic,
        order: u32,
        function: &Series,
    ) -> Result<PowerTable, AllocError>
        requires order { order ≤ highest_order }
        requires wall { (d : Exp) × IsWallFunction function.now.order d function.now.terms }
        requires near { HasNearTerms function.now.terms }
        ensures { IfOk result (IsTableOf rule order function.now.terms) }
    {
        let u = others_of(alloc, rule, function.terms())?;
        let u = u.as_slice();
        let least = least_degree(u, order + 1);
        let parts = made_parts(alloc, rule, order, least, function.order(), u)?;
        Ok(PowerTable {
            rule,
            order,
            least,
            parts,
        })
    }

    /// A degree from 1 on below which the function has no terms but 1; above the order where it is 1 to there.
    pub fn least(&self) -> u32
        ensures value { result ≡ self.now.least }
        ensures positive { 1 ≤ result }
        ensures most { result ≤ highest_order + 1 }
    {
        self.least
    }

    /// The order of the table: the degree, at most 24, to which it has the powers.
    pub fn order(&self) -> u32
        ensures value { result ≡ self.now.order }
        ensures most { result ≤ highest_order }
    {
        self.order
    }

    /// The keys of a degree.
    pub fn keys(&self, degree: u32) -> &[Key]
        requires { self.now.least ≤ degree }
        ensures { result.now ≡ keys_at self.now degree }
    {
        match self.parts.get((degree - self.least) as usize) {
            Some(part) => part.keys.as_slice(),
            None => &[],
        }
    }

    /// The coefficients of u at the keys of a degree.
    pub fn numbers(&self, degree: u32) -> &[i128]
        requires { self.now.least ≤ degree }
        ensures { result.now ≡ numbers_at self.now degree }
    {
        match self.parts.get((degree - self.least) as usize) {
            Some(part) => part.first.as_slice(),
            None => &[],
        }
    }

    /// Whether no power of u but the first has terms. Then the part of f^n is n times that of u.
    pub fn is_linear(&self) -> bool
        ensures { IsTrue result → IsLinear self.now }
    {
        2 * self.least > self.order
    }

    /// The parts of the degrees from the least on.
    pub(crate) fn parts(&self) -> &[Part]
        ensures seen { map seen_part result.now ≡ self.now.parts }
        ensures sound { Every (IsSoundPart self.now.rule) result.now }
        ensures count { length result.now ≡ self.now.order + 1 - self.now.least }
    {
        self.parts.as_slice()
    }

    /// How coefficients are kept: modulo 2^128, for powers of f, or saturating at 2^126 + 1, for those of its
    /// majorant 1/(2 - |f|).
    pub fn rule(&self) -> Arithmetic
        ensures { result ≡ self.now.rule }
    {
        self.rule
    }
}
