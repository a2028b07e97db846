// The terms of a list to each degree, so that a product forms no pair whose degree is above its order.

ghost use Rattle.std.specs.Prelude.{◌≡◌, ◌≤◌, ◌+◌, IfOk, length, map};
ghost use Rattle.limits.specs.Limits.{highest_order};
ghost use Rattle.scattering.specs.Series.{cut};
ghost use Rattle.trunc_series.specs.Shown.{sum_of};
ghost use Rattle.trunc_series.specs.LowRows.{IsLowRow, AreLowRows};

use crate::key::Key;
use crate::merge::low_terms;
use std::alloc::{AllocError, Global};
use std::marker::Model;

/// Terms whose keys and coefficients stand side by side.
#[derive(Drop)]
pub struct Row {
    pub keys: Vec<Key>,
    pub values: Vec<i128>,
}

/// The terms of a list to each degree from 0 to an order of at most 24, each as a row that a term is
/// multiplied by.
#[derive(Drop)]
pub struct LowRows {
    order: u32,
    rows: Vec<Row>,
}

impl Model for LowRows {
    ghost use Rattle.trunc_series.specs.Shown.{Seen};
    ghost use Rattle.trunc_series.specs.LowRows.{all_terms, IsFactorTo};

    ghost Value = { Seen };

    ghost view = { λ s. record { order = s.order; terms = all_terms s.rows.items } };

    ghost invariant = { λ s. IsFactorTo s.order s.rows.items };
}

/// The keys of terms.
fn keys_of(alloc: Global, terms: &[(Key, i128)]) -> Result<Vec<Key>, AllocError>
    ensures { IfOk result (λ r. r.items ≡ map (λ t. t.0) terms.now) }
{
    terms.iter().map(|t| t.0).collect(alloc)
}

/// The coefficients of terms.
fn values_of(alloc: Global, terms: &[(Key, i128)]) -> Result<Vec<i128>, AllocError>
    ensures { IfOk result (λ r. r.items ≡ map (λ t. t.1) terms.now) }
{
    terms.iter().map(|t| t.1).collect(alloc)
}

/// The terms of degree at most `degree`.
fn low_row(alloc: Global, degree: u32, terms: &[(Key, i128)]) -> Result<Row, AllocError>
    ensures { IfOk result (IsLowRow degree (sum_of terms.now)) }
{
    let low = low_terms(alloc, degree, terms)?;
    let keys = keys_of(alloc, low.as_slice())?;
    let values = values_of(alloc, low.as_slice())?;
    Ok(Row { keys, values })
}

/// Those for each degree from 0 to `order`.
fn low_rows(alloc: Global, order: u32, terms: &[(Key, i128)]) -> Result<Vec<Row>, AllocError>
    requires { order ≤ highest_order }
    ensures each { IfOk result (λ r. AreLowRows (sum_of terms.now) 0 r.items) }
    ensures count { IfOk result (λ r. length r.items ≡ order + 1) }
{
    let mut rows = Vec::with_capacity(alloc, order as usize + 1)?;
    for degree in 0..order + 1 {
        rows.push(low_row(alloc, degree, terms)?)?;
    }
    Ok(rows)
}

impl LowRows {
    /// The terms of a list up to an order.
    pub fn new(alloc: Global, order: u32, terms: &[(Key, i128)]) -> Result<LowRows, AllocError>
        requires { order ≤ highest_order }
        ensures order { IfOk result (λ rows. rows.order ≡ order) }
        ensures terms { IfOk result (λ rows. rows.terms ≡ cut order (sum_of terms.now)) }
    {
        let rows = low_rows(alloc, order, terms)?;
        Ok(LowRows { order, rows })
    }

    /// The highest degree.
    pub fn order(&self) -> u32
        ensures value { result ≡ self.now.order }
        ensures bound { result ≤ highest_order }
    {
        self.order
    }

    /// The terms of degree at most `degree`.
    pub fn row(&self, degree: u32) -> &Row
        requires { degree ≤ self.now.order }
        ensures { IsLowRow degree self.now.terms result.now }
    {
        &self.rows[degree as usize]
    }
}
