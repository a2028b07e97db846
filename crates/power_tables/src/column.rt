// Columns of numbers.

ghost use Rattle.std.specs.Prelude.{◌≡◌, ◌≤◌, length, IfOk};
ghost use Rattle.trunc_series.specs.Arithmetic.{IsKeepable};
ghost use Rattle.power_tables.specs.Columns.{IsShortOf};
ghost use Rattle.power_tables.specs.Kept.{AreKeepable};
ghost use Rattle.power_tables.specs.Rows.{AddsScaled};

use crate::scaling::{add_scaled, add_short};
use std::alloc::{AllocError, Global};
use std::marker::Model;
use trunc_series::sorted_terms::Arithmetic;

/// Numbers of 64 bits, or of 128.
#[derive(Drop)]
pub enum Numbers {
    Short(Vec<i64>),
    Long(Vec<i128>),
}

/// A list of numbers, which takes half the memory where all of them fit 64 bits.
#[derive(Drop)]
pub struct Column {
    numbers: Numbers,
}

impl Model for Column {
    ghost use Rattle.std.specs.Prelude.{List, ℤ};
    ghost use Rattle.power_tables.specs.Columns.{all_numbers};

    ghost Value = { List ℤ };

    ghost view = { λ c. all_numbers c.numbers };
}

/// The numbers in 64 bits, or None where one of them doesn't fit.
fn shortened(alloc: Global, numbers: &[i128]) -> Result<Option<Vec<i64>>, AllocError>
    ensures { IfOk result (IsShortOf numbers.now) }
{
    let mut short = Vec::with_capacity(alloc, numbers.len())?;
    for i in 0..numbers.len() {
        let Ok(x) = i64::try_from(numbers[i]) else {
            return Ok(None);
        };
        short.push(x)?;
    }
    Ok(Some(short))
}

impl Column {
    /// The column of these numbers.
    pub fn new(alloc: Global, numbers: Vec<i128>) -> Result<Column, AllocError>
        ensures { IfOk result (λ c. c ≡ numbers.items) }
    {
        let numbers = match shortened(alloc, numbers.as_slice())? {
            Some(short) => Numbers::Short(short),
            None => Numbers::Long(numbers),
        };
        Ok(Column { numbers })
    }

    /// Adds a number times the column to the first of the values.
    pub fn add_to(&self, rule: Arithmetic, c: &i128, values: &mut Vec<i128>)
        requires factor { IsKeepable rule c.now }
        requires column { AreKeepable rule self.now }
        requires values { AreKeepable rule values.old.items }
        requires lengths { length self.now ≤ length values.old.items }
        ensures added { AddsScaled rule c.now self.now values.old.items values.new.items }
        ensures keepable { AreKeepable rule values.new.items }
    {
        match &self.numbers {
            Numbers::Short(numbers) => add_short(rule, values, c, numbers.as_slice()),
            Numbers::Long(numbers) => add_scaled(rule, values, c, numbers.as_slice()),
        }
    }
}
