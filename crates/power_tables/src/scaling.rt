// Columns times numbers, added to values.

ghost use Rattle.std.specs.Prelude.{◌≤◌, ◌<◌, length};
ghost use Rattle.trunc_series.specs.Arithmetic.{IsKeepable};
ghost use Rattle.power_tables.specs.Kept.{AreKeepable};
ghost use Rattle.power_tables.specs.Rows.{AddsAt, AddsScaled};

use trunc_series::sorted_terms::{Arithmetic, product, sum};

/// Adds a number times another one to the value at a place.
fn add_product(rule: Arithmetic, values: &mut Vec<i128>, at: usize, c: &i128, x: &i128)
    requires inside { at < length values.old.items }
    requires factor { IsKeepable rule c.now }
    requires number { IsKeepable rule x.now }
    requires values { AreKeepable rule values.old.items }
    ensures { AddsAt rule c.now x.now at values.old.items values.new.items }
{
    let more = product(rule, c, x);
    values[at] = sum(rule, &values[at], &more);
}

/// Adds a number times a column to the first of the values.
pub fn add_scaled(rule: Arithmetic, values: &mut Vec<i128>, c: &i128, column: &[i128])
    requires factor { IsKeepable rule c.now }
    requires column { AreKeepable rule column.now }
    requires values { AreKeepable rule values.old.items }
    requires lengths { length column.now ≤ length values.old.items }
    ensures added { AddsScaled rule c.now column.now values.old.items values.new.items }
    ensures keepable { AreKeepable rule values.new.items }
{
    for i in 0..column.len() {
        add_product(rule, values, i, c, &column[i]);
    }
}

/// The same with a column of numbers of 64 bits.
pub fn add_short(rule: Arithmetic, values: &mut Vec<i128>, c: &i128, column: &[i64])
    requires factor { IsKeepable rule c.now }
    requires column { AreKeepable rule column.now }
    requires values { AreKeepable rule values.old.items }
    requires lengths { length column.now ≤ length values.old.items }
    ensures added { AddsScaled rule c.now column.now values.old.items values.new.items }
    ensures keepable { AreKeepable rule values.new.items }
{
    for i in 0..column.len() {
        add_product(rule, values, i, c, &i128::from(column[i]));
    }
}
