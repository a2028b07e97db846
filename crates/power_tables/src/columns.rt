// Parts of a table: for lists of terms the keys of all, each once, and for each list its coefficients at them.

ghost use Rattle.std.specs.Prelude.{◌≡◌, ◌≤◌, ◌<◌, IfOk, OnOk, length, pos, replicate, slice_index_or};
ghost use Rattle.scattering.specs.Collections.{Every};
ghost use Rattle.trunc_series.specs.declared.key.Key.{Key as CodeKey};
ghost use Rattle.trunc_series.specs.Shown.{sum_of};
ghost use Rattle.trunc_series.specs.Sums.{AreKeptValues, IsKeptValue};
ghost use Rattle.power_tables.specs.Tables.{column_sum};
ghost use Rattle.power_tables.specs.Made.{GetsAt, GetsColumn, HasLists};

use crate::column::Column;
use crate::table::Part;
use std::alloc::{AllocError, Global};
use trunc_series::Key;
use trunc_series::sorted_terms::{Arithmetic, TermSum, same, sum};

/// A place of the key in the list, where `found` tells of one, or the number of keys.
fn place_of(keys: &[Key], found: &TermSum, key: &Key) -> usize
    ensures within { result ≤ length keys.now }
    ensures key { (d : CodeKey) → result < length keys.now
        → slice_index_or keys.now result d ≡ key.now }
{
    let at = found.place(key);
    if at < keys.len() && same(&keys[at], key) {
        return at;
    }
    keys.len()
}

/// Adds a term to a column, with its key where that is new. `found` has the keys.
fn add_at(
    rule: Arithmetic,
    keys: &mut Vec<Key>,
    column: &mut Vec<i128>,
    found: &mut TermSum,
    t: &(Key, i128),
) -> Result<(), AllocError>
    requires lengths { length column.old.items ≡ length keys.old.items }
    requires values { AreKeptValues rule (column_sum keys.old.items column.old.items) }
    requires value { IsKeptValue rule t.now.1 }
    requires found { AreKeptValues rule found.old }
    ensures gets { OnOk result
        (GetsAt rule keys.old.items keys.new.items column.old.items column.new.items t.now) }
    ensures found { OnOk result (AreKeptValues rule found.new) }
{
    let at = place_of(keys.as_slice(), found, &t.0);
    if at < column.len() {
        column[at] = sum(rule, &column[at], &t.1);
        return Ok(());
    }
    // 1, since terms of coefficient 0 may be dropped, and then places change
    found.add(rule, &t.0, 1)?;
    keys.push(t.0)?;
    column.push(t.1)?;
    Ok(())
}

/// So many zeros.
fn zeros(alloc: Global, count: usize) -> Result<Vec<i128>, AllocError>
    ensures { IfOk result (λ r. r.items ≡ replicate count (pos 0)) }
{
    let mut out = Vec::new(alloc);
    out.resize(count, 0)?;
    Ok(out)
}

/// The column of a list of terms, whose new keys are put behind the others.
fn column_of(
    alloc: Global,
    rule: Arithmetic,
    keys: &mut Vec<Key>,
    found: &mut TermSum,
    terms: &[(Key, i128)],
) -> Result<Vec<i128>, AllocError>
    requires values { AreKeptValues rule (sum_of terms.now) }
    requires found { AreKeptValues rule found.old }
    ensures column { IfOk result
        (λ r. GetsColumn rule keys.old.items keys.new.items r.items (sum_of terms.now)) }
    ensures found { OnOk result (AreKeptValues rule found.new) }
{
    let mut column = zeros(alloc, keys.len())?;
    for i in 0..terms.len() {
        add_at(rule, keys, &mut column, found, &terms[i])?;
    }
    Ok(column)
}

/// The part of a table for the lists of the terms of u, u^2 and so on. `found` is scratch.
pub fn part_of(
    alloc: Global,
    rule: Arithmetic,
    lists: &[Vec<(Key, i128)>],
    found: &mut TermSum,
) -> Result<Part, AllocError>
    requires some { 1 ≤ length lists.now }
    requires values { Every (λ p. AreKeptValues rule (sum_of p.items)) lists.now }
    ensures { IfOk result (HasLists rule lists.now) }
{
    found.clear();
    let mut keys = Vec::new(alloc);
    let mut first = column_of(alloc, rule, &mut keys, found, lists[0].as_slice())?;
    first.shrink_to_fit();
    let mut higher = Vec::new(alloc);
    for r in 1..lists.len() {
        let column = column_of(alloc, rule, &mut keys, found, lists[r].as_slice())?;
        higher.push(Column::new(alloc, column)?)?;
    }
    keys.shrink_to_fit();
    Ok(Part {
        keys,
        first,
        higher,
    })
}
