// Values of powers, by exponent.

ghost use Rattle.std.specs.Prelude.{◌≡◌, ◌≤◌, ◌<◌, ℕ, ℤ, List, [], map, IfOk, OnOk, length, slice_index_or};
ghost use Rattle.scattering.specs.Collections.{Every};
ghost use Rattle.power_tables.specs.Kept.{AreKeepable, IsSoundPart, numbers_of};
ghost use Rattle.power_tables.specs.Rows.{HasFactors};
ghost use Rattle.power_tables.specs.Tables.{SeenTable};
ghost use Rattle.power_tables.specs.Values.{AreOf, AreReached, values_in};
ghost use Rattle.power_tables.specs.Entries.{AreCombinedParts, AreEntries, IsEntryPlace};
ghost use Rattle.power_tables.specs.Binomials.{AreBinomials};
ghost use Rattle.trunc_series.specs.declared.arithmetic.Arithmetic.{Arithmetic};
ghost use Rattle.power_tables.specs.declared.table.Part.{Part};

use crate::combining::combine;
use crate::rows::{Binomials, family_of, make_row, row_of};
use crate::table::{Part, PowerTable};
use std::alloc::{AllocError, Global};
use std::marker::Model;
use trunc_series::sorted_terms::Arithmetic;

/// The values of the power with one exponent, of as many degrees from the least on as are filled; what stands
/// behind those is memory that is kept.
#[derive(Drop)]
pub struct Entry {
    pub exponent: i64,
    pub filled: usize,
    pub parts: Vec<Vec<i128>>,
}

/// The values of powers of one table: each set at a place by its exponent, which a later one with the
/// same place takes.
#[derive(Drop)]
pub struct PowerValues {
    alloc: Global,
    entries: Vec<Entry>,
    binomials: Binomials,
}

impl Model for PowerValues {
    ghost use Rattle.std.specs.Prelude.{List, map};
    ghost use Rattle.power_tables.specs.Values.{SeenValues};
    ghost use Rattle.power_tables.specs.Entries.{seen_values};
    ghost use Rattle.power_tables.specs.Binomials.{AreBinomials};

    ghost Value = { List SeenValues };

    ghost view = { λ v. map seen_values v.entries.items };

    ghost invariant = { λ v. AreBinomials v.binomials };
}

/// Makes room for the values of `count` parts.
fn make_room(alloc: Global, values: &mut Vec<Vec<i128>>, count: usize) -> Result<(), AllocError>
    ensures values { OnOk result ((j : ℕ) → slice_index_or (map numbers_of values.new.items) j []
        ≡ slice_index_or (map numbers_of values.old.items) j []) }
    ensures made { OnOk result (count ≤ length values.new.items) }
{
    'grow: while values.len() < count {
        values.push(Vec::new(alloc))?;
    }
    Ok(())
}

/// Makes the values of the parts from `from` on, so that there are those of the first `count`.
fn add_parts(
    rule: Arithmetic,
    row: &[i128],
    parts: &[Part],
    from: usize,
    count: usize,
    values: &mut Vec<Vec<i128>>,
) -> Result<(), AllocError>
    requires parts { Every (IsSoundPart rule) parts.now }
    requires row { AreKeepable rule row.now }
    requires width { length row.now ≡ 25 }
    requires from { from ≤ count }
    requires count { count ≤ length parts.now }
    requires room { count ≤ length values.old.items }
    ensures { OnOk result ((n : ℤ) → HasFactors rule n row.now
        → AreCombinedParts rule n parts.now from values.old.items
        → AreCombinedParts rule n parts.now count values.new.items) }
{
    for j in from..count {
        combine(rule, row, &parts[j], &mut values[j])?;
    }
    Ok(())
}

/// Takes an entry for the exponent `n`, without values.
fn restart(entry: &mut Entry, n: i64)
    ensures exponent { entry.new.exponent ≡ n }
    ensures none { entry.new.filled ≡ 0 }
{
    entry.exponent = n;
    entry.filled = 0;
}

/// Forgets the values of all entries, and keeps the memory.
fn forget(entries: &mut Vec<Entry>)
    ensures { Every (λ e. e.filled ≡ 0) entries.new.items }
{
    for i in 0..entries.len() {
        restart(&mut entries[i], 0);
    }
}

/// Makes a place that is that of the exponent `n`.
fn make_place(
    alloc: Global,
    entries: &mut Vec<Entry>,
    place: usize,
    n: i64,
) -> Result<(), AllocError>
    ensures entries { OnOk result ((rule : Arithmetic) (parts : List Part)
        → AreEntries rule parts entries.old.items → AreEntries rule parts entries.new.items) }
    ensures made { OnOk result (IsEntryPlace entries.new.items place n) }
{
    'grow: while entries.len() <= place {
        let parts = Vec::new(alloc);
        entries.push(Entry {
            exponent: n,
            filled: 0,
            parts,
        })?;
    }
    if entries[place].exponent == n {
        return Ok(());
    }
    restart(&mut entries[place], n);
    Ok(())
}

/// Adds values of more parts to those of an exponent, so that there are those of the first `count`.
fn extend(
    alloc: Global,
    rule: Arithmetic,
    parts: &[Part],
    count: usize,
    entry: &mut Entry,
    binomials: &mut Binomials,
) -> Result<(), AllocError>
    requires parts { Every (IsSoundPart rule) parts.now }
    requires count { count ≤ length parts.now }
    requires entry { AreCombinedParts rule entry.old.exponent parts.now entry.old.filled
        entry.old.parts.items }
    requires binomials { AreBinomials binomials.old }
    ensures exponent { entry.new.exponent ≡ entry.old.exponent }
    ensures entry { OnOk result
        (AreCombinedParts rule entry.new.exponent parts.now entry.new.filled
        entry.new.parts.items) }
    ensures made { OnOk result (count ≤ entry.new.filled) }
    ensures binomials { AreBinomials binomials.new }
{
    if entry.filled >= count {
        return Ok(());
    }
    make_room(alloc, &mut entry.parts, count)?;
    let m = entry.exponent.unsigned_abs() as usize;
    let family = family_of(rule, entry.exponent);
    make_row(alloc, family, m, binomials)?;
    let row = row_of(family, m, binomials);
    let from = entry.filled;
    add_parts(rule, row, parts, from, count, &mut entry.parts)?;
    entry.filled = count;
    Ok(())
}

impl PowerValues {
    /// No values.
    pub fn new(alloc: Global) -> Result<PowerValues, AllocError>
        ensures { IfOk result (λ v. (t : SeenTable) → AreOf t v) }
    {
        Ok(PowerValues {
            alloc,
            entries: Vec::new(alloc),
            binomials: Binomials {
                above: Vec::new(alloc),
                below: Vec::new(alloc),
                multisets: Vec::new(alloc),
                far: Vec::new(alloc),
            },
        })
    }

    /// Forgets all values, before another table is taken, and keeps the memory.
    pub fn begin(&mut self)
        ensures { (t : SeenTable) → AreOf t self.new }
    {
        forget(&mut self.entries);
    }

    /// Makes the values of the power with the exponent `n`, of the table's degrees to `top`, and tells
    /// their place.
    pub fn reach(&mut self, table: &PowerTable, n: i64, top: u32) -> Result<usize, AllocError>
        requires top { top ≤ table.now.order }
        requires values { AreOf table.now self.old }
        ensures values { OnOk result (AreOf table.now self.new) }
        ensures reached { IfOk result (AreReached self.new table.now n top) }
    {
        let place = (n.cast_unsigned() % 64) as usize;
        make_place(self.alloc, &mut self.entries, place, n)?;
        let highest = top.min(table.order());
        let count = (highest + 1).saturating_sub(table.least()) as usize;
        let entry = &mut self.entries[place];
        let parts = table.parts();
        extend(
            self.alloc,
            table.rule(),
            parts,
            count,
            entry,
            &mut self.binomials,
        )?;
        Ok(place)
    }

    /// The values of a degree, at the keys that the table has of it.
    pub fn part(&self, table: &PowerTable, place: usize, degree: u32) -> &[i128]
        requires { table.now.least ≤ degree }
        ensures { result.now ≡ values_in self.now table.now place degree }
    {
        let Some(entry) = self.entries.get(place) else {
            return &[];
        };
        match entry.parts.get((degree - table.least()) as usize) {
            Some(values) => values.as_slice(),
            None => &[],
        }
    }
}
