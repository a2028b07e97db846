// Terms added to a list of terms with its table of places.

ghost use Rattle.std.specs.Prelude.{◌≡◌, OnOk, length, zip};
ghost use Rattle.trunc_series.specs.Shown.{sum_of};
ghost use Rattle.trunc_series.specs.Found.{counts, GetsTerm, GetsRow, StandsForOld};
ghost use Rattle.trunc_series.specs.Sums.{AreKeptValues, IsKeptValue, CanMultiply};

use crate::arithmetic::{Arithmetic, product, sum};
use crate::key::{Key, times};
use crate::places::{find, has_room, note_all, note_last};
use std::alloc::AllocError;

/// Whether the term's coefficient is other than 0.
fn counts(term: &(Key, i128)) -> bool
    ensures { result ≡ counts term.now }
{
    term.1 != 0
}

/// Makes room in the table of places for one term more. Where there is none, the terms with the coefficient 0
/// are dropped first: in sums that cancel they are most.
fn make_room(terms: &mut Vec<(Key, i128)>, places: &mut Vec<u32>) -> Result<(), AllocError>
    ensures { OnOk result (StandsForOld terms.old.items terms.new.items) }
{
    if has_room(terms.len(), places.len()) {
        return Ok(());
    }
    terms.retain(|t| counts(t));
    note_all(terms.as_slice(), places)
}

/// Adds a term.
#[inline(always)]
pub(crate) fn add_term(
    terms: &mut Vec<(Key, i128)>,
    places: &mut Vec<u32>,
    rule: Arithmetic,
    key: &Key,
    c: i128,
) -> Result<(), AllocError>
    requires terms { AreKeptValues rule (sum_of terms.old.items) }
    requires value { IsKeptValue rule c }
    ensures { OnOk result (GetsTerm rule terms.old.items terms.new.items key.now c) }
{
    let at = find(terms.as_slice(), places.as_slice(), key);
    if at < terms.len() {
        let c = sum(rule, &terms[at].1, &c);
        terms[at] = (*key, c);
        return Ok(());
    }
    make_room(terms, places)?;
    terms.push((*key, c))?;
    note_last(terms.as_slice(), places);
    Ok(())
}

/// Adds a term times a row of terms, whose keys and values are handed in side by side.
pub(crate) fn add_products(
    terms: &mut Vec<(Key, i128)>,
    places: &mut Vec<u32>,
    rule: Arithmetic,
    t: &(Key, i128),
    keys: &[Key],
    values: &[i128],
) -> Result<(), AllocError>
    requires terms { AreKeptValues rule (sum_of terms.old.items) }
    requires lengths { length keys.now ≡ length values.now }
    requires row { CanMultiply rule t.now (zip keys.now values.now) }
    ensures { OnOk result (GetsRow rule terms.old.items terms.new.items t.now keys.now values.now) }
{
    for i in 0..keys.len() {
        let c = product(rule, &t.1, &values[i]);
        add_term(terms, places, rule, &times(&t.0, &keys[i]), c)?;
    }
    Ok(())
}
