// The table of places: where in a list of terms a key may stand, by a hash of the key. It is at
// most a quarter full, and free where a search ends. Nothing is proved of what it holds. Lists of few terms
// that were never longer have none.

ghost use Rattle.std.specs.Prelude.{◌≡◌, ◌<◌, ◌≤◌, ℕ, ℤ, length, slice_index_or};
ghost use Rattle.trunc_series.specs.Found.{IsFound};

use crate::key::{Key, same};
use std::alloc::AllocError;

/// Up to so many terms are compared one by one, without a table.
const FEW: usize = 8;

/// The places of the smallest table.
const SMALLEST: usize = 64;

/// A place in the table that is free.
const FREE: u32 = u32::MAX;

/// A number that spreads keys: the exponent's product with an odd number, and all powers, as one
/// number whose product of 128 bits is folded to 64.
fn hash(key: &Key) -> u64 {
    let a = u64::from(key.exp.a.cast_unsigned());
    let b = u64::from(key.exp.b.cast_unsigned());
    let exponent = (a ^ (b << 32)).wrapping_mul(0xD6E8FEB86659FD93);
    let mixed = exponent ^ u64::from_le_bytes(key.powers);
    let product = u128::from(mixed).wrapping_mul(0x9E3779B97F4A7C15);
    let high = (product >> 64) as u64;
    let low = mixed.wrapping_mul(0x9E3779B97F4A7C15);
    high ^ low
}

/// A place where the key stands among a few terms, or their number.
fn find_few(terms: &[(Key, i128)], key: &Key) -> usize
    ensures { IsFound terms.now key.now result }
{
    for i in 0..terms.len() {
        if same(&terms[i].0, key) {
            return i;
        }
    }
    terms.len()
}

/// A place where the key stands, as the table tells, or the number of terms.
pub(crate) fn find(terms: &[(Key, i128)], places: &[u32], key: &Key) -> usize
    ensures { IsFound terms.now key.now result }
{
    if terms.len() <= FEW {
        return find_few(terms, key);
    }
    let start = hash(key);
    let mask = (places.len() as u64).wrapping_sub(1);
    for step in 0..places.len() {
        let at = start.wrapping_add(step as u64) & mask;
        let Some(place) = places.get(at as usize) else {
            return terms.len();
        };
        let place = *place as usize;
        if place >= terms.len() {
            return terms.len();
        }
        if same(&terms[place].0, key) {
            return place;
        }
    }
    terms.len()
}

/// Whether the table has room for one term more.
pub(crate) fn has_room(count: usize, places: usize) -> bool {
    count < FEW || count < places / 4
}

/// Notes the places of all terms anew, in a table of twice the size where they fill more than an eighth.
pub(crate) fn note_all(terms: &[(Key, i128)], places: &mut Vec<u32>) -> Result<(), AllocError> {
    let size = if places.len() < SMALLEST {
        SMALLEST
    } else if terms.len() <= places.len() / 8 {
        places.len()
    } else {
        places.len().saturating_mul(2)
    };
    places.clear();
    places.resize(size, FREE)?;
    for at in 0..terms.len() {
        note(terms, places, at);
    }
    Ok(())
}

/// Notes the place of the last term, where there is a table.
pub(crate) fn note_last(terms: &[(Key, i128)], places: &mut Vec<u32>) {
    if places.len() > 0 && terms.len() > 0 {
        note(terms, places, terms.len() - 1);
    }
}

/// Notes the place of a term.
fn note(terms: &[(Key, i128)], places: &mut Vec<u32>, at: usize) {
    let Some(term) = terms.get(at) else {
        return;
    };
    let Ok(place) = u32::try_from(at) else {
        return;
    };
    let start = hash(&term.0);
    let mask = (places.len() as u64).wrapping_sub(1);
    for step in 0..places.len() {
        let to = start.wrapping_add(step as u64) & mask;
        let Some(free) = places.get_mut(to as usize) else {
            return;
        };
        if *free == FREE {
            *free = place;
            return;
        }
    }
}
