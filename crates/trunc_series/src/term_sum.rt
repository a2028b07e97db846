// Sums under construction. The terms stand in the order in which their keys came, and a table of places by
// hash says where a key may stand. No proof rests on that table: a place is taken only if the term there has
// the key. So it is known what the terms sum to, and not that no key stands twice. Terms whose coefficients
// have become 0 are dropped where else the table would grow.

ghost use Rattle.std.specs.Prelude.{◌≡◌, ◌∷◌, [], OnOk, IfOk, length, zip};
ghost use Rattle.trunc_series.specs.Shown.{key_of, sum_of};
ghost use Rattle.trunc_series.specs.Sums.{AreKeptValues, IsKeptValue, StandsFor, IsSortedFor, CanMultiply, AddsRow, IsPlaceOf};

use crate::adding::{add_products, add_term};
use crate::arithmetic::Arithmetic;
use crate::key::Key;
use crate::places::find;
use crate::sorting::in_order;
use std::alloc::{AllocError, Global};
use std::marker::Model;

/// A sum of terms whose coefficients are added up as they come.
#[derive(Drop)]
pub struct TermSum {
    terms: Vec<(Key, i128)>,
    places: Vec<u32>,
}

impl Model for TermSum {
    ghost use Rattle.scattering.specs.Series.{Sum};
    ghost use Rattle.trunc_series.specs.Shown.{sum_of};

    ghost Value = { Sum };

    ghost view = { λ s. sum_of s.terms.items };
}

impl TermSum {
    /// The sum of no terms.
    pub fn new(alloc: Global) -> TermSum
        ensures { result ≡ [] }
    {
        TermSum {
            terms: Vec::new(alloc),
            places: Vec::new(alloc),
        }
    }

    /// Takes all terms out, and keeps the memory.
    pub fn clear(&mut self)
        ensures { self.new ≡ [] }
    {
        self.terms.clear();
        self.places.clear();
    }

    /// The terms, in the order in which their keys came. They sum to what was added; where two have
    /// the same key, its coefficient is the sum of both. Some with the coefficient 0 may be missing.
    pub fn terms(&self) -> &[(Key, i128)]
        ensures { sum_of result.now ≡ self.now }
    {
        self.terms.as_slice()
    }

    /// A place at which the key stands in the list of terms, or their number.
    pub fn place(&self, key: &Key) -> usize
        ensures { IsPlaceOf self.now (key_of key.now) result }
    {
        find(self.terms.as_slice(), self.places.as_slice(), key)
    }

    /// The terms as a sorted list: keys rise, like terms are added, and no coefficient is 0.
    pub fn sorted(&self, alloc: Global, rule: Arithmetic) -> Result<Vec<(Key, i128)>, AllocError>
        requires { AreKeptValues rule self.now }
        ensures { IfOk result (λ r. IsSortedFor rule (sum_of r.items) self.now) }
    {
        in_order(alloc, rule, self.terms.as_slice())
    }

    /// Adds `c` at the key. Where memory runs out the term may be missing.
    pub fn add(&mut self, rule: Arithmetic, key: &Key, c: i128) -> Result<(), AllocError>
        requires terms { AreKeptValues rule self.old }
        requires value { IsKeptValue rule c }
        ensures { OnOk result (StandsFor rule self.new ((key_of key.now, c) ∷ self.old)) }
    {
        add_term(&mut self.terms, &mut self.places, rule, key, c)
    }

    /// Adds the products of `term` with a row of terms, whose keys and coefficients are handed in
    /// side by side. Where memory runs out some of them may be missing.
    pub fn add_row(
        &mut self,
        rule: Arithmetic,
        term: &(Key, i128),
        keys: &[Key],
        values: &[i128],
    ) -> Result<(), AllocError>
        requires terms { AreKeptValues rule self.old }
        requires lengths { length keys.now ≡ length values.now }
        requires row { CanMultiply rule term.now (zip keys.now values.now) }
        ensures { OnOk result (AddsRow rule self.old self.new term.now keys.now values.now) }
    {
        add_products(&mut self.terms, &mut self.places, rule, term, keys, values)
    }
}
