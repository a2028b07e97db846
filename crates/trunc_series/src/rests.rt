// Two lists that are merged, item by item.

ghost use Rattle.std.specs.Prelude.{◌≡◌, ◌≢◌, ◌⊎◌, [], None, IfSome};
ghost use Rattle.trunc_series.specs.Fronts.{IsFirst, first_after, second_after};

use std::cmp::Ordering;

/// What is left of two lists that are merged.
#[derive(Drop)]
pub struct Rests<'a, T> {
    pub first: &'a [T],
    pub second: &'a [T],
}

impl<'a, T> Rests<'a, T> {
    /// All of both.
    pub fn new(first: &'a [T], second: &'a [T]) -> Rests<'a, T>
        ensures first { result.first.now ≡ first.now }
        ensures second { result.second.now ≡ second.now }
    {
        Rests { first, second }
    }

    /// The first items, while both lists have some left.
    pub fn fronts(&self) -> Option<(&'a T, &'a T)>
        ensures first { IfSome result (λ fronts. IsFirst fronts.0.now self.now.first.now) }
        ensures second { IfSome result (λ fronts. IsFirst fronts.1.now self.now.second.now) }
        ensures ended { result ≡ None → (self.now.first.now ≡ []) ⊎ (self.now.second.now ≡ []) }
    {
        match (self.first, self.second) {
            ([x, ..], [y, ..]) => Some((x, y)),
            _ => None,
        }
    }

    /// Leaves out the lesser of the first items, which stand in this order, or both where they are equal.
    pub fn advance(&mut self, order: Ordering)
        requires first { self.old.first.now ≢ [] }
        requires second { self.old.second.now ≢ [] }
        ensures first { self.new.first.now ≡ first_after order self.old.first.now }
        ensures second { self.new.second.now ≡ second_after order self.old.second.now }
    {
        if order != Ordering::Greater {
            self.first = &self.first[1..];
        }
        if order != Ordering::Less {
            self.second = &self.second[1..];
        }
    }
}
