// How far exponents reach, by degree.

ghost use Rattle.std.specs.Prelude.{◌≡◌, ◌≤◌, ◌*◌, ◌^◌};
ghost use Rattle.limits.specs.Limits.{highest_order};
ghost use Rattle.weight_bounds.specs.Rows.{IsSlow};
ghost use Rattle.weight_bounds.specs.Bounds.{IsClosed, IsNoLess, IsFarthest, ReachesAsFar};

use crate::numbers::Exponents;
use crate::table::MassTable;
use std::cmp;
use std::marker::Model;

/// How far the exponents of wall functions reach: for each degree from 0 to the order the largest number
/// of an exponent, in absolute value.
#[derive(Drop)]
pub struct Reach {
    order: u32,
    most: Exponents,
}

impl Model for Reach {
    ghost use Rattle.std.specs.Prelude.{◌≤◌};
    ghost use Rattle.limits.specs.Limits.{highest_order};
    ghost use Rattle.weight_bounds.specs.Bounds.{SeenReach};
    ghost use Rattle.weight_bounds.specs.Rows.{IsSlow};

    ghost Value = { SeenReach };

    ghost view = { λ s. record { order = s.order; most = s.most } };

    ghost invariant = { λ s. (s.order ≤ highest_order) × IsSlow s.most };
}

impl Reach {
    /// That of no function, to an order.
    pub fn new(order: u32) -> Reach
        requires { order ≤ highest_order }
        ensures { result.order ≡ order }
    {
        Reach {
            order,
            most: [0; 25],
        }
    }

    /// Takes in the function of a table.
    pub fn add(&mut self, table: &MassTable)
        ensures order { self.new.order ≡ self.old.order }
        ensures old { ReachesAsFar self.old.order self.old.most self.new.most }
        ensures table { ReachesAsFar self.old.order table.now.reach self.new.most }
    {
        raise(&mut self.most, self.order as usize, table.reach());
    }

    pub(crate) fn order(&self) -> u32
        ensures value { result ≡ self.now.order }
        ensures small { result ≤ highest_order }
    {
        self.order
    }

    /// What products of the functions' terms reach.
    pub(crate) fn closed(&self) -> Exponents
        ensures slow { IsSlow result }
        ensures closed { IsClosed self.now.order result }
        ensures least { IsNoLess self.now.order self.now.most result }
    {
        let mut reach = self.most;
        for e in 1..self.order as usize + 1 {
            reach[e] = farthest(&reach, e);
        }
        reach
    }
}

/// Raises each number of a degree to that of `other` where it is less.
fn raise(most: &mut Exponents, order: usize, other: &Exponents)
    requires order { order ≤ highest_order }
    requires slow { IsSlow most.old }
    requires slow_other { IsSlow other.now }
    ensures slow { IsSlow most.new }
    ensures old { IsNoLess order most.old most.new }
    ensures other { IsNoLess order other.now most.new }
{
    for i in 0..order + 1 {
        most[i] = cmp::max(most[i], other[i]);
    }
}

/// How far a product of degree e reaches, where products of lower degrees reach as far as `reach` says.
#[inline(always)]
fn farthest(reach: &Exponents, e: usize) -> u64
    requires slow { IsSlow reach.now }
    requires degree { e ≤ highest_order }
    ensures slow { result ≤ 2 ^ 31 * e }
    ensures farthest { IsFarthest reach.now e result }
{
    let mut most = reach[e];
    for i in 1..e {
        most = cmp::max(most, reach[i] + reach[e - i]);
    }
    most
}
