// The bound of a weight, while half-walls are crossed.

ghost use Rattle.std.specs.Prelude.{◌≡◌, ◌≤◌, [], IfSome};
ghost use Rattle.limits.specs.Limits.{highest_order, largest_weight};
ghost use Rattle.weight_bounds.specs.Rows.{IsSlow, BoundsTotal, CrossesMasses};
ghost use Rattle.weight_bounds.specs.Bounds.{BoundsImages, BoundsOneMore, IsWeightBound, ReachesAsFar};

use crate::numbers::{Exponents, Masses, add_times, sum};
use crate::reach::Reach;
use crate::table::MassTable;
use limits::LARGEST_WEIGHT;
use std::marker::Model;

/// Numbers by degree, from 0 to the order, that bound the masses of the majorants of both images at a
/// point, and the exponents there. It is begun with the reach of all half-walls at the point, and then
/// crosses them in their order.
#[derive(Drop)]
pub struct WeightBound {
    order: u32,
    reach: Exponents,
    masses: Masses,
}

impl Model for WeightBound {
    ghost use Rattle.std.specs.Prelude.{◌≤◌};
    ghost use Rattle.limits.specs.Limits.{highest_order};
    ghost use Rattle.weight_bounds.specs.Bounds.{SeenBound, IsClosed};
    ghost use Rattle.weight_bounds.specs.Rows.{IsSlow};

    ghost Value = { SeenBound };

    ghost view = { λ s. record { order = s.order; reach = s.reach; masses = s.masses } };

    ghost invariant = { λ s. (s.order ≤ highest_order) × IsSlow s.reach × IsClosed s.order s.reach };
}

impl WeightBound {
    /// Before any half-wall is crossed, where all half-walls that will be are within `reach`.
    pub fn start(reach: &Reach) -> WeightBound
        ensures order { result.order ≡ reach.now.order }
        ensures images { BoundsImages result [] }
        ensures reach { ReachesAsFar result.order reach.now.most result.reach }
    {
        let mut masses = [0; 25];
        masses[0] = 1;
        WeightBound {
            order: reach.order(),
            reach: reach.closed(),
            masses,
        }
    }

    /// Crosses one more half-wall, of either side. Where no term of its wall's function but 1 has a degree
    /// of at most the order, nothing is done.
    pub fn cross(&mut self, table: &MassTable)
        requires { table.now.order ≡ self.old.order }
        ensures order { self.new.order ≡ self.old.order }
        ensures reach { self.new.reach ≡ self.old.reach }
        ensures images { BoundsOneMore self.old table.now self.new }
    {
        cross_masses(&mut self.masses, self.order as usize, &self.reach, table);
    }

    /// A bound of the mass of both majorants together, and so of the point's weight after all half-walls;
    /// None where that is above 2^126, which tells nothing of the weight.
    pub fn bound(&self) -> Option<u128>
        ensures bound { IfSome result (λ w. IsWeightBound self.now w) }
        ensures light { IfSome result (λ w. w ≤ largest_weight) }
    {
        let mass = total(self.order as usize, &self.masses);
        let both = sum(mass, mass);
        if both <= LARGEST_WEIGHT {
            Some(both)
        } else {
            None
        }
    }
}

/// The masses by degree after a crossing, of those before it. Degrees are taken downwards, so that each is
/// read before anything is added to it.
fn cross_masses(masses: &mut Masses, order: usize, reach: &Exponents, table: &MassTable)
    requires order { table.now.order ≡ order }
    requires highest { order ≤ highest_order }
    requires reach { IsSlow reach.now }
    ensures { CrossesMasses order table.now reach.now masses.old masses.new }
{
    for i in table.least() as usize..order + 1 {
        let d = order - i;
        let c = masses[d];
        if c != 0 {
            let row = table.multipliers(table.size() * (1 + reach[d]), i);
            add_times(masses, d, table.least() as usize, i + 1, c, &row);
        }
    }
}

/// The sum of the masses of all degrees.
fn total(order: usize, masses: &Masses) -> u128
    requires { order ≤ highest_order }
    ensures { BoundsTotal order masses.now result }
{
    let mut total = 0;
    for i in 0..order + 1 {
        total = sum(total, masses[i]);
    }
    total
}
