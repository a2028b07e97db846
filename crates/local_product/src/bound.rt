// Points that are light by a cheap bound of their weight.

ghost use Rattle.std.specs.Prelude.{◌≡◌, ◌≤◌, IsTrue, IfSome};
ghost use Rattle.limits.specs.Limits.{highest_order, largest_weight};
ghost use Rattle.local_product.specs.Shown.{halves_of, majorants_mass};
ghost use Rattle.local_product.specs.Tabled.{HalvesHaveTables};
ghost use Rattle.weight_bounds.specs.Bounds.{ReachesHalves};

use crate::half_walls::HalfWall;
use weight_bounds::{Reach, WeightBound};

/// How far the exponents of the functions reach.
fn reach_of(order: u32, halves: &[HalfWall]) -> Reach
    requires order { order ≤ highest_order }
    requires tables { HalvesHaveTables order halves.now }
    ensures order { result.order ≡ order }
    ensures reach { ReachesHalves order result.most (halves_of halves.now) }
{
    let mut reach = Reach::new(order);
    for h in halves {
        reach.add(h.masses);
    }
    reach
}

/// A bound of the masses of the majorants of both images together, if one is found.
fn weight_bound(order: u32, halves: &[HalfWall]) -> Option<u128>
    requires order { order ≤ highest_order }
    requires tables { HalvesHaveTables order halves.now }
    ensures bound { IfSome result (λ w. majorants_mass order (halves_of halves.now) ≤ w) }
    ensures light { IfSome result (λ w. w ≤ largest_weight) }
{
    let mut bound = WeightBound::start(&reach_of(order, halves));
    for h in halves {
        bound.cross(h.masses);
    }
    bound.bound()
}

/// Whether a bound tells that these masses are at most 2^126 together.
pub(crate) fn is_surely_light(order: u32, halves: &[HalfWall]) -> bool
    requires order { order ≤ highest_order }
    requires tables { HalvesHaveTables order halves.now }
    ensures { IsTrue result → majorants_mass order (halves_of halves.now) ≤ largest_weight }
{
    weight_bound(order, halves).is_some()
}
