// Powers that are kept for later stretches.

ghost use Rattle.std.specs.Prelude.{◌≡◌, ◌≤◌, ◌^◌, IfOk, List};
ghost use Rattle.limits.specs.Limits.{highest_order, largest_weight};
ghost use Rattle.scattering.specs.Wall.{Wall as PlaneWall};
ghost use Rattle.scattering.specs.Series.{cut, coef, degree, mass_to};
ghost use Rattle.scattering.specs.BrokenLine.{bend_majorant, bend_series};
ghost use Rattle.plane_geom.specs.Shown.{point_of};
ghost use Rattle.trunc_series.specs.Shown.{exp_of, key_of};
ghost use Rattle.trunc_series.specs.Capped.{IsMajorantOf};
ghost use Rattle.scatter_diagram.specs.Shown.{walls_of};
ghost use Rattle.bend_finder.specs.Ahead.{IsTraceable};
ghost use Rattle.bend_finder.specs.Powers.{AreAtLeast, power_majorant, power_series};
ghost use Rattle.bend_finder.specs.Runs.{HasLiveOn};
ghost use Rattle.bend_finder.specs.Kept.{AreKeptPowers, IsMajorantAt, IsSeriesAt, AreKeptIn, IsTaken, key_point};

use crate::power_key::{PowerKey, key_at};
use crate::powers::{across, power_on};
use crate::series_powers::series_power;
use plane_geom::Point;
use scatter_diagram::Wall;
use std::alloc::{AllocError, Global};
use std::collections::BTreeMap;
use trunc_series::sorted_terms::low_terms;
use trunc_series::{Exp, Key, Majorant, Series};

/// |F|^n and F^n at points, for the product F of the functions of the live walls there, each to the highest
/// degree for which it was asked.
#[derive(Drop)]
pub(crate) struct KeptPowers {
    majorants: BTreeMap<PowerKey, Majorant>,
    series: BTreeMap<PowerKey, Series>,
}

impl KeptPowers {
    /// None yet.
    pub(crate) fn new(alloc: Global) -> KeptPowers
        ensures { (ls : List PlaneWall) → AreKeptPowers ls result }
    {
        KeptPowers {
            majorants: BTreeMap::new(alloc),
            series: BTreeMap::new(alloc),
        }
    }

    /// |F|^n to degree `most`, for the exponent x: n is |det(d, x)| for the direction d of the walls. Of all live
    /// walls, those on the point are among `walls`.
    pub(crate) fn majorant(
        &mut self,
        alloc: Global,
        walls: &[Wall],
        q: &Point,
        x: Exp,
        most: u32,
    ) -> Result<Majorant, AllocError>
        requires small { IsTraceable x }
        requires most { most ≤ highest_order }
        requires order { AreAtLeast most walls.now }
        ensures power { IfOk result (λ m. (ls : List PlaneWall) →
            HasLiveOn ls (point_of q.now) (walls_of walls.now) → AreKeptPowers ls self.old →
            IsMajorantOf m most (bend_majorant most ls (point_of q.now) (exp_of x))) }
        ensures kept { (ls : List PlaneWall) → HasLiveOn ls (point_of q.now) (walls_of walls.now) →
            AreKeptPowers ls self.old → AreKeptPowers ls self.new }
    {
        let key = key_at(q, across(walls, q, x));
        let power = take_majorant(&mut self.majorants, alloc, walls, q, key, most)?;
        let low = low_majorant(alloc, &power, most)?;
        self.majorants.insert(key, power)?;
        Ok(low)
    }

    /// The coefficient of F^n at a key, for the exponent x, likewise.
    pub(crate) fn coefficient(
        &mut self,
        alloc: Global,
        walls: &[Wall],
        q: &Point,
        x: Exp,
        key: &Key,
    ) -> Result<i128, AllocError>
        requires small { IsTraceable x }
        requires low { degree (key_of key.now) ≤ highest_order }
        requires order { AreAtLeast (degree (key_of key.now)) walls.now }
        requires light { mass_to (degree (key_of key.now)) (bend_majorant (degree (key_of key.now))
            (walls_of walls.now) (point_of q.now) (exp_of x)) ≤ largest_weight }
        ensures value { IfOk result (λ c. (ls : List PlaneWall) →
            HasLiveOn ls (point_of q.now) (walls_of walls.now) → AreKeptPowers ls self.old →
            c ≡ coef (bend_series (degree (key_of key.now)) ls (point_of q.now) (exp_of x))
            (key_of key.now)) }
        ensures kept { (ls : List PlaneWall) → HasLiveOn ls (point_of q.now) (walls_of walls.now) →
            AreKeptPowers ls self.old → AreKeptPowers ls self.new }
    {
        let place = key_at(q, across(walls, q, x));
        let power = take_series(&mut self.series, alloc, walls, q, place, key.degree())?;
        let value = power.coefficient(key);
        self.series.insert(place, power)?;
        Ok(value)
    }
}

/// |F|^n to degree `most` at least: what is kept, which is taken out, if it is to that degree.
fn take_majorant(
    kept: &mut BTreeMap<PowerKey, Majorant>,
    alloc: Global,
    walls: &[Wall],
    q: &Point,
    key: PowerKey,
    most: u32,
) -> Result<Majorant, AllocError>
    requires most { most ≤ highest_order }
    requires order { AreAtLeast most walls.now }
    requires point { key_point key ≡ point_of q.now }
    ensures power { IfOk result (λ v. (ls : List PlaneWall) →
        HasLiveOn ls (point_of q.now) (walls_of walls.now) →
        IsTaken (IsMajorantAt ls) key most kept.old v) }
    ensures part { AreKeptIn kept.new kept.old }
{
    if let Some(power) = kept.remove(&key) {
        if power.order() >= most {
            return Ok(power);
        }
    }
    let power = power_on(alloc, walls, q, key.times, most)?;
    Ok(power)
}

/// F^n to degree `most` at least, likewise.
fn take_series(
    kept: &mut BTreeMap<PowerKey, Series>,
    alloc: Global,
    walls: &[Wall],
    q: &Point,
    key: PowerKey,
    most: u32,
) -> Result<Series, AllocError>
    requires most { most ≤ highest_order }
    requires order { AreAtLeast most walls.now }
    requires point { key_point key ≡ point_of q.now }
    requires times { key.times ≤ 2 ^ 25 }
    requires light { mass_to most (power_majorant most (walls_of walls.now) (point_of q.now) key.times)
        ≤ largest_weight }
    ensures power { IfOk result (λ v. (ls : List PlaneWall) →
        HasLiveOn ls (point_of q.now) (walls_of walls.now) →
        IsTaken (IsSeriesAt ls) key most kept.old v) }
    ensures part { AreKeptIn kept.new kept.old }
{
    if let Some(power) = kept.remove(&key) {
        if power.order() >= most {
            return Ok(power);
        }
    }
    let power = series_power(alloc, walls, q, key.times, most)?;
    Ok(power)
}

/// The terms of degree at most `most`.
fn low_majorant(alloc: Global, power: &Majorant, most: u32) -> Result<Majorant, AllocError>
    requires { most ≤ power.now.order }
    ensures order { IfOk result (λ m. m.order ≡ most) }
    ensures terms { IfOk result (λ m. m.terms ≡ cut most power.now.terms) }
{
    let terms = low_terms(alloc, most, power.terms())?;
    Ok(Majorant::from_sorted(alloc, most, terms))
}
