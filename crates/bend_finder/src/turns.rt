// The bends at points.

ghost use Rattle.std.specs.Prelude.{◌≡◌, ℕ, ◌<◌, ◌≤◌, ◌++◌, ◌∷◌, [], IfOk, OnOk, IsTrue, IsFalse, List, length, take};
ghost use Rattle.limits.specs.Limits.{highest_order};
ghost use Rattle.scattering.specs.Collections.{Every};
ghost use Rattle.scattering.specs.Plane.{Point as PlanePoint, point_before};
ghost use Rattle.scattering.specs.Wall.{Wall as PlaneWall};
ghost use Rattle.plane_geom.specs.Shown.{point_of};
ghost use Rattle.plane_geom.specs.declared.Point.{Point};
ghost use Rattle.trunc_series.specs.Shown.{exp_of};
ghost use Rattle.scatter_diagram.specs.Shown.{wall_of, walls_of};
ghost use Rattle.joint_finder.specs.Joints.{points_of};
ghost use Rattle.bend_finder.specs.Ahead.{IsTraceable, bends_of};
ghost use Rattle.bend_finder.specs.Bends.{AreBends, told_bends, IsFirstSpecial};
ghost use Rattle.bend_finder.specs.KeptRuns.{AreKeptRuns, IsSomeRun};
ghost use Rattle.bend_finder.specs.Marks.{marked, AreLinesAhead, AreOfOrderAhead, AreReadyMarks, AreBeforeFirst, IsFirstCount, IsFirstSpot};
ghost use Rattle.bend_finder.specs.Powers.{AreAtLeast, HasNoneTo, HaveNoneTo};
ghost use Rattle.bend_finder.specs.Runs.{IsPlainOn};

use crate::bend::Bend;
use crate::candidates::Candidates;
use crate::kept_runs::KeptRuns;
use crate::marks::{Mark, count_at};
use crate::masses::masses;
use crate::spots::plain_among;
use plane_geom::Point;
use scatter_diagram::Wall;
use std::alloc::{AllocError, Global};
use trunc_series::{Exp, Majorant};

/// The bends at points, and the first of these that is special.
#[derive(Drop)]
pub(crate) struct Turns {
    pub(crate) bends: Vec<(Bend, u128)>,
    pub(crate) special: Option<Point>,
}

/// The bends of degree at most `most` at those of the points of a stretch that aren't special, with their weights, and
/// the first point that is.
pub(crate) fn turns_at(
    kept: &mut KeptRuns,
    alloc: Global,
    found: &Candidates<'_>,
    x: Exp,
    most: u32,
) -> Result<Turns, AllocError>
    requires small { IsTraceable x }
    requires low { most ≤ highest_order }
    requires lines { AreLinesAhead found.now.along.items found.now.marks.items }
    requires order { (n : ℕ) × (most ≤ n) ×
        AreOfOrderAhead n found.now.along.items found.now.marks.items }
    ensures bends { (ls : List PlaneWall) →
        AreReadyMarks ls kept.old found.now.along.items found.now.marks.items → IfOk result
        (λ r. AreBends most ls (exp_of x) (points_of (marked found.now.marks.items))
        (bends_of r.bends.items)) }
    ensures special { (ls : List PlaneWall) →
        AreReadyMarks ls kept.old found.now.along.items found.now.marks.items →
        IfOk result (λ r. IsFirstSpecial ls (marked found.now.marks.items) r.special) }
    ensures kept { (ls : List PlaneWall) →
        AreReadyMarks ls kept.old found.now.along.items found.now.marks.items → AreKeptRuns ls kept.new }
{
    let mut turns = Turns {
        bends: Vec::new(alloc),
        special: None,
    };
    let marks = found.marks.as_slice();
    let mut start = 0;
    while start < marks.len() {
        let along = found.along.as_slice();
        start += turns.add_spot(kept, alloc, along, &marks[start..], x, most)?;
    }
    Ok(turns)
}

impl Turns {
    /// Adds what is at the point of the first mark, and tells how many marks are there.
    fn add_spot(
        &mut self,
        kept: &mut KeptRuns,
        alloc: Global,
        along: &[&[Wall]],
        marks: &[Mark<'_>],
        x: Exp,
        most: u32,
    ) -> Result<usize, AllocError>
        requires small { IsTraceable x }
        requires low { most ≤ highest_order }
        requires some { 0 < length marks.now }
        requires lines { AreLinesAhead along.now marks.now }
        requires order { (n : ℕ) × (most ≤ n) × AreOfOrderAhead n along.now marks.now }
        ensures count { IfOk result (IsFirstCount marks.now) }
        ensures bends { (ls : List PlaneWall) (qs : List PlanePoint) →
            IsFirstSpot ls along.now marks.now → AreKeptRuns ls kept.old → AreBeforeFirst qs marks.now →
            AreBends most ls (exp_of x) qs (bends_of self.old.bends.items) → IfOk result (λ n.
            AreBends most ls (exp_of x) (qs ++ points_of (marked (take n marks.now)))
            (bends_of self.new.bends.items)) }
        ensures special { (ls : List PlaneWall) (ps : List Point) →
            IsFirstSpot ls along.now marks.now → AreBeforeFirst (points_of ps) marks.now →
            IsFirstSpecial ls ps self.old.special → IfOk result (λ n.
            IsFirstSpecial ls (ps ++ marked (take n marks.now)) self.new.special) }
        ensures kept { (ls : List PlaneWall) → IsFirstSpot ls along.now marks.now →
            AreKeptRuns ls kept.old → AreKeptRuns ls kept.new }
    {
        let Some(first) = marks.first() else {
            return Ok(0);
        };
        let count = count_at(marks, &first.at);
        let (here, _) = marks.split_at(count);
        match plain_among(along, here, &first.at) {
            None => self.special = self.special.or(Some(first.at)),
            Some(walls) => add_turns(&mut self.bends, kept, alloc, walls, &first.at, x, most)?,
        }
        Ok(count)
    }
}

/// Appends the bends at a point of which the walls on it are all live ones there.
fn add_turns(
    bends: &mut Vec<(Bend, u128)>,
    kept: &mut KeptRuns,
    alloc: Global,
    walls: &[Wall],
    at: &Point,
    x: Exp,
    most: u32,
) -> Result<(), AllocError>
    requires small { IsTraceable x }
    requires low { most ≤ highest_order }
    requires order { AreAtLeast most walls.now }
    ensures bends { (ls : List PlaneWall) (qs : List PlanePoint) →
        IsPlainOn ls (point_of at.now) (walls_of walls.now) →
        IsSomeRun ls (walls_of walls.now) → AreKeptRuns ls kept.old →
        Every (λ q. IsTrue (point_before q (point_of at.now))) qs →
        AreBends most ls (exp_of x) qs (bends_of bends.old.items) →
        OnOk result (AreBends most ls (exp_of x) (qs ++ point_of at.now ∷ []) (bends_of bends.new.items)) }
    ensures kept { (ls : List PlaneWall) → IsSomeRun ls (walls_of walls.now) →
        AreKeptRuns ls kept.old → AreKeptRuns ls kept.new }
{
    if !has_term(walls, most) {
        return Ok(());
    }
    let power = kept.majorant(alloc, walls, at, x, most)?;
    add_bends(bends, alloc, at, &power)
}

/// Whether the function of one of the walls has a term of degree at most `most` other than 1, which any bend of such a
/// degree comes from.
fn has_term(walls: &[Wall], most: u32) -> bool
    ensures { IsFalse result → HaveNoneTo most (walls_of walls.now) }
{
    for w in walls {
        if begins_by(w, most) {
            return true;
        }
    }
    false
}

/// Whether its function has.
fn begins_by(w: &Wall, most: u32) -> bool
    ensures { IsFalse result → HasNoneTo most (wall_of w.now) }
{
    match w.least_degree() {
        Some(least) => least <= most,
        None => false,
    }
}

/// Appends the bends at a point by the terms of |F|^n of degree at least 1.
fn add_bends(
    bends: &mut Vec<(Bend, u128)>,
    alloc: Global,
    at: &Point,
    power: &Majorant,
) -> Result<(), AllocError>
    ensures { OnOk result (bends_of bends.new.items
        ≡ bends_of bends.old.items ++ told_bends (point_of at.now) power.now.terms) }
{
    let terms = power.terms();
    let masses = masses(alloc, terms, power.order())?;
    for t in terms {
        let degree = t.0.degree();
        if degree > 0 {
            let bend = Bend { at: *at, key: t.0 };
            bends.push((bend, masses[degree as usize]))?;
        }
    }
    Ok(())
}
