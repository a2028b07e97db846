// Powers that are kept by supporting line, so that points of a line with the same walls share them.

ghost use Rattle.std.specs.Prelude.{◌≡◌, ◌≤◌, IfOk, IsTrue, List};
ghost use Rattle.limits.specs.Limits.{highest_order, largest_weight};
ghost use Rattle.scattering.specs.Wall.{Wall as PlaneWall};
ghost use Rattle.scattering.specs.Series.{coef, degree, mass_to};
ghost use Rattle.scattering.specs.BrokenLine.{live_on, bend_majorant, bend_series};
ghost use Rattle.plane_geom.specs.Shown.{point_of};
ghost use Rattle.trunc_series.specs.Shown.{exp_of, key_of};
ghost use Rattle.trunc_series.specs.Capped.{IsMajorantOf};
ghost use Rattle.scatter_diagram.specs.Shown.{wall_of, walls_of};
ghost use Rattle.bend_finder.specs.Ahead.{IsTraceable};
ghost use Rattle.bend_finder.specs.Powers.{AreAtLeast};
ghost use Rattle.bend_finder.specs.Runs.{HasLiveOn};
ghost use Rattle.bend_finder.specs.Kept.{AreKeptPowers};
ghost use Rattle.bend_finder.specs.KeptRuns.{IsNamedBy, IsNamedRun, IsSomeRun, AreAllKeptFor, AreKeptRuns};

use crate::kept::KeptPowers;
use crate::special::is_live_on;
use plane_geom::Point;
use scatter_diagram::Wall;
use std::alloc::{AllocError, Global};
use std::collections::BTreeMap;
use trunc_series::{Exp, Key, Majorant};

/// What names the walls along one line: the point (x/w, y/w) and the direction (a, b) of the first of them.
#[derive(Clone, Copy, PartialEq, Eq, PartialOrd, Ord)]
pub(crate) struct RunKey {
    pub(crate) x: i64,
    pub(crate) y: i64,
    pub(crate) w: i64,
    pub(crate) a: i32,
    pub(crate) b: i32,
}

/// The name of the walls of which this is the first.
fn run_key(w: &Wall) -> RunKey
    ensures { IsNamedBy result (wall_of w.now) }
{
    RunKey {
        x: w.at.x,
        y: w.at.y,
        w: w.at.w,
        a: w.dir.a,
        b: w.dir.b,
    }
}

/// Whether each of the walls is live and on both points, or on neither.
fn is_same_place(walls: &[Wall], p: &Point, q: &Point) -> bool
    ensures { IsTrue result → live_on (walls_of walls.now) (point_of p.now)
        ≡ live_on (walls_of walls.now) (point_of q.now) }
{
    for w in walls {
        if is_live_on(w, p) != is_live_on(w, q) {
            return false;
        }
    }
    true
}

/// A point on the same of these walls as q: the point of one of them, where that is, and else q.
fn place_on(walls: &[Wall], q: &Point) -> Point
    ensures { live_on (walls_of walls.now) (point_of result)
        ≡ live_on (walls_of walls.now) (point_of q.now) }
{
    for w in walls {
        if is_same_place(walls, &w.at, q) {
            return w.at;
        }
    }
    *q
}

/// What is kept of the walls with this name, which is taken out, or nothing yet.
fn taken_powers(alloc: Global, runs: &mut BTreeMap<RunKey, KeptPowers>, key: RunKey) -> KeptPowers
    ensures powers { (ls g : List PlaneWall) → AreAllKeptFor ls runs.old → IsNamedRun ls key g →
        AreKeptPowers g result }
    ensures rest { (ls : List PlaneWall) → AreAllKeptFor ls runs.old → AreAllKeptFor ls runs.new }
{
    match runs.remove(&key) {
        Some(kept) => kept,
        None => KeptPowers::new(alloc),
    }
}

/// Powers of F and of its majorant, by supporting line.
#[derive(Drop)]
pub(crate) struct KeptRuns {
    runs: BTreeMap<RunKey, KeptPowers>,
}

impl KeptRuns {
    /// None yet.
    pub(crate) fn new(alloc: Global) -> KeptRuns
        ensures { (ls : List PlaneWall) → AreKeptRuns ls result }
    {
        KeptRuns {
            runs: BTreeMap::new(alloc),
        }
    }

    /// |F|^n to degree `most`, for the exponent x: n is |det(d, x)| for the direction d of the walls. Of all live
    /// walls, those on the point are among `walls`, which are all of those along one line.
    pub(crate) fn majorant(
        &mut self,
        alloc: Global,
        walls: &[Wall],
        q: &Point,
        x: Exp,
        most: u32,
    ) -> Result<Majorant, AllocError>
        requires small { IsTraceable x }
        requires most { most ≤ highest_order }
        requires order { AreAtLeast most walls.now }
        ensures power { IfOk result (λ m. (ls : List PlaneWall) →
            HasLiveOn ls (point_of q.now) (walls_of walls.now) → IsSomeRun ls (walls_of walls.now) →
            AreKeptRuns ls self.old →
            IsMajorantOf m most (bend_majorant most ls (point_of q.now) (exp_of x))) }
        ensures kept { (ls : List PlaneWall) → IsSomeRun ls (walls_of walls.now) →
            AreKeptRuns ls self.old → AreKeptRuns ls self.new }
    {
        if walls.len() == 0 {
            return KeptPowers::new(alloc).majorant(alloc, walls, q, x, most);
        }
        let key = run_key(&walls[0]);
        let place = place_on(walls, q);
        let mut kept = taken_powers(alloc, &mut self.runs, key);
        let power = kept.majorant(alloc, walls, &place, x, most);
        self.runs.insert(key, kept)?;
        power
    }

    /// The coefficient of F^n at a key, for the exponent x, likewise.
    pub(crate) fn coefficient(
        &mut self,
        alloc: Global,
        walls: &[Wall],
        q: &Point,
        x: Exp,
        key: &Key,
    ) -> Result<i128, AllocError>
        requires small { IsTraceable x }
        requires low { degree (key_of key.now) ≤ highest_order }
        requires order { AreAtLeast (degree (key_of key.now)) walls.now }
        requires light { mass_to (degree (key_of key.now)) (bend_majorant (degree (key_of key.now))
            (walls_of walls.now) (point_of q.now) (exp_of x)) ≤ largest_weight }
        ensures value { IfOk result (λ c. (ls : List PlaneWall) →
            HasLiveOn ls (point_of q.now) (walls_of walls.now) → IsSomeRun ls (walls_of walls.now) →
            AreKeptRuns ls self.old →
            c ≡ coef (bend_series (degree (key_of key.now)) ls (point_of q.now) (exp_of x))
            (key_of key.now)) }
        ensures kept { (ls : List PlaneWall) → IsSomeRun ls (walls_of walls.now) →
            AreKeptRuns ls self.old → AreKeptRuns ls self.new }
    {
        if walls.len() == 0 {
            return KeptPowers::new(alloc).coefficient(alloc, walls, q, x, key);
        }
        let name = run_key(&walls[0]);
        let place = place_on(walls, q);
        let mut kept = taken_powers(alloc, &mut self.runs, name);
        let value = kept.coefficient(alloc, walls, &place, x, key);
        self.runs.insert(name, kept)?;
        value
    }
}
