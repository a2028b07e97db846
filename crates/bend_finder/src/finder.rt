// The walls of a diagram, ready for stretches.

ghost use Rattle.std.specs.Prelude.{◌≡◌, ◌≤◌, IfOk};
ghost use Rattle.limits.specs.Limits.{largest_weight};
ghost use Rattle.scattering.specs.Series.{coef, degree};
ghost use Rattle.scattering.specs.Wall.{walls, cut_walls};
ghost use Rattle.scattering.specs.BrokenLine.{bend_series};
ghost use Rattle.scattering.specs.Theta.{is_on_live};
ghost use Rattle.plane_geom.specs.Shown.{point_of};
ghost use Rattle.trunc_series.specs.Shown.{exp_of, key_of};
ghost use Rattle.bend_finder.specs.Ahead.{finder, IsNonzero, IsTraceable, IsAhead, bend_of, bend_weight};

use crate::ahead::Ahead;
use crate::bend::Bend;
use crate::direction::direction_of;
use crate::kept::KeptPowers;
use crate::kept_runs::KeptRuns;
use crate::live_walls::LiveWalls;
use crate::turns::turns_at;
use plane_geom::Point;
use scatter_diagram::Diagram;
use std::alloc::{AllocError, Global};
use std::marker::Model;
use trunc_series::Exp;

/// The walls of a diagram with their functions cut to a degree, ready for stretches.
#[derive(Drop)]
pub struct BendFinder<'e> {
    alloc: Global,
    /// Those that are live then.
    live: LiveWalls<'e>,
    kept: KeptRuns,
}

impl<'e> Model for BendFinder<'e> {
    ghost use Rattle.bend_finder.specs.Ahead.{SeenFinder};
    ghost use Rattle.bend_finder.specs.KeptRuns.{IsReadyWith};

    ghost Value = { SeenFinder };

    ghost view = { λ f. f.live };

    ghost invariant = { λ f. IsReadyWith f.live f.kept };
}

impl<'e> BendFinder<'e> {
    /// The walls of a diagram with their functions cut to degree `limit`.
    pub fn new(alloc: Global, e: &'e Diagram, limit: u32) -> Result<BendFinder<'e>, AllocError>
        requires { limit ≤ e.now.order }
        ensures { IfOk result (λ f. f ≡ finder (walls e.now.diagram) limit) }
    {
        // the diagram's order is asked for its bound
        let live = LiveWalls::new(alloc, e, limit.min(e.order()))?;
        Ok(BendFinder {
            alloc,
            live,
            kept: KeptRuns::new(alloc),
        })
    }

    /// Whether a live wall is on the point.
    pub fn is_on_live_wall(&self, p: &Point) -> bool
        ensures { result ≡ is_on_live (cut_walls self.now.limit self.now.walls) (point_of p.now) }
    {
        self.live.is_on(p)
    }

    /// What the stretch from a point, traced backwards with the exponent x, finds ahead of it. Bends have keys of
    /// degree at most `most`.
    pub fn ahead(&mut self, p: &Point, x: Exp, most: u32) -> Result<Ahead, AllocError>
        requires moves { IsNonzero x }
        requires small { IsTraceable x }
        requires most { most ≤ self.old.limit }
        ensures same { self.new ≡ self.old }
        ensures ahead { IfOk result
            (λ a. IsAhead self.old.walls self.old.limit (point_of p.now) (exp_of x) most a) }
    {
        let d = direction_of(x);
        let found = self.live.candidates(self.alloc, p, &d)?;
        let turns = turns_at(&mut self.kept, self.alloc, &found, x, most)?;
        Ok(Ahead {
            bends: turns.bends,
            far: found.far,
            special: turns.special,
        })
    }

    /// The coefficient of F^n at the key of a bend, where a broken line with the exponent x turns: F is the product
    /// of the functions of the live walls there, n = |det(d, x)| for their direction d.
    pub fn value(&mut self, x: Exp, bend: &Bend) -> Result<i128, AllocError>
        requires small { IsTraceable x }
        requires degree { degree (key_of bend.now.key) ≤ self.old.limit }
        requires light { bend_weight self.old.walls self.old.limit (exp_of x) (bend_of bend.now)
            ≤ largest_weight }
        ensures same { self.new ≡ self.old }
        ensures value { IfOk result (λ c. c ≡ coef (bend_series self.old.limit
            (cut_walls self.old.limit self.old.walls) (point_of bend.now.at) (exp_of x))
            (key_of bend.now.key)) }
    {
        let (at, key) = (&bend.at, &bend.key);
        match self.live.on_plain(at) {
            Some(walls) => self.kept.coefficient(self.alloc, walls, at, x, key),
            // no broken line bends at a special point
            None => {
                let walls = self.live.listed(self.alloc)?;
                KeptPowers::new(self.alloc).coefficient(self.alloc, walls.as_slice(), at, x, key)
            }
        }
    }
}
