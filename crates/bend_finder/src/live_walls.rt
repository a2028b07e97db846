// The live walls of a diagram by supporting line, as stretches meet them.

ghost use Rattle.std.specs.Prelude.{◌≡◌, ◌≤◌, ⊤, IfOk, IsTrue, MatchOption};
ghost use Rattle.limits.specs.Limits.{highest_order};
ghost use Rattle.scattering.specs.ActivePoint.{is_special};
ghost use Rattle.scattering.specs.Theta.{is_on_live};
ghost use Rattle.scattering.specs.Wall.{walls, cut_walls};
ghost use Rattle.plane_geom.specs.Shown.{point_of, vector_of};
ghost use Rattle.scatter_diagram.specs.Listed.{AreOfOrder};
ghost use Rattle.scatter_diagram.specs.Shown.{walls_of};
ghost use Rattle.bend_finder.specs.Ahead.{finder};
ghost use Rattle.bend_finder.specs.KeptRuns.{IsSomeRun};
ghost use Rattle.bend_finder.specs.Live.{live_of};
ghost use Rattle.bend_finder.specs.Marks.{AreMarksOf, AreOfOrderAhead};
ghost use Rattle.bend_finder.specs.Runs.{AreAllLive, IsPlainOn};

use crate::candidates::{Candidates, candidates_ahead};
use crate::live::{live_runs, live_walls};
use crate::spots::{is_on_run, plain_run};
use plane_geom::{Direction, Point};
use scatter_diagram::{Diagram, Wall};
use std::alloc::{AllocError, Global};
use std::marker::Model;

/// The walls of a diagram with their functions cut to a degree, without those whose functions become 1. They are kept
/// by supporting line, so a stretch or a point is asked for once a line, and only then for the walls along it.
#[derive(Drop)]
pub(crate) struct LiveWalls<'e> {
    diagram: &'e Diagram,
    limit: u32,
    runs: Vec<Vec<Wall>>,
}

impl<'e> Model for LiveWalls<'e> {
    ghost use Rattle.scattering.specs.Wall.{walls};
    ghost use Rattle.bend_finder.specs.Ahead.{SeenFinder, finder};
    ghost use Rattle.bend_finder.specs.Live.{IsReady};

    ghost Value = { SeenFinder };

    ghost view = { λ f. finder (walls f.diagram.now.diagram) f.limit };

    ghost invariant = { λ f. IsReady f.limit f.diagram.now f.runs.items };
}

impl<'e> LiveWalls<'e> {
    pub(crate) fn new(
        alloc: Global,
        e: &'e Diagram,
        limit: u32,
    ) -> Result<LiveWalls<'e>, AllocError>
        requires { limit ≤ e.now.order }
        ensures { IfOk result (λ f. f ≡ finder (walls e.now.diagram) limit) }
    {
        let runs = live_runs(alloc, e, limit)?;
        Ok(LiveWalls {
            diagram: e,
            limit,
            runs,
        })
    }

    /// Whether one of them is on the point.
    pub(crate) fn is_on(&self, p: &Point) -> bool
        ensures { result ≡ is_on_live (cut_walls self.now.limit self.now.walls) (point_of p.now) }
    {
        is_on_run(self.runs.as_slice(), p)
    }

    /// The points of a stretch at which something may happen.
    pub(crate) fn candidates(
        &self,
        alloc: Global,
        p: &Point,
        d: &Direction,
    ) -> Result<Candidates<'_>, AllocError>
        ensures marks { IfOk result (λ c. AreMarksOf (live_of self.now) (point_of p.now)
            (vector_of d.now) c.along.items c.marks.items c.far) }
        ensures order { IfOk result
            (λ c. AreOfOrderAhead self.now.limit c.along.items c.marks.items) }
        ensures live { AreAllLive (live_of self.now) }
    {
        candidates_ahead(alloc, self.runs.as_slice(), p, d)
    }

    /// Walls of which those on the point are the live ones there, or None where the point is special.
    pub(crate) fn on_plain(&self, q: &Point) -> Option<&[Wall]>
        ensures walls { MatchOption result (IsTrue (is_special (live_of self.now) (point_of q.now)))
            (λ ws. IsPlainOn (live_of self.now) (point_of q.now) (walls_of ws.now)) }
        ensures run { MatchOption result ⊤ (λ ws. IsSomeRun (live_of self.now) (walls_of ws.now)) }
        ensures order { MatchOption result ⊤ (λ ws. AreOfOrder self.now.limit ws.now) }
    {
        plain_run(self.runs.as_slice(), q)
    }

    /// All of them, in the diagram's order.
    pub(crate) fn listed(&self, alloc: Global) -> Result<Vec<Wall>, AllocError>
        ensures walls { IfOk result (λ r. walls_of r.items ≡ live_of self.now) }
        ensures order { IfOk result (λ r. AreOfOrder self.now.limit r.items) }
    {
        live_walls(alloc, self.diagram, self.limit)
    }
}
