// Initial lines with their completion at an order.

ghost use Rattle.std.specs.Prelude.{◌≡◌, ◌≤◌, IfOk, length};
ghost use Rattle.limits.specs.Limits.{highest_order, most_walls};
ghost use Rattle.scattering.specs.Wall.{walls};
ghost use Rattle.scattering.specs.Completion.{IsCompletion};
ghost use Rattle.scatter_diagram.specs.Proper.{AreTameWalls};
ghost use Rattle.scatter_step.specs.Completed.{IsCompleted, AreOwnJoints, with_lines};

use plane_geom::Point;
use scatter_diagram::{Diagram, Initial, cut_walls};
use std::alloc::{AllocError, Global};
use std::marker::Model;
use std::sync::Arc;

/// Initial lines and a diagram, which is their completion at its order, from 0 to 24, and has at most
/// 8192 walls. The lines are shared with the completions of other orders that come from this one, the
/// points with copies.
#[derive(Drop)]
pub struct Completed {
    alloc: Global,
    initial: Arc<Initial, Global>,
    diagram: Diagram,
    /// The active points of its own order, from which those of the next one are found.
    points: Arc<Vec<Point>, Global>,
}

impl Model for Completed {
    ghost use Rattle.scatter_step.specs.Completed.{SeenCompleted, KeepsItsPoints};

    ghost Value = { SeenCompleted };

    ghost view = { λ c. record { initial = c.initial.value; order = c.diagram.order; diagram = c.diagram.diagram } };

    ghost invariant = { λ c. KeepsItsPoints (record { initial = c.initial.value; order = c.diagram.order; diagram = c.diagram.diagram }) c.points.value.items };
}

impl Completed {
    /// The completion of order 0: the lines alone, each with the function 1.
    pub fn start(alloc: Global, initial: &Initial) -> Result<Completed, AllocError>
        ensures initial { IfOk result (λ c. c.initial ≡ initial.now) }
        ensures order { IfOk result (λ c. c.order ≡ 0) }
        ensures completed { IfOk result IsCompleted }
    {
        let lines = cut_walls(alloc, 0, initial.lines())?;
        let diagram = Diagram::from_walls(alloc, 0, lines, Vec::new(alloc))?;
        let points = Arc::new(alloc, Vec::new(alloc))?;
        Ok(Completed {
            alloc,
            initial: Arc::new(alloc, initial.copy()?)?,
            diagram,
            points,
        })
    }

    /// The same lines with another completion, and its points.
    pub(crate) fn with_diagram(
        &self,
        diagram: Diagram,
        points: Vec<Point>,
    ) -> Result<Completed, AllocError>
        requires order { diagram.order ≤ highest_order }
        requires completes { IsCompletion self.now.initial.lines diagram.order diagram.diagram }
        requires few { length (walls diagram.diagram) ≤ most_walls }
        requires points { AreOwnJoints (with_lines self.now.initial diagram) points.items }
        ensures { IfOk result (λ c. c ≡ with_lines self.now.initial diagram) }
    {
        Ok(Completed {
            alloc: self.alloc,
            initial: Arc::try_clone(&self.initial)?,
            diagram,
            points: Arc::new(self.alloc, points)?,
        })
    }

    pub(crate) fn allocator(&self) -> Global {
        self.alloc
    }

    /// The active points of its own order.
    pub(crate) fn own_joints(&self) -> &[Point]
        ensures { AreOwnJoints self.now result.now }
    {
        self.points.as_slice()
    }

    pub fn order(&self) -> u32
        ensures value { result ≡ self.now.order }
        ensures bound { result ≤ highest_order }
        ensures tame { AreTameWalls (walls self.now.diagram) }
        ensures completed { IsCompleted self.now }
    {
        self.diagram.order()
    }

    pub fn diagram(&self) -> &Diagram
        ensures value { result.now ≡ record { order = self.now.order; diagram = self.now.diagram } }
        ensures completed { IsCompleted self.now }
    {
        &self.diagram
    }

    pub fn initial(&self) -> &Initial
        ensures value { result.now ≡ self.now.initial }
        ensures completed { IsCompleted self.now }
    {
        &self.initial
    }

    pub fn copy(&self) -> Result<Completed, AllocError>
        ensures { IfOk result (λ c. c ≡ self.now) }
    {
        Ok(Completed {
            alloc: self.alloc,
            initial: Arc::try_clone(&self.initial)?,
            diagram: self.diagram.copy()?,
            points: Arc::try_clone(&self.points)?,
        })
    }
}
