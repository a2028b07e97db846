// Diagrams: lines and reduced outgoing rays with functions of one order.

ghost use Rattle.std.specs.Prelude.{◌≡◌, ◌↔◌, ◌<◌, ◌≤◌, ◌^◌, IsTrue, IfOk, length, slice_index_or, filter};
ghost use Rattle.limits.specs.Limits.{highest_order};
ghost use Rattle.scattering.specs.Collections.{Every};
ghost use Rattle.scattering.specs.SupportingLine.{runs};
ghost use Rattle.scattering.specs.Wall.{Line, Outgoing, IsWall, walls, cut_walls, is_live};
ghost use Rattle.scatter_diagram.specs.Proper.{AreTameWalls};
ghost use Rattle.scatter_diagram.specs.Listed.{AreLines, AreRays, AreOfOrder, AreSeenRays, seen_diagram, lowered_to};
ghost use Rattle.scatter_diagram.specs.Shown.{wall_of, walls_of};

use crate::Wall;
use crate::lists::copied;
use crate::runs::{bounds, by_line, joined, places, positions, without_places};
use std::alloc::{AllocError, Global};
use std::marker::Model;

/// Lines and outgoing rays with functions of one order from 0 to 24. No ray's function is 1, and the
/// rays rise by start and then direction, so no two have both.
///
/// The walls are kept by supporting line: those along one line are a run, and the runs stand by the
/// line's direction and then by its place.
#[derive(Drop)]
pub struct Diagram {
    alloc: Global,
    order: u32,
    walls: Vec<Wall>,
    /// Where each run begins, and where the last one ends.
    bounds: Vec<usize>,
    /// Where the lines stand in `walls`, and then where the rays do.
    positions: Vec<usize>,
    line_count: usize,
}

impl Model for Diagram {
    ghost use Rattle.scatter_diagram.specs.Listed.{SeenDiagram};
    ghost use Rattle.scatter_diagram.specs.Stored.{IsStored, shown_diagram};

    ghost Value = { SeenDiagram };

    ghost view = { λ e. shown_diagram e.order e.line_count e.walls.items e.positions.items };

    ghost invariant = { λ e. IsStored e.order e.line_count e.walls.items e.bounds.items e.positions.items };
}

impl Diagram {
    /// The diagram of exactly these lines and rays. This takes memory for the order of the walls.
    pub fn from_walls(
        alloc: Global,
        order: u32,
        lines: Vec<Wall>,
        rays: Vec<Wall>,
    ) -> Result<Diagram, AllocError>
        requires order { order ≤ highest_order }
        requires lines { AreLines order lines.items }
        requires rays { AreRays order rays.items }
        ensures { IfOk result (λ e. e ≡ seen_diagram order lines.items rays.items) }
    {
        let line_count = lines.len();
        let placed = by_line(alloc, joined(lines, rays)?)?;
        let places = places(alloc, placed.as_slice())?;
        let positions = positions(alloc, places.as_slice())?;
        let walls = without_places(alloc, placed)?;
        let bounds = bounds(alloc, walls.as_slice())?;
        Ok(Diagram {
            alloc,
            order,
            walls,
            bounds,
            positions,
            line_count,
        })
    }

    pub fn order(&self) -> u32
        ensures value { result ≡ self.now.order }
        ensures bound { result ≤ highest_order }
        ensures proper { Every (IsWall self.now.order) (walls self.now.diagram) }
        ensures tame { AreTameWalls (walls self.now.diagram) }
    {
        self.order
    }

    pub fn line_count(&self) -> usize
        ensures { result ≡ length self.now.diagram.initial }
    {
        self.line_count
    }

    pub fn line(&self, i: usize) -> &Wall
        requires { i < length self.now.diagram.initial }
        ensures wall { wall_of result.now ≡ slice_index_or self.now.diagram.initial i (wall_of result.now) }
        ensures order { result.now.function.order ≡ self.now.order }
        ensures line { (wall_of result.now).kind ≡ Line }
    {
        &self.walls[self.positions[i]]
    }

    pub fn ray_count(&self) -> usize
        ensures count { result ≡ length self.now.diagram.rays }
        ensures small { result < 2 ^ 63 }
        ensures rays { AreSeenRays self.now.order self.now.diagram.rays }
    {
        self.positions.len() - self.line_count
    }

    pub fn ray(&self, i: usize) -> &Wall
        requires { i < length self.now.diagram.rays }
        ensures wall { wall_of result.now ≡ slice_index_or self.now.diagram.rays i (wall_of result.now) }
        ensures order { result.now.function.order ≡ self.now.order }
        ensures outgoing { (wall_of result.now).kind ≡ Outgoing }
    {
        self.wall(self.line_count + i)
    }

    /// The number of lines that support a wall.
    pub fn run_count(&self) -> usize
        ensures count { result ≡ length (runs (walls self.now.diagram)) }
        ensures proper { Every (IsWall self.now.order) (walls self.now.diagram) }
        ensures tame { AreTameWalls (walls self.now.diagram) }
    {
        self.bounds.len() - 1
    }

    /// The walls along one supporting line: the lines as they were given, and then the rays in their order.
    pub fn along(&self, run: usize) -> &[Wall]
        requires { run < length (runs (walls self.now.diagram)) }
        ensures walls { walls_of result.now ≡
            slice_index_or (runs (walls self.now.diagram)) run (walls_of result.now) }
        ensures some { 0 < length result.now }
        ensures order { AreOfOrder self.now.order result.now }
    {
        &self.walls[self.bounds[run]..self.bounds[run + 1]]
    }

    /// The wall at a place in the lines followed by the rays.
    fn wall(&self, i: usize) -> &Wall
        requires { i < length (walls self.now.diagram) }
        ensures wall { wall_of result.now ≡
            slice_index_or (walls self.now.diagram) i (wall_of result.now) }
        ensures order { result.now.function.order ≡ self.now.order }
    {
        &self.walls[self.positions[i]]
    }

    /// The lines cut to a lower order.
    fn cut_lines(&self, order: u32) -> Result<Vec<Wall>, AllocError>
        requires { order ≤ self.now.order }
        ensures walls { IfOk result
            (λ r. walls_of r.items ≡ cut_walls order self.now.diagram.initial) }
        ensures lines { IfOk result (λ r. AreLines order r.items) }
    {
        let mut out = Vec::with_capacity(self.alloc, self.line_count())?;
        for i in 0..self.line_count() {
            out.push(self.line(i).truncate(order)?)?;
        }
        Ok(out)
    }

    /// The rays cut to a lower order, without those whose functions become 1.
    fn live_rays(&self, order: u32) -> Result<Vec<Wall>, AllocError>
        requires { order ≤ self.now.order }
        ensures walls { IfOk result
            (λ r. walls_of r.items ≡ filter is_live (cut_walls order self.now.diagram.rays)) }
        ensures rays { IfOk result (λ r. AreRays order r.items) }
    {
        let mut out = Vec::new(self.alloc);
        for i in 0..self.ray_count() {
            let low = self.ray(i).truncate(order)?;
            if low.is_live() {
                out.push(low)?;
            }
        }
        Ok(out)
    }

    /// The diagram cut to a lower order, without the rays whose functions become 1; lines stay.
    pub fn truncate(&self, order: u32) -> Result<Diagram, AllocError>
        requires { order ≤ self.now.order }
        ensures { IfOk result (λ e. e ≡ lowered_to order self.now) }
    {
        let lines = self.cut_lines(order)?;
        let rays = self.live_rays(order)?;
        Diagram::from_walls(self.alloc, order, lines, rays)
    }

    /// Whether the walls are the same, one by one.
    fn has_walls(&self, other: &Diagram) -> bool
        requires order { self.now.order ≡ other.now.order }
        requires count { length (walls self.now.diagram) ≡ length (walls other.now.diagram) }
        ensures { IsTrue result ↔ (walls self.now.diagram ≡ walls other.now.diagram) }
    {
        for i in 0..self.positions.len() {
            if !self.wall(i).same(other.wall(i)) {
                return false;
            }
        }
        true
    }

    /// Whether the order, the lines and the rays are the same.
    pub fn same(&self, other: &Diagram) -> bool
        ensures { IsTrue result ↔ (self.now ≡ other.now) }
    {
        if self.order() != other.order() {
            return false;
        }
        if self.line_count() != other.line_count() || self.ray_count() != other.ray_count() {
            return false;
        }
        self.has_walls(other)
    }

    pub fn copy(&self) -> Result<Diagram, AllocError>
        ensures { IfOk result (λ e. e ≡ self.now) }
    {
        Ok(Diagram {
            alloc: self.alloc,
            order: self.order,
            walls: copied(self.alloc, self.walls.as_slice())?,
            bounds: Vec::from_slice(self.alloc, self.bounds.as_slice())?,
            positions: Vec::from_slice(self.alloc, self.positions.as_slice())?,
            line_count: self.line_count,
        })
    }
}
