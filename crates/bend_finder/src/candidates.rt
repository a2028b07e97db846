// The points of a stretch that may be special or have bends.

ghost use Rattle.std.specs.Prelude.{◌≡◌, ◌↔◌, ℕ, IsTrue, IfOk, OnOk, List};
ghost use Rattle.scattering.specs.Collections.{Every};
ghost use Rattle.scattering.specs.Plane.{Beyond};
ghost use Rattle.scattering.specs.Wall.{Wall as PlaneWall};
ghost use Rattle.plane_geom.specs.Shown.{point_of, vector_of};
ghost use Rattle.plane_geom.specs.declared.Support.{Support};
ghost use Rattle.scatter_diagram.specs.Listed.{AreOfOrder};
ghost use Rattle.scatter_diagram.specs.Shown.{wall_of, walls_of};
ghost use Rattle.joint_finder.specs.Crossings.{Adds};
ghost use Rattle.bend_finder.specs.Crossings.{IsStartOfSome};
ghost use Rattle.bend_finder.specs.Marks.{marked, KeepsMarks, AddsMarks, AreMarksOf, MeetsSomeFrom, HasParallelAhead, AreOfOrderAhead, KeepsOrder};
ghost use Rattle.bend_finder.specs.Runs.{AreOneLines, AreLiveRunsOf, IsOneLine};

use crate::marks::{Mark, sort};
use plane_geom::{Direction, Meeting, Point, Support, det, do_meet, meet, on};
use scatter_diagram::Wall;
use std::alloc::{AllocError, Global};
use std::cmp::Ordering;

/// The points of a stretch at which something may happen, with the walls there, sorted by x and then y; the runs of
/// walls along the stretch itself; and whether it crosses a wall too far away.
#[derive(Drop)]
pub(crate) struct Candidates<'a> {
    pub(crate) marks: Vec<Mark<'a>>,
    pub(crate) along: Vec<&'a [Wall]>,
    pub(crate) far: bool,
}

/// The near points where the stretch crosses walls that aren't parallel to it, the points of walls that lie
/// on the stretch, and whether it crosses a wall too far away. The walls are given run by run.
pub(crate) fn candidates_ahead<'a>(
    alloc: Global,
    runs: &'a [Vec<Wall>],
    p: &Point,
    d: &Direction,
) -> Result<Candidates<'a>, AllocError>
    requires { AreOneLines runs.now }
    ensures marks { (ls : List PlaneWall) → AreLiveRunsOf ls runs.now → IfOk result (λ c.
        AreMarksOf ls (point_of p.now) (vector_of d.now) c.along.items c.marks.items c.far) }
    ensures order { (n : ℕ) → Every (λ r. AreOfOrder n r.items) runs.now →
        IfOk result (λ c. AreOfOrderAhead n c.along.items c.marks.items) }
{
    let mut marks = Vec::new(alloc);
    let mut along = Vec::new(alloc);
    let mut far = false;
    for run in runs {
        let walls = run.as_slice();
        if lies_along(walls, p, d) {
            along.push(walls)?;
        }
        if add_marks(&mut marks, alloc, walls, p, d)? {
            far = true;
        }
    }
    sort(&mut marks);
    Ok(Candidates { marks, along, far })
}

/// Appends the points that walls along one line give, and tells whether the stretch crosses one of them too far away.
fn add_marks<'a>(
    marks: &mut Vec<Mark<'a>>,
    alloc: Global,
    walls: &'a [Wall],
    p: &Point,
    d: &Direction,
) -> Result<bool, AllocError>
    requires { IsOneLine (walls_of walls.now) }
    ensures marks { (ls : List PlaneWall) → IfOk result (λ far. AddsMarks ls (walls_of walls.now)
        (point_of p.now) (vector_of d.now) marks.old.items marks.new.items far) }
    ensures order { (n : ℕ) → AreOfOrder n walls.now →
        OnOk result (KeepsOrder n marks.old.items marks.new.items) }
{
    if walls.len() == 0 {
        return Ok(false);
    }
    let first = &walls[0];
    if det(d, &first.dir) == 0 {
        add_starts(marks, walls, p, d)?;
        return Ok(false);
    }
    if !is_met(walls, p, d) {
        return Ok(false);
    }
    match meet(&stretch(p, d), &line_of(first)) {
        Meeting::At(at) => {
            // the stretch begins behind its first point
            if at != *p {
                marks.push(Mark { at, walls })?;
            }
            Ok(false)
        }
        Meeting::TooFar => Ok(true),
        // it meets a wall along their line, so neither of these
        Meeting::Outside => Ok(false),
        Meeting::Parallel => Ok(false),
    }
}

/// The line that a wall is along.
fn line_of(w: &Wall) -> Support
    ensures { result ≡ Support.Line w.now.at w.now.dir }
{
    Support::Line {
        at: w.at,
        dir: w.dir,
    }
}

/// The half-line of the points of a stretch.
fn stretch(p: &Point, d: &Direction) -> Support
    ensures { result ≡ Support.Half p.now d.now }
{
    Support::Half {
        start: *p,
        along: *d,
    }
}

/// Whether the stretch, with its first point, meets one of the walls, which aren't parallel to it: by signs alone.
fn is_met(walls: &[Wall], p: &Point, d: &Direction) -> bool
    ensures { IsTrue result ↔ MeetsSomeFrom (walls_of walls.now) (point_of p.now) (vector_of d.now) }
{
    let stretch = stretch(p, d);
    for w in walls {
        if do_meet(&stretch, &w.support()) {
            return true;
        }
    }
    false
}

/// Whether the stretch lies on the line of the walls.
fn lies_along(walls: &[Wall], p: &Point, d: &Direction) -> bool
    requires { IsOneLine (walls_of walls.now) }
    ensures { HasParallelAhead (walls_of walls.now) (point_of p.now) (vector_of d.now) → IsTrue result }
{
    if walls.len() == 0 {
        return false;
    }
    let first = &walls[0];
    det(d, &first.dir) == 0 && first.line_holds(p)
}

/// Appends the points of the walls that lie on the stretch.
fn add_starts<'a>(
    marks: &mut Vec<Mark<'a>>,
    walls: &'a [Wall],
    p: &Point,
    d: &Direction,
) -> Result<(), AllocError>
    ensures points { OnOk result (Adds (IsStartOfSome walls.now (point_of p.now) (vector_of d.now))
        (marked marks.old.items) (marked marks.new.items)) }
    ensures marks { (ls : List PlaneWall) →
        OnOk result (KeepsMarks ls (walls_of walls.now) marks.old.items marks.new.items) }
    ensures order { (n : ℕ) → AreOfOrder n walls.now →
        OnOk result (KeepsOrder n marks.old.items marks.new.items) }
{
    for w in walls {
        if is_ahead(p, d, &w.at) {
            marks.push(Mark { at: w.at, walls })?;
        }
    }
    Ok(())
}

/// Whether a point lies on the stretch.
fn is_ahead(p: &Point, d: &Direction, q: &Point) -> bool
    ensures { IsTrue result ↔ Beyond (point_of p.now) (vector_of d.now) (point_of q.now) }
{
    match p.compare(q) {
        Ordering::Equal => false,
        _ => on(&stretch(p, d), q),
    }
}
