// Walls: lines and outgoing rays.

ghost use Rattle.std.specs.Prelude.{◌≡◌, ◌↔◌, ◌≤◌, IsTrue, IfOk, not};
ghost use Rattle.std.specs.List.{list_any};
ghost use Rattle.scattering.specs.Series.{rest, key_eq, unit};
ghost use Rattle.scattering.specs.Plane.{Point as PlanePoint, IsPoint};
ghost use Rattle.scattering.specs.SupportingLine.{supporting_line, line_holds};
ghost use Rattle.scattering.specs.Wall as D;
ghost use Rattle.plane_geom.specs.Shown.{point_of, vector_of, OnSupport};
ghost use Rattle.trunc_series.specs.Shown.{key_of, sum_of};
ghost use Rattle.scatter_diagram.specs.Proper.{IsProper, IsProper-prop};
ghost use Rattle.scatter_diagram.specs.Degrees.{IsLeastDegree, lesser_of, opposite};
ghost use Rattle.scatter_diagram.specs.Kinds.{kind_of};

use plane_geom::{Direction, Point, Support, angle_cmp, on, side};
use std::alloc::AllocError;
use std::cmp::Ordering;
use trunc_series::{Key, Series, is_constant};

/// A line, or an outgoing ray: the half-line from its point against its direction.
#[derive(Clone, Copy, Debug, PartialEq, Eq)]
pub enum WallKind {
    Line,
    Outgoing,
}

/// A wall through a point along a direction, with a wall function of that direction: 1 and terms of
/// degree at least 1 whose exponents are positive multiples of the direction. The absolute values of
/// its coefficients sum to at most 2^127, and no exponent exceeds 64 times its degree.
#[derive(Drop)]
pub struct Wall {
    pub kind: WallKind,
    pub at: Point,
    pub dir: Direction,
    pub function: Series,
    pub ghost proper: { IsProper dir function } by { IsProper-prop dir function },
}

impl Wall {
    ghost use Rattle.scatter_diagram.specs.Shown.{wall_of, wall_from, IsSupportOf, IsFirstDegree, IsSameWall};

    /// The whole line through a point.
    pub fn line(at: Point, dir: Direction, function: Series) -> Wall
        requires { IsProper dir function }
        ensures wall { wall_of result ≡ wall_from D.Line (point_of at) (vector_of dir) function.terms }
        ensures function { result.function ≡ function }
    {
        Wall {
            kind: WallKind::Line,
            at,
            dir,
            function,
        }
    }

    /// The ray that starts at a point.
    pub fn outgoing(at: Point, dir: Direction, function: Series) -> Wall
        requires { IsProper dir function }
        ensures wall { wall_of result ≡ wall_from D.Outgoing (point_of at) (vector_of dir) function.terms }
        ensures function { result.function ≡ function }
    {
        Wall {
            kind: WallKind::Outgoing,
            at,
            dir,
            function,
        }
    }

    pub fn copy(&self) -> Result<Wall, AllocError>
        ensures { IfOk result (λ w. w ≡ self.now) }
    {
        Ok(Wall {
            kind: self.kind,
            at: self.at,
            dir: self.dir,
            function: self.function.copy()?,
        })
    }

    /// The wall with its function cut to degree `order`.
    pub fn truncate(&self, order: u32) -> Result<Wall, AllocError>
        requires { order ≤ self.now.function.order }
        ensures wall { IfOk result (λ w. wall_of w ≡ D.cut_wall order (wall_of self.now)) }
        ensures order { IfOk result (λ w. w.function.order ≡ order) }
    {
        Ok(Wall {
            kind: self.kind,
            at: self.at,
            dir: self.dir,
            function: self.function.truncate(order)?,
        })
    }

    /// Whether the function has a term other than 1.
    pub fn is_live(&self) -> bool
        ensures { result ≡ D.is_live (wall_of self.now) }
    {
        has_other_terms(self.function.terms())
    }

    /// The least degree of a term other than 1, or None where there is none.
    pub fn least_degree(&self) -> Option<u32>
        ensures { IsFirstDegree (wall_of self.now) result }
    {
        least_degree_of(self.function.terms())
    }

    /// The points on the wall. A ray goes from its start against its direction.
    pub fn support(&self) -> Support
        ensures form { IsSupportOf (wall_of self.now) result }
        ensures points { (p : PlanePoint) → IsPoint p → OnSupport result p ↔ D.On (wall_of self.now) p }
    {
        match self.kind {
            WallKind::Line => Support::Line {
                at: self.at,
                dir: self.dir,
            },
            WallKind::Outgoing => Support::Half {
                start: self.at,
                along: opposite(&self.dir),
            },
        }
    }

    /// Whether the point is on the wall; a ray holds its start.
    pub fn holds(&self, p: &Point) -> bool
        ensures { result ≡ D.is_on (wall_of self.now) (point_of p.now) }
    {
        on(&self.support(), p)
    }

    /// Whether the point is on the supporting line.
    pub fn line_holds(&self, p: &Point) -> bool
        ensures { result ≡ line_holds (supporting_line (wall_of self.now)) (point_of p.now) }
    {
        side(&self.at, &self.dir, p) == 0
    }

    /// Whether it is a ray that starts at the point.
    pub fn starts_at(&self, p: &Point) -> bool
        ensures { result ≡ D.starts_at (wall_of self.now) (point_of p.now) }
    {
        match self.kind {
            WallKind::Line => false,
            WallKind::Outgoing => same_place(&self.at, p),
        }
    }

    /// Whether kinds, points, directions and functions, with their orders, are the same.
    pub fn same(&self, other: &Wall) -> bool
        ensures { IsTrue result ↔ IsSameWall self.now other.now }
    {
        same_kind(self.kind, other.kind)
            && same_place(&self.at, &other.at)
            && same_direction(&self.dir, &other.dir)
            && self.function.same(&other.function)
    }
}

/// Whether some term's key is another than 1.
fn has_other_terms(terms: &[(Key, i128)]) -> bool
    ensures { result ≡ list_any (λ t. not (key_eq (key_of t.0) unit)) terms.now }
{
    terms.iter().any(|t| !is_constant(&t.0))
}

/// The least degree of a term whose key is another than 1.
fn least_degree_of(terms: &[(Key, i128)]) -> Option<u32>
    ensures { IsLeastDegree (rest (sum_of terms.now)) result }
{
    let mut least = None;
    for t in terms {
        if !is_constant(&t.0) {
            least = Some(lesser(least, t.0.degree()));
        }
    }
    least
}

fn lesser(least: Option<u32>, degree: u32) -> u32
    ensures { result ≡ lesser_of least degree }
{
    match least {
        Some(other) => other.min(degree),
        None => degree,
    }
}

/// -d
pub fn opposite(d: &Direction) -> Direction
    ensures { vector_of result ≡ opposite (vector_of d.now) }
{
    Direction { a: -d.a, b: -d.b }
}

fn same_kind(k: WallKind, l: WallKind) -> bool
    ensures { IsTrue result ↔ (kind_of k ≡ kind_of l) }
{
    match k {
        WallKind::Line => matches!(l, WallKind::Line),
        WallKind::Outgoing => matches!(l, WallKind::Outgoing),
    }
}

fn same_place(p: &Point, q: &Point) -> bool
    ensures { IsTrue result ↔ (point_of p.now ≡ point_of q.now) }
{
    p.compare(q) == Ordering::Equal
}

fn same_direction(d: &Direction, e: &Direction) -> bool
    ensures { IsTrue result ↔ (vector_of d.now ≡ vector_of e.now) }
{
    angle_cmp(d, e) == Ordering::Equal
}
