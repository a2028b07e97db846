// Strands: live walls along one line, which are met together.

ghost use Rattle.std.specs.Prelude.{◌≡◌, ◌+◌, ◌<◌, ◌≤◌, IsTrue, IfOk, length, take};
ghost use Rattle.plane_geom.specs.Shown.{vector_of};
ghost use Rattle.joint_finder.specs.Strands.{IsSameUpToSign, IsInside, IsWholeLine, AreInside, AreStrands};

use crate::live::LiveWall;
use plane_geom::{Direction, Support, angle_cmp, on, whole_line};
use scatter_diagram::opposite;
use std::alloc::{AllocError, Global};
use std::cmp::Ordering;

/// Live walls along one line, and a support that has all their points: that of the wall, where it is one, and
/// else the whole line. So one meeting of two hulls tells where walls of two strands can meet.
#[derive(Clone, Copy)]
pub(crate) struct Strand<'a> {
    pub(crate) hull: Support,
    pub(crate) walls: &'a [LiveWall],
}

/// The strands of walls: those that follow one another along one line are one strand.
pub(crate) fn strands<'a>(
    alloc: Global,
    walls: &'a [LiveWall],
) -> Result<Vec<Strand<'a>>, AllocError>
    ensures { IfOk result (λ r. AreStrands walls.now r.items) }
{
    let mut strands = Vec::new(alloc);
    let mut left = walls;
    while left.len() > 0 {
        let line = line_of(&left[0].support);
        let count = 1 + length_along(&line, &left[1..]);
        let (together, others) = left.split_at(count);
        strands.push(Strand {
            hull: hull_of(&line, together),
            walls: together,
        })?;
        left = others;
    }
    Ok(strands)
}

/// How many walls at the head of the list stand along the line.
fn length_along(line: &Support, walls: &[LiveWall]) -> usize
    requires { IsWholeLine line.now }
    ensures within { result ≤ length walls.now }
    ensures along { AreInside line.now (take result walls.now) }
{
    for i in 0..walls.len() {
        if !lies_on(line, &walls[i].support) {
            return i;
        }
    }
    walls.len()
}

/// A support that has the points of all the walls, which stand along the line.
fn hull_of(line: &Support, walls: &[LiveWall]) -> Support
    requires { AreInside line.now walls.now }
    ensures { AreInside result walls.now }
{
    if walls.len() == 1 {
        walls[0].support
    } else {
        *line
    }
}

/// The whole line of a support.
fn line_of(s: &Support) -> Support
    ensures whole { IsWholeLine result }
    ensures inside { IsInside s.now result }
{
    match s {
        Support::Line { .. } => *s,
        Support::Half { start, along } => Support::Line {
            at: *start,
            dir: *along,
        },
    }
}

/// Whether a support lies on the line.
fn lies_on(line: &Support, s: &Support) -> bool
    requires { IsWholeLine line.now }
    ensures { IsTrue result → IsInside s.now line.now }
{
    let (at, dir) = whole_line(s);
    let (_, along) = whole_line(line);
    on(line, at) && are_along(dir, along)
}

/// Whether the directions are one, up to the sign.
fn are_along(d: &Direction, e: &Direction) -> bool
    ensures { IsTrue result → IsSameUpToSign (vector_of d.now) (vector_of e.now) }
{
    angle_cmp(d, e) == Ordering::Equal || angle_cmp(d, &opposite(e)) == Ordering::Equal
}
