//! The text of a diagram.

ghost use Rattle.std.specs.Prelude.{◌≡◌, ◌≤◌, IfOk};
ghost use Rattle.scattering.specs.Wall.{Outgoing};
ghost use Rattle.scatter_diagram.specs.Shown.{wall_of};
ghost use Rattle.scatter_diagram.specs.Listed.{AreLines};

use crate::lines::initial;
use scatter_diagram::{Diagram, Initial, StopCause, Wall};
use scatter_text::write_diagram;
use std::alloc::{AllocError, Global};
use std::test::Fail;

fn lines_of(alloc: Global, initial: &Initial) -> Result<Vec<Wall>, AllocError>
    ensures { IfOk result (λ r. AreLines 24 r.items) }
{
    let lines = initial.lines();
    let mut out = Vec::with_capacity(alloc, lines.len())?;
    for line in lines {
        out.push(line.copy()?)?;
    }
    Ok(out)
}

// The diagram of the lines of a text, which has no rays.
fn diagram(alloc: Global, text: &[u8]) -> Result<Option<Diagram>, AllocError> {
    match initial(alloc, text) {
        Some(initial) => {
            let lines = lines_of(alloc, &initial)?;
            Ok(Some(Diagram::from_walls(alloc, 24, lines, Vec::new(alloc))?))
        }
        None => Ok(None),
    }
}

fn prints(
    alloc: Global,
    e: &Diagram,
    stop: Option<(u32, StopCause)>,
    text: &[u8],
) -> Result<bool, AllocError> {
    Ok(write_diagram(alloc, e, 2, stop)?.as_slice() == text)
}

const LEVEL: &[u8] =
    b"scatter 1\nvars 2\nline -1 0 at 1/2 0\nterm 5 2 1 1\nterm -3 1 1 0\nterm 4 1 0 1\nend\n";

fn whole(alloc: Global) -> Result<bool, AllocError> {
    let text =
        b"scatter 1\nvars 2\norder 24\nline -1 0 at 1/2 0\nterm 4 1 0 1\nterm -3 1 1 0\nterm 5 2 1 1\nend\n";
    match diagram(alloc, LEVEL)? {
        Some(e) => prints(alloc, &e, None, text),
        None => Ok(false),
    }
}

const STOPS: [(StopCause, &[u8]); 3] = [
    (
        StopCause::PointTooLarge,
        b"scatter 1\nvars 2\norder 1\nline -1 0 at 1/2 0\nterm 4 1 0 1\nterm -3 1 1 0\nstopped 2 points\n",
    ),
    (
        StopCause::WeightTooLarge,
        b"scatter 1\nvars 2\norder 1\nline -1 0 at 1/2 0\nterm 4 1 0 1\nterm -3 1 1 0\nstopped 2 weights\n",
    ),
    (
        StopCause::TooManyWalls,
        b"scatter 1\nvars 2\norder 1\nline -1 0 at 1/2 0\nterm 4 1 0 1\nterm -3 1 1 0\nstopped 2 walls\n",
    ),
];

fn stops(alloc: Global, e: &Diagram, cause: StopCause, text: &[u8]) -> Result<bool, AllocError> {
    if e.order() == 0 {
        return Ok(false);
    }
    prints(alloc, &e.truncate(1)?, Some((2, cause)), text)
}

fn stopped(alloc: Global, cause: StopCause, text: &[u8]) -> Result<bool, AllocError> {
    match diagram(alloc, LEVEL)? {
        Some(e) => stops(alloc, &e, cause, text),
        None => Ok(false),
    }
}

#[test]
fn rows_by_multiple_and_stops(rt: HostRuntime) -> Result<(), Fail> {
    assert!(rt; whole(rt.alloc())?);
    for (cause, text) in &STOPS {
        assert!(rt; stopped(rt.alloc(), *cause, text)?);
    }
    Ok(())
}

// The outgoing ray along a line.
fn ray_along(line: &Wall) -> Result<Wall, AllocError>
    ensures wall { IfOk result (λ r. wall_of r ≡ record (wall_of line.now) { kind = Outgoing }) }
    ensures order { IfOk result (λ r. r.function.order ≡ line.now.function.order) }
{
    Ok(Wall::outgoing(line.at, line.dir, line.function.copy()?))
}

// The line of one text, and the ray along that of another, if it isn't 1.
fn lined(alloc: Global, line: &Initial, ray: &Initial) -> Result<Option<Diagram>, AllocError> {
    let rayed = lines_of(alloc, ray)?;
    if rayed.len() != 1 {
        return Ok(None);
    }
    let ray = ray_along(&rayed[0])?;
    if !ray.is_live() {
        return Ok(None);
    }
    let mut rays = Vec::new(alloc);
    rays.push(ray)?;
    let lines = lines_of(alloc, line)?;
    Ok(Some(Diagram::from_walls(alloc, 24, lines, rays)?))
}

fn orders(alloc: Global) -> Result<bool, AllocError> {
    let level = b"scatter 1\nvars 2\nline 1 0 at 0 0\nend\n";
    let sloped = b"scatter 1\nvars 2\nline 2 1 at -1 0\nterm 1 1 1 1\nend\n";
    let text =
        b"scatter 1\nvars 2\norder 24\nline 1 0 at 0 0\nray 2 1 at -1 0\nterm 1 1 1 1\nend\n";
    match (initial(alloc, level), initial(alloc, sloped)) {
        (Some(line), Some(ray)) => match lined(alloc, &line, &ray)? {
            Some(e) => prints(alloc, &e, None, text),
            None => Ok(false),
        },
        _ => Ok(false),
    }
}

#[test]
fn lines_before_rays(rt: HostRuntime) -> Result<(), Fail> {
    assert!(rt; orders(rt.alloc())?);
    Ok(())
}
