// Where live walls meet whose least degrees sum to the order exactly.

ghost use Rattle.std.specs.Prelude.{◌≤◌, [], IfOk, OnOk, IfErr};
ghost use Rattle.scattering.specs.Collections.{Every};
ghost use Rattle.joint_finder.specs.Crossings.{Adds, StopsFar};
ghost use Rattle.joint_finder.specs.Strands.{AreFacing, IsFacing, MeetsAny, MeetsLevels, MeetsPairs, IsNewlyMet, joined};

use crate::live::{LiveWall, of_degree};
use crate::rows::{add_rows, rows};
use crate::strands::{Strand, strands};
use plane_geom::Point;
use scatter_diagram::Stop;
use std::alloc::Global;
use std::thread::Threads;

/// The points where two of the walls meet whose least degrees sum to the order, in whatever order, with repetitions.
pub(crate) fn new_crossings<R: Threads + Sync>(
    rt: &R,
    workers: u32,
    alloc: Global,
    order: u32,
    live: &[LiveWall],
) -> Result<Vec<Point>, Stop>
    requires some { 1 ≤ workers }
    ensures points { IfOk result (λ r. Adds (IsNewlyMet order live.now) [] r.items) }
    ensures far { IfErr result (StopsFar order (IsNewlyMet order live.now)) }
{
    let mut points = Vec::new(alloc);
    for low in 0..order / 2 + 1 {
        add_level(rt, workers, alloc, &mut points, order, live, low)?;
    }
    Ok(points)
}

/// Appends the points where walls of one least degree meet those of another, the two of which sum to the order.
fn add_level<R: Threads + Sync>(
    rt: &R,
    workers: u32,
    alloc: Global,
    points: &mut Vec<Point>,
    order: u32,
    live: &[LiveWall],
    low: u32,
) -> Result<(), Stop>
    requires some { 1 ≤ workers }
    requires low { low ≤ order }
    ensures points { OnOk result
        (Adds (MeetsLevels order low live.now) points.old.items points.new.items) }
    ensures far { IfErr result (StopsFar order (MeetsLevels order low live.now)) }
{
    let first = of_degree(alloc, live, low)?;
    if low == order - low {
        return add_within(rt, workers, alloc, points, order, first.as_slice());
    }
    let second = of_degree(alloc, live, order - low)?;
    add_between(
        rt,
        workers,
        alloc,
        points,
        order,
        first.as_slice(),
        second.as_slice(),
    )
}

/// Appends the points where two of the walls meet, whose least degrees are half the order.
fn add_within<R: Threads + Sync>(
    rt: &R,
    workers: u32,
    alloc: Global,
    points: &mut Vec<Point>,
    order: u32,
    walls: &[LiveWall],
) -> Result<(), Stop>
    requires some { 1 ≤ workers }
    requires facing { AreFacing order walls.now walls.now }
    ensures points { OnOk result
        (Adds (MeetsAny order walls.now walls.now) points.old.items points.new.items) }
    ensures far { IfErr result (StopsFar order (MeetsAny order walls.now walls.now)) }
{
    let ss = strands(alloc, walls)?;
    let rows = rows(
        rt,
        workers,
        alloc,
        order,
        ss.as_slice(),
        ss.as_slice(),
        true,
    )?;
    add_rows(points, rows.as_slice())?;
    Ok(())
}

/// Appends the points where a wall of a list meets one of another, whose least degrees sum to the order.
fn add_between<R: Threads + Sync>(
    rt: &R,
    workers: u32,
    alloc: Global,
    points: &mut Vec<Point>,
    order: u32,
    first: &[LiveWall],
    second: &[LiveWall],
) -> Result<(), Stop>
    requires some { 1 ≤ workers }
    requires facing { AreFacing order first.now second.now }
    ensures points { OnOk result
        (Adds (MeetsAny order first.now second.now) points.old.items points.new.items) }
    ensures far { IfErr result (StopsFar order (MeetsAny order first.now second.now)) }
{
    let ss = strands(alloc, first)?;
    let ts = strands(alloc, second)?;
    let rows = rows_between(rt, workers, alloc, order, ss.as_slice(), ts.as_slice())?;
    add_rows(points, rows.as_slice())?;
    Ok(())
}

/// The points where strands meet, in rows of the longer list, so that the rows are many and alike.
fn rows_between<R: Threads + Sync>(
    rt: &R,
    workers: u32,
    alloc: Global,
    order: u32,
    ss: &[Strand<'_>],
    ts: &[Strand<'_>],
) -> Result<Vec<Vec<Point>>, Stop>
    requires some { 1 ≤ workers }
    requires facing { Every (λ s. Every (IsFacing order s) ts.now) ss.now }
    ensures points { IfOk result (λ r. Adds (MeetsPairs order ss.now ts.now) [] (joined r.items)) }
    ensures far { IfErr result (StopsFar order (MeetsPairs order ss.now ts.now)) }
{
    if ss.len() < ts.len() {
        rows(rt, workers, alloc, order, ts, ss, false)
    } else {
        rows(rt, workers, alloc, order, ss, ts, false)
    }
}
