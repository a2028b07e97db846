// The points where strands meet, strand by strand, split among threads.

ghost use Rattle.std.specs.Prelude.{◌≡◌, ◌<◌, ◌≤◌, ◌++◌, [], length, IsTrue, IfOk, OnOk, IfErr};
ghost use Rattle.scattering.specs.Collections.{Every};
ghost use Rattle.joint_finder.specs.Crossings.{Adds, StopsFar};
ghost use Rattle.joint_finder.specs.Strands.{IsFacing, IsRowAt, MeetsPairs, joined, others_at};

use crate::facing::row;
use crate::strands::Strand;
use plane_geom::Point;
use rayon::prelude::*;
use scatter_diagram::Stop;
use std::alloc::{AllocError, Global};
use std::thread::Threads;

/// So many pairs are worth a thread.
const PAIRS_OF_A_PIECE: usize = 4096;

/// How many rows of a list one thread takes at least, where so many workers share them.
fn least_rows(rows: usize, others: usize, workers: u32) -> usize
    requires { 1 ≤ workers }
{
    let worth = PAIRS_OF_A_PIECE / others.max(1) + 1;
    worth.max(rows / workers as usize)
}

/// The points where strands meet others, in the rows of the strands, which are split among so many workers. Where
/// the others are the same strands again, a row has the later ones alone.
pub(crate) fn rows<R: Threads + Sync>(
    rt: &R,
    workers: u32,
    alloc: Global,
    order: u32,
    ss: &[Strand<'_>],
    ts: &[Strand<'_>],
    again: bool,
) -> Result<Vec<Vec<Point>>, Stop>
    requires some { 1 ≤ workers }
    requires again { IsTrue again → ts.now ≡ ss.now }
    requires facing { Every (λ s. Every (IsFacing order s) ts.now) ss.now }
    ensures points { IfOk result (λ r. Adds (MeetsPairs order ss.now ts.now) [] (joined r.items)) }
    ensures far { IfErr result (StopsFar order (MeetsPairs order ss.now ts.now)) }
{
    let rows: Result<Vec<Vec<Point>>, Stop> = (0..ss.len())
        .into_par_iter()
        .with_min_len(least_rows(ss.len(), ts.len(), workers))
        .map(
            |i: usize| -> Result<Vec<Point>, Stop>
                requires { (i < length ss.now) × (IsTrue again → ts.now ≡ ss.now)
                    × Every (λ s. Every (IsFacing order s) ts.now) ss.now }
                ensures { IsRowAt again order ss.entry.now ts.entry.now i result }
            { row_at(alloc, order, ss, ts, again, i) },
        )
        .collect(rt, alloc)?;
    rows
}

/// The points where the strand at the place meets others.
fn row_at(
    alloc: Global,
    order: u32,
    ss: &[Strand<'_>],
    ts: &[Strand<'_>],
    again: bool,
    place: usize,
) -> Result<Vec<Point>, Stop>
    requires place { place < length ss.now }
    requires again { IsTrue again → ts.now ≡ ss.now }
    requires facing { Every (λ s. Every (IsFacing order s) ts.now) ss.now }
    ensures { IsRowAt again order ss.now ts.now place result }
{
    row(alloc, order, &ss[place], others_at(ts, place, again))
}

/// Those whom the strand at the place meets.
fn others_at<'t, 'w>(ts: &'t [Strand<'w>], place: usize, again: bool) -> &'t [Strand<'w>]
    requires { IsTrue again → place < length ts.now }
    ensures { result.now ≡ others_at again place ts.now }
{
    let first = if again { place + 1 } else { 0 };
    ts.split_at(first).1
}

/// Appends the points of all rows.
pub(crate) fn add_rows(points: &mut Vec<Point>, rows: &[Vec<Point>]) -> Result<(), AllocError>
    ensures { OnOk result (points.new.items ≡ points.old.items ++ joined rows.now) }
{
    for row in rows {
        points.extend_from_slice(row.as_slice())?;
    }
    Ok(())
}
