// Points in their order, each once.

ghost use Rattle.std.specs.Prelude.{◌≡◌, ◌↔◌, IsTrue};
ghost use Rattle.std.specs.List.{dedup};
ghost use Rattle.std.specs.List.Sorted.{IsPermutation, IsSorted};
ghost use Rattle.plane_geom.specs.Shown.{position_order};
ghost use Rattle.joint_finder.specs.Joints.{same_point};

use plane_geom::Point;
use rayon::prelude::*;
use std::thread::Threads;

/// Sorts points by x, then y.
pub fn sort(points: &mut Vec<Point>)
    ensures permutation { IsPermutation points.old.items points.new.items }
    ensures sorted { IsSorted position_order points.new.items }
{
    points.sort_unstable_by(|p, q| p.compare(q));
}

/// Sorts points by x, then y. The work is split among threads.
fn sort_by_threads<R: Threads + Sync>(rt: &R, points: &mut Vec<Point>)
    ensures permutation { IsPermutation points.old.items points.new.items }
    ensures sorted { IsSorted position_order points.new.items }
{
    par_sort_unstable_by(
        rt,
        points.as_mut_slice(),
        |p: &Point, q: &Point| p.compare(q),
    );
}

/// Sorts points by x, then y, by threads where there is more than one worker.
pub(crate) fn sort_by_workers<R: Threads + Sync>(rt: &R, workers: u32, points: &mut Vec<Point>)
    ensures permutation { IsPermutation points.old.items points.new.items }
    ensures sorted { IsSorted position_order points.new.items }
{
    if workers > 1 {
        sort_by_threads(rt, points)
    } else {
        sort(points)
    }
}

/// Drops each point that equals the one before, so of sorted points each repeated one.
pub fn drop_repeats(points: &mut Vec<Point>)
    ensures { points.new.items ≡ dedup same_point points.old.items }
{
    points.dedup();
}
