// Where a stretch crosses walls, by the line that these are along.

ghost use Rattle.std.specs.List.Sorted.{IsPermutation, IsSorted};
ghost use Rattle.plane_geom.specs.Shown.{point_of};
ghost use Rattle.bend_finder.specs.Marks.{mark_order, IsCountAt};

use plane_geom::Point;
use scatter_diagram::Wall;

/// A point of a stretch, and the walls along a line of which one is on it.
#[derive(Clone, Copy)]
pub(crate) struct Mark<'a> {
    pub(crate) at: Point,
    pub(crate) walls: &'a [Wall],
}

/// Sorts marks by their points: by x, then y.
pub(crate) fn sort(marks: &mut Vec<Mark<'_>>)
    ensures permutation { IsPermutation marks.old.items marks.new.items }
    ensures sorted { IsSorted mark_order marks.new.items }
{
    marks.sort_unstable_by(|m, n| m.at.compare(&n.at));
}

/// How many marks from the first on are at the point.
pub(crate) fn count_at(marks: &[Mark<'_>], at: &Point) -> usize
    ensures { IsCountAt marks.now (point_of at.now) result }
{
    let mut count = 0;
    for m in marks {
        if m.at != *at {
            return count;
        }
        count += 1;
    }
    count
}
