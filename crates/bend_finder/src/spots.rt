// The live walls on a point, found by supporting line.

ghost use Rattle.std.specs.Prelude.{◌≡◌, ◌↔◌, ◌++◌, ℕ, ⊤, IsTrue, List, MatchOption};
ghost use Rattle.scattering.specs.ActivePoint.{is_special};
ghost use Rattle.scattering.specs.Collections.{Every};
ghost use Rattle.scattering.specs.Wall.{Wall as PlaneWall, are_parallel};
ghost use Rattle.plane_geom.specs.Shown.{point_of};
ghost use Rattle.scatter_diagram.specs.Listed.{AreOfOrder};
ghost use Rattle.scatter_diagram.specs.Shown.{wall_of, walls_of};
ghost use Rattle.bend_finder.specs.Runs.{IsOneLine, AreOneLines, IsRunOf, AreLiveRunsOf, AreAllLive, OnSome, IsFoundOn, IsPlainOn, all_walls};
ghost use Rattle.bend_finder.specs.KeptRuns.{IsSomeRun};
ghost use Rattle.bend_finder.specs.Marks.{mark_walls, all_along, all_marked, AreLinesAhead, IsSpot, AreOfOrderAhead, AreMarksOfOrder};
ghost use Rattle.bend_finder.specs.Special.{live_starts, StartsLive};

use crate::marks::Mark;
use plane_geom::{Point, det};
use scatter_diagram::Wall;

/// Whether a wall of one of the runs is on the point.
pub(crate) fn is_on_run(runs: &[Vec<Wall>], p: &Point) -> bool
    requires { AreOneLines runs.now }
    ensures { IsTrue result ↔ OnSome (all_walls runs.now) (point_of p.now) }
{
    for run in runs {
        if is_on_some(run.as_slice(), p) {
            return true;
        }
    }
    false
}

/// Walls of which those on the point are all live walls there, or None where the point is special. Where no live wall is
/// on it, there are none of them, and else they are those along one line.
pub(crate) fn plain_run<'a>(runs: &'a [Vec<Wall>], q: &Point) -> Option<&'a [Wall]>
    requires { AreOneLines runs.now }
    ensures walls { (ls : List PlaneWall) → AreLiveRunsOf ls runs.now → MatchOption result
        (IsTrue (is_special ls (point_of q.now))) (λ ws. IsPlainOn ls (point_of q.now) (walls_of ws.now)) }
    ensures run { (ls : List PlaneWall) → AreLiveRunsOf ls runs.now → MatchOption result
        ⊤ (λ ws. IsSomeRun ls (walls_of ws.now)) }
    ensures order { (n : ℕ) → Every (λ r. AreOfOrder n r.items) runs.now →
        MatchOption result ⊤ (λ ws. AreOfOrder n ws.now) }
{
    let mut found: &'a [Wall] = &[];
    for run in runs {
        found = found_more(found, run.as_slice(), q)?;
    }
    if has_start(found, q) {
        return None;
    }
    Some(found)
}

/// The same at a point of a stretch: by the runs along this and the marks at the point, which are all on the point.
pub(crate) fn plain_among<'a>(
    along: &[&'a [Wall]],
    marks: &[Mark<'a>],
    q: &Point,
) -> Option<&'a [Wall]>
    requires { AreLinesAhead along.now marks.now }
    ensures walls { (ls : List PlaneWall) → IsSpot ls (point_of q.now) along.now marks.now →
        MatchOption result (IsTrue (is_special ls (point_of q.now)))
        (λ ws. IsPlainOn ls (point_of q.now) (walls_of ws.now)) }
    ensures run { (ls : List PlaneWall) → IsSpot ls (point_of q.now) along.now marks.now →
        MatchOption result ⊤ (λ ws. IsSomeRun ls (walls_of ws.now)) }
    ensures order { (n : ℕ) → AreOfOrderAhead n along.now marks.now →
        MatchOption result ⊤ (λ ws. AreOfOrder n ws.now) }
{
    let found = found_along(along, q)?;
    let found = found_marked(found, marks, q)?;
    if has_start(found, q) {
        return None;
    }
    Some(found)
}

/// Those of the runs along a stretch that are on the point, or None where two have walls there that aren't parallel.
fn found_along<'a>(along: &[&'a [Wall]], q: &Point) -> Option<&'a [Wall]>
    requires { Every (λ a. IsOneLine (walls_of a.now)) along.now }
    ensures walls { (ls : List PlaneWall) → Every (λ a. IsRunOf ls (walls_of a.now)) along.now →
        AreAllLive ls → MatchOption result (IsTrue (is_special ls (point_of q.now)))
        (λ ws. IsFoundOn ls (all_along along.now) (point_of q.now) (walls_of ws.now)) }
    ensures order { (n : ℕ) → Every (λ a. AreOfOrder n a.now) along.now →
        MatchOption result ⊤ (λ ws. AreOfOrder n ws.now) }
{
    let mut found: &'a [Wall] = &[];
    for run in along {
        found = found_more(found, *run, q)?;
    }
    Some(found)
}

/// The walls that were found on the point, or those of marks there, or None where some aren't parallel.
fn found_marked<'a>(found: &'a [Wall], marks: &[Mark<'a>], q: &Point) -> Option<&'a [Wall]>
    requires { Every (λ m. IsOneLine (mark_walls m)) marks.now }
    ensures walls { (ls seen : List PlaneWall) →
        IsFoundOn ls seen (point_of q.now) (walls_of found.now) →
        Every (λ m. IsRunOf ls (mark_walls m)) marks.now → AreAllLive ls →
        MatchOption result (IsTrue (is_special ls (point_of q.now)))
        (λ ws. IsFoundOn ls (seen ++ all_marked marks.now) (point_of q.now) (walls_of ws.now)) }
    ensures order { (n : ℕ) → AreOfOrder n found.now → AreMarksOfOrder n marks.now →
        MatchOption result ⊤ (λ ws. AreOfOrder n ws.now) }
{
    let mut found = found;
    for m in marks {
        found = found_more(found, m.walls, q)?;
    }
    Some(found)
}

/// The walls that were found on the point, or those of the next run, or None where both have walls there that aren't
/// parallel.
fn found_more<'a>(found: &'a [Wall], run: &'a [Wall], q: &Point) -> Option<&'a [Wall]>
    requires { IsOneLine (walls_of run.now) }
    ensures walls { (ls seen : List PlaneWall) →
        IsFoundOn ls seen (point_of q.now) (walls_of found.now) → IsRunOf ls (walls_of run.now) →
        AreAllLive ls → MatchOption result (IsTrue (is_special ls (point_of q.now)))
        (λ ws. IsFoundOn ls (seen ++ walls_of run.now) (point_of q.now) (walls_of ws.now)) }
    ensures order { (n : ℕ) → AreOfOrder n found.now → AreOfOrder n run.now →
        MatchOption result ⊤ (λ ws. AreOfOrder n ws.now) }
{
    if !is_on_some(run, q) {
        return Some(found);
    }
    if found.len() == 0 {
        return Some(run);
    }
    if are_parallel(&found[0], &run[0]) {
        Some(found)
    } else {
        None
    }
}

/// Whether one of the walls, which are along one line, is on the point.
pub(crate) fn is_on_some(walls: &[Wall], p: &Point) -> bool
    requires { IsOneLine (walls_of walls.now) }
    ensures { IsTrue result ↔ OnSome (walls_of walls.now) (point_of p.now) }
{
    walls.len() > 0 && walls[0].line_holds(p) && is_on_one(walls, p)
}

/// Whether one of the walls is on the point.
fn is_on_one(walls: &[Wall], p: &Point) -> bool
    ensures { IsTrue result ↔ OnSome (walls_of walls.now) (point_of p.now) }
{
    for w in walls {
        if w.holds(p) {
            return true;
        }
    }
    false
}

/// Whether a live ray starts at the point.
fn has_start(walls: &[Wall], p: &Point) -> bool
    ensures { IsTrue result ↔ StartsLive (walls_of walls.now) (point_of p.now) }
{
    for w in walls {
        if starts_live(w, p) {
            return true;
        }
    }
    false
}

/// Whether it is a live ray that starts at the point.
fn starts_live(w: &Wall, p: &Point) -> bool
    ensures { result ≡ live_starts (wall_of w.now) (point_of p.now) }
{
    w.starts_at(p) && w.is_live()
}

fn are_parallel(u: &Wall, v: &Wall) -> bool
    ensures { result ≡ are_parallel (wall_of u.now) (wall_of v.now) }
{
    det(&u.dir, &v.dir) == 0
}
