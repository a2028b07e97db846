// The live walls of a diagram, each with its least degree and its support.

ghost use Rattle.std.specs.Prelude.{◌≡◌, ◌==◌, ◌≤◌, ◌+◌, ◌↔◌, IsTrue, IfOk, OnOk, MatchOption, false, filter};
ghost use Rattle.std.specs.List.Sorted.{IsNonDecreasingBy};
ghost use Rattle.scattering.specs.Collections.{Every};
ghost use Rattle.scattering.specs.ActivePoint.{is_incoming};
ghost use Rattle.scattering.specs.Wall.{is_live, walls};
ghost use Rattle.scatter_diagram.specs.Shown.{wall_of};
ghost use Rattle.joint_finder.specs.Live.{Shows, AreLive, AddsLive};

use plane_geom::Support;
use scatter_diagram::{Diagram, Wall};
use std::alloc::{AllocError, Global};

/// A wall whose function isn't 1: the least degree of a term other than 1, and the points on it.
#[derive(Clone, Copy, Debug, PartialEq, Eq)]
pub(crate) struct LiveWall {
    pub(crate) degree: u32,
    pub(crate) support: Support,
}

/// The walls that are live, sorted by least degree. Walls with one least degree keep their order.
pub(crate) fn live_walls(alloc: Global, e: &Diagram) -> Result<Vec<LiveWall>, AllocError>
    ensures walls { IfOk result (λ r. AreLive r.items (walls e.now.diagram)) }
    ensures kinds { IfOk result (λ _. Every (λ w. is_incoming w.kind ≡ false) (walls e.now.diagram)) }
    ensures sorted { IfOk result (λ r. IsNonDecreasingBy (λ w. w.degree) r.items) }
{
    let mut live = Vec::new(alloc);
    for run in 0..e.run_count() {
        add_live(&mut live, e.along(run))?;
    }
    live.sort_by_key(|w| w.degree)?;
    Ok(live)
}

/// Appends those of the walls that are live.
fn add_live(live: &mut Vec<LiveWall>, walls: &[Wall]) -> Result<(), AllocError>
    ensures { OnOk result (AddsLive walls.now live.old.items live.new.items) }
{
    for w in walls {
        if let Some(shown) = live_wall(w) {
            live.push(shown)?;
        }
    }
    Ok(())
}

/// The wall with its least degree, or None where it isn't live.
fn live_wall(w: &Wall) -> Option<LiveWall>
    ensures { MatchOption result (is_live (wall_of w.now) ≡ false) (λ l. Shows l (wall_of w.now)) }
{
    let degree = w.least_degree()?;
    Some(LiveWall {
        degree,
        support: w.support(),
    })
}

/// Whether the least degrees sum to at most the order.
pub(crate) fn fits(u: &LiveWall, v: &LiveWall, order: u32) -> bool
    ensures { IsTrue result ↔ (u.now.degree + v.now.degree ≤ order) }
{
    u64::from(u.degree) + u64::from(v.degree) <= u64::from(order)
}

/// The walls of a least degree, in their order.
pub(crate) fn of_degree(
    alloc: Global,
    live: &[LiveWall],
    degree: u32,
) -> Result<Vec<LiveWall>, AllocError>
    ensures { IfOk result (λ r. r.items ≡ filter (λ l. l.degree == degree) live.now) }
{
    let some = live.iter().filter(|w| w.degree == degree);
    some.copied().collect(alloc)
}
