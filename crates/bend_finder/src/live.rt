// The live walls of a diagram, cut to a degree.

ghost use Rattle.std.specs.Prelude.{◌≡◌, ◌≤◌, ◌++◌, ◌∷◌, [], IfOk, OnOk};
ghost use Rattle.scattering.specs.Wall.{walls};
ghost use Rattle.scatter_diagram.specs.Shown.{wall_of, walls_of};
ghost use Rattle.scatter_diagram.specs.Listed.{AreOfOrder};
ghost use Rattle.bend_finder.specs.Live.{live_cut, IsReady};
ghost use Rattle.bend_finder.specs.Powers.{AreAtLeast};

use scatter_diagram::{Diagram, Wall};
use std::alloc::{AllocError, Global};

/// The walls of the diagram with their functions cut to degree `limit`, without those whose functions become 1,
/// in their order.
pub(crate) fn live_walls(alloc: Global, e: &Diagram, limit: u32) -> Result<Vec<Wall>, AllocError>
    requires { limit ≤ e.now.order }
    ensures walls { IfOk result (λ r. walls_of r.items ≡ live_cut limit (walls e.now.diagram)) }
    ensures order { IfOk result (λ r. AreOfOrder limit r.items) }
{
    let mut live = Vec::new(alloc);
    for i in 0..e.line_count() {
        add_live(&mut live, e.line(i), limit)?;
    }
    for i in 0..e.ray_count() {
        add_live(&mut live, e.ray(i), limit)?;
    }
    Ok(live)
}

/// The same, run by run: the walls along each line together, where there are any.
pub(crate) fn live_runs(
    alloc: Global,
    e: &Diagram,
    limit: u32,
) -> Result<Vec<Vec<Wall>>, AllocError>
    requires { limit ≤ e.now.order }
    ensures { IfOk result (λ r. IsReady limit e.now r.items) }
{
    let mut runs = Vec::new(alloc);
    // the diagram's order is asked for what its type says of its walls
    let most = limit.min(e.order());
    for i in 0..e.run_count() {
        let run = live_run(alloc, e.along(i), most)?;
        if run.len() > 0 {
            runs.push(run)?;
        }
    }
    Ok(runs)
}

/// The walls cut to degree `limit`, without those whose functions become 1, in their order.
fn live_run(alloc: Global, walls: &[Wall], limit: u32) -> Result<Vec<Wall>, AllocError>
    requires { AreAtLeast limit walls.now }
    ensures walls { IfOk result (λ r. walls_of r.items ≡ live_cut limit (walls_of walls.now)) }
    ensures order { IfOk result (λ r. AreOfOrder limit r.items) }
{
    let mut live = Vec::new(alloc);
    for w in walls {
        add_live(&mut live, w, limit)?;
    }
    Ok(live)
}

/// Appends the wall with its function cut to degree `limit`, if that isn't 1.
fn add_live(live: &mut Vec<Wall>, w: &Wall, limit: u32) -> Result<(), AllocError>
    requires { limit ≤ w.now.function.order }
    ensures walls { OnOk result (walls_of live.new.items
        ≡ walls_of live.old.items ++ live_cut limit (wall_of w.now ∷ [])) }
    ensures order { OnOk result (AreOfOrder limit live.old.items → AreOfOrder limit live.new.items) }
{
    let low = w.truncate(limit)?;
    if low.is_live() {
        live.push(low)?;
    }
    Ok(())
}
