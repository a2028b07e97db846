// Walls kept by supporting line.

ghost use Rattle.std.specs.Prelude.{◌≡◌, ◌<◌, ◌++◌, ◌-◌, List, length, slice_index_or, IfOk, not, true};
ghost use Rattle.std.specs.List.{enumerate_from};
ghost use Rattle.scattering.specs.Collections.{Every, in_order};
ghost use Rattle.scattering.specs.SupportingLine.{supporting_line, same_line};
ghost use Rattle.scatter_diagram.specs.Shown.{wall_of};
ghost use Rattle.scatter_diagram.specs.declared.wall.Wall.{Wall as CodeWall};
ghost use Rattle.scatter_diagram.specs.Ordered.{placed_before, places_of, stored_walls, IsInLineOrder, AreRunsOf, ArePositionsOf};

use crate::Wall;
use crate::supporting::{compare_lines, have_one_line};
use std::alloc::{AllocError, Global};

/// The lines, and then the rays.
pub(crate) fn joined(lines: Vec<Wall>, rays: Vec<Wall>) -> Result<Vec<Wall>, AllocError>
    ensures { IfOk result (λ r. r.items ≡ lines.items ++ rays.items) }
{
    let mut walls = lines;
    let mut rays = rays;
    walls.append(&mut rays)?;
    Ok(walls)
}

/// The walls, each with its place.
fn numbered(alloc: Global, walls: Vec<Wall>) -> Result<Vec<(usize, Wall)>, AllocError>
    ensures { IfOk result (λ r. r.items ≡ enumerate_from 0 walls.items) }
{
    walls.into_iter().enumerate().collect(alloc)
}

/// The walls in the order of their supporting lines, each with its place in the list. Those along one line
/// stay in their order.
pub(crate) fn by_line(alloc: Global, walls: Vec<Wall>) -> Result<Vec<(usize, Wall)>, AllocError>
    ensures { IfOk result
        (λ r. r.items ≡ in_order placed_before (enumerate_from 0 walls.items)) }
{
    let mut placed = numbered(alloc, walls)?;
    placed.sort_by(|u, v| compare_lines(&u.1, &v.1))?;
    Ok(placed)
}

pub(crate) fn places(alloc: Global, placed: &[(usize, Wall)]) -> Result<Vec<usize>, AllocError>
    ensures { IfOk result (λ r. r.items ≡ places_of placed.now) }
{
    placed.iter().map(|p| p.0).collect(alloc)
}

pub(crate) fn without_places(
    alloc: Global,
    placed: Vec<(usize, Wall)>,
) -> Result<Vec<Wall>, AllocError>
    ensures { IfOk result (λ r. r.items ≡ stored_walls placed.items) }
{
    placed.into_iter().map(|p| p.1).collect(alloc)
}

/// Where each place stands.
pub(crate) fn positions(alloc: Global, places: &[usize]) -> Result<Vec<usize>, AllocError>
    requires { Every (λ k. k < length places.now) places.now }
    ensures { IfOk result (λ r. ArePositionsOf places.now r.items) }
{
    let mut positions = vec![in alloc; 0; places.len()]?;
    for i in 0..places.len() {
        positions[places[i]] = i;
    }
    Ok(positions)
}

/// Whether a wall's line is another than that of the wall before.
fn begins(walls: &[Wall], i: usize) -> bool
    requires { i < length walls.now }
    ensures first { i ≡ 0 → result ≡ true }
    ensures later { (w : CodeWall) → 0 < i → result ≡ not (same_line
        (supporting_line (wall_of (slice_index_or walls.now (i - 1) w)))
        (supporting_line (wall_of (slice_index_or walls.now i w)))) }
{
    i == 0 || !have_one_line(&walls[i - 1], &walls[i])
}

/// Where each run of walls along one line begins, and where the last one ends.
pub(crate) fn bounds(alloc: Global, walls: &[Wall]) -> Result<Vec<usize>, AllocError>
    ensures { IfOk result
        (λ r. (ws : List CodeWall) → IsInLineOrder ws walls.now → AreRunsOf ws walls.now r.items) }
{
    let mut bounds = Vec::new(alloc);
    for i in 0..walls.len() {
        if begins(walls, i) {
            bounds.push(i)?;
        }
    }
    bounds.push(walls.len())?;
    Ok(bounds)
}
