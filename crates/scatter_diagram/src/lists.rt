// Lists of walls: cut and copied.

ghost use Rattle.std.specs.Prelude.{◌≡◌, ◌≤◌, IfOk};
ghost use Rattle.scattering.specs.Collections.{Every};
ghost use Rattle.scattering.specs.Wall.{cut_walls};
ghost use Rattle.scatter_diagram.specs.Shown.{walls_of};
ghost use Rattle.scatter_diagram.specs.Listed.{AreOfOrder};

use crate::Wall;
use std::alloc::{AllocError, Global};

/// The walls with their functions cut to degree `order`.
pub fn cut_walls(alloc: Global, order: u32, walls: &[Wall]) -> Result<Vec<Wall>, AllocError>
    requires { Every (λ w. order ≤ w.function.order) walls.now }
    ensures walls { IfOk result (λ r. walls_of r.items ≡ cut_walls order (walls_of walls.now)) }
    ensures order { IfOk result (λ r. AreOfOrder order r.items) }
{
    let mut out = Vec::with_capacity(alloc, walls.len())?;
    for w in walls {
        out.push(w.truncate(order)?)?;
    }
    Ok(out)
}

pub(crate) fn copied(alloc: Global, walls: &[Wall]) -> Result<Vec<Wall>, AllocError>
    ensures { IfOk result (λ r. r.items ≡ walls.now) }
{
    let mut out = Vec::with_capacity(alloc, walls.len())?;
    for w in walls {
        out.push(w.copy()?)?;
    }
    Ok(out)
}
