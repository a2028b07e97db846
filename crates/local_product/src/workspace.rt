// What is used again from point to point.

ghost use Rattle.std.specs.Prelude.{◌≤◌, IfOk};
ghost use Rattle.limits.specs.Limits.{highest_order};
ghost use Rattle.local_product.specs.Workspace.{IsWorkspaceOf};

use crate::half_walls::HalfWall;
use power_tables::PowerValues;
use std::alloc::{AllocError, Global};
use wall_auto::SumByDegree;

/// The memory for the local product at one point after another: each worker has one. What it holds of one
/// point is not read at the next.
#[derive(Drop)]
pub struct Workspace<'a> {
    pub(crate) halves: Vec<HalfWall<'a>>,
    pub(crate) sum: SumByDegree,
    pub(crate) values: PowerValues,
}

impl<'a> Workspace<'a> {
    /// For points of an order.
    pub fn new(alloc: Global, order: u32) -> Result<Workspace<'a>, AllocError>
        requires { order ≤ highest_order }
        ensures { IfOk result (IsWorkspaceOf order) }
    {
        Ok(Workspace {
            halves: Vec::new(alloc),
            sum: SumByDegree::new(alloc, order)?,
            values: PowerValues::new(alloc)?,
        })
    }
}
