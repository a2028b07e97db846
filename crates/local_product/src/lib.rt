//! The local product at a point: its weight, the images of z^(1,0) and z^(0,1), and the correction that
//! it needs at the next order.
//!
//! The powers of the walls' functions stand in tables, made once for a diagram and an order and lent to all
//! its points. The images are made by degree, and of them only the terms of the order's own degree are read.
#![tactic(auto)]

mod bound;
mod carrying;
mod half_walls;
mod majorants;
mod obstruction;
mod one_side;
mod one_variable;
mod parallels;
mod product;
mod run_line;
mod tables;
mod wall_tables;
mod workspace;

pub use obstruction::{obstruction_at, obstruction_with};
pub use product::{images_at, weight_at};
pub use tables::{LocalTables, tables_of};
pub use workspace::Workspace;
