//! Walls and diagrams: lines and outgoing rays, each with a wall function, and lists of them.
//! Contracts see them as the definitions' walls and diagrams.
#![tactic(auto)]

mod diagram;
mod initial;
mod lists;
mod runs;
mod shared;
mod stop;
mod supporting;
mod wall;

pub use diagram::Diagram;
pub use initial::Initial;
pub use lists::cut_walls;
pub use stop::{Stop, StopCause};
pub use supporting::{compare_directions, line_direction};
pub use wall::{Wall, WallKind, opposite};
