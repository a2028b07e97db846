//! The active points of a diagram: where walls that aren't parallel cross, with least degrees that
//! sum to at most the order.
#![tactic(auto)]

mod active;
mod crossings;
mod facing;
mod live;
mod new_crossings;
mod order;
mod rows;
mod strands;

pub use active::{joints, joints_by_workers, joints_from};
pub use order::{drop_repeats, sort};
