//! Lie elements with exact fractions: their bracket, the leading part of a pair of images, and logarithms
//! of wall functions.
#![tactic(auto)]

mod bracket;
mod element;
mod fault;
mod laws;
mod leading_part;
mod logarithm;
mod shared;

pub use element::LieElement;
pub use fault::LieFault;
pub use laws::{brackets_are_of_sums, elements_are_determined, leading_parts_are_corrections};
pub use leading_part::{Axis, leading, leading_from};
pub use logarithm::wall_log;
