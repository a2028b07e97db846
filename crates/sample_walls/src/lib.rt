//! Monomials, points, walls and lists of lines that tests are made of.
#![tactic(auto)]

pub mod monomials;
mod places;
mod walls;

pub use places::{on_axis, origin, place};
pub use walls::{axes, line, plain_axes, square_axes, wall};
