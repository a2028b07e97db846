//! Crossings of walls: a series after a wall is crossed, and the majorant that bounds it.
//!
//! A crossing of a wall with the function f and the direction dir takes z^m to z^m·f^(s·det(dir, m)),
//! modulo terms of degree above the order, where the sign s says which way the wall is crossed.
#![tactic(auto)]

mod by_degree;
mod crossing;
mod laws;
mod side;

pub use by_degree::SumByDegree;
pub use crossing::{cross, cross_majorant};
pub use laws::{crossings_are_automorphisms, majorants_test_crossings};
pub use side::Side;
