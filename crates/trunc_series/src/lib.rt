//! Truncated series: finite maps from keys to nonzero whole numbers, modulo a degree. A key is the
//! powers of t1 to t8 and an exponent of z, its degree is the sum of the powers. Contracts see a series
//! as its order and its terms, over the definitions of formal sums. `sorted_terms` has the lists of terms
//! under them, and sums under construction.
#![tactic(auto)]

mod adding;
mod arithmetic;
mod key;
mod laws;
mod low_rows;
mod majorant;
mod merge;
mod places;
mod power;
mod product;
mod rests;
mod series;
mod shared;
pub mod sorted_terms;
mod sorting;
mod term_sum;

pub use key::{Exp, Key, compare, is_constant, times};
pub use laws::{bounds_carry_over, majorants_test_masses, series_are_a_ring};
pub use majorant::Majorant;
pub use series::Series;
