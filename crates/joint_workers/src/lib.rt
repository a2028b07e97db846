//! The corrections at all active points of one order, computed by several workers, each in a thread of its own
//! where one can be started, and the completions of one order after another that they give.
#![tactic(auto)]

mod orders;
mod worker;
mod workers;

pub use orders::{complete_by_workers, next_by_workers};
pub use workers::correct_all;
