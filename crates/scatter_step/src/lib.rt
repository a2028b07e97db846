//! Completions order by order: the corrections at all active points of one order, merged into the rays,
//! give the completion of the next.
//!
//! After Gross, Pandharipande and Siebert, "The tropical vertex", Theorem 1.4, for total degree.
#![tactic(auto)]

mod complete;
mod completed;
mod laws;
mod shared;
mod step;

pub use complete::{Outcome, complete_plain};
pub use completed::Completed;
pub use laws::{completions_are_unique, truncations_complete};
