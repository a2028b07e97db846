//! Broken lines, traced backwards from the point where they end.
//!
//! After Gross, Hacking, Keel and Kontsevich, "Canonical bases for cluster algebras"; reach, tails and the
//! faults of asking are this program's own.
#![tactic(auto)]

mod asking;
mod fault;
mod growth;
mod line_tracer;
mod moving;
mod node;
mod reaching;
mod tail;
mod tracer;

pub use asking::tails;
pub use bend_finder::Bend;
pub use fault::AskFault;
pub use line_tracer::LineTracer;
pub use reaching::reach;
pub use tail::{Tail, Traced};
