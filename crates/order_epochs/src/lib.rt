//! The store of published orders: one writer, and readers that answer from finished orders while the
//! next one is computed.
//!
//! Two copies of a shared owner of a completion stand behind the store. The writer publishes in one
//! step, a reader takes the order in one step, and neither copies a diagram. `specs/Seen.antt` has what
//! contracts see, `specs/Rule.antt` the rule that every step keeps, and `specs/Machine.antt` how the
//! store stands to the order machine.
#![tactic(auto)]

mod epochs;
mod pinned;
mod reader;
mod rule;
mod shared;
mod shelf;
mod steps;
mod told;
mod view;

pub use epochs::Epochs;
pub use pinned::Pinned;
pub use reader::EpochReader;
pub use told::Told;
