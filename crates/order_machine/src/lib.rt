//! The order machine: the pure core of a run of many threads, in which workers draw the tasks of an order from a
//! board, orders are published, and readers pin them. `specs/History.antt` says by counting in a list of events what
//! holds after it.
#![tactic(auto)]

mod board;
mod event;
mod fault;
mod laws;
mod machine;
mod reader;
mod runs;
mod worker;

pub use event::{Event, Reply};
pub use fault::MachineFault;
pub use laws::{orders_follow, readers_never_go_back, tasks_are_done_once};
pub use machine::State;
pub use runs::run;
