//! The board from which the workers of an order draw its tasks, and where their results come
//! together.
//!
//! One word of an atomic table counts the claims. A claim adds one to it and draws the number that it
//! had, so no worker waits for another, and no number is drawn twice or skipped. `specs/Seen.antt` has
//! what contracts see, and `specs/Machine.antt` how it stands to the order machine.
#![tactic(auto)]

mod board;
mod gathering;
mod kept;
mod rule;
mod seat;
mod shared;
mod steps;
mod view;

pub use board::Board;
pub use kept::Kept;
pub use seat::BoardSeat;
