//! One session: several readers answer asks while the orders of a completion are computed and published one
//! after another.
//!
//! `specs/Session.antt` has what a session is, `specs/Seats.antt` what each reader has answered so far, and
//! `specs/Gathered.antt` how the answers of all come together.
#![tactic(auto)]

mod beside;
mod gathering;
mod readers;
mod seat;
mod session;
mod writer;

pub use session::{Session, hold_session};
