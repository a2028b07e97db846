//! Asks at published orders: a reader of the store pins an order, answers in that order's diagram, and
//! gives the order back.
//!
//! `specs/Asked.antt` has what an answer is, and `specs/Machine.antt` how an ask stands to the order
//! machine.
#![tactic(auto)]

mod reader;
mod shared;

pub use reader::DiagramReader;
