//! The answers to the asks of one run, computed by several workers, each in a thread of its own where one can be
//! started.
#![tactic(auto)]

mod one_ask;
mod worker;
mod workers;

pub use workers::answer_all;
