//! Tests of the order machine, by worked lists of events, and of the board, by seats that take turns.
#![tactic(auto)]

#[cfg(test)]
mod board;
#[cfg(test)]
mod machine;
