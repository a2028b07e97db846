//! Tests of scatter_text at its public calls: worked texts with their faults, values, asks, answers, limits, lines and diagrams, taken
//! from outside.
#![tactic(auto)]

#[cfg(test)]
mod answers;
#[cfg(test)]
mod ask_limits;
#[cfg(test)]
mod asks;
#[cfg(test)]
mod diagrams;
#[cfg(test)]
mod faults;
#[cfg(test)]
mod files;
#[cfg(test)]
mod lines;
#[cfg(test)]
mod passed_limits;
