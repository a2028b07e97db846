//! Tests of merged rays and of completions, on one thread and by workers, by worked results.
#![tactic(auto)]

#[cfg(test)]
mod examples;
#[cfg(test)]
mod merges;
#[cfg(test)]
mod orders;
#[cfg(test)]
mod workers;
