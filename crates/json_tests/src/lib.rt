//! Tests of scatter_json at its public calls: what texts say, each refusal, and the text of a diagram.
#![tactic(auto)]

#[cfg(test)]
mod reading;
#[cfg(test)]
mod writing;
