//! The rays of the next order: those of a diagram with the terms of corrections.
//!
//! A correction's term c·z^m adds -g·c·z^m to the ray from its point along m/g, where g = gcd(m); after
//! Gross, Pandharipande and Siebert, "The tropical vertex", section 1.
#![tactic(auto)]

mod additions;
mod merge;
mod place;
mod ray;
mod ray_term;

pub use merge::merged;
