//! Tests of fractions, of points and directions, of series, majorants and sums under construction, and of
//! walls and diagrams.
#![tactic(auto)]

#[cfg(test)]
mod binomials;
#[cfg(test)]
mod diagrams;
#[cfg(test)]
mod fractions;
#[cfg(test)]
mod lists;
#[cfg(test)]
mod majorants;
#[cfg(test)]
mod plane;
#[cfg(test)]
mod samples;
#[cfg(test)]
mod series;
#[cfg(test)]
mod sums;
#[cfg(test)]
mod walls;
