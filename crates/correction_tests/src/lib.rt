//! Tests of Lie elements, crossings, local products and active points, by worked results.
#![tactic(auto)]

#[cfg(test)]
mod bounds;
#[cfg(test)]
mod crossings;
#[cfg(test)]
mod joints;
#[cfg(test)]
mod lie;
#[cfg(test)]
mod powers;
#[cfg(test)]
mod products;
