//! Tests of broken lines, by worked results.
#![tactic(auto)]

#[cfg(test)]
mod ahead;
#[cfg(test)]
mod algebras;
#[cfg(test)]
mod answers;
#[cfg(test)]
mod chambers;
#[cfg(test)]
mod faults;
#[cfg(test)]
mod kept;
#[cfg(test)]
mod products;
#[cfg(test)]
mod reaching;
#[cfg(test)]
mod tails;
#[cfg(test)]
mod thetas;
#[cfg(test)]
mod values;
