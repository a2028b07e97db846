//! Tests of whole runs, and of the sources and sinks that they read and write.
#![tactic(auto)]

#[cfg(test)]
mod case;
#[cfg(test)]
mod completions;
#[cfg(test)]
mod gates;
#[cfg(test)]
mod generated;
#[cfg(test)]
mod hostile;
#[cfg(test)]
mod inputs;
#[cfg(test)]
mod json;
#[cfg(test)]
mod outside;
#[cfg(test)]
mod refusals;
#[cfg(test)]
mod sessions;
#[cfg(test)]
mod streams;
#[cfg(test)]
mod theta;
