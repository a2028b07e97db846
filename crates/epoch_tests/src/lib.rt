//! Tests of the store of published orders, of asks at them, and of sessions, by the first orders of two lines.
#![tactic(auto)]

#[cfg(test)]
mod asks;
#[cfg(test)]
mod epochs;
#[cfg(test)]
mod gates;
#[cfg(test)]
mod sessions;
