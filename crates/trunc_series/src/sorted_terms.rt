//! Sorted lists of terms, which series are made of: for crates that compute with the lists themselves.
//!
//! Keys rise, no coefficient is 0, and coefficients are kept by a rule: modulo 2^128, where a bound on the
//! true coefficients picks the one that is meant, or as the lesser of their value and 2^126 + 1, where
//! none is below 0. `IsKeptAs` in `specs/` says what sum a list stands for. No call has to bound what it
//! makes on the way: `Series::from_sorted` and `Majorant::from_sorted` take a list back into a series.
//! `TermSum` is for a sum that grows by many terms, and is sorted once in the end. `multiply_into` makes it a
//! product, of which `LowRows` has the second factor.

pub use crate::arithmetic::{Arithmetic, product, sum};
pub use crate::key::same;
pub use crate::low_rows::LowRows;
pub use crate::merge::{absolutes, level, low_terms, merged};
pub use crate::power::{one_term, without_constant};
pub use crate::product::{multiplied, multiply_into};
pub use crate::sorting::collected;
pub use crate::term_sum::TermSum;
