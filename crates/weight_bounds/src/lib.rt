//! A cheap bound of the weight of a point, from the masses by degree of the functions of its walls.
//!
//! A majorant of a crossing takes z^m to z^m times a power of 1/(2 - |f|), with the exponent
//! |det(dir, m)|. Exponents of the terms of degree d are within 1 and what products of the functions'
//! terms reach to degree d, so that power is at most the (|dir.a| + |dir.b|)·(1 + reach)-th, and the masses
//! by degree of both images are bounded by numbers alone. Numbers saturate: the largest says nothing.
#![tactic(auto)]

mod bound;
mod numbers;
mod reach;
mod table;

pub use bound::WeightBound;
pub use reach::Reach;
pub use table::MassTable;
