//! The powers of a wall's function by degree, in tables that are made once for a wall and an order.
//!
//! With u = f - 1, the part of degree i of f^n is the sum of C(n, r) times that of u^r, for n of either
//! sign. A table keeps, for each key of degree i, the coefficients at it of u, u^2 and so on.
#![tactic(auto)]

mod column;
mod columns;
mod combining;
mod making;
mod rows;
mod scaling;
mod table;
mod values;

pub use table::PowerTable;
pub use values::PowerValues;
