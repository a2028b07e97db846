//! Theta functions at a point, the products of two of them as families of theta functions, and answers to queries.
//!
//! After Gross, Hacking, Keel and Kontsevich, "Canonical bases for cluster algebras"; the steps by which a product
//! is found, and the faults of asking, are this program's own.
#![tactic(auto)]

mod answering;
mod family;
mod kept_thetas;
mod laws;
mod line_values;
mod product;
mod query;
mod steps;
mod thetas;
mod tracers;

pub use answering::answer;
pub use laws::one_answer;
pub use product::theta_product;
pub use query::{Answer, Query, QueryKind, Reply};
pub use thetas::theta;
pub use tracers::Tracers;
