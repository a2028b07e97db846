// The JSON form of a scattering diagram: the reader of its lines, and the writer of its completion.
#![tactic(auto)]

mod fault;
mod laws;
mod lines;
mod parts;
mod reading;
mod terms;
mod values;
mod writing;

pub use fault::{JsonFault, JsonKind};
pub use laws::{one_json, one_json_text};
pub use reading::read_json;
pub use writing::write_json;
