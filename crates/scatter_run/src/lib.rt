//! The jobs of the program.
#![tactic(auto)]

mod answer;
mod completing;
mod form;
mod generating;
mod generator;
mod holding;
mod jobs;
mod laws;
mod printing;
mod reading;
mod status;
mod words;
mod writing;

pub use jobs::{complete_job, generate_job, json_job, run, session_job, theta_job};
pub use laws::one_outcome;
pub use status::Status;
