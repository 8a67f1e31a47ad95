//! The steps of a session: where each begins, and with which input. Their stages are told by `pz_trace`.
#![tactic(auto)]

mod chains;
pub mod laws;
pub mod steps;

pub use steps::{Steps, standing};
