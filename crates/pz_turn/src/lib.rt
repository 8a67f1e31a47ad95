//! Turns of a game: instances of rules applied, groups and loops run to rest, steps and wins.
#![tactic(auto)]

pub mod applying;
mod group;
pub mod laws;
pub mod loops;
mod one_cell;
pub mod outcome;
pub mod resting;
pub mod stepping;
pub mod win;

pub use loops::rest_loop;
pub use outcome::StepFault;
pub use resting::rest;
pub use stepping::{StepEnd, step};
pub use win::won;
