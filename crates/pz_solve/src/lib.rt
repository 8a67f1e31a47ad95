//! Solves levels: a shortest list of presses that wins, or that no list does.
#![tactic(auto)]

mod answer;
mod index;
pub mod laws;
pub mod moves;
mod origin;
mod path;
mod search;
mod solving;

pub use answer::{Answer, Bounds, SolveFault};
pub use moves::{Move, start};
pub use solving::solve;
