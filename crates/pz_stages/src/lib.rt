//! The stages of a session's inputs as lines, from the bytes of a file of sessions.
#![tactic(auto)]

mod course;
pub mod detail;
pub mod file;
mod firing_line;
mod heading;
mod naming;
mod stage_line;

pub use detail::Detail;
pub use file::stages;
