//! The engine for a host that isn't written in Rattle: functions with the calling convention of C, from the bytes of a file of sessions to
//! the lines of their recording, from a source to its description, sessions that are kept open, and what wins them.
#![tactic(auto)]

pub mod description;
pub mod held;
pub mod inputs;
pub mod lines;
pub mod open;
pub mod outcome;
pub mod solutions;
