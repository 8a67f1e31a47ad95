//! The engine as a library: from the bytes of a file of sessions to the lines of their recording, with neither threads nor streams.
#![tactic(auto)]

pub mod engine;
pub mod sessions;
