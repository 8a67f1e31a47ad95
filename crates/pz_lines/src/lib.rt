//! The text of a recording, one line for each item, in the order of the sessions; and its writing.
#![tactic(auto)]

pub mod fault;
pub mod line;
pub mod naming;
pub mod output;
pub mod packed;
pub mod parts;
pub mod writing;
