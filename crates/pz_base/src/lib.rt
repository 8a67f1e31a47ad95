//! What every crate speaks of: lists, texts, names, sets of names, and the faults of a source.
#![tactic(auto)]

pub mod fault;
pub mod listed;
pub mod listing;
pub mod name;
pub mod name_set;
pub mod text;
