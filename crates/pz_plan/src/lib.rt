//! What a rule asks: its directions, its choices, and what decides each item.
#![tactic(auto)]

pub mod checks;
pub mod commands;
pub mod deciding;
pub mod fault;
pub mod laws;
pub mod numbering;
pub mod plan;
pub mod planning;
pub mod prefix;
pub mod spelling;
