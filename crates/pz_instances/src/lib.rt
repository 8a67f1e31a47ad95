//! Instances of a rule by themselves: which are equal, and which can't be.
#![tactic(auto)]

pub mod clash;
pub mod equal;
pub mod exclusion;
pub mod hashes;
