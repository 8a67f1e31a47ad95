//! Sessions that are kept open: one input more, an earlier one again, and what each shows.
#![tactic(auto)]

pub mod label;
pub mod opened;
pub mod place;
pub mod sessions;
pub mod telling;
