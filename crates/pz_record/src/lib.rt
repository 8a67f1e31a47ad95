//! What was recorded of a session: its inputs, and the names in the cells of its last level.
#![tactic(auto)]

pub mod cell_names;
pub mod input;
pub mod limits;
pub mod order;
pub mod recorded;
