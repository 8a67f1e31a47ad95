//! The text of a source: its characters, its lines without comments, its sections, and its names.
#![tactic(auto)]

pub mod characters;
pub mod check;
pub mod comment;
pub mod cutting;
pub mod heading;
pub mod line;
pub mod section;
pub mod words;
