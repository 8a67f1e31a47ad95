//! What a game is made of, as all contracts name it: its parts and what its names denote, its drawn levels, and the rows
//! of its rules.
#![tactic(auto)]

pub mod denotation;
pub mod direction;
pub mod game;
pub mod headings;
pub mod level;
pub mod limits;
pub mod masks;
pub mod options;
pub mod pattern;
pub mod rule_line;
pub mod win_line;
