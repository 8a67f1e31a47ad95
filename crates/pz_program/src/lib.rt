//! What the rules of a game are, once they are expanded: instances with their commands, in groups, loops and programs.
#![tactic(auto)]

pub mod commands;
pub mod group;
pub mod headings;
pub mod instance;
