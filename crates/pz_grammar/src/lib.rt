//! Rule lines, read: from words to the rule that they write.
#![tactic(auto)]

pub mod grammar;
pub mod loops;
pub mod rows;
pub mod rule;
pub mod token;
pub mod words;
