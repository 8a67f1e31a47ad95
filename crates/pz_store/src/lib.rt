//! Levels of one size, kept small: each as the numbers of its cells in a book of distinct ones.
#![tactic(auto)]

mod book;
mod digest;
pub mod levels;
mod rows;
