//! Numbers that threads claim from one shared word.
//!
//! A table of `n` numbers hands out 0 to n-1. Each claim is one atomic addition of one to the table's word: a word below n is the
//! number claimed, and a seat that finds the word at n or more has ended. Among all who hold numbers, each number below the lesser of
//! the word and n is in one list, once, and no other number is in any; above n the word counts the seats that have ended. So once every seat
//! is joined, the maker has each number below n once. Nobody takes a lock, waits, or asks for memory after `Claims::new`.
//!
//! - `limits`: how much a table may have
//! - `view`: what a holder knows
//! - `rule`: the rule that binds the word to all views, and the steps that keep it
//! - `maker`, `seat`: who makes and joins seats, and who claims
//! - `table`: the table and its calls
#![tactic(auto)]

pub mod limits;
mod maker;
mod rule;
mod seat;
pub mod table;
#[cfg(test)]
mod tests;
mod view;

pub use maker::Maker;
pub use seat::{Ended, Seat};
pub use table::{Claimed, Claims};
