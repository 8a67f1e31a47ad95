//! Reads the file of the sessions: its entries, their inputs, and the texts of levels.
#![tactic(auto)]

/// What a call found, or else the end of the function with the fault that it found.
macro_rules! or_fault {
    ($found:expr) => {
        match $found {
            Ok(found) => found,
            Err(fault) => return Ok(Err(fault)),
        }
    };
}

mod cutting;
pub mod entry;
pub mod fault;
pub mod file;
mod input;
mod names;
pub mod reading;
