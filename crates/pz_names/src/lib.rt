//! The names of a PuzzleScript game: its objects, its legend, and what each name denotes.
#![tactic(auto)]

/// What a call found, or else the end of the function with the fault that it found.
macro_rules! or_fault {
    ($found:expr) => {
        match $found {
            Ok(found) => found,
            Err(fault) => return Ok(Err(fault)),
        }
    };
}

pub mod cycles;
pub mod denotation;
pub mod kinds;
pub mod legend;
pub mod meaning;
pub mod name_line;
pub mod objects;
pub mod values;
