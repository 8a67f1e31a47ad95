//! The rules of a game, expanded: from its rule lines to the program of instances. A door of the library: a caller lists this crate beside
//! `pz_source`.
#![tactic(auto)]

/// What a call found, or else the end of the function with the fault that it found.
macro_rules! or_fault {
    ($found:expr) => {
        match $found {
            Ok(found) => found,
            Err(fault) => return Ok(Err(fault)),
        }
    };
}

pub mod counting;
pub mod draft;
pub mod expanding;
pub mod expansion;
pub mod kept;
pub mod patterns;
pub mod plan_instances;
pub mod sides;
pub mod turning;

pub use bitflags::Flags;
pub use expanding::expand;
pub use pz_game::pattern::{Item, Pattern, Row, Rows, Word};
pub use pz_program::commands::Commands;
pub use pz_program::group::{Group, Segment};
pub use pz_program::headings::Headings;
pub use pz_program::instance::{Block, Blocks, Groups, Instance, Program};
