//! Reads the source of a PuzzleScript game: from its text to its game, or to its first fault. A door of the library: a caller lists this
//! crate alone.
#![tactic(auto)]

/// What a call found, or else the end of the function with the fault that it found.
macro_rules! or_fault {
    ($found:expr) => {
        match $found {
            Ok(found) => found,
            Err(fault) => return Ok(Err(fault)),
        }
    };
}

mod glyphs;
pub mod layers;
pub mod levels;
pub mod missing;
pub mod profile;
pub mod reading;
pub mod rules;
pub mod wins;

pub use pz_base::fault::{Code, SourceFault};
pub use pz_base::listed::Listed;
pub use pz_base::name::Name;
pub use pz_base::text::Text;
pub use pz_game::denotation::{Denotation, Kind};
pub use pz_game::direction::Dir;
pub use pz_game::game::Game;
pub use pz_game::level::{DrawnLevel, LevelEntry};
pub use pz_game::options::Options;
pub use pz_game::rule_line::RuleLine;
pub use pz_game::win_line::{Quantifier, WinLine};
pub use reading::read_game;
