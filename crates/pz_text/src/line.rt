//! The lines of a source, after comments.

use pz_base::listed::Listed;

/// A section of a source.
#[derive(Clone, Copy, Debug, PartialEq, Eq)]
pub enum Section {
    Prelude,
    Objects,
    Legend,
    Sounds,
    Layers,
    Rules,
    Wins,
    Levels,
}

/// A line of a source: its number from 1, its section, whether it is that section's heading, and its text. The text has no comments, and no
/// white space at its ends.
#[derive(Drop, Debug)]
pub struct Line {
    pub number: u32,
    pub section: Section,
    pub is_heading: bool,
    pub text: Listed<char>,
}
