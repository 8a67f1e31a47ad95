//! The lines of RULES, as words.

use pz_base::listed::Listed;
use pz_base::name::Name;

/// A line of RULES: its number, and its words. The text after the word `message` is one word.
#[derive(Drop)]
pub struct RuleLine {
    pub number: u32,
    pub words: Listed<Name>,
}
