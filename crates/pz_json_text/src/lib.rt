//! Texts as they are written into lines: as JSON strings, quoted once and then copied, and the text of a level's cells, of which a frame
//! writes only what has changed.
#![tactic(auto)]

pub mod changed;
mod draft;
mod escaped;
pub mod labels;
pub mod plain;
pub mod quoted;
pub mod text_room;
mod written;
