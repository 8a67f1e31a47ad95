//! Cells of a level: which objects stand there and where they head, as sets in machine words. Also what holds in a cell, how it is
//! rewritten, and lists of cells, which are drawn, filled, stilled and compared.
#![tactic(auto)]

pub mod cell;
mod changing;
pub mod differing;
pub mod drawing;
pub mod layers;
mod matching;
pub mod piece;
mod reading;
mod rewriting;
pub mod stilling;
