//! What a level knows about its rows and columns. Planes have exactly the positions of each object, as bits of words, and a search reads
//! them. Notes have at least where something heads.
#![tactic(auto)]

pub mod bits;
pub mod copying;
pub mod line;
pub mod notes;
pub mod planes;
