//! Sets of numbers, kept as bits of words: those of a length of its own (`NumberSet`), and operations on slices of words.
#![tactic(auto, using(crate::proofs::WordLemmas::bits))]

pub mod set;
mod word;
pub mod words;
