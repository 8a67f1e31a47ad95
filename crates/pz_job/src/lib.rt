//! The job that a list of entries makes: the one place where the reading of a source and the expansion of its rules meet. What comes of
//! them is a case for each session, ready to be played; what plays it isn't needed here.
#![tactic(auto)]

pub mod job;
mod programs;
mod rulebooks;
mod same;
mod sources;
