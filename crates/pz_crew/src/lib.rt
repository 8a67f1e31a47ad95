//! The replay of a job by several workers, whoever plays its sessions, and in whatever pieces. Workers claim sessions, and each sends the
//! pieces of those that it plays over a lane of its own to one recorder. What comes of it has the pieces of every session, in their order.
//!
//! - `playing`: what is asked of whoever plays the sessions of a job, and what a piece is
//! - `gate`: what a worker asks before each piece
//! - `lane`: a ring from a worker to the recorder
//! - `work`, `workers`: the run of a worker, and all of them in their threads
//! - `recorder`, `waiting`: who takes the messages of all lanes, and how the ends of a lane wait for each other
//! - `replaying`, `fault`: the replay, and why there is none
#![tactic(auto)]

pub mod fault;
pub mod gate;
pub mod lane;
pub mod playing;
pub mod recorder;
pub mod replaying;
mod waiting;
pub mod work;
mod workers;
