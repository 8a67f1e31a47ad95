//! What is played and what is shown. A job has a case for each session: what is needed to play it, or why it is refused. What a
//! session shows are items: its frames and its close. A recording has those of every session. How a case is played stands apart,
//! in `pz_session`, so making a job ready needs nothing that plays it.
//!
//! - `rulebook`: a game with its rules, which the sessions of one source share
//! - `first_level`: where a session starts, and which level follows one
//! - `plan`, `case`, `job`: what is needed to play a session, a session of a job, and the job
//! - `item`, `recording`: what a session shows, and what the sessions of a job showed
#![tactic(auto)]

pub mod case;
pub mod first_level;
pub mod item;
pub mod job;
pub mod plan;
pub mod recording;
pub mod rulebook;
