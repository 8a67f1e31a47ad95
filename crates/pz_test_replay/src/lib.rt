//! Tests of replays, from outside: lanes, workers, and whole jobs.
#![tactic(auto)]

#[cfg(test)]
mod claims;
#[cfg(test)]
mod lane;
#[cfg(test)]
mod replaying;
#[cfg(test)]
mod sessions;
#[cfg(test)]
mod work;
