//! Tests of the serving of a command line, from outside: what the words choose, reads that fail, what is said of a failure.
#![tactic(auto)]

#[cfg(test)]
mod serving;
#[cfg(test)]
mod workers;
