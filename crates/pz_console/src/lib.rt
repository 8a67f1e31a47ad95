//! What stands between a program and its surroundings: the options of the command line, the bytes of the input, read with a bound on the
//! calls of the reader, and the line that says why there is no whole recording.
#![tactic(auto)]

pub mod counted;
pub mod failure;
pub mod input;
pub mod options;
