//! The program: replays recorded PuzzleScript sessions, over its words and its streams.
#![tactic(auto)]

use pz_console::counted::Counted;
use pz_console::failure::{Failure, fail_with};
use pz_lines::output::Output;
use pz_serving::command_line::serve_words;
use std::env;
use std::env::Env;
use std::io::ErrorKind;
use std::process::ExitCode;

/// The words of the command line. A word that isn't UTF-8 makes it bad.
fn words<R: Env + AllocGlobal>(rt: &R) -> Result<Vec<String>, Failure> {
    match env::args(rt) {
        Ok(words) => Ok(words.collect(rt.alloc())?),
        Err(error) if error.kind() == ErrorKind::OutOfMemory => Err(Failure::Memory),
        Err(_) => Err(Failure::BadLine),
    }
}

/// Serves the command line over the program's streams.
fn main(rt: HostRuntime) -> ExitCode {
    let mut input = Counted::new(rt.stdin());
    let mut output = Output::new(rt.stdout());
    let mut errors = Output::new(rt.stderr());
    let status = match words(&rt) {
        Ok(words) => serve_words(&rt, &words, &mut input, &mut output, &mut errors),
        Err(failure) => fail_with(failure, &mut errors),
    };
    ExitCode::from(status)
}
