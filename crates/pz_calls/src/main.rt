//! Plays one call of the library over the standard input, and prints what it answered, or `memory`. The first word names the
//! call, and a second one the number of workers. `conformance/faults` refuses it each growth in turn.
#![tactic(auto)]

mod gate;
mod playing;
mod replaying;
mod sources;

use std::alloc::{AllocError, Global};
use std::env::Env;
use std::process::ExitCode;
use std::sync::Wait;
use std::thread::Threads;
use std::{env, io};

/// The words after the program's name.
fn words<R: Env + AllocGlobal>(rt: &R) -> Result<Vec<String>, AllocError> {
    match env::args(rt) {
        Ok(words) => words.skip(1).collect(rt.alloc()),
        Err(_) => Err(AllocError),
    }
}

/// What the call that the words name answers of a text.
fn answered<R: Threads + Wait + Sync>(
    rt: &R,
    alloc: Global,
    words: &[String],
    text: &str,
) -> Result<String, AllocError> {
    let call = match words.first() {
        Some(call) => call.as_str(),
        None => "",
    };
    match call {
        "read_game" => sources::read(alloc, text),
        "expand" => sources::expanded(alloc, text),
        "read_sessions" => playing::read(alloc, text),
        "prepare" => playing::prepared(alloc, text),
        "frames" => playing::shown(alloc, text),
        "next" => playing::run(alloc, text),
        "replay" => replaying::replayed(rt, alloc, replaying::workers(words), text),
        "gate" => replaying::stopped(rt, alloc, replaying::workers(words), text),
        _ => String::from_str(alloc, "no call\n"),
    }
}

fn main(rt: HostRuntime) -> ExitCode {
    let alloc = rt.alloc();
    let answer = match (words(&rt), io::read_to_string(alloc, rt.stdin())) {
        (Ok(words), Ok(text)) => answered(&rt, alloc, words.as_slice(), text.as_str()),
        _ => Err(AllocError),
    };
    let told = match answer {
        Ok(text) => print!(rt; "{}", text.as_str()),
        Err(_) => println!(rt; "memory"),
    };
    ExitCode::from(told.is_err() as u8)
}
