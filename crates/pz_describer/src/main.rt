//! The program of descriptions: tells what the engine has read of the sources, in whole or in outline, the level texts or the sessions that lie in
//! files, of each file in one line of JSON.
#![tactic(auto)]

ghost use Rattle.std.specs.Prelude.{◌≡◌, None, OnOk};

use pz_console::counted::Counted;
use pz_console::failure::{Failure, fail_with};
use pz_console::input::{InputFault, read_input};
use pz_describe::{describe, describe_level, describe_recordings, outline};
use pz_entries::fault::FileFault;
use pz_entries::file::read_sessions;
use pz_lines::output::Output;
use std::alloc::Global;
use std::env::Env;
use std::fs::Files;
use std::io::{ErrorKind, Write};
use std::process::ExitCode;
use std::str::from_utf8;
use std::{env, fs};

/// What a file holds that is told.
#[derive(Clone, Copy)]
enum Kind {
    Source,
    Outline,
    Level,
    Sessions,
}

/// The words of the command line. A word that isn't UTF-8 makes it bad.
fn words<R: Env + AllocGlobal>(rt: &R) -> Result<Vec<String>, Failure> {
    match env::args(rt) {
        Ok(words) => Ok(words.collect(rt.alloc())?),
        Err(error) if error.kind() == ErrorKind::OutOfMemory => Err(Failure::Memory),
        Err(_) => Err(Failure::BadLine),
    }
}

/// The bytes of a file, which is closed then.
fn bytes_of<R: Files>(rt: &R, alloc: Global, name: &str) -> Result<Vec<u8>, Failure> {
    let file = match fs::open(rt, name) {
        Ok(file) => file,
        Err(error) if error.kind() == ErrorKind::OutOfMemory => return Err(Failure::Memory),
        Err(_) => return Err(Failure::OpenFault),
    };
    match read_input(alloc, &mut Counted::new(file)) {
        Ok(bytes) => Ok(bytes),
        Err(InputFault::Memory) => Err(Failure::Memory),
        Err(InputFault::Device) => Err(Failure::ReadFault),
        Err(InputFault::TooLong) => Err(Failure::File(FileFault::TooMany)),
    }
}

/// What the engine has read of a text.
fn description_of(alloc: Global, kind: Kind, text: &str) -> Result<Vec<u8>, Failure> {
    match kind {
        Kind::Source => Ok(describe(alloc, text)?),
        Kind::Outline => Ok(outline(alloc, text)?),
        Kind::Level => Ok(describe_level(alloc, text)?),
        Kind::Sessions => match read_sessions(alloc, text) {
            Ok(entries) => Ok(describe_recordings(alloc, &entries)?),
            Err(fault) => Err(Failure::File(fault)),
        },
    }
}

/// The line that tells what a file holds; `NotJson` of bytes that are no text.
fn line_of(alloc: Global, kind: Kind, bytes: &[u8]) -> Result<Vec<u8>, Failure> {
    let Ok(text) = from_utf8(bytes) else {
        return Err(Failure::File(FileFault::NotJson));
    };
    let mut line = description_of(alloc, kind, text)?;
    line.extend_from_slice(b"\n")?;
    Ok(line)
}

/// Tells what a file holds.
fn tell<R: Files, W: Write>(
    rt: &R,
    alloc: Global,
    kind: Kind,
    name: &str,
    output: &mut Output<W>,
) -> Result<(), Failure>
    requires { output.old.failure ≡ None }
    ensures { OnOk result (output.new.failure ≡ None) }
{
    let bytes = bytes_of(rt, alloc, name)?;
    let line = line_of(alloc, kind, &bytes)?;
    match output.write_whole(&line) {
        Ok(()) => Ok(()),
        Err(fault) => Err(Failure::WriteFault(fault)),
    }
}

/// Tells what files hold, one after another, up to the first of which there is nothing to tell.
fn tell_each<R: Files, W: Write>(
    rt: &R,
    alloc: Global,
    kind: Kind,
    names: &[String],
    output: &mut Output<W>,
) -> Result<(), Failure>
    requires { output.old.failure ≡ None }
{
    for name in names {
        tell(rt, alloc, kind, name, output)?;
    }
    Ok(())
}

/// What the words behind the program's name ask for, and the files that they name, of which there must be one.
fn asked_by(words: &[String]) -> Result<(Kind, &[String]), Failure> {
    let (kind, names) = match words {
        [word, names @ ..] if word.as_str() == "--outlines" => (Kind::Outline, names),
        [word, names @ ..] if word.as_str() == "--levels" => (Kind::Level, names),
        [word, names @ ..] if word.as_str() == "--sessions" => (Kind::Sessions, names),
        names => (Kind::Source, names),
    };
    if names.is_empty() {
        return Err(Failure::BadLine);
    }
    Ok((kind, names))
}

/// Tells what the files hold that the command line names.
fn serve<R: Env + Files + AllocGlobal, W: Write>(
    rt: &R,
    output: &mut Output<W>,
) -> Result<(), Failure>
    requires { output.old.failure ≡ None }
{
    let words = words(rt)?;
    let Some((_, asked)) = words.as_slice().split_first() else {
        return Err(Failure::BadLine);
    };
    let (kind, names) = asked_by(asked)?;
    tell_each(rt, rt.alloc(), kind, names, output)
}

fn main(rt: HostRuntime) -> ExitCode {
    let mut output = Output::new(rt.stdout());
    let mut errors = Output::new(rt.stderr());
    match serve(&rt, &mut output) {
        Ok(()) => ExitCode::SUCCESS,
        Err(failure) => ExitCode::from(fail_with(failure, &mut errors)),
    }
}
