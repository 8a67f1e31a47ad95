//! The program of solutions: tells what wins each session of a file from where it stands behind its inputs, a line each, which is written
//! as soon as it is known. The file of sessions comes on the standard input. The words are the most levels that a search may keep, and the
//! most bytes that they may take.
#![tactic(auto)]

ghost use Rattle.std.specs.Prelude.{◌≡◌, None, false, OnOk};

use pz_case::job::Job;
use pz_console::counted::Counted;
use pz_console::failure::{Failure, fail_with};
use pz_console::input::{InputFault, read_input};
use pz_entries::fault::FileFault;
use pz_lines::output::Output;
use pz_solutions::{job_of_file, session_line};
use pz_solve::Bounds;
use std::alloc::Global;
use std::env;
use std::env::Env;
use std::io::{ErrorKind, Read, Write};
use std::process::ExitCode;

/// The number that a word is.
fn number_in(word: &str) -> Result<usize, Failure> {
    word.parse::<usize>().map_err(|_| Failure::BadLine)
}

/// What the words behind the program's name ask for.
fn asked_by(words: &[String]) -> Result<Bounds, Failure> {
    match words {
        [levels, bytes] => Ok(Bounds {
            levels: number_in(levels.as_str())?,
            bytes: number_in(bytes.as_str())?,
        }),
        _ => Err(Failure::BadLine),
    }
}

/// The bytes of the file of sessions.
fn file_of<R: Read>(alloc: Global, input: &mut Counted<R>) -> Result<Vec<u8>, Failure>
    requires fresh { (input.old.calls ≡ 0) × (input.old.has_failed ≡ false) }
{
    match read_input(alloc, input) {
        Ok(bytes) => Ok(bytes),
        Err(InputFault::Memory) => Err(Failure::Memory),
        Err(InputFault::Device) => Err(Failure::ReadFault),
        Err(InputFault::TooLong) => Err(Failure::File(FileFault::TooMany)),
    }
}

/// The words of the command line, without the program's name.
fn words<R: Env + AllocGlobal>(rt: &R) -> Result<Vec<String>, Failure> {
    match env::args(rt) {
        Ok(words) => Ok(words.skip(1).collect(rt.alloc())?),
        Err(error) if error.kind() == ErrorKind::OutOfMemory => Err(Failure::Memory),
        Err(_) => Err(Failure::BadLine),
    }
}

/// The job of the sessions of a file.
fn job_of(alloc: Global, file: &[u8]) -> Result<Job, Failure> {
    job_of_file(alloc, file).map_err(|fault| Failure::File(fault))
}

/// Tells the solution of each session.
fn tell_each<W: Write>(
    alloc: Global,
    job: &Job,
    bounds: Bounds,
    output: &mut Output<W>,
) -> Result<(), Failure>
    requires sound { output.old.failure ≡ None }
    ensures sound { OnOk result (output.new.failure ≡ None) }
{
    for number in 0..job.len() {
        let line = session_line(alloc, number, job.case(number), bounds)?;
        match output.write_whole(&line) {
            Ok(()) => {}
            Err(fault) => return Err(Failure::WriteFault(fault)),
        }
    }
    Ok(())
}

/// Tells the solutions that the words ask for.
fn tell<R: Env + AllocGlobal, I: Read, W: Write>(
    rt: &R,
    input: &mut Counted<I>,
    output: &mut Output<W>,
) -> Result<(), Failure>
    requires fresh { (input.old.calls ≡ 0) × (input.old.has_failed ≡ false) }
    requires sound { output.old.failure ≡ None }
{
    let bounds = asked_by(&words(rt)?)?;
    let file = file_of(rt.alloc(), input)?;
    let job = job_of(rt.alloc(), &file)?;
    tell_each(rt.alloc(), &job, bounds, output)
}

fn main(rt: HostRuntime) -> ExitCode {
    let mut input = Counted::new(rt.stdin());
    let mut output = Output::new(rt.stdout());
    let mut errors = Output::new(rt.stderr());
    match tell(&rt, &mut input, &mut output) {
        Ok(()) => ExitCode::SUCCESS,
        Err(failure) => ExitCode::from(fail_with(failure, &mut errors)),
    }
}
