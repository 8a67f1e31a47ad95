//! The program of stages: tells the stages of an input of a session. The file of sessions comes on the standard input. The words are the
//! number of the session in the file, from 0, and that of the input, from 1 (0 is the session's start); behind them a word `columns` asks for
//! the cells of levels by columns, and a last word `firings` for the firings of the instances too.
#![tactic(auto)]

ghost use Rattle.std.specs.Prelude.{◌≡◌, None, false};

use pz_console::counted::Counted;
use pz_console::failure::{Failure, fail_with};
use pz_console::input::{InputFault, read_input};
use pz_entries::fault::FileFault;
use pz_lines::output::Output;
use pz_record::order::Order;
use pz_stages::{Detail, stages};
use std::alloc::Global;
use std::env;
use std::env::Env;
use std::io::{ErrorKind, Read, Write};
use std::process::ExitCode;

/// What the words ask for: the session, the input, the order of cells, and how much is told.
#[derive(Clone, Copy)]
struct Asked {
    session: usize,
    number: usize,
    order: Order,
    detail: Detail,
}

/// A number of the words.
fn number_of(word: &str) -> Result<usize, Failure> {
    word.parse::<usize>().map_err(|_| Failure::BadLine)
}

/// How much is told, by the last of the words; and the words before it.
fn detail_in(words: &[String]) -> (Detail, &[String]) {
    match words {
        [before @ .., last] if last.as_str() == "firings" => (Detail::Firings, before),
        _ => (Detail::Stages, words),
    }
}

/// What the words behind the program's name ask for.
fn asked_by(words: &[String]) -> Result<Asked, Failure> {
    let (detail, words) = detail_in(words);
    let (session, number, order) = match words {
        [session, number] => (session, number, Order::Rows),
        [session, number, order] if order.as_str() == "columns" => {
            (session, number, Order::Columns)
        }
        _ => return Err(Failure::BadLine),
    };
    Ok(Asked {
        session: number_of(session.as_str())?,
        number: number_of(number.as_str())?,
        order,
        detail,
    })
}

/// The bytes of the file of sessions.
fn file_of<R: Read>(alloc: Global, input: &mut Counted<R>) -> Result<Vec<u8>, Failure>
    requires fresh { (input.old.calls ≡ 0) × (input.old.has_failed ≡ false) }
{
    match read_input(alloc, input) {
        Ok(bytes) => Ok(bytes),
        Err(InputFault::Memory) => Err(Failure::Memory),
        Err(InputFault::Device) => Err(Failure::ReadFault),
        Err(InputFault::TooLong) => Err(Failure::File(FileFault::TooMany)),
    }
}

/// The words of the command line, without the program's name.
fn words<R: Env + AllocGlobal>(rt: &R) -> Result<Vec<String>, Failure> {
    match env::args(rt) {
        Ok(words) => Ok(words.skip(1).collect(rt.alloc())?),
        Err(error) if error.kind() == ErrorKind::OutOfMemory => Err(Failure::Memory),
        Err(_) => Err(Failure::BadLine),
    }
}

/// Tells the stages that the words ask for.
fn tell<R: Env + AllocGlobal, I: Read, W: Write>(
    rt: &R,
    input: &mut Counted<I>,
    output: &mut Output<W>,
) -> Result<(), Failure>
    requires fresh { (input.old.calls ≡ 0) × (input.old.has_failed ≡ false) }
    requires sound { output.old.failure ≡ None }
{
    let asked = asked_by(&words(rt)?)?;
    let bytes = file_of(rt.alloc(), input)?;
    match stages(
        rt.alloc(),
        &bytes,
        asked.order,
        asked.detail,
        asked.session,
        asked.number,
    ) {
        Ok(lines) => match output.write_whole(&lines) {
            Ok(()) => Ok(()),
            Err(fault) => Err(Failure::WriteFault(fault)),
        },
        Err(fault) => Err(Failure::File(fault)),
    }
}

fn main(rt: HostRuntime) -> ExitCode {
    let mut input = Counted::new(rt.stdin());
    let mut output = Output::new(rt.stdout());
    let mut errors = Output::new(rt.stderr());
    match tell(&rt, &mut input, &mut output) {
        Ok(()) => ExitCode::SUCCESS,
        Err(failure) => ExitCode::from(fail_with(failure, &mut errors)),
    }
}
