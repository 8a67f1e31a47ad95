//! The serving of a command line.

ghost use Rattle.std.specs.Prelude.{◌≡◌, ◌≤◌, ◌+◌, Bool, false, None, IfOk, Result, map, string_bytes};
ghost use Rattle.pz_serving.specs.CommandLine.{IsFresh, NamesFile, Obeys};
ghost use Rattle.pz_serving.specs.Serving.{Reports, status_of};
ghost use Rattle.pz_console.specs.declared.failure.Failure.{Failure};

use crate::serving::{serve_and_keep, serve_opened_and_keep};
use pz_console::counted::Counted;
use pz_console::failure::{Failure, fail_with};
use pz_console::options::{Chosen, OptionsFault, read_options};
use pz_entries::file::MOST_BYTES;
use pz_lines::output::Output;
use std::fs;
use std::fs::Files;
use std::io::{self, Read, Write};
use std::mem::forget;
use std::sync::Wait;
use std::thread::Threads;

/// The reader of the file of a name.
fn open<R: Files>(rt: &R, name: &str) -> io::Result<Counted<R::File>>
    ensures { IfOk result (IsFresh R.File.remaining) }
{
    match fs::open(rt, name) {
        Ok(file) => Ok(Counted::new(file)),
        Err(error) => Err(error),
    }
}

/// Serves what the words of a command line choose, the program's name before them: the sessions of FILE if they name one, and
/// else those of the input. The input is not read if FILE is named. Answers the exit status; at 2 one line says why there is no
/// whole recording. The input's reader, or FILE's, is called at most 16,777,217 times. A process serves one command line, so the memory of
/// what was played is left to its end: with a thousand games, giving it back would take as long as writing their lines.
/// Rule `program.faults`.
pub fn serve_words<T: Files + Threads + Wait + Sync + AllocGlobal, R: Read, W: Write, E: Write>(
    rt: &T,
    words: &[String],
    input: &mut Counted<R>,
    output: &mut Output<W>,
    errors: &mut Output<E>,
) -> u8
    requires fresh { (input.old.calls ≡ 0) × (input.old.has_failed ≡ false) }
    requires sound { (output.old.failure ≡ None) × (errors.old.failure ≡ None) }
    ensures called { input.new.calls ≤ MOST_BYTES + 1 }
    ensures unread { NamesFile (map string_bytes words.now) → input.new ≡ input.old }
    ensures served { (end : Result Bool Failure) × (result ≡ status_of end)
        × Obeys T.File.remaining (map string_bytes words.now) input.old input.new output.old output.new end
        × Reports errors.old errors.new end }
{
    let Chosen { options, file } = match read_options(rt.alloc(), words) {
        Ok(chosen) => chosen,
        Err(OptionsFault::Memory) => return fail_with(Failure::Memory, errors),
        Err(OptionsFault::BadLine) => return fail_with(Failure::BadLine, errors),
    };
    let Some(name) = file else {
        let (status, job) = serve_and_keep(rt, rt.alloc(), input, output, errors, options);
        forget(job);
        return status;
    };
    let mut opened = open(rt, name.as_str());
    let (status, job) = serve_opened_and_keep(rt, rt.alloc(), &mut opened, output, errors, options);
    forget(job);
    status
}
