//! The program's command line.

ghost use Rattle.std.specs.Prelude.{◌≡◌, ◌≢◌, ◌↔◌, ◌≤◌, map, IfOk, IfErr, IfSome, Some, None, option_map, codes, string_bytes};
ghost use Rattle.clap.specs.Words.{app_of, first_value, found_of, kind_of};
ghost use Rattle.clap.specs.declared.error.kind.ErrorKind.TheVariants.{OutOfMemory};
ghost use Rattle.pz_console.specs.Options.{command, workers_of, order_of, choice_of, options_of};

use clap::builder::ValueParser;
use clap::error::ErrorKind;
use clap::{Arg, ArgMatches, Command, Error};
use pz_base::text::Text;
use pz_record::order::Order;
use std::alloc::{AllocError, Global};

/// How many threads play, and the order in which the cells of a level are written.
#[derive(Clone, Copy, Debug, PartialEq, Eq)]
pub struct Options {
    pub workers: usize,
    pub order: Order,
}

/// What a command line asks for. Without a file, standard input is read.
#[derive(Drop, Debug)]
pub struct Chosen {
    pub options: Options,
    pub file: Option<Text>,
}

/// Why a command line is refused.
#[derive(Clone, Copy, Debug, PartialEq, Eq)]
pub enum OptionsFault {
    Memory,
    BadLine,
}

/// The most threads that a command line may ask for. Rule `program.workers`.
pub const MOST_WORKERS: usize = 64;

/// Promises the limit as a number, so that changing the constant alone breaks a proof.
pub fn threads_are_limited()
    ensures { MOST_WORKERS ≡ 64 }
{}

/// The program's command.
fn command<'a>(alloc: Global) -> Result<Command<'a>, AllocError>
    ensures { IfOk result (λ made. app_of made ≡ command) }
{
    let workers = Arg::new(alloc, "workers")
        .long("workers")
        .value_parser(ValueParser::unsigned(1, MOST_WORKERS as u64));
    Command::new(alloc, "pz_replayer")
        .arg(workers)?
        .arg(Arg::new(alloc, "order").long("order"))?
        .arg(Arg::new(alloc, "file"))
}

fn refused(error: &Error) -> OptionsFault
    ensures { (result ≡ OptionsFault.Memory) ↔ (kind_of error.now ≡ OutOfMemory) }
{
    match error.kind() {
        ErrorKind::OutOfMemory => OptionsFault::Memory,
        _ => OptionsFault::BadLine,
    }
}

/// A number of threads in decimal digits.
fn number(text: &str) -> Option<usize>
    ensures value { result ≡ workers_of (Some text.now) }
    ensures some { IfSome result (λ n. 1 ≤ n) }
    ensures few { IfSome result (λ n. n ≤ MOST_WORKERS) }
{
    let Ok(number) = text.parse::<usize>() else {
        return None;
    };
    if number < 1 || number > MOST_WORKERS {
        return None;
    }
    Some(number)
}

/// The value of `--workers`: 1 to `MOST_WORKERS`, and 2 without the option. Rule `program.workers`.
fn workers(text: Option<&str>) -> Option<usize>
    ensures value { result ≡ workers_of (option_map (λ t. t.now) text.entry) }
    ensures some { IfSome result (λ n. 1 ≤ n) }
    ensures few { IfSome result (λ n. n ≤ MOST_WORKERS) }
{
    match text {
        None => Some(2),
        Some(text) => number(text),
    }
}

/// The value of `--order`: rows or columns, and columns without the option.
fn order(text: Option<&str>) -> Option<Order>
    ensures { result ≡ order_of (option_map (λ t. t.now) text.entry) }
{
    match text {
        None => Some(Order::Columns),
        Some(text) if text == "rows" => Some(Order::Rows),
        Some(text) if text == "columns" => Some(Order::Columns),
        Some(_) => None,
    }
}

/// The value of FILE, owned.
fn file(alloc: Global, text: Option<&str>) -> Result<Option<Text>, AllocError>
    ensures { IfOk result (λ file. file ≡ option_map (λ t. t.now) text.entry) }
{
    match text {
        None => Ok(None),
        Some(text) => Ok(Some(Text::of_str(alloc, text)?)),
    }
}

/// What the matches of a command line choose.
fn choose(alloc: Global, matches: &ArgMatches) -> Result<Option<Chosen>, AllocError>
    ensures chosen { IfOk result (λ chosen. chosen ≡ choice_of (first_value (found_of matches.now) (codes "workers"))
        (first_value (found_of matches.now) (codes "order")) (first_value (found_of matches.now) (codes "file"))) }
    ensures some { IfOk result (λ chosen. IfSome chosen (λ chosen. 1 ≤ chosen.options.workers)) }
    ensures few { IfOk result (λ chosen. IfSome chosen (λ chosen. chosen.options.workers ≤ MOST_WORKERS)) }
{
    let Some(workers) = workers(matches.get_str("workers")) else {
        return Ok(None);
    };
    let Some(order) = order(matches.get_str("order")) else {
        return Ok(None);
    };
    let file = file(alloc, matches.get_str("file"))?;
    Ok(Some(Chosen {
        options: Options { workers, order },
        file,
    }))
}

/// What the words of a command line choose: `[--workers N] [--order rows|columns] [FILE]`, the program's name before them. A line
/// that `clap` doesn't take is refused, and so is a call for help. Rule `program.options`.
pub fn read_options<'a>(alloc: Global, words: &'a [String]) -> Result<Chosen, OptionsFault>
    ensures chosen { IfOk result (λ chosen. options_of (map string_bytes words.entry.now) ≡ Some chosen) }
    ensures refused { IfErr result
        (λ fault. fault ≢ OptionsFault.Memory → options_of (map string_bytes words.entry.now) ≡ None) }
    ensures some { IfOk result (λ chosen. 1 ≤ chosen.options.workers) }
    ensures few { IfOk result (λ chosen. chosen.options.workers ≤ MOST_WORKERS) }
{
    let Ok(command) = command(alloc) else {
        return Err(OptionsFault::Memory);
    };
    let matches = match command.try_get_matches_from(words) {
        Ok(matches) => matches,
        Err(error) => return Err(refused(&error)),
    };
    match choose(alloc, &matches) {
        Ok(Some(chosen)) => Ok(chosen),
        Ok(None) => Err(OptionsFault::BadLine),
        Err(_) => Err(OptionsFault::Memory),
    }
}
