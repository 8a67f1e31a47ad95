//! The sources of a file, read and their rules expanded by several threads.
#![tactic(auto, unfolding(crate::specs::Rulebooks::rulebook_of))]

ghost use Rattle.std.specs.Prelude.{◌≤◌, ◌<◌, ℕ, List, length};
ghost use Rattle.pz_job.specs.Sources.{IsKnown};

use crate::same::same_rules;
use pz_base::fault::SourceFault;
use pz_entries::entry::Entry;
use pz_game::game::Game;
use pz_program::instance::Program;
use pz_rules::expanding::expand;
use pz_source::reading::read_game;
use std::alloc::{AllocError, Global};
use std::collections::HashSet;
use std::marker::Model;
use std::mem::replace;
use std::thread;
use std::thread::Threads;

/// A game is compared with so many games, one of each kind that was met last.
const NEWEST: usize = 16;

/// One more thread is worth its start for so many sources.
const SOURCES_A_THREAD: usize = 4;

/// What is known of a source.
#[derive(Drop)]
pub(crate) enum Known {
    Nothing,
    /// Its game.
    Read(Game),
    /// Its game with its program.
    Expanded(Game, Program),
    /// Its fault or the fault of its rules, or want of memory.
    Fault(SourceFault),
}

/// The text of a source, and what is known of it.
#[derive(Drop)]
pub(crate) struct Source<'a> {
    text: &'a str,
    known: Known,
}

impl<'a> Model for Source<'a> {
    ghost use Rattle.pz_job.specs.Sources.{IsKnown, SourceState};

    ghost Value = { SourceState };

    ghost view = { λ s. record { text = s.text.now; known = s.known } };

    ghost invariant = { λ s. IsKnown s.text.now s.known };
}

/// What is known after reading a text.
fn read(alloc: Global, text: &str) -> Known
    ensures { IsKnown text.now result }
{
    match read_game(alloc, text) {
        Ok(game) => Known::Read(game),
        Err(fault) => Known::Fault(fault),
    }
}

/// What is known after expanding the rules of a game, if only the game was known.
fn expanded(alloc: Global, known: Known) -> Known
    ensures { (text : List ℕ) → IsKnown text known → IsKnown text result }
{
    match known {
        Known::Read(game) => match expand(alloc, &game) {
            Ok(program) => Known::Expanded(game, program),
            Err(fault) => {
                drop(game);
                Known::Fault(fault)
            }
        },
        other => other,
    }
}

impl<'a> Source<'a> {
    /// A source that wasn't read.
    fn unread(text: &'a str) -> Source<'a> {
        Source {
            text,
            known: Known::Nothing,
        }
    }

    fn read(&mut self, alloc: Global) {
        let known = read(alloc, self.text);
        drop(replace(&mut self.known, known));
    }

    fn expand(&mut self, alloc: Global) {
        let known = replace(&mut self.known, Known::Nothing);
        drop(replace(&mut self.known, expanded(alloc, known)));
    }

    /// Whether both were read, and have the same rules.
    fn has_rules_of(&self, other: &Source<'_>) -> bool {
        match (&self.known, &other.known) {
            (Known::Read(game), Known::Read(other)) => same_rules(game, other),
            _ => false,
        }
    }

    /// The text, and what is known of it.
    pub fn into_parts(self) -> (&'a str, Known)
        ensures { IsKnown result.0.now result.1 }
    {
        let Source { text, known } = self;
        (text, known)
    }
}

/// Whether a source was read, and has other rules than each of the first so many.
fn is_new(sources: &[Source<'_>], count: usize, number: usize) -> bool
    requires { (count ≤ length sources.now) × (number < length sources.now) }
{
    let source = &sources[number];
    matches!(source.known, Known::Read(_))
        && !sources[..count]
            .iter()
            .rev()
            .take(NEWEST)
            .any(|other| other.has_rules_of(source))
}

/// The different sources of the entries, in the order of first mention.
fn different_sources<'a>(
    alloc: Global,
    entries: &'a [Entry],
) -> Result<Vec<Source<'a>>, AllocError> {
    let mut met = HashSet::new(alloc);
    let mut sources = Vec::new(alloc);
    for entry in entries {
        let text = entry.source.as_str();
        if met.insert(text)? {
            sources.push(Source::unread(text))?;
        }
    }
    Ok(sources)
}

/// Brings one source of each set of rules to the front, and says how many these are.
fn bring_forward(sources: &mut [Source<'_>]) -> usize
    ensures { result ≤ length sources.new }
{
    let mut count = 0;
    for number in 0..sources.len() {
        if is_new(sources, count, number) {
            sources.swap(count, number);
            count += 1;
        }
    }
    count
}

/// Expands one source of each set of rules, by so many threads.
fn expand_each_kind<R: Threads + Sync>(
    rt: &R,
    alloc: Global,
    sources: &mut [Source<'_>],
    workers: usize,
)
    requires { 0 < workers }
{
    let count = bring_forward(sources);
    thread::for_each_mut(
        rt,
        &mut sources[..count],
        workers,
        &|_, source| source.expand(alloc),
    );
}

/// The different sources of the entries, read by so many threads. Where there are several, one of those with the same rules is expanded:
/// a single thread does that as it comes to a game.
pub(crate) fn read_sources<'a, R: Threads + Sync>(
    rt: &R,
    alloc: Global,
    entries: &'a [Entry],
    workers: usize,
) -> Result<Vec<Source<'a>>, AllocError> {
    let mut sources = different_sources(alloc, entries)?;
    let threads = workers.min(sources.len() / SOURCES_A_THREAD).max(1);
    thread::for_each_mut(
        rt,
        sources.as_mut_slice(),
        threads,
        &|_, source| source.read(alloc),
    );
    if workers > 1 {
        expand_each_kind(rt, alloc, sources.as_mut_slice(), workers);
    }
    Ok(sources)
}
