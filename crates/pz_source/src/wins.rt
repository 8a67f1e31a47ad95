//! The lines of WINCONDITIONS.

ghost use Rattle.std.specs.Prelude.{◌≡◌, Ok, IfOk};
ghost use Rattle.pz_base.specs.Fault.{and_then};
ghost use Rattle.pz_source.specs.Wins.{quantifier_of, win_about, win_of, win_at, wins_of};

use pz_base::fault::{Code, SourceFault};
use pz_base::name::Name;
use pz_base::name_set::NameSet;
use pz_game::win_line::{Quantifier, WinLine};
use pz_names::objects::is_blank;
use pz_text::line::Line;
use pz_text::words::names_of;
use std::alloc::{AllocError, Global};

fn quantifier_of(word: &Name) -> Option<Quantifier>
    ensures { result ≡ quantifier_of word.now }
{
    if word.is("all") {
        Some(Quantifier::All)
    } else if word.is("some") || word.is("any") {
        Some(Quantifier::Some)
    } else if word.is("no") {
        Some(Quantifier::No)
    } else {
        None
    }
}

/// The win line about a name and, after `on`, another; both by their numbers. `BadWin` goes before `Unknown`.
fn win_about(
    quantifier: Option<Quantifier>,
    subject: Option<usize>,
    on: Option<Option<usize>>,
) -> Result<WinLine, Code>
    ensures { result ≡ win_about quantifier subject on }
{
    let quantifier = quantifier.ok_or(Code::BadWin)?;
    let subject = subject.ok_or(Code::Unknown)?;
    let on = on.ok_or(Code::Unknown)?;
    Ok(WinLine {
        quantifier,
        subject,
        on,
    })
}

/// The win line that these words make. Rule `wins.lines`.
fn win_of(names: &NameSet, words: &[Name]) -> Result<WinLine, Code>
    ensures { result ≡ win_of names.now words.now }
{
    match words {
        [word, subject] => win_about(
            quantifier_of(word),
            names.number_of(subject.as_str()),
            Some(None),
        ),
        [word, subject, joint, on] if joint.is("on") => win_about(
            quantifier_of(word),
            names.number_of(subject.as_str()),
            names.number_of(on.as_str()).map(Some),
        ),
        _ => Err(Code::BadWin),
    }
}

/// The win line of a line that isn't blank, or its fault. Rule `checks.wins`.
fn read_win(
    alloc: Global,
    names: &NameSet,
    line: &Line,
) -> Result<Result<WinLine, SourceFault>, AllocError>
    ensures { IfOk result (λ win. win ≡ win_at names.now line.now) }
{
    let words = names_of(alloc, line.text.items())?;
    match win_of(names, words.items()) {
        Ok(win) => Ok(Ok(win)),
        Err(code) => Ok(Err(SourceFault {
            code,
            line: line.number,
        })),
    }
}

/// The lines of WINCONDITIONS, or their first fault: `BadWin` (a line of another form) or `Unknown` (a name that is not there). Err: memory
/// was refused.
pub fn read_wins(
    alloc: Global,
    names: &NameSet,
    lines: &[Line],
) -> Result<Result<Vec<WinLine>, SourceFault>, AllocError>
    ensures { IfOk result (λ read. and_then (λ wins. Ok wins.items) read ≡ wins_of names.now lines.now) }
{
    let mut wins = Vec::new(alloc);
    for line in lines {
        if is_blank(line) {
            continue;
        }
        let win = or_fault!(read_win(alloc, names, line)?);
        wins.push(win)?;
    }
    Ok(Ok(wins))
}
