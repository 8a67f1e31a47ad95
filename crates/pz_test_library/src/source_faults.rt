//! The reading of sources: what a game has, and the first fault of a source that is refused.

use crate::sample::{expect, game_of, source_of};
use pz_source::{Code, Game, Kind, Options, Quantifier, SourceFault, WinLine, read_game};
use std::alloc::{AllocError, Global};
use std::test::Fail;

fn first_fault(alloc: Global, text: &str) -> Option<SourceFault> {
    read_game(alloc, text).err()
}

/// Fails a test if a source has another fault, or none.
fn expect_fault(alloc: Global, text: &str, code: Code, line: u32) -> Result<(), Fail> {
    let found = first_fault(alloc, text);
    if found == Some(SourceFault { code, line }) {
        Ok(())
    } else {
        Err(Fail::new(format_args!("{found:?}")))
    }
}

/// A text with one line replaced, by its number from 0.
fn changed(alloc: Global, text: &str, number: usize, line: &str) -> Result<String, AllocError> {
    let mut made = String::new(alloc);
    for (at, old) in text.lines().enumerate() {
        made.push_str(if at == number { line } else { old })?;
        made.push('\n')?;
    }
    Ok(made)
}

#[test]
fn names_the_first_fault(rt: HostRuntime) -> Result<(), Fail> {
    let alloc = rt.alloc();
    let random = source_of(alloc, "random [ Player ] -> [ Player ]\n", "", "p\n")?;
    expect_fault(alloc, random.as_str(), Code::OutsideProfile, 26)?;
    let source = source_of(alloc, "", "", "p\n")?;
    let comment = changed(alloc, source.as_str(), 16, "(")?;
    expect_fault(alloc, comment.as_str(), Code::Section, 0)?;
    let nameless = changed(alloc, source.as_str(), 6, "")?;
    let nobody = changed(alloc, nameless.as_str(), 7, "")?;
    expect_fault(alloc, nobody.as_str(), Code::Missing, 0)?;
    let layerless = changed(alloc, nobody.as_str(), 22, "Wall, Crate, Spike")?;
    expect_fault(alloc, layerless.as_str(), Code::Missing, 0)?;
    let unknown = changed(
        alloc,
        source.as_str(),
        22,
        "Ghost, Player, Wall, Crate, Spike",
    )?;
    expect_fault(alloc, unknown.as_str(), Code::Unknown, 23)
}

#[test]
fn reads_words_without_comments_and_in_small_letters(rt: HostRuntime) -> Result<(), Fail> {
    let alloc = rt.alloc();
    let source = source_of(alloc, "(random) [ PLAYER ] -> [ player ]\n", "", "##p\n#\n")?;
    let titled = changed(alloc, source.as_str(), 0, "title ( x")?;
    let found = first_fault(alloc, titled.as_str());
    assert!(rt; found.is_none());
    Ok(())
}

fn kind_name(kind: Option<Kind>) -> &'static str {
    match kind {
        None => "none",
        Some(Kind::Object) => "object",
        Some(Kind::Property) => "property",
        Some(Kind::Aggregate) => "aggregate",
    }
}

/// What a name is, and the objects that it has.
fn name_text(alloc: Global, game: &Game, name: &str) -> Result<String, AllocError> {
    let kind = kind_name(game.kind(name));
    let mut text = String::from_str(alloc, kind)?;
    for member in game.members(name).unwrap_or(&[]) {
        text.push_str(format!(in alloc; " {member}")?.as_str())?;
    }
    Ok(text)
}

fn expect_name(alloc: Global, game: &Game, name: &str, wanted: &str) -> Result<(), Fail> {
    let found = name_text(alloc, game, name)?;
    expect(found.as_str(), wanted)
}

fn expect_names(alloc: Global, game: &Game) -> Result<(), Fail> {
    expect_name(alloc, game, "player", "object 2")?;
    expect_name(alloc, game, "Player", "none")?;
    expect_name(alloc, game, "thing", "property 4 3")?;
    expect_name(alloc, game, "@", "aggregate 4 1")?;
    expect_name(alloc, game, "ghost", "none")
}

#[test]
fn tells_what_names_denote(rt: HostRuntime) -> Result<(), Fail> {
    let game = game_of(rt.alloc(), "", "", "p\n")?;
    expect_names(rt.alloc(), &game)
}

/// Whether a win line has this quantifier, and names with these words.
fn is_win(game: &Game, win: WinLine, quantifier: Quantifier, subject: &str, on: &str) -> bool {
    win.quantifier == quantifier
        && Some(win.subject) == game.number_of(subject)
        && win.on == game.number_of(on)
}

fn has_wins(game: &Game) -> bool {
    match game.wins() {
        [first, second, third] => {
            is_win(game, *first, Quantifier::All, "player", "target")
                && is_win(game, *second, Quantifier::Some, "thing", "ghost")
                && is_win(game, *third, Quantifier::No, "crate", "mark")
        }
        _ => false,
    }
}

#[test]
fn tells_the_win_lines(rt: HostRuntime) -> Result<(), Fail> {
    let lines = "All Player on Target\nSome Thing\nNo Crate on Mark\n";
    let game = game_of(rt.alloc(), "", lines, "p\n")?;
    assert!(rt; has_wins(&game));
    Ok(())
}

/// The options of a game with this line in its prelude, in the order of their names.
fn options_with(alloc: Global, line: &str) -> Result<(bool, bool), Fail> {
    let source = source_of(alloc, "", "", "p\n")?;
    let text = changed(alloc, source.as_str(), 0, line)?;
    let game = read_game(alloc, text.as_str()).map_err(|_| "a refused source")?;
    let Options {
        run_rules_on_level_start,
        require_player_movement,
    } = game.options();
    Ok((require_player_movement, run_rules_on_level_start))
}

#[test]
fn tells_the_options(rt: HostRuntime) -> Result<(), Fail> {
    let alloc = rt.alloc();
    assert_eq!(rt; options_with(alloc, "title B")?, (false, false));
    assert_eq!(rt;
        options_with(alloc, "require_player_movement")?,
        (true, false)
    );
    assert_eq!(rt;
        options_with(alloc, "run_rules_on_level_start")?,
        (false, true)
    );
    Ok(())
}
