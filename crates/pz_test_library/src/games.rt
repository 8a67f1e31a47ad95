//! Sources, read or refused: a small game, and what becomes of it if lines are changed.

use crate::small_games::{game_of, joined, read};
use pz_base::fault::{Code, SourceFault};
use pz_game::denotation::Kind;
use pz_game::game::Game;
use std::alloc::{AllocError, Global};
use std::test::Fail;

/// The lines of a small game, without its levels. Its first level's first row is line 28.
const GAME: [&str; 27] = [
    "title B",
    "OBJECTS",
    "Background .",
    "black",
    "Target o",
    "blue",
    "Player p",
    "white",
    "Wall #",
    "grey",
    "Crate c",
    "brown",
    "Spike s",
    "red",
    "Mark m",
    "pink",
    "LEGEND",
    "@ = Crate and Target",
    "Thing = Crate or Wall",
    "COLLISIONLAYERS",
    "Background",
    "Target",
    "Player, Wall, Crate, Spike",
    "Mark",
    "RULES",
    "WINCONDITIONS",
    "LEVELS",
];

/// The small game with a line replaced (none at 0), and these levels.
fn game_with(alloc: Global, number: usize, line: &str, levels: &str) -> Result<String, AllocError> {
    let mut text = joined(alloc, &GAME, number, line)?;
    text.push_str(levels)?;
    Ok(text)
}

/// The fault of a text, or None if it is read.
fn fault_of(alloc: Global, text: &str) -> Option<SourceFault> {
    match read(alloc, text) {
        Ok(_) => None,
        Err(fault) => Some(fault),
    }
}

fn at(code: Code, line: u32) -> Option<SourceFault> {
    Some(SourceFault { code, line })
}

/// Fails a test if a text has another fault. One function compares for all tests, because each comparison is expensive to prove.
fn expect(alloc: Global, case: &str, text: &str, fault: Option<SourceFault>) -> Result<(), Fail> {
    let found = fault_of(alloc, text);
    if found == fault {
        Ok(())
    } else {
        Err(Fail::new(format_args!("{case}: {found:?}")))
    }
}

/// Fails a test if the small game with a line replaced has another fault.
fn expect_changed(
    alloc: Global,
    number: usize,
    line: &str,
    levels: &str,
    fault: Option<SourceFault>,
) -> Result<(), Fail> {
    let text = game_with(alloc, number, line, levels)?;
    expect(alloc, line, text.as_str(), fault)
}

/// Fails a test if the small game with these levels has another fault.
fn expect_levels(alloc: Global, levels: &str, fault: Option<SourceFault>) -> Result<(), Fail> {
    let text = game_with(alloc, 1, "title ( x", levels)?;
    expect(alloc, levels, text.as_str(), fault)
}

/// The small game, with a level and a message.
fn small_game(alloc: Global) -> Result<Game, Fail> {
    let text = game_with(alloc, 0, "", "#p.#\n\nmessage on\n")?;
    game_of(alloc, text.as_str())
}

fn counts_in(game: &Game) -> (usize, usize, usize) {
    (game.objects().len(), game.depth(), game.levels().len())
}

fn counts(alloc: Global) -> Result<(usize, usize, usize), Fail> {
    let game = small_game(alloc)?;
    Ok(counts_in(&game))
}

#[test]
fn counts_objects_layers_and_entries(rt: HostRuntime) -> Result<(), Fail> {
    let found = counts(rt.alloc())?;
    assert_eq!(rt; found, (7, 4, 2));
    Ok(())
}

fn is_laid_in(game: &Game) -> bool {
    matches!(game.layers(), [0, 1, 2, 2, 2, 2, 3])
}

fn is_laid(alloc: Global) -> Result<bool, Fail> {
    let game = small_game(alloc)?;
    Ok(is_laid_in(&game))
}

#[test]
fn lays_each_object(rt: HostRuntime) -> Result<(), Fail> {
    let found = is_laid(rt.alloc())?;
    assert_eq!(rt; found, true);
    Ok(())
}

/// Whether an object, no name, and a property are what they are.
fn kinds_in(game: &Game) -> (bool, bool, bool) {
    (
        matches!(game.kind("player"), Some(Kind::Object)),
        game.kind("Player").is_none(),
        matches!(game.kind("thing"), Some(Kind::Property)),
    )
}

fn kinds(alloc: Global) -> Result<(bool, bool, bool), Fail> {
    let game = small_game(alloc)?;
    Ok(kinds_in(&game))
}

#[test]
fn tells_kinds_apart(rt: HostRuntime) -> Result<(), Fail> {
    let found = kinds(rt.alloc())?;
    assert_eq!(rt; found, (true, true, true));
    Ok(())
}

fn has_members_in(game: &Game) -> bool {
    matches!(game.members("@"), Some([4, 1]))
}

fn has_members(alloc: Global) -> Result<bool, Fail> {
    let game = small_game(alloc)?;
    Ok(has_members_in(&game))
}

#[test]
fn lists_members_in_the_order_of_the_line(rt: HostRuntime) -> Result<(), Fail> {
    let found = has_members(rt.alloc())?;
    assert_eq!(rt; found, true);
    Ok(())
}

/// Whether the small game has the names of the one with line 19 replaced.
fn has_names_with(alloc: Global, line: &str) -> Result<bool, Fail> {
    let game = small_game(alloc)?;
    let text = game_with(alloc, 19, line, "p")?;
    let other = game_of(alloc, text.as_str())?;
    Ok(game.has_names_of(&other))
}

#[test]
fn compares_the_names_of_two_games(rt: HostRuntime) -> Result<(), Fail> {
    let alike = has_names_with(rt.alloc(), "Thing = Crate or Wall or Mark")?;
    let renamed = has_names_with(rt.alloc(), "Stuff = Crate or Wall")?;
    let fewer = has_names_with(rt.alloc(), "")?;
    assert_eq!(rt; (alike, renamed, fewer), (true, false, false));
    Ok(())
}

#[test]
fn names_the_first_fault_of_a_changed_line(rt: HostRuntime) -> Result<(), Fail> {
    let changes = [
        (23, "Player, Wall, Crate", Code::NoLayer, 13),
        (18, "@ = Crate and Thing", Code::Mixed, 18),
        (18, "@ = Crate and Ghost", Code::Unknown, 18),
        (15, "Crate m", Code::Duplicate, 15),
        (17, "OBJECTS", Code::Section, 17),
        (17, "(", Code::Section, 0),
        (1, "realtime_interval 0.5", Code::OutsideProfile, 1),
        (23, "Ghost, Player, Wall, Crate, Spike", Code::Unknown, 23),
        (7, "Plaier p", Code::Missing, 0),
        (26, "WINCONDITIONS\nAll Player at Target", Code::BadWin, 27),
        (26, "WINCONDITIONS\nSome Ghost", Code::Unknown, 27),
    ];
    for (number, line, code, fault_line) in changes {
        expect_changed(rt.alloc(), number, line, "p", at(code, fault_line))?;
    }
    Ok(())
}

#[test]
fn names_the_first_fault_of_levels(rt: HostRuntime) -> Result<(), Fail> {
    let faults = [
        ("x", at(Code::BadGlyph, 28)),
        ("message on", at(Code::NoLevel, 0)),
        ("##p/#", at(Code::BadGlyph, 28)),
        ("##p\n#", None),
        ("##P\n#", None),
    ];
    for (levels, fault) in faults {
        expect_levels(rt.alloc(), levels, fault)?;
    }
    Ok(())
}

/// Row upon row of a level, of so many cells each.
fn rows(alloc: Global, width: usize, height: usize) -> Result<String, AllocError> {
    let mut text = String::new(alloc);
    for _row in 0..height {
        for _cell in 0..width {
            text.push('.')?;
        }
        text.push('\n')?;
    }
    Ok(text)
}

#[test]
fn keeps_the_limits_of_levels(rt: HostRuntime) -> Result<(), Fail> {
    let sizes = [
        (255, 1, None),
        (256, 1, at(Code::TooLarge, 28)),
        (128, 128, None),
        (128, 129, at(Code::TooLarge, 28)),
    ];
    for (width, height, fault) in sizes {
        let levels = rows(rt.alloc(), width, height)?;
        expect_levels(rt.alloc(), levels.as_str(), fault)?;
    }
    Ok(())
}

/// So many messages, and a level.
fn messages(alloc: Global, count: usize) -> Result<String, AllocError> {
    let mut text = String::new(alloc);
    for _message in 0..count {
        text.push_str("message\n")?;
    }
    text.push_str("p\n")?;
    Ok(text)
}

#[test]
fn keeps_the_limit_of_entries(rt: HostRuntime) -> Result<(), Fail> {
    for (count, fault) in [(1023, None), (1024, at(Code::TooLarge, 1052))] {
        let levels = messages(rt.alloc(), count)?;
        expect_levels(rt.alloc(), levels.as_str(), fault)?;
    }
    Ok(())
}

/// The small game, filled up with line feeds to so many bytes.
fn filled_up(alloc: Global, bytes: usize) -> Result<String, AllocError> {
    let mut text = game_with(alloc, 0, "", "#p.#\n")?;
    for _byte in text.len()..bytes {
        text.push('\n')?;
    }
    Ok(text)
}

#[test]
fn keeps_the_limit_of_bytes(rt: HostRuntime) -> Result<(), Fail> {
    for (bytes, fault) in [(1_048_576, None), (1_048_577, at(Code::TooLong, 0))] {
        let text = filled_up(rt.alloc(), bytes)?;
        expect(rt.alloc(), "bytes", text.as_str(), fault)?;
    }
    Ok(())
}

/// A game of so many objects, each with a name of its own.
fn objects(alloc: Global, count: usize) -> Result<String, AllocError> {
    let mut text = String::from_str(alloc, "OBJECTS\nBackground .\nblack\nPlayer p\nwhite\n")?;
    let mut layer = String::new(alloc);
    for number in 2..count {
        let name = format!(in alloc; "thing{number}")?;
        text.push_str(name.as_str())?;
        text.push_str("\nblack\n")?;
        layer.push_str(name.as_str())?;
        layer.push(' ')?;
    }
    text.push_str("LEGEND\nCOLLISIONLAYERS\nBackground\nPlayer ")?;
    text.push_str(layer.as_str())?;
    text.push_str("\nLEVELS\n.p\n")?;
    Ok(text)
}

#[test]
fn keeps_the_limit_of_objects(rt: HostRuntime) -> Result<(), Fail> {
    for (count, fault) in [(512, None), (513, at(Code::TooLarge, 1026))] {
        let text = objects(rt.alloc(), count)?;
        expect(rt.alloc(), "objects", text.as_str(), fault)?;
    }
    Ok(())
}

#[test]
fn keeps_the_limit_of_layers(rt: HostRuntime) -> Result<(), Fail> {
    for (further, fault) in [(96, None), (97, at(Code::TooLarge, 121))] {
        let mut line = String::from_str(rt.alloc(), "Mark")?;
        for _layer in 0..further {
            line.push_str("\nMark")?;
        }
        expect_changed(rt.alloc(), 24, line.as_str(), "p", fault)?;
    }
    Ok(())
}

fn lacks_memory(fault: Option<SourceFault>) -> bool {
    matches!(
        fault,
        Some(SourceFault {
            code: Code::Memory,
            ..
        },)
    )
}

/// Each beginning of a source is read or refused, and never for want of memory.
#[test]
fn reads_or_refuses_each_beginning(rt: HostRuntime) -> Result<(), Fail> {
    let text = game_with(rt.alloc(), 0, "", "#p.#\n")?;
    let mut beginning = String::new(rt.alloc());
    for character in text.as_str().chars() {
        let fault = fault_of(rt.alloc(), beginning.as_str());
        assert_eq!(rt; lacks_memory(fault), false);
        beginning.push(character)?;
    }
    Ok(())
}

#[test]
fn reads_the_whole_of_it(rt: HostRuntime) -> Result<(), Fail> {
    let text = game_with(rt.alloc(), 0, "", "#p.#\n")?;
    expect(rt.alloc(), "whole", text.as_str(), None)
}
