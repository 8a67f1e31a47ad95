//! Reads a source: section after section, in the order of the checks.

ghost use Rattle.std.specs.Prelude.{◌≡◌, ◌≢◌, ◌≤◌, ◌<◌, length, All, [], get_or, List, IfOk, IfErr, Ok, Err};
ghost use Rattle.pz_base.specs.declared.fault.Code.TheVariants as code;
ghost use Rattle.pz_names.specs.Objects.{IsNamed, object_names};
ghost use Rattle.pz_game.specs.Denotation.{IsDenoted};
ghost use Rattle.pz_game.specs.declared.level.LevelEntry.{LevelEntry};
ghost use Rattle.pz_game.specs.declared.win_line.WinLine.{WinLine};
ghost use Rattle.pz_base.specs.Fault.{and_then};
ghost use Rattle.pz_game.specs.Game.{IsGame};
ghost use Rattle.pz_text.specs.Section.{lines_in};
ghost use Rattle.pz_text.specs.declared.line.Section.TheVariants as section;
ghost use Rattle.pz_source.specs.Rules.{rule_lines};
ghost use Rattle.pz_source.specs.Wins.{wins_of};
ghost use Rattle.pz_source.specs.Levels.{glyph_of, levels_of};
ghost use Rattle.pz_source.specs.Reading.{first_names, game_with, game_over, game_of_objects, game_of_lines, source_of, line_count};

use crate::layers::read_layers;
use crate::levels::read_levels;
use crate::missing::missing_name;
use crate::profile::{options_of, read_rules};
use crate::wins::read_wins;
use pz_base::fault::SourceFault;
use pz_base::listed::Listed;
use pz_base::name::Name;
use pz_base::name_set::NameSet;
use pz_game::denotation::Denotation;
use pz_game::game::{Game, GameParts};
use pz_game::level::LevelEntry;
use pz_game::limits::MOST_OBJECTS;
use pz_game::options::Options;
use pz_game::rule_line::RuleLine;
use pz_game::win_line::WinLine;
use pz_names::name_line::NameLine;
use pz_names::objects::read_objects;
use pz_names::values::read_legend;
use pz_text::check::read_lines;
use pz_text::line::{Line, Section};
use pz_text::section::lines_in;
use std::alloc::{AllocError, Global};

/// What the sections after LEGEND give, once the names are known, and the first name of each object.
#[derive(Drop)]
pub(crate) struct Sections {
    pub objects: Listed<Name>,
    pub layers: Listed<usize>,
    pub depth: usize,
    pub rules: Listed<RuleLine>,
    pub wins: Listed<WinLine>,
    pub levels: Listed<LevelEntry>,
    pub options: Options,
}

/// The first name of a line. A name line of OBJECTS always has one.
fn first_name(alloc: Global, line: &NameLine) -> Result<Name, AllocError>
    ensures { IfOk result (λ name. name ≡ get_or line.now.names 0 []) }
{
    match line.names.items().first() {
        Some(name) => name.copy(alloc),
        None => Name::of_word(alloc, &[]),
    }
}

/// The first name of each object.
fn first_names(alloc: Global, objects: &[NameLine]) -> Result<Listed<Name>, AllocError>
    ensures { IfOk result (λ names. names ≡ first_names objects.now) }
{
    let mut firsts = Vec::new(alloc);
    for line in objects {
        firsts.push(first_name(alloc, line)?)?;
    }
    Ok(Listed::new(firsts))
}

/// The win lines and the entries of LEVELS, or their first fault. Faults of win lines come first.
fn wins_and_levels(
    alloc: Global,
    lines: &[Line],
    names: &NameSet,
    values: &[Denotation],
) -> Result<Result<(Vec<WinLine>, Vec<LevelEntry>), SourceFault>, AllocError>
    ensures { IfOk result
        (λ read. and_then {B = List WinLine × List LevelEntry} (λ both. Ok (both.0.items, both.1.items)) read ≡
        and_then (λ wins. and_then {B = List WinLine × List LevelEntry} (λ levels. Ok (wins, levels))
        (levels_of (glyph_of names.now values.now) (lines_in section.Levels lines.now)))
        (wins_of names.now (lines_in section.Wins lines.now))) }
{
    let wins = or_fault!(read_wins(alloc, names, lines_in(Section::Wins, lines))?);
    let levels = or_fault!(read_levels(alloc, names, values, lines_in(Section::Levels, lines))?);
    Ok(Ok((wins, levels)))
}

/// What the sections after LEGEND give with these objects and names, and the rule lines that were read, or their first fault: `Missing`, then
/// those of the layers, of the win lines and of the levels.
fn read_sections(
    alloc: Global,
    lines: &[Line],
    objects: &[NameLine],
    names: &NameSet,
    values: &[Denotation],
    rules: Vec<RuleLine>,
) -> Result<Result<Sections, SourceFault>, AllocError>
    requires few { length objects.now ≤ MOST_OBJECTS }
    requires named { All IsNamed objects.now }
    requires all { length values.now ≡ length names.now }
    requires denoted { All (IsDenoted (length objects.now)) values.now }
    requires rules { rules.items ≡ rule_lines (lines_in section.Rules lines.now) }
    ensures read { IfOk result
        (λ read. and_then (λ sections. Ok (game_with names.now values.now sections)) read ≡
        game_over lines.now objects.now names.now values.now) }
    ensures game { IfOk result
        (λ read. IfOk read (λ sections. IsGame (game_with names.now values.now sections))) }
{
    if let Some(fault) = missing_name(names, values) {
        return Ok(Err(fault));
    }
    let of_layers = lines_in(Section::Layers, lines);
    let (layers, depth) = or_fault!(read_layers(alloc, objects, names, values, of_layers)?);
    let (wins, levels) = or_fault!(wins_and_levels(alloc, lines, names, values)?);
    let firsts = first_names(alloc, objects)?;
    Ok(Ok(Sections {
        objects: firsts,
        layers: Listed::new(layers),
        depth,
        rules: Listed::new(rules),
        wins: Listed::new(wins),
        levels: Listed::new(levels),
        options: options_of(lines_in(Section::Prelude, lines)),
    }))
}

fn game_with(names: NameSet, values: Vec<Denotation>, sections: Sections) -> GameParts
    ensures { result ≡ game_with names values.items sections }
{
    let Sections {
        objects,
        layers,
        depth,
        rules,
        wins,
        levels,
        options,
    } = sections;
    GameParts {
        objects,
        names,
        values: Listed::new(values),
        layers,
        depth,
        rules,
        wins,
        levels,
        options,
    }
}

/// The game with these objects and names, or the first fault of what follows the legend.
fn read_over(
    alloc: Global,
    lines: &[Line],
    objects: &[NameLine],
    names: NameSet,
    values: Vec<Denotation>,
    rules: Vec<RuleLine>,
) -> Result<Result<Game, SourceFault>, AllocError>
    requires few { length objects.now ≤ MOST_OBJECTS }
    requires named { All IsNamed objects.now }
    requires all { length values.items ≡ length names }
    requires denoted { All (IsDenoted (length objects.now)) values.items }
    requires rules { rules.items ≡ rule_lines (lines_in section.Rules lines.now) }
    ensures { IfOk result (λ game. game ≡ game_over lines.now objects.now names values.items) }
{
    let sections = or_fault!(read_sections(
        alloc,
        lines,
        objects,
        &names,
        values.as_slice(),
        rules
    )?);
    Ok(Ok(Game::new(game_with(names, values, sections))))
}

/// The game with these objects, or its first fault. Faults of the legend come before those of what follows.
fn read_over_objects(
    alloc: Global,
    lines: &[Line],
    objects: &[NameLine],
    mut names: NameSet,
    rules: Vec<RuleLine>,
) -> Result<Result<Game, SourceFault>, AllocError>
    requires few { length objects.now ≤ MOST_OBJECTS }
    requires named { All IsNamed objects.now }
    requires names { names ≡ object_names objects.now }
    requires rules { rules.items ≡ rule_lines (lines_in section.Rules lines.now) }
    ensures { IfOk result (λ game. game ≡ game_of_objects lines.now objects.now) }
{
    let of_legend = lines_in(Section::Legend, lines);
    let values = or_fault!(read_legend(alloc, objects, &mut names, of_legend)?);
    read_over(alloc, lines, objects, names, values, rules)
}

/// The game of lines whose headings are in order, or its first fault: `OutsideProfile`, then those of the objects, then those of what
/// follows.
fn read_game_of_lines(
    alloc: Global,
    lines: &[Line],
) -> Result<Result<Game, SourceFault>, AllocError>
    ensures { IfOk result (λ game. game ≡ game_of_lines lines.now) }
{
    let rules = or_fault!(read_rules(alloc, lines)?);
    let (objects, names) = or_fault!(read_objects(alloc, lines_in(Section::Objects, lines))?);
    read_over_objects(alloc, lines, objects.as_slice(), names, rules)
}

/// Reads a source: gives its game, or its first fault. That is the fault of the first check that names a line, at the first such line.
/// `Memory`, with line 0, may come in place of either. The rules of the game are not expanded yet. Rule lines have their line numbers in
/// the text, counted from 1. Rule `checks.order`.
pub fn read_game(alloc: Global, text: &str) -> Result<Game, SourceFault>
    ensures read { IfOk result (λ game. source_of text.now ≡ Ok game) }
    ensures refused { IfErr result (λ fault. fault.code ≢ code.Memory → source_of text.now ≡ Err fault) }
    ensures whole { IfErr result (λ fault. fault.code ≡ code.Memory → fault.line ≡ 0) }
    ensures lined { IfErr result (λ fault. fault.line ≤ line_count text.now) }
    ensures ruled { IfOk result (λ game. All (λ line. 1 ≤ line.number × line.number ≤ line_count text.now) game.rules) }
{
    let lines = read_lines(alloc, text)??;
    read_game_of_lines(alloc, lines.as_slice())?
}
