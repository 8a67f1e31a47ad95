//! What the lines of stages call directions, parts and commands.
#![tactic(auto, unfolding(crate::specs::Parts::dir_name, crate::specs::Parts::part_name))]

ghost use Rattle.std.specs.Prelude.{◌≡◌, ◌++◌, OnOk};
ghost use Rattle.pz_stages.specs.Parts.{bool_text, command_names, dir_name, part_name, text_if};

use bitflags::Flags;
use pz_game::direction::Dir;
use pz_program::commands::Commands;
use pz_trace::Part;
use std::alloc::AllocError;

/// The name of a direction.
pub(crate) fn dir_name(dir: Dir) -> &'static str
    ensures { result.now ≡ dir_name dir }
{
    match dir {
        Dir::Up => "up",
        Dir::Down => "down",
        Dir::Left => "left",
        Dir::Right => "right",
        Dir::Action => "action",
    }
}

/// The name of a part of a step.
pub(crate) fn part_name(part: Part) -> &'static str
    ensures { result.now ≡ part_name part }
{
    match part {
        Part::Input => "input",
        Part::Early(_) => "early",
        Part::Movement => "movement",
        Part::Late(_) => "late",
        Part::End => "end",
    }
}

/// A truth value, as JSON.
pub(crate) fn bool_text(value: bool) -> &'static [u8]
    ensures { result.now ≡ bool_text value }
{
    if value { b"true" } else { b"false" }
}

/// Adds a text if it is asked for.
fn put_if(texts: &mut Vec<u8>, asked: bool, text: &[u8]) -> Result<(), AllocError>
    ensures { OnOk result (texts.new.items ≡ texts.old.items ++ text_if asked text.now) }
{
    if asked {
        texts.extend_from_slice(text)?;
    }
    Ok(())
}

/// Adds the name of each command, with a comma before it.
pub(crate) fn put_commands(texts: &mut Vec<u8>, commands: Commands) -> Result<(), AllocError>
    ensures { OnOk result (texts.new.items ≡ texts.old.items ++ command_names commands) }
{
    put_if(texts, commands.contains(Commands::AGAIN), b",\"again\"")?;
    put_if(texts, commands.contains(Commands::CANCEL), b",\"cancel\"")?;
    put_if(
        texts,
        commands.contains(Commands::CHECKPOINT),
        b",\"checkpoint\"",
    )?;
    put_if(texts, commands.contains(Commands::RESTART), b",\"restart\"")?;
    put_if(texts, commands.contains(Commands::WIN), b",\"win\"")
}
