//! The lines of a source that a block comes from.

ghost use Rattle.std.specs.Prelude.{◌≡◌, IfOk, OnOk, fold};
ghost use Rattle.pz_trace.specs.SourceLines.{line_of, lines_of, told_once, with_group};

use pz_game::game::Game;
use pz_game::rule_line::RuleLine;
use pz_program::group::Group;
use pz_program::instance::{Block, Instance};
use std::alloc::{AllocError, Global};

/// The number of the line of an instance's rule, from 1; 0 if none of these lines is it.
pub fn line_of(rules: &[RuleLine], instance: &Instance) -> u32
    ensures { result ≡ line_of rules.now instance.now }
{
    if instance.below >= rules.len() {
        return 0;
    }
    rules[rules.len() - 1 - instance.below].number
}

/// Adds a line, unless it is the last.
fn tell_once(lines: &mut Vec<u32>, line: u32) -> Result<(), AllocError>
    ensures { OnOk result (lines.new.items ≡ told_once lines.old.items line) }
{
    match lines.last() {
        Some(last) if *last == line => {}
        _ => lines.push(line)?,
    }
    Ok(())
}

/// Adds the lines of a group's instances.
fn add_group(lines: &mut Vec<u32>, rules: &[RuleLine], group: &Group) -> Result<(), AllocError>
    ensures { OnOk result (lines.new.items ≡ with_group rules.now lines.old.items group.now) }
{
    for instance in group.instances() {
        tell_once(lines, line_of(rules, instance))?;
    }
    Ok(())
}

/// The lines of a source that a block of its game's rules comes from, by their numbers from 1, in the order of its instances. Err: memory
/// was refused.
#[tactic(auto, unfolding(crate::specs::SourceLines::lines_of))]
pub fn lines_of(alloc: Global, game: &Game, block: &Block) -> Result<Vec<u32>, AllocError>
    ensures { IfOk result (λ lines. lines.items ≡ lines_of game.now.rules block.now) }
{
    let mut lines = Vec::new(alloc);
    let rules = game.rules();
    match block {
        Block::One(group) => add_group(&mut lines, rules, group)?,
        Block::Loop(groups) => {
            for group in groups.items() {
                add_group(&mut lines, rules, group)?;
            }
        }
    }
    Ok(lines)
}
