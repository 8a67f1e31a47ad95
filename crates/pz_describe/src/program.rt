//! The program of a game.

ghost use Rattle.std.specs.Prelude.{◌≡◌, ◌++◌, OnOk, flat_map};
ghost use Rattle.pz_trace.specs.SourceLines.{groups_of, line_of};
ghost use Rattle.pz_describe.specs.Program.{block_tokens, blocks_array, group_array, is_loop, program_tokens};
ghost use Rattle.pz_describe.specs.Values.{numeral};

use crate::page::Page;
use pz_game::rule_line::RuleLine;
use pz_program::group::Group;
use pz_program::instance::{Block, Instance, Program};
use pz_trace::source_lines::line_of;
use std::alloc::AllocError;

fn put_instances(
    page: &mut Page,
    rules: &[RuleLine],
    instances: &[Instance],
) -> Result<(), AllocError>
    ensures { OnOk result (page.new ≡
        page.old ++ flat_map (λ instance. numeral (line_of rules.now instance)) instances.now) }
{
    for instance in instances {
        page.number(line_of(rules, instance) as u64)?;
    }
    Ok(())
}

/// Puts a group: for each instance the line of its rule.
fn put_group(page: &mut Page, rules: &[RuleLine], group: &Group) -> Result<(), AllocError>
    ensures { OnOk result (page.new ≡ page.old ++ group_array rules.now group.now) }
{
    page.begin_array()?;
    put_instances(page, rules, group.instances())?;
    page.end_array()
}

fn put_groups(page: &mut Page, rules: &[RuleLine], groups: &[Group]) -> Result<(), AllocError>
    ensures { OnOk result (page.new ≡ page.old ++ flat_map (group_array rules.now) groups.now) }
{
    for group in groups {
        put_group(page, rules, group)?;
    }
    Ok(())
}

fn put_groups_of(page: &mut Page, rules: &[RuleLine], block: &Block) -> Result<(), AllocError>
    ensures { OnOk result (page.new ≡ page.old ++ flat_map (group_array rules.now) (groups_of block.now)) }
{
    match block {
        Block::One(group) => put_group(page, rules, group),
        Block::Loop(groups) => put_groups(page, rules, groups.items()),
    }
}

fn is_loop(block: &Block) -> bool
    ensures { result ≡ is_loop block.now }
{
    match block {
        Block::One(_) => false,
        Block::Loop(_) => true,
    }
}

fn put_block(page: &mut Page, rules: &[RuleLine], block: &Block) -> Result<(), AllocError>
    ensures { OnOk result (page.new ≡ page.old ++ block_tokens rules.now block.now) }
{
    page.begin_object()?;
    page.key("groups")?;
    page.begin_array()?;
    put_groups_of(page, rules, block)?;
    page.end_array()?;
    page.key("loop")?;
    page.truth(is_loop(block))?;
    page.end_object()
}

fn put_each(page: &mut Page, rules: &[RuleLine], blocks: &[Block]) -> Result<(), AllocError>
    ensures { OnOk result (page.new ≡ page.old ++ flat_map (block_tokens rules.now) blocks.now) }
{
    for block in blocks {
        put_block(page, rules, block)?;
    }
    Ok(())
}

fn put_blocks(page: &mut Page, rules: &[RuleLine], blocks: &[Block]) -> Result<(), AllocError>
    ensures { OnOk result (page.new ≡ page.old ++ blocks_array rules.now blocks.now) }
{
    page.begin_array()?;
    put_each(page, rules, blocks)?;
    page.end_array()
}

/// Puts the program of these rules: the blocks before the movement, and those after it.
pub(crate) fn put_program(
    page: &mut Page,
    rules: &[RuleLine],
    program: &Program,
) -> Result<(), AllocError>
    ensures { OnOk result (page.new ≡ page.old ++ program_tokens rules.now program.now) }
{
    page.begin_object()?;
    page.key("early")?;
    put_blocks(page, rules, program.early())?;
    page.key("late")?;
    put_blocks(page, rules, program.late())?;
    page.end_object()
}
