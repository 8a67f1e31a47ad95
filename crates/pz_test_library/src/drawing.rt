//! The instances of a program, drawn on a line: for each its scan, the rows of its left and its right, and the letters of its commands.

use pz_rules::{Block, Flags, Group, Groups, Instance, Item, Pattern, Row, Word};
use pz_source::Dir;
use std::alloc::{AllocError, Global};

fn glyph(object: usize) -> char {
    match object {
        0 => '.',
        1 => 'o',
        2 => 'p',
        3 => '#',
        4 => 'c',
        5 => 's',
        6 => 'm',
        _ => '?',
    }
}

fn arrow(dir: Dir) -> char {
    match dir {
        Dir::Up => '^',
        Dir::Down => 'v',
        Dir::Left => '<',
        Dir::Right => '>',
        Dir::Action => '!',
    }
}

fn add_item(text: &mut String, item: Item) -> Result<(), AllocError> {
    match item.word {
        Word::Present => {}
        Word::Still => text.push('=')?,
        Word::Toward(dir) => text.push(arrow(dir))?,
        Word::Absent => text.push('-')?,
    }
    text.push(glyph(item.object))
}

fn add_cell(text: &mut String, cell: &Pattern) -> Result<(), AllocError> {
    for item in cell.items() {
        add_item(text, *item)?;
    }
    Ok(())
}

fn add_row(text: &mut String, row: &Row) -> Result<(), AllocError> {
    text.push('[')?;
    for (number, cell) in row.cells().iter().enumerate() {
        if number > 0 {
            text.push('|')?;
        }
        if row.gap_at() == Some(number as u32) {
            text.push_str("...|")?;
        }
        add_cell(text, cell)?;
    }
    text.push(']')
}

fn add_rows(text: &mut String, rows: &[Row]) -> Result<(), AllocError> {
    for row in rows {
        add_row(text, row)?;
    }
    Ok(())
}

/// The letter of each command that is given.
fn add_commands(text: &mut String, bits: u8) -> Result<(), AllocError> {
    for (bit, name) in [(1, 'a'), (2, 'c'), (4, 'k'), (8, 'r'), (16, 'w')] {
        if bits & bit != 0 {
            text.push(name)?;
        }
    }
    Ok(())
}

fn add_instance(text: &mut String, instance: &Instance) -> Result<(), AllocError> {
    text.push(arrow(instance.scan))?;
    add_rows(text, instance.left.items())?;
    text.push_str("->")?;
    add_rows(text, instance.right.items())?;
    add_commands(text, instance.commands.bits())?;
    text.push(';')
}

fn add_group(text: &mut String, group: &Group) -> Result<(), AllocError> {
    text.push('(')?;
    for instance in group.instances() {
        add_instance(text, instance)?;
    }
    text.push(')')
}

fn add_loop(text: &mut String, groups: &Groups) -> Result<(), AllocError> {
    text.push('{')?;
    for group in groups.items() {
        add_group(text, group)?;
    }
    text.push('}')
}

/// The blocks of a list: a group in round brackets, a loop of groups in curly ones.
pub(crate) fn drawn(alloc: Global, blocks: &[Block]) -> Result<String, AllocError> {
    let mut text = String::new(alloc);
    for block in blocks {
        match block {
            Block::One(group) => add_group(&mut text, group)?,
            Block::Loop(groups) => add_loop(&mut text, groups)?,
        }
    }
    Ok(text)
}
