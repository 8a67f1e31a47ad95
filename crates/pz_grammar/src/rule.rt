//! A rule as it is written.

use crate::token::{Class, Command, Lead, Token};
use pz_base::listed::Listed;

/// A name, by its number, with the word before it. Without a number, nothing has that name.
#[derive(Clone, Copy)]
pub struct Phrase {
    pub lead: Option<Lead<Class>>,
    pub name: Option<usize>,
}

/// A cell of a row: the gap, or phrases.
#[derive(Drop)]
pub enum Cell {
    Gap,
    Items(Listed<Phrase>),
}

/// A rule as it is written: whether a `+` stands before it, its prefixes, the rows of both sides, and its commands.
pub struct Rule {
    pub is_joined: bool,
    pub prefixes: Listed<Token>,
    pub left: Listed<Listed<Cell>>,
    pub right: Listed<Listed<Cell>>,
    pub commands: Listed<Command>,
}

impl Drop for Rule {
    fn drop(self) {
        let Rule {
            is_joined: _,
            prefixes,
            left,
            right,
            commands,
        } = self;
        drop(prefixes);
        drop(left);
        drop(right);
        drop(commands);
    }
}
