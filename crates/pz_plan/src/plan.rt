//! A rule whose names are spelled out and whose choices are numbered.

use pz_base::listed::Listed;
use pz_game::direction::Dir;
use pz_grammar::token::{Class, Lead};
use pz_program::commands::Commands;

/// An object, or one of the members of a property, by the number of the property's own name.
#[derive(Clone, Copy, PartialEq, Eq)]
pub enum Subject {
    Object(usize),
    Property(usize),
}

/// An object or a property of several members, with the word before it.
#[derive(Clone, Copy)]
pub struct Mention {
    pub lead: Option<Lead<Class>>,
    pub subject: Subject,
}

/// The cells of a row without its gap, and the number of the cell before which the gap stands.
#[derive(Drop)]
pub struct PlanRow<T> {
    pub cells: Listed<Listed<T>>,
    pub gap_at: Option<u32>,
}

/// A cell, by its row and its place there.
#[derive(Clone, Copy, PartialEq, Eq)]
pub struct Spot {
    pub row: usize,
    pub cell: usize,
}

/// What a choice is asked for: a member of a property, or the direction of a word on something.
#[derive(Clone, Copy)]
pub enum Asked {
    Member(usize),
    Direction(Class, Subject),
}

/// A choice, and the cell that asks for it.
#[derive(Clone, Copy)]
pub struct Choice {
    pub spot: Spot,
    pub asked: Asked,
}

/// The name of a term: an object, or the object that a choice gives.
#[derive(Clone, Copy)]
pub enum TermName {
    Object(usize),
    Chosen(usize),
}

/// An item of a cell, before the choices are made: a word for several directions stands there as the number of its choice.
#[derive(Clone, Copy)]
pub struct Term {
    pub lead: Option<Lead<usize>>,
    pub name: TermName,
}

/// A rule whose choices are numbered in the order of its text, with each term pointing at the choices that decide it, and the
/// commands that it gives.
pub struct Plan {
    pub directions: Listed<Dir>,
    pub choices: Listed<Choice>,
    pub left: Listed<PlanRow<Term>>,
    pub right: Listed<PlanRow<Term>>,
    pub commands: Commands,
}

impl Drop for Plan {
    fn drop(self) {
        let Plan {
            directions,
            choices,
            left,
            right,
            commands: _,
        } = self;
        drop(directions);
        drop(choices);
        drop(left);
        drop(right);
    }
}
