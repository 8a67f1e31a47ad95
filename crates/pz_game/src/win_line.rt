//! The lines of WINCONDITIONS, with names as numbers.

/// How many cells a win line speaks of.
#[derive(Clone, Copy, PartialEq, Eq)]
pub enum Quantifier {
    All,
    Some,
    No,
}

/// A line of WINCONDITIONS: what it is about and, if it has `on`, what that must be on, as numbers of names.
#[derive(Clone, Copy)]
pub struct WinLine {
    pub quantifier: Quantifier,
    pub subject: usize,
    pub on: Option<usize>,
}
