//! How much of a text is written.

/// How much of the text of cells is written. `end` is where it ends, `cells` how many cells it has, `known` how many texts have a number,
/// and `column` how many cells the last line has.
#[derive(Clone, Copy)]
pub(crate) struct Written {
    pub end: usize,
    pub cells: usize,
    pub known: usize,
    pub column: usize,
}
