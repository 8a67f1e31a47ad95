//! The order of a level's cells.

/// The order in which the cells of a level are numbered from 0: row by row from the top, or column by column from the left.
#[derive(Clone, Copy, Debug, PartialEq, Eq)]
pub enum Order {
    Rows,
    Columns,
}
