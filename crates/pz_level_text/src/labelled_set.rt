//! A set of objects, and the label that it has.

use pz_sets::set::NumberSet;

/// A set of objects with the label of its text.
#[derive(Clone, Copy)]
pub(crate) struct LabelledSet {
    pub objects: NumberSet,
    pub label: usize,
}
