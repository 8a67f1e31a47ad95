//! What a name denotes.

use pz_base::listed::Listed;

/// The kind of a name: a synonym has the kind of what it names.
#[derive(Clone, Copy, Debug, PartialEq, Eq)]
pub enum Kind {
    Object,
    Property,
    Aggregate,
}

/// What a name denotes: its kind; its members, by their places among the game's objects, in the order of first mention; and the
/// number of the name that it goes back to. A synonym has the number of the name that it stands for.
#[derive(Drop)]
pub struct Denotation {
    pub kind: Kind,
    pub members: Listed<usize>,
    pub number: usize,
}
