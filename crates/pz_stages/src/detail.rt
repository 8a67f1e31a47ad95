//! How much is told of an input.

/// What is told of the steps of an input: their stages alone, or before each group or loop the firings of its instances too.
#[derive(Clone, Copy, PartialEq, Eq, Debug)]
pub enum Detail {
    Stages,
    Firings,
}
