//! What the holders of a claim table know.

use std::collections::LinkedList;

/// What a holder of a claim table knows. Only proofs have such values, and none is ever made. Each but the last begins with the
/// number of numbers of the table, and the numbers that its holder has.
pub enum View {
    /// The maker, with how many seats it made and how many it joined.
    Making(u64, LinkedList<u64>, u64, u64),
    /// A seat that may claim.
    Claiming(u64, LinkedList<u64>),
    /// A seat that has ended, with the word that it found: the number of numbers or more.
    Ended(u64, LinkedList<u64>, u64),
    /// What stays of a seat that was joined.
    Spent,
}
