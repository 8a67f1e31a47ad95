//! Lines of names.

use pz_base::listed::Listed;
use pz_base::name::Name;

/// The number of a line, and the names on it: those of one object in OBJECTS, or those of a layer.
#[derive(Drop)]
pub struct NameLine {
    pub number: u32,
    pub names: Listed<Name>,
}
