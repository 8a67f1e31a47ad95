//! The names that each game needs.

ghost use Rattle.std.specs.Prelude.{◌≡◌};
ghost use Rattle.pz_source.specs.Missing.{is_single, names_single, fault_of_needs};

use pz_base::fault::{Code, SourceFault};
use pz_base::name_set::NameSet;
use pz_game::denotation::{Denotation, Kind};

fn is_single(kind: Kind) -> bool
    ensures { result ≡ is_single kind }
{
    match kind {
        Kind::Object | Kind::Property => true,
        Kind::Aggregate => false,
    }
}

fn names_single(names: &NameSet, values: &[Denotation], name: &str) -> bool
    ensures { result ≡ names_single names.now values.now name.now }
{
    let Some(number) = names.number_of(name) else {
        return false;
    };
    match values.get(number) {
        Some(denotation) => is_single(denotation.kind),
        None => false,
    }
}

/// `Missing`, with line 0, if `background` or `player` is not there or is an aggregate. Rule `checks.missing`.
pub fn missing_name(names: &NameSet, values: &[Denotation]) -> Option<SourceFault>
    ensures { result ≡ fault_of_needs names.now values.now }
{
    if names_single(names, values, "background") && names_single(names, values, "player") {
        None
    } else {
        Some(SourceFault {
            code: Code::Missing,
            line: 0,
        })
    }
}
