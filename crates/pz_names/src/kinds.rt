//! The kinds of names, and where they don't fit together.

ghost use Rattle.std.specs.Prelude.{◌≡◌, [], IfSome};
ghost use Rattle.std.specs.List.{list_any};
ghost use Rattle.pz_base.specs.Fault.{first_fault};
ghost use Rattle.pz_base.specs.declared.fault.Code.TheVariants as code;
ghost use Rattle.pz_names.specs.Legend.{line_at};
ghost use Rattle.pz_names.specs.Kinds.{kind_in, is_of_kind, is_mixed, mixes};

use crate::legend::{Definition, Said};
use crate::meaning::number_or_end;
use pz_base::fault::{Code, SourceFault};
use pz_base::name::Name;
use pz_base::name_set::NameSet;
use pz_game::denotation::{Denotation, Kind};

fn kind_in(names: &NameSet, values: &[Denotation], name: &Name) -> Option<Kind>
    ensures { result ≡ kind_in names.now values.now name.now }
{
    match values.get(number_or_end(names, name)) {
        Some(denotation) => Some(denotation.kind),
        None => None,
    }
}

fn is_of_kind(kind: Kind, found: Option<Kind>) -> bool
    ensures { result ≡ is_of_kind kind found }
{
    match (kind, found) {
        (Kind::Object, Some(Kind::Object)) => true,
        (Kind::Property, Some(Kind::Property)) => true,
        (Kind::Aggregate, Some(Kind::Aggregate)) => true,
        _ => false,
    }
}

/// Whether one of the names is of this kind.
pub fn has_kind(names: &NameSet, values: &[Denotation], kind: Kind, parts: &[Name]) -> bool
    ensures { result ≡ list_any (λ part. is_of_kind kind (kind_in names.now values.now part)) parts.now }
{
    parts
        .iter()
        .any(|part| is_of_kind(kind, kind_in(names, values, part)))
}

impl Said {
    /// Whether a property has an aggregate among its parts, or an aggregate a property.
    fn mixes(&self, names: &NameSet, values: &[Denotation]) -> bool
        ensures { result ≡ is_mixed (kind_in names.now values.now) self.now }
    {
        match self {
            Said::Same(_) => false,
            Said::AllOf(parts) => has_kind(names, values, Kind::Property, parts.items()),
            Said::AnyOf(parts) => has_kind(names, values, Kind::Aggregate, parts.items()),
        }
    }
}

/// `Mixed` at the first line with an aggregate in a property, or a property in an aggregate. Rule `checks.mixed`.
pub fn mixture(
    names: &NameSet,
    values: &[Denotation],
    definitions: &[Definition],
) -> Option<SourceFault>
    ensures first { result ≡ first_fault line_at (mixes (kind_in names.now values.now)) [] definitions.now }
    ensures code { IfSome result (λ fault. fault.code ≡ code.Mixed) }
{
    for definition in definitions {
        if definition.said.mixes(names, values) {
            return Some(SourceFault {
                code: Code::Mixed,
                line: definition.number,
            });
        }
    }
    None
}
