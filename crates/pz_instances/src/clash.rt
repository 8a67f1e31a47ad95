//! Clashes on the right of an instance.

ghost use Rattle.std.specs.Prelude.{◌≡◌};
ghost use Rattle.std.specs.List.{list_any};
ghost use Rattle.pz_instances.specs.Clash.{has_clash};

use crate::exclusion::{Role, have_impossible};
use pz_program::instance::Instance;

/// Whether the right of an instance has a cell that can't be placed. Rule `checks.right-clash`.
#[tactic(auto, unfolding(crate::specs::Clash::has_clash))]
fn has_clash(instance: &Instance) -> bool
    ensures { result ≡ has_clash instance.now }
{
    have_impossible(Role::Placed, instance.right.items())
}

/// Whether one of these instances has a clash.
pub fn have_clash(instances: &[Instance]) -> bool
    ensures { result ≡ list_any has_clash instances.now }
{
    instances.iter().any(|instance| has_clash(instance))
}
