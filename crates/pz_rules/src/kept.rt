//! The first of equal instances.

ghost use Rattle.std.specs.Prelude.{◌≡◌, [], IfOk, OnOk};
ghost use Rattle.pz_instances.specs.Equal.{same_instance};
ghost use Rattle.pz_base.specs.Lists.{with_new};

use indexmap::IndexSet;
use pz_instances::equal::same_instance;
use pz_instances::hashes::hash_of;
use pz_program::instance::Instance;
use std::alloc::{AllocError, Global};
use std::hash::{Hash, Hasher};
use std::marker::Model;

/// An instance of a rule, as it is compared with others of that rule.
#[derive(Drop)]
struct Form {
    instance: Instance,
}

impl Model for Form {
    ghost use Rattle.pz_program.specs.declared.instance.Instance.{Instance};

    ghost Value = { Instance };

    ghost view = { λ f. f.instance };
}

impl Form {
    fn into_instance(self) -> Instance
        ensures { result ≡ self }
    {
        let Form { instance } = self;
        instance
    }
}

impl PartialEq for Form {
    ghost use Rattle.pz_instances.specs.Equal.{same_instance};
    ghost use Rattle.pz_instances.proofs.EqualLemmas.{partial_equivalence};

    ghost eq = { λ a b. same_instance b a };

    ghost laws = { partial_equivalence };

    fn eq(&self, other: &Form) -> bool {
        same_instance(&other.instance, &self.instance)
    }
}

impl Eq for Form {
    ghost use Rattle.pz_instances.proofs.EqualLemmas.{equivalence};

    ghost laws = { equivalence };
}

impl Hash for Form {
    ghost use Rattle.std.specs.Hash as fed;
    ghost use Rattle.pz_instances.specs.Hashes.{hash_of};
    ghost use Rattle.pz_instances.proofs.HashLemmas.{fed-alike};

    ghost hash_input = { λ instance. fed.u64 (hash_of instance) };

    ghost respects_eq = { fed-alike };

    fn hash<H: Hasher>(&self, state: &mut H) {
        state.write_u64(hash_of(&self.instance));
    }
}

/// Instances, no two of them equal.
#[derive(Drop)]
pub struct Kept {
    forms: IndexSet<Form>,
}

impl Model for Kept {
    ghost use Rattle.std.specs.Prelude.{List};
    ghost use Rattle.pz_program.specs.declared.instance.Instance.{Instance};

    ghost Value = { List Instance };

    ghost view = { λ k. k.forms.keys };
}

impl Kept {
    pub fn new(alloc: Global) -> Kept
        ensures { result ≡ [] }
    {
        Kept {
            forms: IndexSet::new(alloc),
        }
    }

    /// The instances, in the order in which they were added.
    pub fn into_instances(self, alloc: Global) -> Result<Vec<Instance>, AllocError>
        ensures { IfOk result (λ instances. instances.items ≡ self) }
    {
        let Kept { forms } = self;
        let mut instances = Vec::new(alloc);
        for form in forms {
            instances.push(form.into_instance())?;
        }
        Ok(instances)
    }

    /// Adds an instance, unless an equal one is already there.
    pub fn add(&mut self, instance: Instance) -> Result<(), AllocError>
        ensures { OnOk result (self.new ≡ with_new same_instance self.old instance) }
    {
        self.forms.insert(Form { instance })?;
        Ok(())
    }
}
