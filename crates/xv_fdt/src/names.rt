//! The names that are taken among siblings, or among the properties of a node.
ghost use Rattle.std.specs.Prelude.{◌≡◌, OnOk, Some, None, if◌then◌else◌};
ghost use Rattle.xv_base.specs.Name.{is_dev_name};
ghost use Rattle.xv_fdt.specs.Grammar.{nobody, with_name, is_new};

use crate::name::NodeName;
use std::alloc::{AllocError, Global};
use std::collections::BTreeSet;
use xv_base::dev_name_of;

/// The names that are taken. One is found and added in a time that grows with the logarithm of
/// their count.
#[derive(Drop)]
pub(crate) struct NameSet {
    set: BTreeSet<NodeName>,
}

impl NameSet {
    ghost use Rattle.xv_fdt.specs.Progress.{taken_in};

    pub(crate) fn new(alloc: Global) -> NameSet
        ensures { taken_in result ≡ nobody }
    {
        NameSet {
            set: BTreeSet::new(alloc),
        }
    }

    #[tactic(auto, unfolding(crate::specs::Progress::taken_in))]
    fn has(&self, name: &NodeName) -> bool
        ensures { result ≡ taken_in self.now name.now }
    {
        self.set.contains(name)
    }

    /// The name that a node or a property may have, or None where the bytes are none or are taken.
    pub(crate) fn new_name(&self, bytes: &[u8]) -> Option<NodeName>
        ensures { result ≡ (if is_new (taken_in self.now) bytes.now then Some bytes.now else None) }
    {
        match name_of(bytes) {
            Some(name) => { if self.has(&name) { None } else { Some(name) } }
            None => None,
        }
    }

    /// Takes the name.
    pub(crate) fn add(&mut self, name: NodeName) -> Result<(), AllocError>
        ensures { OnOk result (taken_in self.new ≡ with_name (taken_in self.old) name) }
    {
        self.set.insert(name)?;
        Ok(())
    }
}

/// The name of these bytes, or None where they are no name of a node or a property.
fn name_of(bytes: &[u8]) -> Option<NodeName>
    ensures { result ≡ (if is_dev_name bytes.now then Some bytes.now else None) }
{
    match dev_name_of(bytes) {
        Some(name) => NodeName::of(name.bytes()),
        None => None,
    }
}
