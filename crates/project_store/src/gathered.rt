//! Numbers gathered, each once.

ghost use Rattle.std.specs.Prelude.{◌≡◌, [], OnOk};
ghost use Rattle.project_store.specs.Inserts.{insert_number, AreMembers};

use nc_base::{NoMemory, Number};
use std::alloc::Global;
use std::collections::BTreeSet;

/// Numbers, each once: in the order in which they came, and as a tree, which says whether one is there. A tree takes no longer for
/// any choice of numbers, as a hash with a seed that is known would.
#[derive(Drop)]
pub struct Gathered {
    pub order: Vec<Number>,
    pub members: BTreeSet<Number>,
}

impl Gathered {
    /// No numbers.
    pub fn new(alloc: Global) -> Gathered
        ensures order { result.order.items ≡ [] }
        ensures members { AreMembers result.order.items result.members }
    {
        Gathered {
            order: Vec::new(alloc),
            members: BTreeSet::new(alloc),
        }
    }

    /// Puts in a number, where it is not there already. Where memory runs out nothing is said of the set: it is to be dropped.
    pub fn insert(&mut self, number: Number) -> Result<(), NoMemory>
        requires { AreMembers self.old.order.items self.old.members }
        ensures order { OnOk result (self.new.order.items ≡ insert_number self.old.order.items number) }
        ensures members { OnOk result (AreMembers self.new.order.items self.new.members) }
    {
        if self.members.insert(number)? {
            self.order.push(number)?;
        }
        Ok(())
    }
}
