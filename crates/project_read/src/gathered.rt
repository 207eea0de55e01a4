//! What is kept of the instances of a file, slice after slice.

ghost use Rattle.std.specs.Prelude.{◌≡◌, ◌++◌, List, [], None, map, OnOk};
ghost use Rattle.p21_parse.specs.Tree.{InstanceTree};
ghost use Rattle.p21_parse.specs.Allowed.{own_number_of};
ghost use Rattle.p21_parse.specs.View.{instance_of};
ghost use Rattle.project_read.specs.Reads.{AllTyped};
ghost use Rattle.project_read.specs.Gathered.{IsKept, IsGathered};

use crate::entities::entities_of;
use crate::reason::{ProjectErr, ProjectReason};
use entity_types::Entity;
use nc_base::{NoMemory, Number};
use p21_parse::Instance;
use std::alloc::Global;

/// What is kept of the instances so far: their numbers, and their entities up to the first bad attribute. Behind that one no entity is made,
/// since the file holds no project; but numbers are, since another fault of the file may come before it.
#[derive(Drop)]
pub struct Gathered {
    pub numbers: Vec<Number>,
    pub entities: Vec<Entity>,
    pub fault: Option<ProjectReason>,
}

impl Gathered {
    /// What is kept of no instance.
    pub fn new(alloc: Global) -> Gathered
        ensures { IsGathered [] result }
    {
        Gathered {
            numbers: Vec::new(alloc),
            entities: Vec::new(alloc),
            fault: None,
        }
    }

    /// Keeps the numbers of further instances.
    fn add_numbers(&mut self, instances: &[Instance]) -> Result<(), NoMemory>
        ensures numbers { OnOk result (self.new.numbers.items ≡ self.old.numbers.items ++ map own_number_of (map instance_of instances.now)) }
        ensures entities { OnOk result (self.new.entities ≡ self.old.entities) }
        ensures fault { OnOk result (self.new.fault ≡ self.old.fault) }
    {
        for instance in instances {
            self.numbers.push(instance.number)?;
        }
        Ok(())
    }

    /// Keeps the entities of further instances, or the first bad attribute.
    fn add_entities(&mut self, alloc: Global, instances: &[Instance]) -> Result<(), NoMemory>
        ensures kept { (items : List InstanceTree) → IsKept items self.old.entities.items None
            → OnOk result (IsKept (items ++ map instance_of instances.now) self.new.entities.items self.new.fault) }
        ensures numbers { OnOk result (self.new.numbers ≡ self.old.numbers) }
    {
        match entities_of(alloc, instances) {
            Ok(mut more) => {
                self.entities.append(&mut more)?;
                self.fault = None;
                Ok(())
            }
            Err(ProjectErr::NoMemory) => Err(NoMemory),
            Err(ProjectErr::Refused(reason)) => {
                self.fault = Some(reason);
                Ok(())
            }
        }
    }

    /// Keeps what there is of further instances.
    pub fn add(&mut self, alloc: Global, instances: &[Instance]) -> Result<(), NoMemory>
        ensures { (items : List InstanceTree) → IsGathered items self.old → OnOk result (IsGathered (items ++ map instance_of instances.now) self.new) }
    {
        self.add_numbers(instances)?;
        if self.fault.is_some() {
            return Ok(());
        }
        self.add_entities(alloc, instances)
    }

    /// The entities of all instances, or the first bad attribute.
    pub fn finish(self) -> Result<Vec<Entity>, ProjectErr>
        ensures { (items : List InstanceTree) → IsGathered items self → AllTyped items result }
    {
        match self.fault {
            Some(reason) => Err(ProjectErr::Refused(reason)),
            None => Ok(self.entities),
        }
    }
}
