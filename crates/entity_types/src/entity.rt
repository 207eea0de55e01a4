//! Entities: an instance's number, its class, and what stands at its used positions.

ghost use Rattle.std.specs.Prelude.{IsTrue};
ghost use Rattle.entity_types.specs.Fits.{fields_fit};

use crate::class::Class;
use crate::field::{Field, FieldList, copy_fields, field_at, push_all};
use crate::table::used;
use nc_base::{ItemList, NoMemory, Number, NumberList};
use std::alloc::Global;

/// An instance of a project as this profile sees it. Its fields are what stands at the used positions of its class, in
/// rising order of position, and each is of the kind that the table of classes gives there.
#[derive(Debug, Drop)]
pub struct Entity {
    pub number: Number,
    pub class: Class,
    pub fields: FieldList,
    pub ghost fit: { IsTrue (fields_fit class fields) },
}

/// Entities in a row.
pub type EntityList = ItemList<Entity>;

impl Entity {
    ghost use Rattle.std.specs.Prelude.{◌≡◌, ◌↔◌, IsTrue, IsSome, IfOk, option_copied};
    ghost use Rattle.entity_types.specs.Entity.{is_used, field_of, uses_of};

    /// The field at a position, counted from 1 as in the instance. None comes exactly where the class doesn't use the position.
    pub fn field(&self, position: u8) -> Option<&Field>
        ensures found { IsSome result ↔ IsTrue (is_used self.now.class position) }
        ensures value { option_copied result ≡ field_of self.now position }
    {
        field_at(used(self.class), self.fields.as_slice(), position)
    }

    /// The references in used positions, in order.
    pub fn uses(&self, alloc: Global) -> Result<NumberList, NoMemory>
        ensures { IfOk result (λ numbers. numbers ≡ uses_of self.now) }
    {
        let mut numbers = NumberList::new(alloc);
        for field in self.fields.as_slice() {
            push_all(&mut numbers, field.references())?;
        }
        Ok(numbers)
    }

    /// An equal entity.
    pub fn copy(&self, alloc: Global) -> Result<Entity, NoMemory>
        ensures { IfOk result (λ copy. copy ≡ self.now) }
    {
        Ok(Entity {
            number: self.number,
            class: self.class,
            fields: copy_fields(alloc, self.fields.as_slice())?,
        })
    }
}
