//! The entities of a project: the class of an instance, and the attributes that this profile looks at.
//!
//! | module | what is in it | calls |
//! |---|---|---|
//! | class | the classes in the order of the table | `Class` |
//! | keyword | the class that a keyword names | `class_of` |
//! | table | the used positions of each class, what may stand there, what references there must refer to | `used`, `Kind`, `Target` |
//! | field | what stands at a used position | `Field`, `FieldList` |
//! | entity | an instance's number, class and fields | `Entity`, `EntityList` |
//! | edit | entities that an operator puts, and scripts of them | `Edit`, `Script` |
//!
//! Its tests stand in the crate entity_tests.
#![tactic(auto)]

mod class;
mod edit;
mod entity;
mod field;
mod keyword;
mod table;

pub use class::Class;
pub use edit::{Edit, Script};
pub use entity::{Entity, EntityList};
pub use field::{Field, FieldList};
pub use keyword::class_of;
pub use table::{Kind, Target, UsedPosition, used};
