//! What a field of an instance refers to.

ghost use Rattle.std.specs.Prelude.{◌≡◌, option_map};
ghost use Rattle.entity_types.specs.Entity.{field_of};
ghost use Rattle.step_def.specs.Steps.{Gives};
ghost use Rattle.step_def.specs.Lookup.{referred, is_of, is_absent, instance_at, class_at};

use crate::fault::DefFault;
use entity_types::{Class, Entity, Field};
use nc_base::Number;
use project_store::Entities;

/// The instance that a field refers to, with its number.
pub(crate) fn referred<'a, E: Entities>(
    from: &'a E,
    entity: &Entity,
    position: u8,
) -> Option<(Number, &'a Entity)>
    ensures { option_map (λ x. (x.0, x.1.now)) result ≡ referred (E.entities from.now) (field_of entity.now position) }
{
    match entity.field(position) {
        Some(Field::Ref(number)) => match from.get(*number) {
            Some(target) => Some((*number, target)),
            None => None,
        },
        _ => None,
    }
}

/// Whether an instance is of the class.
pub(crate) fn is_of(class: Class, entity: &Entity) -> bool
    ensures { result ≡ is_of class entity.now }
{
    entity.class.code() == class.code()
}

/// Whether a field is `$`.
pub(crate) fn is_absent(entity: &Entity, position: u8) -> bool
    ensures { result ≡ is_absent (field_of entity.now position) }
{
    matches!(entity.field(position), Some(Field::Absent))
}

/// The instance that a position refers to, of any class.
#[tactic(auto, unfolding(crate::specs::Lookup::instance_at))]
pub(crate) fn instance_at<'a, E: Entities>(
    from: &'a E,
    n: Number,
    entity: &Entity,
    position: u8,
) -> Result<(Number, &'a Entity), DefFault>
    ensures { Gives (λ x. (x.0, x.1.now)) result (instance_at (E.entities from.now) n entity.now position) }
{
    match referred(from, entity, position) {
        Some(instance) => Ok(instance),
        None => Err(DefFault::Missing(n, u32::from(position))),
    }
}

/// The instance that a position refers to, which has to be of the class.
#[tactic(auto, unfolding(crate::specs::Lookup::class_at))]
pub(crate) fn class_at<'a, E: Entities>(
    from: &'a E,
    n: Number,
    entity: &Entity,
    position: u8,
    class: Class,
) -> Result<(Number, &'a Entity), DefFault>
    ensures { Gives (λ x. (x.0, x.1.now)) result (class_at (E.entities from.now) n entity.now position class) }
{
    match referred(from, entity, position) {
        Some((number, entity)) if is_of(class, entity) => Ok((number, entity)),
        _ => Err(DefFault::Missing(n, u32::from(position))),
    }
}
