//! A planar face, and the operations that mill a plane.

ghost use Rattle.std.specs.Prelude.{◌≡◌};
ghost use Rattle.entity_types.specs.Entity.{field_of};
ghost use Rattle.step_def.specs.Steps.{Gives};
ghost use Rattle.step_def.specs.Lookup.{face_part, is_facing, is_strategy, kind_at, strategy_of, facing_part};

use crate::attributes::{FaceCut, FacePart, FeaturePart, OperationPart, Strategy};
use crate::fault::DefFault;
use crate::number::{free_length_at, free_number_at, length_at};
use crate::placement::coordinates_at;
use crate::reference::{class_at, is_absent, is_of, referred};
use crate::tool::diameter_at;
use entity_types::{Class, Entity};
use nc_base::Number;
use project_store::Entities;

/// What a face adds: the length and the direction of its course, and the width of its profile.
#[tactic(auto, unfolding(crate::specs::Lookup::face_part))]
pub(crate) fn face_part<E: Entities>(
    from: &E,
    n: Number,
    feature: &Entity,
) -> Result<FeaturePart, DefFault>
    ensures { result ≡ face_part (E.entities from.now) (n, feature.now) }
{
    let (path, path_entity) = class_at(from, n, feature, 6, Class::LinearPath)?;
    let length = length_at(from, path, path_entity, 2)?;
    let course = coordinates_at(from, path, path_entity, 3, Class::Direction)?;
    let (profile, profile_entity) = class_at(from, n, feature, 7, Class::LinearProfile)?;
    let width = length_at(from, profile, profile_entity, 2)?;
    Ok(FeaturePart::Face(FacePart {
        length,
        course,
        width,
    }))
}

/// Rough and finish milling of a plane.
pub(crate) fn is_facing(operation: &Entity) -> bool
    ensures { result ≡ is_facing operation.now }
{
    operation
        .class
        .is_between(Class::PlaneRoughMilling, Class::PlaneFinishMilling)
}

fn is_strategy(strategy: &Entity) -> bool
    ensures { result ≡ is_strategy strategy.now }
{
    is_of(Class::Bidirectional, strategy) || is_of(Class::Unidirectional, strategy)
}

#[tactic(auto, unfolding(crate::specs::Lookup::kind_at))]
fn strategy_at<'a, E: Entities>(
    from: &'a E,
    n: Number,
    entity: &Entity,
    position: u8,
) -> Result<(Number, &'a Entity), DefFault>
    ensures { Gives (λ x. (x.0, x.1.now)) result (kind_at is_strategy (E.entities from.now) n entity.now position) }
{
    match referred(from, entity, position) {
        Some((number, entity)) if is_strategy(entity) => Ok((number, entity)),
        _ => Err(DefFault::Missing(n, u32::from(position))),
    }
}

/// How the rows follow each other: there and back without an overlap where nothing is said.
#[tactic(auto, unfolding(crate::specs::Lookup::strategy_of))]
fn strategy_of<E: Entities>(from: &E, n: Number, operation: &Entity) -> Result<Strategy, DefFault>
    ensures { result ≡ strategy_of (E.entities from.now) (n, operation.now) }
{
    if is_absent(operation, 12) {
        return Ok(Strategy {
            both: true,
            overlap: None,
        });
    }
    let (strategy, strategy_entity) = strategy_at(from, n, operation, 12)?;
    let overlap = free_number_at(strategy, strategy_entity, 1)?;
    Ok(Strategy {
        both: is_of(Class::Bidirectional, strategy_entity),
        overlap,
    })
}

/// What milling a plane adds.
#[tactic(auto, unfolding(crate::specs::Lookup::facing_part))]
pub(crate) fn facing_part<E: Entities>(
    from: &E,
    n: Number,
    operation: &Entity,
) -> Result<OperationPart, DefFault>
    ensures { result ≡ facing_part (E.entities from.now) (n, operation.now) }
{
    let diameter = diameter_at(from, n, operation)?;
    let strategy = strategy_of(from, n, operation)?;
    let axial = free_length_at(from, n, operation, 13)?;
    let bottom = free_length_at(from, n, operation, 14)?;
    Ok(OperationPart::Facing(FaceCut {
        diameter,
        strategy,
        axial,
        bottom,
    }))
}
