//! The lookup of a workingstep: what is looked up from it, in order.

ghost use Rattle.std.specs.Prelude.{◌≡◌};
ghost use Rattle.step_def.specs.Lookup.{feature_part_of, operation_part_of, lookup_of};

use crate::attributes::{FeaturePart, Lookup, OperationPart};
use crate::face::{face_part, facing_part, is_facing};
use crate::fault::DefFault;
use crate::hole::{drilling_part, hole_part, is_drilling};
use crate::placement::{placement_at, plane_at};
use crate::pocket::{is_pocketing, pocket_part, pocketing_part};
use crate::reference::{instance_at, is_absent, is_of};
use crate::tool::technology_of;
use entity_types::{Class, Entity};
use nc_base::Number;
use project_store::Entities;

/// What the feature of step `step` adds by its class.
#[tactic(auto, unfolding(crate::specs::Lookup::feature_part_of))]
fn feature_part_of<E: Entities>(
    from: &E,
    step: Number,
    n: Number,
    feature: &Entity,
) -> Result<FeaturePart, DefFault>
    ensures { result ≡ feature_part_of (E.entities from.now) step (n, feature.now) }
{
    if is_of(Class::RoundHole, feature) {
        hole_part(from, n, feature)
    } else if is_of(Class::PlanarFace, feature) {
        face_part(from, n, feature)
    } else if is_of(Class::ClosedPocket, feature) {
        pocket_part(from, n, feature)
    } else {
        Err(DefFault::Missing(step, 3))
    }
}

/// What the operation of step `step` adds by its class.
#[tactic(auto, unfolding(crate::specs::Lookup::operation_part_of))]
fn operation_part_of<E: Entities>(
    from: &E,
    step: Number,
    n: Number,
    operation: &Entity,
) -> Result<OperationPart, DefFault>
    ensures { result ≡ operation_part_of (E.entities from.now) step (n, operation.now) }
{
    if is_drilling(operation) {
        drilling_part(n, operation)
    } else if is_facing(operation) {
        facing_part(from, n, operation)
    } else if is_pocketing(operation) {
        pocketing_part(from, n, operation)
    } else {
        Err(DefFault::Missing(step, 4))
    }
}

/// All that is looked up from a workingstep.
#[tactic(auto, unfolding(crate::specs::Lookup::lookup_of))]
pub(crate) fn lookup_of<E: Entities>(from: &E, n: Number, step: &Entity) -> Result<Lookup, DefFault>
    ensures { result ≡ lookup_of (E.entities from.now) n step.now }
{
    let security = plane_at(from, n, step, 2)?;
    let (feature, feature_entity) = instance_at(from, n, step, 3)?;
    let placement = placement_at(from, feature, feature_entity, 4)?;
    let floor = plane_at(from, feature, feature_entity, 5)?;
    let feature_part = feature_part_of(from, n, feature, feature_entity)?;
    let (operation, operation_entity) = instance_at(from, n, step, 4)?;
    let technology = technology_of(from, operation, operation_entity)?;
    let operation_part = operation_part_of(from, n, operation, operation_entity)?;
    Ok(Lookup {
        feature,
        operation,
        has_toolpath: !is_absent(operation_entity, 1),
        security,
        placement,
        floor,
        feature_part,
        technology,
        operation_part,
    })
}
