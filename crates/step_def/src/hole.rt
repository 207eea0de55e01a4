//! A hole, and the operations that drill it.

ghost use Rattle.std.specs.Prelude.{◌≡◌};
ghost use Rattle.step_def.specs.Lookup.{hole_part, is_drilling, drilling_part};

use crate::attributes::{FeaturePart, OperationPart};
use crate::fault::DefFault;
use crate::number::{free_number_at, length_at};
use entity_types::{Class, Entity};
use nc_base::Number;
use project_store::Entities;

/// What a hole adds: its diameter.
#[tactic(auto, unfolding(crate::specs::Lookup::hole_part))]
pub(crate) fn hole_part<E: Entities>(
    from: &E,
    n: Number,
    feature: &Entity,
) -> Result<FeaturePart, DefFault>
    ensures { result ≡ hole_part (E.entities from.now) (n, feature.now) }
{
    Ok(FeaturePart::Hole {
        diameter: length_at(from, n, feature, 6)?,
    })
}

/// Drilling, center drilling, reaming and boring.
pub(crate) fn is_drilling(operation: &Entity) -> bool
    ensures { result ≡ is_drilling operation.now }
{
    operation.class.is_between(Class::Drilling, Class::Boring)
}

/// What drilling adds: a dwell.
#[tactic(auto, unfolding(crate::specs::Lookup::drilling_part))]
pub(crate) fn drilling_part(n: Number, operation: &Entity) -> Result<OperationPart, DefFault>
    ensures { result ≡ drilling_part (n, operation.now) }
{
    Ok(OperationPart::Drilling {
        dwell: free_number_at(n, operation, 12)?,
    })
}
