//! The tool of an operation, and how it cuts.

ghost use Rattle.std.specs.Prelude.{◌≡◌};
ghost use Rattle.step_def.specs.Steps.{Gives};
ghost use Rattle.step_def.specs.Lookup.{class_at, technology_of, diameter_at, is_tool_body, kind_at};

use crate::attributes::{Quantity, Technology};
use crate::fault::DefFault;
use crate::number::{free_length_at, length_at, number_at};
use crate::reference::{class_at, referred};
use entity_types::{Class, Entity};
use nc_base::Number;
use project_store::Entities;

/// What every operation has: a retract, a tool, a feed and a spindle speed.
#[tactic(auto, unfolding(crate::specs::Lookup::technology_of))]
pub(crate) fn technology_of<E: Entities>(
    from: &E,
    n: Number,
    operation: &Entity,
) -> Result<Technology, DefFault>
    ensures { result ≡ technology_of (E.entities from.now) (n, operation.now) }
{
    let retract = free_length_at(from, n, operation, 4)?;
    let (tool, _) = class_at(from, n, operation, 6, Class::MillingCuttingTool)?;
    let (number, technology) = class_at(from, n, operation, 7, Class::MillingTechnology)?;
    let feed = number_at(number, technology, 1)?;
    let spindle = number_at(number, technology, 4)?;
    Ok(Technology {
        retract,
        tool,
        feed,
        spindle,
    })
}

/// The body of a milling cutting tool: an endmill, a facemill or a twist drill.
fn is_tool_body(body: &Entity) -> bool
    ensures { result ≡ is_tool_body body.now }
{
    body.class.is_between(Class::Endmill, Class::TwistDrill)
}

#[tactic(auto, unfolding(crate::specs::Lookup::kind_at))]
fn tool_body_at<'a, E: Entities>(
    from: &'a E,
    n: Number,
    entity: &Entity,
    position: u8,
) -> Result<(Number, &'a Entity), DefFault>
    ensures { Gives (λ x. (x.0, x.1.now)) result (kind_at is_tool_body (E.entities from.now) n entity.now position) }
{
    match referred(from, entity, position) {
        Some((number, entity)) if is_tool_body(entity) => Ok((number, entity)),
        _ => Err(DefFault::Missing(n, u32::from(position))),
    }
}

/// The diameter of the tool of a milling operation.
#[tactic(auto, unfolding(crate::specs::Lookup::diameter_at))]
pub(crate) fn diameter_at<E: Entities>(
    from: &E,
    n: Number,
    operation: &Entity,
) -> Result<Quantity, DefFault>
    ensures { result ≡ diameter_at (E.entities from.now) (n, operation.now) }
{
    let (tool, tool_entity) = class_at(from, n, operation, 6, Class::MillingCuttingTool)?;
    let (body, body_entity) = tool_body_at(from, tool, tool_entity, 2)?;
    let (dimension, dimension_entity) = class_at(
        from,
        body,
        body_entity,
        1,
        Class::MillingToolDimension,
    )?;
    length_at(from, dimension, dimension_entity, 1)
}
