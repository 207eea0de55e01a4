//! The tree of a store, built in preorder.

ghost use Rattle.std.specs.Prelude.{◌≡◌, ◌<◌, ◌≤◌, ◌+◌, [], ℕ, min, map, flat_map, length, Option, Some, None, OnOk, IfOk, IfErr, option_copied};
ghost use Rattle.exec_tree.specs.declared.limits.TheConstants.{MAX_EXPRESSION_NODES, MAX_CHANNELS};
ghost use Rattle.exec_tree.specs.Executable.{parts_at, channel_at};
ghost use Rattle.exec_tree.specs.Size.{expression_size};
ghost use Rattle.exec_tree.specs.Walk.{visits_from, part_walk};
ghost use Rattle.exec_tree.specs.TreeFault.{fault_by, with_channel, first_fault, first_fault_from};
ghost use Rattle.exec_tree.specs.TreeOf.{part_tree, tree_from};
ghost use Rattle.exec_tree.specs.Built.{IsTreeFrom};
ghost use Rattle.exec_tree.specs.Walked.{seen_of, entered, Grows, IsHeld, AreElements, IsFault};

use crate::error::TreeErr;
use crate::executable::{channel_at, channel_below, kind_at, part_at, part_count};
use crate::limits::MAX_TREE_NESTING;
use crate::size::capped_size;
use crate::tree::Tree;
use crate::walk::Walk;
use entity_types::Entity;
use nc_base::{Number, NumberList};
use project_store::Entities;
use std::alloc::Global;

/// Counts the next node, or gives its fault.
fn admit<E: Entities>(
    walk: &mut Walk,
    entities: &E,
    n: Number,
    found: Option<&Entity>,
    left: u32,
) -> Result<(), TreeErr>
    requires { option_copied found ≡ E.entities entities.now n }
    ensures fault { IfErr result (IsFault (fault_by (seen_of walk.old) n left (expression_size (E.entities entities.now) n) (channel_at (E.entities entities.now n)))) }
    ensures none { OnOk result (fault_by (seen_of walk.old) n left (expression_size (E.entities entities.now) n) (channel_at (E.entities entities.now n)) ≡ None) }
    ensures ok { OnOk result (walk.new ≡ record { nodes = walk.old.nodes; weight = walk.old.weight + (1 + min (expression_size (E.entities entities.now) n) MAX_EXPRESSION_NODES); channels = with_channel walk.old.channels (channel_at (E.entities entities.now n)); fixed = walk.old.fixed }) }
{
    let size = capped_size(entities, found);
    let named = channel_at(found);
    if let Some(fault) = walk.fault(n, left, size, named) {
        return Err(fault);
    }
    walk.count(size);
    walk.name(named)?;
    Ok(())
}

/// Puts the next node at the end, without its elements, or gives its fault.
fn enter<E: Entities>(
    alloc: Global,
    walk: &mut Walk,
    entities: &E,
    n: Number,
    found: Option<&Entity>,
    left: u32,
    channel: Option<Number>,
) -> Result<u32, TreeErr>
    requires { option_copied found ≡ E.entities entities.now n }
    ensures fault { IfErr result (IsFault (fault_by (seen_of walk.old) n left (expression_size (E.entities entities.now) n) (channel_at (E.entities entities.now n)))) }
    ensures none { OnOk result (fault_by (seen_of walk.old) n left (expression_size (E.entities entities.now) n) (channel_at (E.entities entities.now n)) ≡ None) }
    ensures place { IfOk result (λ place. place ≡ length walk.old.nodes) }
    ensures ok { OnOk result (walk.new ≡ entered (E.entities entities.now) walk.old n channel) }
{
    admit(walk, entities, n, found, left)?;
    let number = walk.channel_number(channel_below(channel, found));
    Ok(walk.push(alloc, n, number, kind_at(found))?)
}

/// Puts executable n and what lies below it at the end, and gives its place.
///
/// # Errors
/// The first fault in preorder, or want of memory.
#[cycle(growing)]
fn add<E: Entities>(
    alloc: Global,
    walk: &mut Walk,
    entities: &E,
    n: Number,
    left: u32,
    channel: Option<Number>,
) -> Result<u32, TreeErr>
    ensures fault { IfErr result (IsFault (first_fault (E.entities entities.now) (seen_of walk.old) (visits_from (E.entities entities.now) left channel n))) }
    ensures grown { OnOk result (Grows (E.entities entities.now) walk.old walk.new (visits_from (E.entities entities.now) left channel n)) }
    ensures held { IfOk result (λ place. IsHeld walk.old walk.new left place (tree_from (E.entities entities.now) left n)) }
{
    let found = entities.get(n);
    let place = enter(alloc, walk, entities, n, found, left, channel)?;
    let elements = add_parts(
        alloc,
        walk,
        entities,
        found,
        left - 1,
        channel_below(channel, found),
    )?;
    walk.set_elements(place, elements);
    Ok(place)
}

/// Puts the parts of an executable at the end, and gives their places.
#[cycle(growing)]
fn add_parts<E: Entities>(
    alloc: Global,
    walk: &mut Walk,
    entities: &E,
    found: Option<&Entity>,
    left: u32,
    channel: Option<Number>,
) -> Result<NumberList, TreeErr>
    ensures fault { IfErr result (IsFault (first_fault (E.entities entities.now) (seen_of walk.old) (flat_map (part_walk (λ m. visits_from (E.entities entities.now) left channel m)) (parts_at (option_copied found.entry))))) }
    ensures grown { OnOk result (Grows (E.entities entities.now) walk.old walk.new (flat_map (part_walk (λ m. visits_from (E.entities entities.now) left channel m)) (parts_at (option_copied found.entry)))) }
    ensures held { IfOk result (λ elements. AreElements walk.old walk.new left elements (map (part_tree (λ m. tree_from (E.entities entities.now) left m)) (parts_at (option_copied found.entry)))) }
{
    let mut elements = NumberList::new(alloc);
    for i in 0..part_count(found) {
        let place = add_part(alloc, walk, entities, part_at(found, i), left, channel)?;
        elements.push(place)?;
    }
    Ok(elements)
}

/// Puts a part at the end, and gives its place.
#[cycle(growing)]
fn add_part<E: Entities>(
    alloc: Global,
    walk: &mut Walk,
    entities: &E,
    part: Option<Number>,
    left: u32,
    channel: Option<Number>,
) -> Result<u32, TreeErr>
    ensures fault { IfErr result (IsFault (first_fault (E.entities entities.now) (seen_of walk.old) (part_walk (λ m. visits_from (E.entities entities.now) left channel m) part))) }
    ensures grown { OnOk result (Grows (E.entities entities.now) walk.old walk.new (part_walk (λ m. visits_from (E.entities entities.now) left channel m) part)) }
    ensures held { IfOk result (λ place. IsHeld walk.old walk.new left place (part_tree (λ m. tree_from (E.entities entities.now) left m) part)) }
{
    match part {
        Some(n) => add(alloc, walk, entities, n, left, channel),
        None => Ok(walk.push_blank(alloc, walk.channel_number(channel))?),
    }
}

/// The tree of this main workplan.
///
/// # Errors
/// The first fault in preorder, or want of memory.
pub(crate) fn build_from<E: Entities>(
    alloc: Global,
    entities: &E,
    main: Number,
    channels: NumberList,
    fixed: bool,
) -> Result<Tree, TreeErr>
    requires { length channels ≤ MAX_CHANNELS }
    ensures tree { IfOk result (IsTreeFrom (record { numbers = []; weight = 0; channels = channels; fixed = fixed }) (E.entities entities.now) main) }
    ensures fault { IfErr result (IsFault (first_fault_from (record { numbers = []; weight = 0; channels = channels; fixed = fixed }) (E.entities entities.now) main)) }
{
    let mut walk = Walk::new(alloc, channels, fixed);
    add(alloc, &mut walk, entities, main, MAX_TREE_NESTING, None)?;
    let tree = walk.into_tree(alloc, entities)?;
    Ok(tree)
}
