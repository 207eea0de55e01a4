//! What an executable says.

ghost use Rattle.std.specs.Prelude.{◌≡◌, ◌<◌, length, slice_get, Some, option_copied};
ghost use Rattle.exec_tree.specs.Walk.{channel_below};
ghost use Rattle.exec_tree.specs.Executable.{reference_of, reference_at, references_at, kind_of, parts_by, parts_of, channel_named, expression_of, kind_at, parts_at, channel_at};

use crate::kind::Kind;
use entity_types::{Class, Entity, Field};
use nc_base::Number;

fn references_at(entity: &Entity, position: u8) -> &[Number]
    ensures { result.now ≡ references_at entity.now position }
{
    match entity.field(position) {
        Some(field) => field.references(),
        None => &[],
    }
}

fn reference_of(field: &Field) -> Option<Number>
    ensures { result ≡ reference_of field.now }
{
    match field {
        Field::Ref(number) => Some(*number),
        _ => None,
    }
}

pub(crate) fn reference_at(entity: &Entity, position: u8) -> Option<Number>
    ensures { result ≡ reference_at entity.now position }
{
    match entity.field(position) {
        Some(field) => reference_of(field),
        None => None,
    }
}

fn kind_of(class: Class) -> Kind
    ensures { result ≡ kind_of class }
{
    match class {
        Class::Workplan => Kind::Plan,
        Class::Parallel => Kind::Par,
        Class::NonSequential => Kind::NonSeq,
        Class::Selective => Kind::Sel,
        Class::IfStatement => Kind::If,
        Class::WhileStatement => Kind::While,
        Class::Assignment => Kind::Assign,
        Class::SetMark => Kind::Set,
        Class::WaitForMark => Kind::Wait,
        Class::MachiningWorkingstep => Kind::Work,
        _ => Kind::Note,
    }
}

pub(crate) fn kind_at(found: Option<&Entity>) -> Kind
    ensures { result ≡ kind_at (option_copied found.entry) }
{
    match found {
        Some(entity) => kind_of(entity.class),
        None => Kind::Note,
    }
}

fn count_by(kind: Kind, entity: &Entity) -> usize
    ensures { result ≡ length (parts_by kind entity.now) }
{
    match kind {
        Kind::Plan | Kind::Par | Kind::NonSeq | Kind::Sel => references_at(entity, 2).len(),
        Kind::If => 2,
        Kind::While => 1,
        Kind::Assign | Kind::Set | Kind::Wait | Kind::Work | Kind::Note => 0,
    }
}

/// How many parts there are.
pub(crate) fn part_count(found: Option<&Entity>) -> usize
    ensures { result ≡ length (parts_at (option_copied found.entry)) }
{
    match found {
        Some(entity) => count_by(kind_of(entity.class), entity),
        None => 0,
    }
}

fn part_by(kind: Kind, entity: &Entity, i: usize) -> Option<Number>
    requires { i < length (parts_by kind entity.now) }
    ensures { slice_get (parts_by kind entity.now) i ≡ Some result }
{
    match kind {
        Kind::If => reference_at(entity, if i == 0 { 3 } else { 4 }),
        Kind::While => reference_at(entity, 3),
        Kind::Plan | Kind::Par | Kind::NonSeq | Kind::Sel => references_at(entity, 2)
            .get(i)
            .copied(),
        Kind::Assign | Kind::Set | Kind::Wait | Kind::Work | Kind::Note => None,
    }
}

/// The part at an index; none for a branch that is left out.
pub(crate) fn part_at(found: Option<&Entity>, i: usize) -> Option<Number>
    requires { i < length (parts_at (option_copied found)) }
    ensures { slice_get (parts_at (option_copied found.entry)) i ≡ Some result }
{
    match found {
        Some(entity) => part_by(kind_of(entity.class), entity, i),
        None => None,
    }
}

fn channel_named(entity: &Entity) -> Option<Number>
    ensures { result ≡ channel_named entity.now }
{
    match kind_of(entity.class) {
        Kind::Plan => reference_at(entity, 3),
        _ => None,
    }
}

/// The channel that a workplan names.
pub(crate) fn channel_at(found: Option<&Entity>) -> Option<Number>
    ensures { result ≡ channel_at (option_copied found.entry) }
{
    match found {
        Some(entity) => channel_named(entity),
        None => None,
    }
}

/// The expression.
pub(crate) fn expression_of(entity: &Entity) -> Option<&Field>
    ensures { option_copied result ≡ expression_of entity.now }
{
    match kind_of(entity.class) {
        Kind::If | Kind::While => entity.field(2),
        Kind::Assign => entity.field(3),
        _ => None,
    }
}

/// The channel in force at an executable, where this one was above it.
pub(crate) fn channel_below(channel: Option<Number>, found: Option<&Entity>) -> Option<Number>
    ensures { result ≡ channel_below channel (option_copied found.entry) }
{
    match channel_at(found) {
        Some(named) => Some(named),
        None => channel,
    }
}
