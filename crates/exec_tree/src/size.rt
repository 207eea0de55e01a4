//! How many nodes an expression has.

ghost use Rattle.std.specs.Prelude.{◌≡◌, ℕ, suc, min, map, sum, ◌≤◌, IfSome, option_copied};
ghost use Rattle.std.specs.Option.{option_map_or};
ghost use Rattle.exec_tree.specs.Size.{is_operator, operand_size, operands_size, size_of, size, expression_size_of};
ghost use Rattle.exec_tree.specs.Spent.{rest};
ghost use Rattle.exec_tree.specs.Spent as spent;

use crate::executable::expression_of;
use crate::limits::MAX_EXPRESSION_NODES;
use entity_types::{Class, Entity, Field};
use nc_base::Number;
use project_store::Entities;

fn is_operator(class: Class) -> bool
    ensures { result ≡ is_operator class }
{
    class.is_between(Class::ComparisonEqual, Class::NcProduct)
}

fn spend(budget: u32) -> Option<u32>
    ensures { result ≡ rest budget 1 }
{
    if budget == 0 { None } else { Some(budget - 1) }
}

/// What is left of a budget after the nodes of an expression, or none where they are more.
#[cycle(sizes)]
fn spend_number<E: Entities>(entities: &E, n: Number, levels: u32, budget: u32) -> Option<u32>
    ensures { result ≡ rest budget (size (E.entities entities.now) levels n) }
{
    if levels == 0 {
        return Some(budget);
    }
    match entities.get(n) {
        Some(entity) => spend_entity(entities, entity, levels - 1, budget),
        None => Some(budget),
    }
}

#[cycle(sizes)]
fn spend_entity<E: Entities>(entities: &E, entity: &Entity, levels: u32, budget: u32) -> Option<u32>
    ensures { result ≡ rest budget (size_of (λ m. size (E.entities entities.now) levels m) entity.now) }
{
    let left = spend(budget)?;
    if is_operator(entity.class) {
        spend_fields(entities, entity.fields.as_slice(), levels, left)
    } else {
        Some(left)
    }
}

#[cycle(sizes)]
fn spend_fields<E: Entities>(
    entities: &E,
    fields: &[Field],
    levels: u32,
    budget: u32,
) -> Option<u32>
    ensures { result ≡ rest budget (operands_size (λ m. size (E.entities entities.now) levels m) fields.now) }
{
    let mut left = budget;
    for field in fields {
        left = spend_operand(entities, field, levels, left)?;
    }
    Some(left)
}

#[cycle(sizes)]
fn spend_operand<E: Entities>(entities: &E, field: &Field, levels: u32, budget: u32) -> Option<u32>
    ensures { result ≡ rest budget (operand_size (λ m. size (E.entities entities.now) levels m) field.now) }
{
    match field {
        Field::Ref(n) => spend_number(entities, *n, levels, budget),
        Field::Refs(ns) => spend_numbers(entities, ns.as_slice(), levels, budget),
        Field::Value(_) => spend(budget),
        Field::Absent | Field::Present | Field::Values { .. } => Some(budget),
    }
}

#[cycle(sizes)]
fn spend_numbers<E: Entities>(entities: &E, ns: &[Number], levels: u32, budget: u32) -> Option<u32>
    ensures { result ≡ rest budget (sum (map (λ m. size (E.entities entities.now) levels m) ns.now)) }
{
    let mut left = budget;
    for n in ns {
        left = spend_number(entities, *n, levels, left)?;
    }
    Some(left)
}

/// How many nodes the expression of an executable has; where they are too many, one more than there may be. It looks at no more than that,
/// and calls lie at most five times as deep in each other.
pub(crate) fn capped_size<E: Entities>(entities: &E, found: Option<&Entity>) -> u32
    ensures { result ≡ min (option_map_or (expression_size_of (λ m. size (E.entities entities.now) (suc MAX_EXPRESSION_NODES) m)) (option_copied found.entry) 0) (suc MAX_EXPRESSION_NODES) }
{
    match found {
        Some(entity) => capped(spend_expression(entities, entity)),
        None => 0,
    }
}

fn spend_expression<E: Entities>(entities: &E, entity: &Entity) -> Option<u32>
    ensures { result ≡ rest MAX_EXPRESSION_NODES (expression_size_of (λ m. size (E.entities entities.now) (suc MAX_EXPRESSION_NODES) m) entity.now) }
{
    match expression_of(entity) {
        Some(field) => spend_operand(
            entities,
            field,
            MAX_EXPRESSION_NODES + 1,
            MAX_EXPRESSION_NODES,
        ),
        None => Some(MAX_EXPRESSION_NODES),
    }
}

/// What was spent of the nodes that an expression may have, or one more where that was more.
fn capped(left: Option<u32>) -> u32
    requires { IfSome left (λ x. x ≤ MAX_EXPRESSION_NODES) }
    ensures { result ≡ spent.capped left }
{
    match left {
        Some(left) => MAX_EXPRESSION_NODES - left,
        None => MAX_EXPRESSION_NODES + 1,
    }
}
