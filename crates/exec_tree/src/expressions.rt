//! The expressions of a store, each reference written out.

ghost use Rattle.std.specs.Prelude.{◌≡◌, IfOk, option_copied};
ghost use Rattle.nc_expr.specs.Term.{term_of, test_of};
ghost use Rattle.exec_tree.specs.Terms.{term_from, operand_term, constant_term, entity_term, test_from, entity_test, operand_test, join, listed, list_test};

use crate::classes::{TestKind, ValueKind, test_kind, value_kind};
use entity_types::{Entity, Field};
use nc_base::{NoMemory, Number};
use nc_expr::{Cond, Expr};
use project_store::Entities;
use std::alloc::Global;
use std::boxed::Box;

fn constant(field: Option<&Field>) -> Expr
    ensures { term_of result ≡ constant_term (option_copied field.entry) }
{
    match field {
        Some(Field::Value(x)) => Expr::Number(*x),
        _ => Expr::Number(0),
    }
}

/// The value of a number, so many levels written out. Calls lie at most three times as deep in each other.
#[cycle(values)]
pub(crate) fn expr_at<E: Entities>(
    alloc: Global,
    entities: &E,
    n: Number,
    levels: u32,
) -> Result<Expr, NoMemory>
    ensures { IfOk result (λ e. term_of e ≡ term_from (E.entities entities.now) levels n) }
{
    if levels == 0 {
        return Ok(Expr::Number(0));
    }
    match entities.get(n) {
        Some(entity) => expr_of(alloc, entities, n, entity, levels - 1),
        None => Ok(Expr::Number(0)),
    }
}

#[cycle(values)]
fn expr_of<E: Entities>(
    alloc: Global,
    entities: &E,
    n: Number,
    entity: &Entity,
    levels: u32,
) -> Result<Expr, NoMemory>
    ensures { IfOk result (λ e. term_of e ≡ entity_term (λ m. term_from (E.entities entities.now) levels m) n entity.now) }
{
    match value_kind(entity.class) {
        ValueKind::Variable => Ok(Expr::Variable(n)),
        ValueKind::Constant => Ok(constant(entity.field(2))),
        ValueKind::Sum => {
            let first = expr_operand(alloc, entities, entity.field(1), levels)?;
            let second = expr_operand(alloc, entities, entity.field(2), levels)?;
            Ok(Expr::Sum(Box::new(alloc, first)?, Box::new(alloc, second)?))
        }
        ValueKind::Difference => {
            let first = expr_operand(alloc, entities, entity.field(1), levels)?;
            let second = expr_operand(alloc, entities, entity.field(2), levels)?;
            Ok(Expr::Difference(Box::new(alloc, first)?, Box::new(alloc, second)?))
        }
        ValueKind::Product => {
            let first = expr_operand(alloc, entities, entity.field(1), levels)?;
            let second = expr_operand(alloc, entities, entity.field(2), levels)?;
            Ok(Expr::Product(Box::new(alloc, first)?, Box::new(alloc, second)?))
        }
        ValueKind::Other => Ok(Expr::Number(0)),
    }
}

#[cycle(values)]
fn expr_operand<E: Entities>(
    alloc: Global,
    entities: &E,
    field: Option<&Field>,
    levels: u32,
) -> Result<Expr, NoMemory>
    ensures { IfOk result (λ e. term_of e ≡ operand_term (λ m. term_from (E.entities entities.now) levels m) (option_copied field.entry)) }
{
    match field {
        Some(Field::Ref(n)) => expr_at(alloc, entities, *n, levels),
        Some(Field::Value(x)) => Ok(Expr::Number(*x)),
        _ => Ok(Expr::Number(0)),
    }
}

/// The condition of a number, so many levels written out.
#[cycle(tests)]
pub(crate) fn cond_at<E: Entities>(
    alloc: Global,
    entities: &E,
    n: Number,
    levels: u32,
) -> Result<Cond, NoMemory>
    ensures { IfOk result (λ c. test_of c ≡ test_from (E.entities entities.now) levels n) }
{
    if levels == 0 {
        return Ok(Cond::Constant(false));
    }
    match entities.get(n) {
        Some(entity) => cond_of(alloc, entities, entity, levels - 1),
        None => Ok(Cond::Constant(false)),
    }
}

#[cycle(tests)]
fn cond_of<E: Entities>(
    alloc: Global,
    entities: &E,
    entity: &Entity,
    levels: u32,
) -> Result<Cond, NoMemory>
    ensures { IfOk result (λ c. test_of c ≡ entity_test (λ m. term_from (E.entities entities.now) levels m) (λ m. test_from (E.entities entities.now) levels m) entity.now) }
{
    match test_kind(entity.class) {
        TestKind::Compares(relation) => {
            let first = expr_operand(alloc, entities, entity.field(1), levels)?;
            let second = expr_operand(alloc, entities, entity.field(2), levels)?;
            Ok(Cond::Compares(relation, first, second))
        }
        TestKind::All => cond_list(alloc, entities, entity.field(1), levels, true),
        TestKind::Some => cond_list(alloc, entities, entity.field(1), levels, false),
        TestKind::Either => {
            let first = cond_operand(alloc, entities, entity.field(1), levels)?;
            let second = cond_operand(alloc, entities, entity.field(2), levels)?;
            Ok(Cond::Xor(Box::new(alloc, first)?, Box::new(alloc, second)?))
        }
        TestKind::Not => {
            let only = cond_operand(alloc, entities, entity.field(1), levels)?;
            Ok(Cond::Not(Box::new(alloc, only)?))
        }
        TestKind::Other => Ok(Cond::Constant(false)),
    }
}

#[cycle(tests)]
fn cond_operand<E: Entities>(
    alloc: Global,
    entities: &E,
    field: Option<&Field>,
    levels: u32,
) -> Result<Cond, NoMemory>
    ensures { IfOk result (λ c. test_of c ≡ operand_test (λ m. test_from (E.entities entities.now) levels m) (option_copied field.entry)) }
{
    match field {
        Some(Field::Ref(n)) => cond_at(alloc, entities, *n, levels),
        _ => Ok(Cond::Constant(false)),
    }
}

fn joined(alloc: Global, all: bool, first: Cond, later: Cond) -> Result<Cond, NoMemory>
    ensures { IfOk result (λ c. test_of c ≡ join all (test_of first) (test_of later)) }
{
    if all {
        Ok(Cond::And(Box::new(alloc, first)?, Box::new(alloc, later)?))
    } else {
        Ok(Cond::Or(Box::new(alloc, first)?, Box::new(alloc, later)?))
    }
}

fn listed(field: Option<&Field>) -> &[Number]
    ensures { result.now ≡ listed (option_copied field.entry) }
{
    match field {
        Some(field) => field.references(),
        None => &[],
    }
}

/// All of a list, or one of it.
#[cycle(tests)]
fn cond_list<E: Entities>(
    alloc: Global,
    entities: &E,
    field: Option<&Field>,
    levels: u32,
    all: bool,
) -> Result<Cond, NoMemory>
    ensures { IfOk result (λ c. test_of c ≡ list_test (λ m. test_from (E.entities entities.now) levels m) all (listed (option_copied field.entry))) }
{
    let numbers = listed(field);
    let mut left = numbers.len();
    let mut cond = Cond::Constant(all);
    while left > 0 {
        left -= 1;
        let first = cond_at(alloc, entities, numbers[left], levels)?;
        cond = joined(alloc, all, first, cond)?;
    }
    Ok(cond)
}
