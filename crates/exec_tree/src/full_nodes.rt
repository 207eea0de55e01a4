//! The nodes of a tree with what they say, made of bare nodes in a second pass.

ghost use Rattle.std.specs.Prelude.{◌≡◌, map, IfOk, option_copied};
ghost use Rattle.nc_expr.specs.Term.{term_of, test_of};
ghost use Rattle.exec_tree.specs.Said.{said_of, said_for, said_at, said_by, bare_of, condition_of, assigned_of, target_of, found_at};

use crate::executable::reference_at;
use crate::expressions::{cond_at, expr_at};
use crate::kind::{Kind, NodeKind};
use crate::limits::MAX_EXPRESSION_NODES;
use crate::node::{BareNode, Node};
use entity_types::{Entity, Field};
use nc_base::{NoMemory, Number};
use nc_expr::{Cond, Expr};
use project_store::Entities;
use std::alloc::Global;

/// The variable of an assignment, or the mark of a wait.
fn target_of(found: Option<&Entity>) -> Number
    ensures { result ≡ target_of (option_copied found.entry) }
{
    match found {
        Some(entity) => reference_at(entity, 2).unwrap_or(0),
        None => 0,
    }
}

/// The condition of an if or a while.
fn condition_of<E: Entities>(
    alloc: Global,
    entities: &E,
    found: Option<&Entity>,
) -> Result<Cond, NoMemory>
    ensures { IfOk result (λ c. test_of c ≡ condition_of (E.entities entities.now) (option_copied found.entry)) }
{
    match found {
        Some(entity) => match entity.field(2) {
            Some(Field::Ref(n)) => cond_at(alloc, entities, *n, MAX_EXPRESSION_NODES + 1),
            _ => Ok(Cond::Constant(false)),
        },
        None => Ok(Cond::Constant(false)),
    }
}

/// The value that an assignment assigns.
fn assigned_of<E: Entities>(
    alloc: Global,
    entities: &E,
    found: Option<&Entity>,
) -> Result<Expr, NoMemory>
    ensures { IfOk result (λ e. term_of e ≡ assigned_of (E.entities entities.now) (option_copied found.entry)) }
{
    match found {
        Some(entity) => match entity.field(3) {
            Some(Field::Ref(n)) => expr_at(alloc, entities, *n, MAX_EXPRESSION_NODES + 1),
            Some(Field::Value(x)) => Ok(Expr::Number(*x)),
            _ => Ok(Expr::Number(0)),
        },
        None => Ok(Expr::Number(0)),
    }
}

/// What an executable of a kind says.
fn said_for<E: Entities>(
    alloc: Global,
    entities: &E,
    kind: Kind,
    found: Option<&Entity>,
) -> Result<NodeKind, NoMemory>
    ensures { IfOk result (λ k. said_of k ≡ said_for (E.entities entities.now) kind (option_copied found.entry)) }
{
    match kind {
        Kind::Plan => Ok(NodeKind::Plan),
        Kind::Par => Ok(NodeKind::Par),
        Kind::NonSeq => Ok(NodeKind::NonSeq),
        Kind::Sel => Ok(NodeKind::Sel),
        Kind::If => Ok(NodeKind::If(condition_of(alloc, entities, found)?)),
        Kind::While => Ok(NodeKind::While(condition_of(alloc, entities, found)?)),
        Kind::Work => Ok(NodeKind::Work),
        Kind::Assign => Ok(NodeKind::Assign(
            target_of(found),
            assigned_of(alloc, entities, found)?,
        )),
        Kind::Set => Ok(NodeKind::Set),
        Kind::Wait => Ok(NodeKind::Wait(target_of(found))),
        Kind::Note => Ok(NodeKind::Note),
    }
}

fn found_at<E: Entities>(entities: &E, number: Option<Number>) -> Option<&Entity>
    ensures { option_copied result ≡ found_at (E.entities entities.now) number }
{
    match number {
        Some(n) => entities.get(n),
        None => None,
    }
}

fn with_expression<E: Entities>(
    alloc: Global,
    entities: &E,
    node: BareNode,
) -> Result<Node, NoMemory>
    ensures bare { IfOk result (λ full. bare_of full ≡ node) }
    ensures said { IfOk result (λ full. said_by full ≡ said_at (E.entities entities.now) node) }
{
    let kind = said_for(alloc, entities, node.kind, found_at(entities, node.number))?;
    Ok(Node {
        number: node.number,
        channel: node.channel,
        kind,
        elements: node.elements,
    })
}

/// The nodes with what they say.
pub(crate) fn with_expressions<E: Entities>(
    alloc: Global,
    entities: &E,
    nodes: Vec<BareNode>,
) -> Result<Vec<Node>, NoMemory>
    ensures bare { IfOk result (λ full. map bare_of full.items ≡ nodes.items) }
    ensures said { IfOk result (λ full. map said_by full.items ≡ map (said_at (E.entities entities.now)) nodes.items) }
{
    let mut all = Vec::with_capacity(alloc, nodes.len())?;
    for node in nodes {
        all.push(with_expression(alloc, entities, node)?)?;
    }
    Ok(all)
}
