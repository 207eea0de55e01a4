//! The variables of a run: what they open with, what nodes make of them.

ghost use Rattle.std.specs.Prelude.{◌≡◌, [], ℕ, length, map, Some, IsSome, IfSome, OnOk, IfOk};
ghost use Rattle.nc_expr.specs.Vars.{value_at, value_of_variable};
ghost use Rattle.exec_tree.specs.Said.{said_by};
ghost use Rattle.exec_tree.specs.Built.{said_in};
ghost use Rattle.trace_law.specs.Of.{number_of};
ghost use Rattle.project_law.specs.Variables.{opening_of, opening_vars};
ghost use Rattle.run_state.specs.State.{variable_by, variable_in, value_said, answer_said, var_after};
ghost use Rattle.run_state.specs.Opening.{AreOpening, AreAssigned, opened, opening_number};

use entity_types::{Entity, Field};
use exec_tree::{Node, NodeKind, Tree};
use nc_base::{NoMemory, Number};
use nc_expr::{Vars, test, value};
use project_store::{Entities, Store};
use run_log::Entry;
use std::alloc::Global;

/// What an entity opens with.
fn opening_of(entity: &Entity) -> i64
    ensures { result ≡ opening_of (Some entity.now) }
{
    match entity.field(2) {
        Some(Field::Value(x)) => *x,
        _ => 0,
    }
}

/// What variable `n` opens with, 0 where there is none.
fn opening_in(store: &Store, n: Number) -> i64
    ensures { result ≡ opening_vars store.now n }
{
    match store.get(n) {
        Some(entity) => opening_of(entity),
        None => 0,
    }
}

/// Puts the opening value of one more variable.
fn open_one(
    pairs: &mut Vec<(Number, i64)>,
    store: &Store,
    variable: Option<Number>,
) -> Result<(), NoMemory>
    ensures { OnOk result (pairs.new.items ≡ opened store.now variable pairs.old.items) }
{
    if let Some(n) = variable {
        pairs.push((n, opening_in(store, n)))?;
    }
    Ok(())
}

/// The number, where what stands there opens with another value than 0.
fn opening_number(store: &Store, n: Number) -> Option<Number>
    ensures { result ≡ opening_number store.now n }
{
    if opening_in(store, n) == 0 {
        None
    } else {
        Some(n)
    }
}

/// The opening values of all entities that don't open with 0.
fn open_entities(pairs: &mut Vec<(Number, i64)>, store: &Store) -> Result<(), NoMemory>
    requires { pairs.old.items ≡ [] }
    ensures { OnOk result (AreOpening store.now (length store.now) pairs.new.items) }
{
    for i in 0..store.len() {
        let number = store.at(i).number;
        open_one(pairs, store, opening_number(store, number))?;
    }
    Ok(())
}

/// The variable that a node assigns.
fn variable_said(node: &Node) -> Option<Number>
    ensures { result ≡ variable_by (Some (said_by node.now)) }
{
    match &node.kind {
        NodeKind::Assign(variable, _) => Some(*variable),
        _ => None,
    }
}

/// The opening values of all variables that nodes assign, too.
fn open_assigned(
    pairs: &mut Vec<(Number, i64)>,
    store: &Store,
    nodes: &[Node],
) -> Result<(), NoMemory>
    requires { AreOpening store.now (length store.now) pairs.old.items }
    ensures opening { OnOk result (AreOpening store.now (length store.now) pairs.new.items) }
    ensures assigned { OnOk result (AreAssigned (map said_by nodes.now) (length nodes.now) pairs.new.items) }
{
    for node in nodes {
        open_one(pairs, store, variable_said(node))?;
    }
    Ok(())
}

/// The variables of a project before its run.
pub fn opening_vars(alloc: Global, store: &Store, tree: &Tree) -> Result<Vars, NoMemory>
    ensures opening { IfOk result (λ vars. (v : ℕ) → value_at vars v ≡ opening_vars store.now v) }
    ensures assigned { IfOk result (λ vars. (n v : ℕ) → variable_in tree.now n ≡ Some v → IsSome (value_of_variable vars v)) }
{
    let mut pairs = Vec::new(alloc);
    open_entities(&mut pairs, store)?;
    open_assigned(&mut pairs, store, tree.nodes())?;
    Vars::new(alloc, pairs.as_slice())
}

/// The value that a node assigns, 0 where it assigns none.
pub fn value_of(node: &Node, vars: &Vars) -> i64
    ensures { result ≡ value_said (value_at vars.now) (Some (said_by node.now)) }
{
    match &node.kind {
        NodeKind::Assign(_, term) => value(term, vars),
        _ => 0,
    }
}

/// The answer of a node's condition, no where it has none.
pub fn answer_of(node: &Node, vars: &Vars) -> bool
    ensures { result ≡ answer_said (value_at vars.now) (Some (said_by node.now)) }
{
    match &node.kind {
        NodeKind::If(condition) => test(condition, vars),
        NodeKind::While(condition) => test(condition, vars),
        _ => false,
    }
}

/// Goes on with an entry of this node of the tree.
pub fn follow(vars: &mut Vars, tree: &Tree, node: &Node, entry: &Entry)
    requires known { (n v : ℕ) → variable_in tree.now n ≡ Some v → IsSome (value_of_variable vars.old v) }
    requires said { IfSome (number_of entry.now) (λ n. said_in tree.now n ≡ Some (said_by node.now)) }
    ensures { (m : ℕ) → value_of_variable vars.new m ≡ var_after tree.now entry.now (value_of_variable vars.old m) m }
{
    if let Entry::Assign { n: _, x } = *entry {
        if let Some(variable) = variable_said(node) {
            vars.set(variable, x);
        }
    }
}
