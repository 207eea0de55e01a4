//! The tree of a store.

ghost use Rattle.std.specs.Prelude.{◌≡◌, ◌<◌, ◌≤◌, ◌+◌, max, map, length, slice_get, Option, Some, None, ◌++◌, OnOk, IfOk, IfErr, IfSome, option_map, option_copied};
ghost use Rattle.project_store.specs.Entities.{entity_at};
ghost use Rattle.exec_tree.specs.declared.limits.TheConstants.{MAX_CHANNELS, MAX_TREE_NESTING};
ghost use Rattle.exec_tree.specs.Exec.{number_or_none, nodes, AreDistinct, HasChoices};
ghost use Rattle.exec_tree.specs.Arena.{tree_down, numbers_in, IsClosed, AreShaped, AreNamed};
ghost use Rattle.exec_tree.specs.Said.{bare_of, said_by, said_of};
ghost use Rattle.exec_tree.specs.TreeFault.{first_tree_fault, first_fault_from, seen_before};
ghost use Rattle.exec_tree.specs.Walked.{IsFault, place_from};
ghost use Rattle.exec_tree.specs.Role.{role_said};
ghost use Rattle.exec_tree.specs.Built.{main_of, main_in, IsTreeOf, IsTreeFrom, is_work, node_in, said_in, channel_in, role_in, step_of, steps_in};

use crate::adding::build_from;
use crate::error::TreeErr;
use crate::executable::reference_at;
use crate::kind::{Kind, NodeKind};
use crate::node::{BareNode, Node};
use crate::role::Role;
use nc_base::{NoMemory, Number, NumberList, Steps};
use project_store::{Entities, Store};
use std::alloc::Global;
use std::collections::BTreeMap;
use std::marker::Model;
use std::sync::ledger::Ledger;

/// The tree of executables of a store. Contracts see its nodes by place, without and with what they say, and the table of its channels.
/// The main workplan stands at place 0, and the nodes follow each other in preorder.
#[derive(Drop)]
pub struct Tree {
    pub(crate) nodes: Vec<Node>,
    pub(crate) places: BTreeMap<Number, u32>,
    pub(crate) steps: NumberList,
    pub(crate) channels: NumberList,
}

impl Model for Tree {
    ghost use Rattle.std.specs.Prelude.{map};
    ghost use Rattle.exec_tree.specs.Said.{bare_of, said_by};
    ghost use Rattle.exec_tree.specs.Built.{TreeValue, IsTree};
    ghost use Rattle.exec_tree.specs.contracts.node.BareNode as bare_node;
    ghost use Rattle.exec_tree.specs.contracts.kind.Kind as kind;
    ghost use Rattle.nc_expr.specs.Codes.{coded_term, coded_test};
    ghost use Rattle.std.specs.Coded.{codes};

    ghost Value = { TreeValue };

    ghost coded = { Prim.hlevel (codes, coded_term, coded_test, bare_node.the_row.coded, kind.the_row.coded) };

    ghost view = { λ t. record { nodes = map bare_of t.nodes.items; said = map said_by t.nodes.items; channels = t.channels } };

    ghost invariant = { λ t. IsTree t.places (map bare_of t.nodes.items) t.steps t.channels };
}

/// The tree of a store's main workplan. The store is walked in preorder, and the first executable with a fault decides.
///
/// # Errors
/// The first fault in preorder, or want of memory.
pub fn build(alloc: Global, store: &Store) -> Result<Tree, TreeErr>
    ensures tree { IfOk result (IsTreeOf (entity_at store.now) (main_of store.now)) }
    ensures fault { IfErr result (IsFault (first_tree_fault (entity_at store.now) (main_of store.now))) }
{
    build_from(alloc, store, main_of(store), NumberList::new(alloc), false)
}

/// The tree of the same main workplan after edits, with the channel numbers of the tree before.
///
/// # Errors
/// The first fault in preorder, where no channel may come that has no number in the tree before, or want of memory.
pub fn rebuild<E: Entities>(alloc: Global, from: &E, old: &Tree) -> Result<Tree, TreeErr>
    ensures tree { IfOk result (IsTreeFrom (seen_before old.now.channels) (E.entities from.now) (main_in old.now.nodes)) }
    ensures fault { IfErr result (IsFault (first_fault_from (seen_before old.now.channels) (E.entities from.now) (main_in old.now.nodes))) }
{
    let channels = copy_channels(alloc, old)?;
    build_from(alloc, from, old.main_workplan(), channels, true)
}

fn copy_channels(alloc: Global, old: &Tree) -> Result<NumberList, NoMemory>
    ensures list { IfOk result (λ list. list ≡ old.now.channels) }
    ensures few { IfOk result (λ list. length list ≤ MAX_CHANNELS) }
{
    let mut list = NumberList::new(alloc);
    for channel in old.channels.as_slice() {
        list.push(*channel)?;
    }
    Ok(list)
}

fn main_of(store: &Store) -> Number
    ensures { result ≡ main_of store.now }
{
    reference_at(store.project(), 2).unwrap_or(0)
}

impl Tree {
    /// The number of the main workplan.
    pub fn main_workplan(&self) -> Number
        ensures { result ≡ main_in self.now.nodes }
    {
        match self.nodes.as_slice() {
            [first, ..] => first.number.unwrap_or(0),
            [] => 0,
        }
    }

    /// How many nodes there are, those of branches that are left out included.
    pub fn len(&self) -> u32
        ensures { result ≡ length self.now.nodes }
    {
        self.nodes.len() as u32
    }

    /// The nodes by place. The elements of a node lie after it, and are as many as its kind has. The numbers stand in preorder; only a branch
    /// that an if leaves out has none. Each number stands once, and each selective has an element.
    pub fn nodes(&self) -> &[Node]
        ensures nodes { map bare_of result.now ≡ self.now.nodes }
        ensures said { map said_by result.now ≡ self.now.said }
        ensures shaped { AreShaped self.now.nodes }
        ensures named { AreNamed self.now.nodes }
        ensures preorder { numbers_in self.now.nodes ≡ nodes (tree_down self.now.nodes MAX_TREE_NESTING 0) }
        ensures closed { IsClosed self.now.nodes 0 (length self.now.nodes) }
        ensures distinct { AreDistinct (nodes (tree_down self.now.nodes MAX_TREE_NESTING 0)) }
        ensures choices { HasChoices (tree_down self.now.nodes MAX_TREE_NESTING 0) }
    {
        self.nodes.as_slice()
    }

    /// The node at a place. Each look counts one step.
    pub fn node<L: Ledger>(&self, place: u32, steps: &mut Steps<L>) -> &Node
        requires { place < length self.now.nodes }
        ensures node { slice_get self.now.nodes place ≡ Some (bare_of result.now) }
        ensures said { slice_get self.now.said place ≡ Some (said_by result.now) }
        ensures ticks { steps.new ≡ steps.old + 1 }
    {
        steps.tick();
        &self.nodes[place as usize]
    }

    /// The place of a number's node. None comes exactly where no node has the number.
    pub fn place_of(&self, n: Number) -> Option<u32>
        ensures { result ≡ place_from 0 self.now.nodes n }
    {
        self.places.get(&n).copied()
    }

    /// The node of a number. None comes exactly where no node has the number.
    pub fn node_of(&self, n: Number) -> Option<&Node>
        ensures node { option_map bare_of (option_copied result) ≡ node_in self.now.nodes n }
        ensures said { option_map said_by (option_copied result) ≡ said_in self.now n }
    {
        match self.places.get(&n) {
            Some(place) => self.nodes.get(*place as usize),
            None => None,
        }
    }

    /// The number of the channel of a number's node: of the nearest workplan, itself included, that names one, else 0. It is 0 where no node
    /// has the number.
    pub fn channel(&self, n: Number) -> u8
        ensures { result ≡ channel_in self.now.nodes n }
    {
        match self.node_of(n) {
            Some(node) => node.channel,
            None => 0,
        }
    }

    /// The role of a number's node, free where no node has the number.
    pub fn role(&self, n: Number) -> Role
        ensures { result ≡ role_in self.now n }
    {
        match self.node_of(n) {
            Some(node) => role_said(&node.kind),
            None => Role::Free,
        }
    }

    /// The workingsteps in preorder.
    pub fn steps(&self) -> &[Number]
        ensures { result.now ≡ steps_in self.now.nodes }
    {
        self.steps.as_slice()
    }

    /// The instances of the channels by number, in the order in which the walk first names them.
    pub fn channel_table(&self) -> &[Number]
        ensures table { result.now ≡ self.now.channels }
        ensures few { length result.now ≤ MAX_CHANNELS }
    {
        self.channels.as_slice()
    }

    /// How many channels there are, at least one: there is always a channel 0.
    pub fn channels(&self) -> u8
        ensures count { result ≡ max 1 (length self.now.channels) }
        ensures few { result ≤ MAX_CHANNELS }
    {
        (self.channels.len() as u8).max(1)
    }
}

fn role_said(kind: &NodeKind) -> Role
    ensures { result ≡ role_said (said_of kind.now) }
{
    match kind {
        NodeKind::Work => Role::Cutting,
        NodeKind::Wait(mark) => Role::Waiting(*mark),
        _ => Role::Free,
    }
}

fn is_work(kind: Kind) -> bool
    ensures { result ≡ is_work kind }
{
    match kind {
        Kind::Work => true,
        _ => false,
    }
}

fn step_of(node: &BareNode) -> Option<Number>
    ensures { result ≡ step_of node.now }
{
    if is_work(node.kind) {
        node.number
    } else {
        None
    }
}

fn push_some(numbers: &mut NumberList, number: Option<Number>) -> Result<(), NoMemory>
    ensures { OnOk result (numbers.new ≡ numbers.old ++ number_or_none number) }
{
    match number {
        Some(number) => numbers.push(number),
        None => Ok(()),
    }
}

pub(crate) fn steps_in(alloc: Global, nodes: &[BareNode]) -> Result<NumberList, NoMemory>
    ensures { IfOk result (λ steps. steps ≡ steps_in nodes.now) }
{
    let mut steps = NumberList::new(alloc);
    for node in nodes {
        push_some(&mut steps, step_of(node))?;
    }
    Ok(steps)
}
