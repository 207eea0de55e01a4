//! What the builder of a tree holds.

ghost use Rattle.std.specs.Prelude.{◌≡◌, ◌≤◌, ◌<◌, ◌+◌, [], ◌∷◌, ◌++◌, ℕ, min, true, false, length, map, Option, Some, None, OnOk, IfOk, OnErr, IfErr, option_copied};
ghost use Rattle.exec_tree.specs.declared.limits.TheConstants.{MAX_TREE_NESTING};
ghost use Rattle.exec_tree.specs.Exec.{nodes, has, AreDistinct, HasChoices};
ghost use Rattle.exec_tree.specs.Arena.{numbers_in, tree_down, IsClosed, AreShaped, AreNamed};
ghost use Rattle.exec_tree.specs.Said.{said_at};
ghost use Rattle.exec_tree.specs.TreeFault.{with_channel, channel_fault, fault_by};
ghost use Rattle.exec_tree.specs.Walked.{seen_of, place_from, place_among, number_among, has_room, with_elements};

use crate::error::TreeErr;
use crate::full_nodes::with_expressions;
use crate::kind::Kind;
use crate::limits::{MAX_CHANNELS, MAX_EXPRESSION_NODES, MAX_TREE_NODES};
use crate::node::BareNode;
use crate::tree::{Tree, steps_in};
use nc_base::{NoMemory, Number, NumberList};
use project_store::Entities;
use std::alloc::Global;
use std::collections::BTreeMap;
use std::marker::Model;

/// The nodes so far, their places by number, how many nodes these and their expressions have, and the channels named so far.
#[derive(Drop)]
pub(crate) struct Walk {
    nodes: Vec<BareNode>,
    places: BTreeMap<Number, u32>,
    weight: u32,
    channels: NumberList,
    fixed: bool,
}

impl Model for Walk {
    ghost use Rattle.exec_tree.specs.Walked.{Walked, AreKnown};

    ghost Value = { Walked };

    ghost view = { λ w. record { nodes = w.nodes.items; weight = w.weight; channels = w.channels; fixed = w.fixed } };

    ghost invariant = { λ w. AreKnown w.places w.nodes.items w.weight w.channels };
}

impl Walk {
    /// Nothing yet. Where the channels are fixed, they are these, and none may come.
    pub(crate) fn new(alloc: Global, channels: NumberList, fixed: bool) -> Walk
        requires { length channels ≤ MAX_CHANNELS }
        ensures { result ≡ record { nodes = []; weight = 0; channels = channels; fixed = fixed } }
    {
        Walk {
            nodes: Vec::new(alloc),
            places: BTreeMap::new(alloc),
            weight: 0,
            channels,
            fixed,
        }
    }

    /// Whether the executable stood earlier in the walk.
    fn is_seen(&self, n: Number) -> bool
        ensures { result ≡ has (numbers_in self.now.nodes) n }
    {
        self.places.contains_key(&n)
    }

    /// The fault of a channel that executable n names.
    fn channel_fault(&self, n: Number, channel: Option<Number>) -> Option<TreeErr>
        ensures { result ≡ channel_fault (seen_of self.now) n channel }
    {
        let Some(channel) = channel else {
            return None;
        };
        if has_number(self.channels.as_slice(), channel) {
            return None;
        }
        if self.fixed {
            return Some(TreeErr::NewChannel(n));
        }
        if self.channels.len() >= u32::from(MAX_CHANNELS) {
            Some(TreeErr::TooManyChannels)
        } else {
            None
        }
    }

    /// The fault of the next node, which has this number, so many levels left below it, an expression of this size, and names this channel.
    pub(crate) fn fault(
        &self,
        n: Number,
        left: u32,
        size: u32,
        channel: Option<Number>,
    ) -> Option<TreeErr>
        ensures { result ≡ fault_by (seen_of self.now) n left size channel }
    {
        if self.is_seen(n) {
            return Some(TreeErr::Shared(n));
        }
        if left == 0 {
            return Some(TreeErr::TooDeep(n));
        }
        if self.weight + (1 + size.min(MAX_EXPRESSION_NODES)) > MAX_TREE_NODES {
            return Some(TreeErr::TooManyNodes);
        }
        if size > MAX_EXPRESSION_NODES {
            return Some(TreeErr::ExprTooBig(n));
        }
        self.channel_fault(n, channel)
    }

    /// Counts a node and its expression.
    pub(crate) fn count(&mut self, size: u32)
        requires { self.old.weight + (1 + min size MAX_EXPRESSION_NODES) ≤ MAX_TREE_NODES }
        ensures { self.new ≡ record self.old { weight = self.old.weight + (1 + min size MAX_EXPRESSION_NODES) } }
    {
        self.weight += 1 + size.min(MAX_EXPRESSION_NODES);
    }

    /// Keeps the channel where it is named for the first time.
    pub(crate) fn name(&mut self, channel: Option<Number>) -> Result<(), NoMemory>
        requires { has_room self.old.channels channel ≡ true }
        ensures ok { OnOk result (self.new ≡ record self.old { channels = with_channel self.old.channels channel }) }
        ensures err { OnErr result (self.new ≡ self.old) }
    {
        let Some(channel) = channel else {
            return Ok(());
        };
        if has_number(self.channels.as_slice(), channel) {
            return Ok(());
        }
        self.channels.push(channel)
    }

    /// The number of a channel: how many were named before it.
    pub(crate) fn channel_number(&self, channel: Option<Number>) -> u8
        ensures { result ≡ number_among self.now.channels channel }
    {
        match channel {
            None => 0,
            Some(channel) => place_among(self.channels.as_slice(), channel),
        }
    }

    /// A node at the end, without elements. Gives its place.
    pub(crate) fn push(
        &mut self,
        alloc: Global,
        n: Number,
        channel: u8,
        kind: Kind,
    ) -> Result<u32, NoMemory>
        requires { has (numbers_in self.old.nodes) n ≡ false }
        ensures place { IfOk result (λ place. place ≡ length self.old.nodes) }
        ensures ok { OnOk result (self.new ≡ record self.old { nodes = self.old.nodes ++ record { number = Some n; channel = channel; kind = kind; elements = [] } ∷ [] }) }
    {
        let place = self.nodes.len();
        if place >= u32::MAX as usize {
            return Err(NoMemory);
        }
        self.nodes.reserve(1)?;
        self.places.insert(n, place as u32)?;
        self.nodes.push_reserved(BareNode {
            number: Some(n),
            channel,
            kind,
            elements: NumberList::new(alloc),
        });
        Ok(place as u32)
    }

    /// The branch that an if leaves out, at the end. Gives its place.
    pub(crate) fn push_blank(&mut self, alloc: Global, channel: u8) -> Result<u32, NoMemory>
        ensures place { IfOk result (λ place. place ≡ length self.old.nodes) }
        ensures ok { OnOk result (self.new ≡ record self.old { nodes = self.old.nodes ++ record { number = None; channel = channel; kind = Kind.Plan; elements = [] } ∷ [] }) }
    {
        let place = self.nodes.len();
        if place >= u32::MAX as usize {
            return Err(NoMemory);
        }
        self.nodes.push(BareNode {
            number: None,
            channel,
            kind: Kind::Plan,
            elements: NumberList::new(alloc),
        })?;
        Ok(place as u32)
    }

    /// Gives the node at a place its elements.
    pub(crate) fn set_elements(&mut self, place: u32, elements: NumberList)
        requires { place < length self.old.nodes }
        ensures { self.new ≡ record self.old { nodes = with_elements self.old.nodes place elements } }
    {
        self.nodes[place as usize].elements = elements;
    }

    /// The tree of these nodes, with what each says.
    pub(crate) fn into_tree<E: Entities>(
        self,
        alloc: Global,
        entities: &E,
    ) -> Result<Tree, NoMemory>
        requires closed { IsClosed self.nodes 0 (length self.nodes) }
        requires shaped { AreShaped self.nodes }
        requires named { AreNamed self.nodes }
        requires preorder { numbers_in self.nodes ≡ nodes (tree_down self.nodes MAX_TREE_NESTING 0) }
        requires distinct { AreDistinct (nodes (tree_down self.nodes MAX_TREE_NESTING 0)) }
        requires choices { HasChoices (tree_down self.nodes MAX_TREE_NESTING 0) }
        ensures { IfOk result (λ tree. tree ≡ record { nodes = self.nodes; said = map (said_at (E.entities entities.now)) self.nodes; channels = self.channels }) }
    {
        let steps = steps_in(alloc, self.nodes.as_slice())?;
        let nodes = with_expressions(alloc, entities, self.nodes)?;
        Ok(Tree {
            nodes,
            places: self.places,
            steps,
            channels: self.channels,
        })
    }
}

fn has_number(numbers: &[Number], n: Number) -> bool
    ensures { result ≡ has numbers.now n }
{
    numbers.iter().any(|m| *m == n)
}

fn place_among(channels: &[Number], channel: Number) -> u8
    requires { length channels.now ≤ MAX_CHANNELS }
    ensures small { result ≤ length channels.now }
    ensures place { result ≡ place_among channels.now channel }
{
    let [first, others @ ..] = channels else {
        return 0;
    };
    if *first == channel {
        0
    } else {
        1 + place_among(others, channel)
    }
}
