//! What is kept of each node of a tree.

ghost use Rattle.std.specs.Prelude.{◌≡◌, ◌<◌, ◌++◌, ◌∷◌, [], ℕ, false, map, length, slice_index, slice_set, IfOk};
ghost use Rattle.exec_tree.specs.Exec.{has};
ghost use Rattle.exec_tree.specs.Said.{bare_of};
ghost use Rattle.pick_set.specs.Picks.{IsLeastLeft};
ghost use Rattle.trace_law.specs.Cells.{Picked, picked, stage_of};
ghost use Rattle.trace_law.specs.Frames.{left};
ghost use Rattle.run_frames.specs.Frames.{cells_of};
ghost use Rattle.run_frames.specs.Told.{told, frame_at, room_of, rooms_of};
ghost use Rattle.run_frames.specs.declared.frame.Frame.TheVariants.{Picks};

use crate::frame::{Frame, frame_at, is_picks, left_in, stage_in};
use exec_tree::{Kind, Node};
use nc_base::NoMemory;
use pick_set::PickSet;
use std::alloc::Global;
use std::marker::Model;

/// What each node of a tree has in its present turn, by place. Contracts see the cell of each node, with the picks of a non-sequential or a
/// selective in the order in which they were made, and how many elements of each can be picked.
#[derive(Drop)]
pub struct Cells {
    frames: Vec<Frame>,
    picks: PickSet,
}

impl Model for Cells {
    ghost use Rattle.std.specs.Prelude.{◌≡◌, length};
    ghost use Rattle.run_frames.specs.Told.{NodeCells, told_all};

    ghost Value = { NodeCells };

    ghost view = { λ s. record { cells = told_all s.frames.items s.picks.made; rooms = s.picks.rooms } };

    ghost invariant = { λ s. length s.frames.items ≡ length s.picks.made };
}

/// How many elements of a node can be picked.
fn room_of(node: &Node) -> u32
    ensures { result ≡ room_of (bare_of node.now) }
{
    match node.kind.kind() {
        Kind::NonSeq | Kind::Sel => node.elements.len(),
        _ => 0,
    }
}

/// The same of each node.
fn rooms_of(alloc: Global, arena: &[Node]) -> Result<Vec<u32>, NoMemory>
    ensures { IfOk result (λ rooms. rooms.items ≡ rooms_of (map bare_of arena.now)) }
{
    let mut rooms = Vec::with_capacity(alloc, arena.len())?;
    for node in arena {
        rooms.push(room_of(node))?;
    }
    Ok(rooms)
}

/// A frame for each of so many nodes, none with picks.
fn blank(alloc: Global, count: usize) -> Result<Vec<Frame>, NoMemory>
    ensures long { IfOk result (λ frames. length frames.items ≡ count) }
    ensures picks { IfOk result (λ frames. (p : ℕ) → p < count → frame_at frames.items p ≡ Picks) }
{
    let mut frames = Vec::with_capacity(alloc, count)?;
    for _i in 0..count {
        frames.push(Frame::Picks)?;
    }
    Ok(frames)
}

impl Cells {
    /// Of each node of an arena, none with picks.
    ///
    /// # Errors
    /// `NoMemory` where there is none for a frame of each node, and for its picks.
    pub fn new(alloc: Global, arena: &[Node]) -> Result<Cells, NoMemory>
        ensures long { IfOk result (λ s. length s.cells ≡ length arena.now) }
        ensures none { IfOk result (λ s. (p : ℕ) → p < length arena.now → cells_of s.cells p ≡ Picked []) }
        ensures rooms { IfOk result (λ s. s.rooms ≡ rooms_of (map bare_of arena.now)) }
    {
        let rooms = rooms_of(alloc, arena)?;
        let picks = PickSet::new(alloc, rooms.as_slice())?;
        let frames = blank(alloc, arena.len())?;
        Ok(Cells { frames, picks })
    }

    /// Writes the frame of the node at a place, as one without picks.
    pub fn put(&mut self, place: u32, frame: Frame)
        requires { place < length self.old.cells }
        ensures cells { self.new.cells ≡ slice_set self.old.cells place (told frame []) }
        ensures rooms { self.new.rooms ≡ self.old.rooms }
        ensures long { length self.new.cells ≡ length self.old.cells }
    {
        self.frames[place as usize] = frame;
        if is_picks(frame) {
            self.picks.clear(place);
        }
    }

    /// Picks an element that is left of the node at a place.
    pub fn pick(&mut self, place: u32, index: u32)
        requires there { place < length self.old.cells }
        requires within { index < slice_index self.old.rooms place }
        requires left { has (picked (cells_of self.old.cells place)) index ≡ false }
        ensures cells { self.new.cells ≡ slice_set self.old.cells place (Picked (picked (cells_of self.old.cells place) ++ index ∷ [])) }
        ensures rooms { self.new.rooms ≡ self.old.rooms }
        ensures long { length self.new.cells ≡ length self.old.cells }
    {
        if is_picks(frame_at(self.frames.as_slice(), place)) {
            self.picks.add(place, index);
        } else {
            self.frames[place as usize] = Frame::Picks;
            self.picks.clear(place);
            self.picks.add(place, index);
        }
    }

    /// How many blocks the workingstep at a place has, where it is open.
    pub fn stage(&self, place: u32) -> Option<usize>
        ensures { result ≡ stage_of (cells_of self.now.cells place) }
    {
        stage_in(frame_at(self.frames.as_slice(), place))
    }

    /// How many elements of the parallel at a place go on.
    pub fn left(&self, place: u32) -> usize
        ensures { result ≡ left (cells_of self.now.cells place) }
    {
        left_in(frame_at(self.frames.as_slice(), place))
    }

    /// How many elements of the node at a place were picked.
    pub fn count(&self, place: u32) -> usize
        ensures { result ≡ length (picked (cells_of self.now.cells place)) }
    {
        if is_picks(frame_at(self.frames.as_slice(), place)) {
            self.picks.count(place) as usize
        } else {
            0
        }
    }

    /// The least index of an element of the node at a place that is left to be picked; the number of its elements where none is.
    pub fn next(&self, place: u32) -> u32
        ensures { IsLeastLeft (slice_index self.now.rooms place) (picked (cells_of self.now.cells place)) result }
    {
        if is_picks(frame_at(self.frames.as_slice(), place)) {
            self.picks.next(place)
        } else {
            0
        }
    }

    /// Whether the element at an index of the node at a place was picked.
    pub fn has(&self, place: u32, index: u32) -> bool
        ensures { result ≡ has (picked (cells_of self.now.cells place)) index }
    {
        is_picks(frame_at(self.frames.as_slice(), place)) && self.picks.has(place, index)
    }
}
