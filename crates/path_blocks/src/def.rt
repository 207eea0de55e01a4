//! Definitions of workingsteps.

ghost use Rattle.std.specs.Prelude.{◌≡◌, ◌*◌, ◌<◌, ◌≤◌, ◌<ℤ◌, ◌∷◌, [], IsTrue, nat_le, length, slice_get, Some, unsigned_abs, ◌-ℤ◌};
ghost use Rattle.std.specs.List.{list_all};
ghost use Rattle.std.specs.Int.{is_positive};
ghost use Rattle.path_blocks.specs.Range.{is_within, fits_shape};
ghost use Rattle.path_blocks.specs.Count.{block_count};
ghost use Rattle.path_blocks.specs.declared.limits.TheConstants.{MAX_BLOCKS, MAX_SIZE};

use crate::count::block_count;
use crate::cuts::{cut, cut_count};

/// What is machined, and where. Lengths are in thousandths of a millimetre.
#[derive(Clone, Copy, Debug, PartialEq, Eq)]
pub enum Shape {
    /// A hole at a place, with a dwell at its bottom in milliseconds, which may be 0.
    Drill {
        x: i64,
        y: i64,
        dwell: i64,
    },
    /// A planar face: from the corner `x`, `y` along the course (`ux`, `uy`), a unit along one of the axes, for `length`, and across
    /// it for `width`, in rows that lie at most `step` apart. Where `both`, every second row is run back.
    Plane {
        x: i64,
        y: i64,
        ux: i64,
        uy: i64,
        length: i64,
        width: i64,
        step: i64,
        both: bool,
    },
    /// A rectangular pocket: the rectangle that the middle of the tool keeps within, and how far its rings lie apart.
    Pocket {
        left: i64,
        low: i64,
        right: i64,
        high: i64,
        radial: i64,
    },
}

/// The definition of a workingstep: all numbers that its path depends on, each but the tool's within `MAX_SIZE` in size. The path
/// has at most `MAX_BLOCKS` blocks. Lengths are in thousandths of a millimetre.
#[derive(Clone, Copy, Debug, PartialEq, Eq)]
pub struct Def {
    /// The instance number of the tool.
    pub tool: u32,
    /// The spindle speed, in thousandths of a turn a second.
    pub spindle: i64,
    /// The feed, at least 1, in thousandths of the unit that the file has for feeds.
    pub feed: i64,
    /// The height of the security plane.
    pub sec: i64,
    /// The height to which the tool retracts.
    pub ret: i64,
    /// The height at which the feature begins.
    pub z0: i64,
    /// The height at which it ends, below `z0`.
    pub bottom: i64,
    /// The greatest depth of one level, at least 1.
    pub axial: i64,
    pub shape: Shape,
    pub ghost within: { IsTrue (list_all is_within (spindle ∷ feed ∷ sec ∷ ret ∷ z0 ∷ bottom ∷ axial ∷ [])) },
    pub ghost feeds: { IsTrue (is_positive feed) },
    pub ghost cuts: { IsTrue (is_positive axial) },
    pub ghost downwards: { bottom <ℤ z0 },
    pub ghost shaped: { IsTrue (fits_shape shape) },
    pub ghost few: { IsTrue (nat_le (block_count z0 bottom axial shape) MAX_BLOCKS) },
}

impl Def {
    ghost use Rattle.path_blocks.specs.Numbers.{levels, numbers_of};
    ghost use Rattle.path_blocks.specs.Path.{path_of};

    /// How many blocks its path has, at most `MAX_BLOCKS`.
    pub fn count(&self) -> u32
        ensures exact { result ≡ length (path_of self.now) }
        ensures few { result ≤ MAX_BLOCKS }
    {
        block_count(self.z0, self.bottom, self.axial, &self.shape) as u32
    }

    /// How far down from `z0` the bottom lies.
    fn depth(&self) -> u64
        ensures exact { result ≡ unsigned_abs (self.now.z0 -ℤ self.now.bottom) }
        ensures shallow { result ≤ 2 * MAX_SIZE }
    {
        (self.z0 - self.bottom).unsigned_abs()
    }

    /// How many levels are cut, from the highest to the bottom.
    pub fn level_count(&self) -> u64
        ensures { result ≡ length (levels (numbers_of self.now)) }
    {
        cut_count(self.axial.unsigned_abs(), self.depth())
    }

    /// The height of the level with this index, counted from 0: `axial` below `z0`, 2 `axial`, and so on while above the bottom, and
    /// at last the bottom. The index is below `level_count`.
    pub fn level(&self, index: u64) -> i64
        requires { index < length (levels (numbers_of self.now)) }
        ensures { slice_get (levels (numbers_of self.now)) index ≡ Some result }
    {
        self.z0 - cut(self.axial.unsigned_abs(), self.depth(), index) as i64
    }
}
