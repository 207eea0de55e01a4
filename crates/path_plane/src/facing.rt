//! The rows of a planar face.

ghost use Rattle.std.specs.Prelude.{IsTrue};
ghost use Rattle.path_blocks.specs.declared.def.Shape.TheVariants.{Plane};
ghost use Rattle.path_blocks.specs.Range.{fits_shape};

use path_blocks::{Def, Shape, cut, cut_count};

/// The numbers of a planar face, as its shape has them, and where its rows lie.
#[derive(Clone, Copy)]
pub struct Facing {
    pub x: i64,
    pub y: i64,
    pub ux: i64,
    pub uy: i64,
    pub length: i64,
    pub width: i64,
    pub step: i64,
    pub both: bool,
    pub ghost fits: { IsTrue (fits_shape (Plane x y ux uy length width step both)) },
}

impl Facing {
    ghost use Rattle.std.specs.Prelude.{IsTrue, ◌≡◌, ◌<◌, ◌≤◌, ◌+◌, ◌*◌, ◌*ℤ◌, length, slice_get, Some, unsigned_abs};
    ghost use Rattle.path_blocks.specs.declared.limits.TheConstants.{MAX_SIZE};
    ghost use Rattle.path_blocks.specs.Cuts.{cut_count};
    ghost use Rattle.path_blocks.specs.Kind.{is_plane};
    ghost use Rattle.path_blocks.specs.Numbers.{numbers_of};
    ghost use Rattle.path_blocks.specs.Path.{path_of};
    ghost use Rattle.path_blocks.specs.PathPlane.{far_end, is_run_back, last_end, near_end, path_plane, row_end, row_start, rows};
    ghost use Rattle.path_plane.specs.Facing.{face_of};

    /// The numbers of a definition whose shape is a planar face.
    pub fn of(def: &Def) -> Facing
        requires { IsTrue (is_plane def.now.shape) }
        ensures { path_plane (numbers_of def.now) (face_of result) ≡ path_of def.now }
    {
        match def.shape {
            Shape::Plane {
                x,
                y,
                ux,
                uy,
                length,
                width,
                step,
                both,
            } => Facing {
                x,
                y,
                ux,
                uy,
                length,
                width,
                step,
                both,
            },
            Shape::Drill { .. } | Shape::Pocket { .. } => unreachable!(),
        }
    }

    /// The near end of the row so far across the course.
    pub fn near_end(&self, offset: u64) -> (i64, i64)
        requires { offset ≤ MAX_SIZE }
        ensures exact { result ≡ near_end (face_of self.now) offset }
        ensures near_x { unsigned_abs result.0 ≤ 2 * MAX_SIZE }
        ensures near_y { unsigned_abs result.1 ≤ 2 * MAX_SIZE }
    {
        if self.uy == 0 {
            (self.x, self.y + offset as i64)
        } else {
            (self.x + offset as i64, self.y)
        }
    }

    /// How far the far end of a row lies from its near end, along x and along y.
    fn along(&self) -> (i64, i64)
        ensures x { result.0 ≡ self.now.ux *ℤ self.now.length }
        ensures y { result.1 ≡ self.now.uy *ℤ self.now.length }
        ensures short_x { unsigned_abs result.0 ≤ MAX_SIZE }
        ensures short_y { unsigned_abs result.1 ≤ MAX_SIZE }
    {
        (self.ux * self.length, self.uy * self.length)
    }

    /// The far end of the row so far across the course.
    fn far_end(&self, offset: u64) -> (i64, i64)
        requires { offset ≤ MAX_SIZE }
        ensures { result ≡ far_end (face_of self.now) offset }
    {
        let (x, y) = self.near_end(offset);
        let (dx, dy) = self.along();
        (x + dx, y + dy)
    }

    /// Whether the row with this index is run back.
    fn is_run_back(&self, index: u64) -> bool
        ensures { result ≡ is_run_back (face_of self.now) index }
    {
        self.both && index % 2 == 1
    }

    /// Where the row with this index and offset begins.
    pub fn row_start(&self, index: u64, offset: u64) -> (i64, i64)
        requires { offset ≤ MAX_SIZE }
        ensures { result ≡ row_start (face_of self.now) index offset }
    {
        if self.is_run_back(index) {
            self.far_end(offset)
        } else {
            self.near_end(offset)
        }
    }

    /// Where the row with this index and offset ends.
    pub fn row_end(&self, index: u64, offset: u64) -> (i64, i64)
        requires { offset ≤ MAX_SIZE }
        ensures { result ≡ row_end (face_of self.now) index offset }
    {
        if self.is_run_back(index) {
            self.near_end(offset)
        } else {
            self.far_end(offset)
        }
    }

    /// How far apart the rows lie.
    fn row_step(&self) -> u64
        ensures exact { result ≡ unsigned_abs self.now.step }
        ensures positive { 0 < result }
    {
        self.step.unsigned_abs()
    }

    /// How far the face reaches across the course.
    fn breadth(&self) -> u64
        ensures exact { result ≡ unsigned_abs self.now.width }
        ensures positive { 0 < result }
        ensures narrow { result ≤ MAX_SIZE }
    {
        self.width.unsigned_abs()
    }

    /// The index of the last row, which lies at the far side of the face.
    fn last_row(&self) -> u64
        ensures exact { result ≡ cut_count (unsigned_abs self.now.step) (unsigned_abs self.now.width) }
        ensures rows { result + 1 ≡ length (rows (face_of self.now)) }
        ensures few { result ≤ MAX_SIZE }
    {
        cut_count(self.row_step(), self.breadth())
    }

    /// How many rows lie side by side.
    pub fn row_count(&self) -> u64
        ensures exact { result ≡ length (rows (face_of self.now)) }
        ensures few { result ≤ MAX_SIZE + 1 }
    {
        self.last_row() + 1
    }

    /// How far across the course the row with this index lies.
    pub fn offset(&self, index: u64) -> u64
        requires { index < length (rows (face_of self.now)) }
        ensures exact { slice_get (rows (face_of self.now)) index ≡ Some (index, result) }
        ensures within { result ≤ MAX_SIZE }
    {
        if index == 0 {
            0
        } else {
            cut(self.row_step(), self.breadth(), index - 1)
        }
    }

    /// Where the last row ends.
    pub fn last_end(&self) -> (i64, i64)
        ensures { result ≡ last_end (face_of self.now) }
    {
        self.row_end(self.last_row(), self.breadth())
    }
}
