//! The rings of a pocket.

ghost use Rattle.std.specs.Prelude.{IsTrue};
ghost use Rattle.path_blocks.specs.declared.def.Shape.TheVariants.{Pocket};
ghost use Rattle.path_blocks.specs.Range.{fits_shape};

use path_blocks::{Def, Shape};

/// The sides of a rectangle.
#[derive(Clone, Copy)]
pub struct Corners {
    pub left: i64,
    pub low: i64,
    pub right: i64,
    pub high: i64,
}

/// The numbers of a pocket, as its shape has them, and where its rings lie.
#[derive(Clone, Copy)]
pub struct Inset {
    pub left: i64,
    pub low: i64,
    pub right: i64,
    pub high: i64,
    pub radial: i64,
    pub ghost fits: { IsTrue (fits_shape (Pocket left low right high radial)) },
}

impl Inset {
    ghost use Rattle.std.specs.Prelude.{IsTrue, ◌≡◌, ◌<◌, ◌≤◌, ◌+◌, ◌*◌, ◌-ℤ◌, min, unsigned_abs};
    ghost use Rattle.path_blocks.specs.declared.limits.TheConstants.{MAX_SIZE};
    ghost use Rattle.path_blocks.specs.Kind.{is_pocket};
    ghost use Rattle.path_blocks.specs.Numbers.{numbers_of};
    ghost use Rattle.path_blocks.specs.Path.{path_of};
    ghost use Rattle.path_blocks.specs.PathPocket.{innermost, path_pocket, ring};
    ghost use Rattle.path_pocket.specs.Inset.{rectangle_between, rectangle_of};

    /// The numbers of a definition whose shape is a rectangular pocket.
    pub fn of(def: &Def) -> Inset
        requires { IsTrue (is_pocket def.now.shape) }
        ensures { path_pocket (numbers_of def.now) (rectangle_of result) result.radial ≡ path_of def.now }
    {
        match def.shape {
            Shape::Pocket {
                left,
                low,
                right,
                high,
                radial,
            } => Inset {
                left,
                low,
                right,
                high,
                radial,
            },
            Shape::Drill { .. } | Shape::Plane { .. } => unreachable!(),
        }
    }

    /// How far apart the rings lie.
    fn ring_step(&self) -> u64
        ensures exact { result ≡ unsigned_abs self.now.radial }
        ensures positive { 0 < result }
        ensures narrow { result ≤ MAX_SIZE }
    {
        self.radial.unsigned_abs()
    }

    /// How long the lesser side is.
    fn least_side(&self) -> u64
        ensures exact { result ≡ min (unsigned_abs (self.now.right -ℤ self.now.left)) (unsigned_abs (self.now.high -ℤ self.now.low)) }
    {
        (self.right - self.left)
            .unsigned_abs()
            .min((self.high - self.low).unsigned_abs())
    }

    /// The number of the innermost ring.
    pub fn innermost(&self) -> u64
        ensures exact { result ≡ innermost (rectangle_of self.now) self.now.radial }
        ensures few { result ≤ 2 * MAX_SIZE }
    {
        self.least_side() / (2 * self.ring_step())
    }

    /// The sides of the rectangle.
    pub fn corners(&self) -> Corners
        ensures { rectangle_between result ≡ rectangle_of self.now }
    {
        Corners {
            left: self.left,
            low: self.low,
            right: self.right,
            high: self.high,
        }
    }

    /// The ring with this number, from the rectangle itself inwards.
    pub fn ring(&self, number: u64) -> Corners
        requires { number ≤ innermost (rectangle_of self.now) self.now.radial }
        ensures { rectangle_between result ≡ ring (rectangle_of self.now) self.now.radial number }
    {
        let by = (number * self.ring_step()) as i64;
        Corners {
            left: self.left + by,
            low: self.low + by,
            right: self.right - by,
            high: self.high - by,
        }
    }
}
