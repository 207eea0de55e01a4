//! The parts of a number as a text holds them.

ghost use Rattle.std.specs.Prelude.{◌≡◌};

/// What stands before the digits.
#[derive(Clone, Copy, Debug, PartialEq, Eq)]
pub enum Sign {
    Unsigned,
    Plus,
    Minus,
}

impl Sign {
    ghost use Rattle.units_um.specs.Number.{is_minus};

    /// Whether the digits are those of a number below zero, or of a lowering exponent.
    pub fn is_minus(self) -> bool
        ensures { result ≡ is_minus self }
    {
        matches!(self, Sign::Minus)
    }
}

/// What stands behind the `E`.
#[derive(Clone, Copy)]
pub struct ExponentText<'a> {
    pub sign: Sign,
    pub digits: &'a [u8],
}

/// What stands behind the point.
#[derive(Clone, Copy)]
pub struct FractionText<'a> {
    pub digits: &'a [u8],
    pub exponent: Option<ExponentText<'a>>,
}

/// An Int has no fraction, a Real has one.
#[derive(Clone, Copy)]
pub struct NumberText<'a> {
    pub sign: Sign,
    pub whole: &'a [u8],
    pub fraction: Option<FractionText<'a>>,
}
