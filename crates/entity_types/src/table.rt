//! The table of classes: their keywords, and the positions that this profile looks at.

ghost use Rattle.std.specs.Prelude.{◌≡◌};
ghost use Rattle.entity_types.specs.Table.{used_of};
ghost use Rattle.entity_types.specs.Target.{accepts};

use crate::class::Class;

/// What may stand at a used position.
#[derive(Clone, Copy, Debug)]
pub enum Kind {
    /// A reference.
    Reference,
    /// A list of references.
    References,
    /// A list of at least one reference.
    SomeReferences,
    /// A number.
    Numeral,
    /// A number or a reference, for a length.
    Length,
    /// A number or a reference, for a value of an expression.
    Operand,
    /// A list of one to three numbers.
    Coordinates,
    /// Anything. Only whether it is `$` is looked at.
    Flag,
}

/// What the references at a used position have to refer to.
#[derive(Clone, Copy, Debug)]
pub enum Target {
    /// Any instance.
    Any,
    Workplan,
    Executable,
    Channel,
    Variable,
    Mark,
    /// A number, a constant, a variable, a sum, a difference or a product.
    Value,
    /// A comparison or a logical expression.
    Condition,
    Feature,
    Operation,
}

impl Target {
    /// Whether a reference here may refer to an entity of the class.
    pub fn accepts(self, class: Class) -> bool
        ensures { result ≡ accepts self class }
    {
        match self {
            Target::Any => true,
            Target::Workplan => class.is_between(Class::Workplan, Class::Workplan),
            Target::Executable => class.is_between(Class::Workplan, Class::Note),
            Target::Channel => class.is_between(Class::Channel, Class::Channel),
            Target::Variable => class.is_between(Class::NcVariable, Class::NcVariable),
            Target::Mark => class.is_between(Class::SetMark, Class::SetMark),
            Target::Value => {
                class.is_between(Class::NcVariable, Class::NcConstant)
                    || class.is_between(Class::NcSum, Class::NcProduct)
            }
            Target::Condition => class.is_between(Class::ComparisonEqual, Class::NotExpression),
            Target::Feature => class.is_between(Class::RoundHole, Class::ClosedPocket),
            Target::Operation => {
                class.is_between(Class::Drilling, Class::BottomAndSideFinishMilling)
            }
        }
    }
}

/// A used position of a class.
#[derive(Clone, Copy, Debug)]
pub struct UsedPosition {
    /// Counted from 1.
    pub position: u8,
    pub kind: Kind,
    /// Whether `$` may stand there too. At a flag it always may.
    pub optional: bool,
    pub target: Target,
}

macro_rules! need {
    ($position:literal $kind:ident $target:ident) => {
        UsedPosition {
            position: $position,
            kind: Kind::$kind,
            optional: false,
            target: Target::$target,
        }
    };
}

macro_rules! may {
    ($position:literal $kind:ident $target:ident) => {
        UsedPosition {
            position: $position,
            kind: Kind::$kind,
            optional: true,
            target: Target::$target,
        }
    };
}

/// The used positions of a class, in rising order.
pub fn used(class: Class) -> &'static [UsedPosition]
    ensures { result.now ≡ used_of class }
{
    match class {
        Class::Project => &[need!(2 Reference Workplan)],
        Class::Workplan => &[need!(2 References Executable), may!(3 Reference Channel)],
        Class::Parallel => &[need!(2 SomeReferences Executable)],
        Class::NonSequential => &[need!(2 SomeReferences Executable)],
        Class::Selective => &[need!(2 SomeReferences Executable)],
        Class::IfStatement => &[
            need!(2 Reference Condition),
            need!(3 Reference Executable),
            may!(4 Reference Executable),
        ],
        Class::WhileStatement => &[need!(2 Reference Condition), need!(3 Reference Executable)],
        Class::Assignment => &[need!(2 Reference Variable), need!(3 Operand Value)],
        Class::SetMark => &[],
        Class::WaitForMark => &[need!(2 Reference Mark)],
        Class::MachiningWorkingstep => &[
            may!(2 Reference Any),
            need!(3 Reference Feature),
            need!(4 Reference Operation),
        ],
        Class::Note => &[],
        Class::Channel => &[],
        Class::NcVariable => &[may!(2 Numeral Any)],
        Class::NcConstant => &[need!(2 Numeral Any)],
        Class::ComparisonEqual => &[need!(1 Operand Value), need!(2 Operand Value)],
        Class::ComparisonNotEqual => &[need!(1 Operand Value), need!(2 Operand Value)],
        Class::ComparisonGreater => &[need!(1 Operand Value), need!(2 Operand Value)],
        Class::ComparisonGreaterEqual => &[need!(1 Operand Value), need!(2 Operand Value)],
        Class::ComparisonLess => &[need!(1 Operand Value), need!(2 Operand Value)],
        Class::ComparisonLessEqual => &[need!(1 Operand Value), need!(2 Operand Value)],
        Class::AndExpression => &[need!(1 References Condition)],
        Class::OrExpression => &[need!(1 References Condition)],
        Class::XorExpression => &[need!(1 Reference Condition), need!(2 Reference Condition)],
        Class::NotExpression => &[need!(1 Reference Condition)],
        Class::NcSum => &[need!(1 Operand Value), need!(2 Operand Value)],
        Class::NcDifference => &[need!(1 Operand Value), need!(2 Operand Value)],
        Class::NcProduct => &[need!(1 Operand Value), need!(2 Operand Value)],
        Class::RoundHole => &[
            may!(4 Reference Any),
            may!(5 Reference Any),
            may!(6 Length Any),
        ],
        Class::PlanarFace => &[
            may!(4 Reference Any),
            may!(5 Reference Any),
            may!(6 Reference Any),
            may!(7 Reference Any),
        ],
        Class::ClosedPocket => &[
            may!(4 Reference Any),
            may!(5 Reference Any),
            may!(11 Reference Any),
        ],
        Class::LinearPath => &[may!(2 Length Any), may!(3 Reference Any)],
        Class::LinearProfile => &[may!(2 Length Any)],
        Class::RectangularClosedProfile => &[may!(2 Length Any), may!(3 Length Any)],
        Class::GeneralClosedProfile => &[may!(2 Reference Any)],
        Class::Polyline => &[need!(2 References Any)],
        Class::Plane => &[may!(2 Reference Any)],
        Class::Axis2Placement3d => &[
            may!(2 Reference Any),
            may!(3 Reference Any),
            may!(4 Reference Any),
        ],
        Class::CartesianPoint => &[need!(2 Coordinates Any)],
        Class::Direction => &[need!(2 Coordinates Any)],
        Class::Drilling => &[
            need!(1 Flag Any),
            may!(4 Length Any),
            may!(6 Reference Any),
            may!(7 Reference Any),
            may!(12 Numeral Any),
        ],
        Class::CenterDrilling => &[
            need!(1 Flag Any),
            may!(4 Length Any),
            may!(6 Reference Any),
            may!(7 Reference Any),
            may!(12 Numeral Any),
        ],
        Class::Reaming => &[
            need!(1 Flag Any),
            may!(4 Length Any),
            may!(6 Reference Any),
            may!(7 Reference Any),
            may!(12 Numeral Any),
        ],
        Class::Boring => &[
            need!(1 Flag Any),
            may!(4 Length Any),
            may!(6 Reference Any),
            may!(7 Reference Any),
            may!(12 Numeral Any),
        ],
        Class::PlaneRoughMilling => &[
            need!(1 Flag Any),
            may!(4 Length Any),
            may!(6 Reference Any),
            may!(7 Reference Any),
            may!(12 Reference Any),
            may!(13 Length Any),
            may!(14 Length Any),
        ],
        Class::PlaneFinishMilling => &[
            need!(1 Flag Any),
            may!(4 Length Any),
            may!(6 Reference Any),
            may!(7 Reference Any),
            may!(12 Reference Any),
            may!(13 Length Any),
            may!(14 Length Any),
        ],
        Class::BottomAndSideRoughMilling => &[
            need!(1 Flag Any),
            may!(4 Length Any),
            may!(6 Reference Any),
            may!(7 Reference Any),
            may!(13 Length Any),
            may!(14 Length Any),
            may!(15 Length Any),
            may!(16 Length Any),
        ],
        Class::BottomAndSideFinishMilling => &[
            need!(1 Flag Any),
            may!(4 Length Any),
            may!(6 Reference Any),
            may!(7 Reference Any),
            may!(13 Length Any),
            may!(14 Length Any),
            may!(15 Length Any),
            may!(16 Length Any),
        ],
        Class::Bidirectional => &[may!(1 Numeral Any)],
        Class::Unidirectional => &[may!(1 Numeral Any)],
        Class::MillingTechnology => &[may!(1 Numeral Any), may!(4 Numeral Any)],
        Class::MillingCuttingTool => &[may!(2 Reference Any)],
        Class::Endmill => &[may!(1 Reference Any)],
        Class::TaperedEndmill => &[may!(1 Reference Any)],
        Class::BallEndmill => &[may!(1 Reference Any)],
        Class::Facemill => &[may!(1 Reference Any)],
        Class::TwistDrill => &[may!(1 Reference Any)],
        Class::MillingToolDimension => &[may!(1 Length Any)],
        Class::TolerancedLengthMeasure => &[need!(1 Numeral Any)],
        Class::NumericParameter => &[need!(2 Numeral Any)],
        Class::Opaque => &[],
    }
}
