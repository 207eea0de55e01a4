//! The classes of entities.

ghost use Rattle.std.specs.Prelude.{◌≡◌};
ghost use Rattle.entity_types.specs.Class.{code_of};
ghost use Rattle.entity_types.specs.Target.{is_class_between};

/// What an instance is to this profile: one of 60 classes by its keyword, or `Opaque` for everything else. The classes and
/// their keywords are this project's own choice after ISO 14649-10 and ISO 14649-11.
#[derive(Clone, Copy, Debug, PartialEq, Eq)]
pub enum Class {
    Project = 1,
    Workplan = 2,
    Parallel = 3,
    NonSequential = 4,
    Selective = 5,
    IfStatement = 6,
    WhileStatement = 7,
    Assignment = 8,
    SetMark = 9,
    WaitForMark = 10,
    MachiningWorkingstep = 11,
    /// An operator's message or a machine function that takes no part in the path, as `DISPLAY_MESSAGE` or `LOAD_TOOL`.
    Note = 12,
    Channel = 13,
    NcVariable = 14,
    NcConstant = 15,
    ComparisonEqual = 16,
    ComparisonNotEqual = 17,
    ComparisonGreater = 18,
    ComparisonGreaterEqual = 19,
    ComparisonLess = 20,
    ComparisonLessEqual = 21,
    AndExpression = 22,
    OrExpression = 23,
    XorExpression = 24,
    NotExpression = 25,
    NcSum = 26,
    NcDifference = 27,
    NcProduct = 28,
    RoundHole = 29,
    PlanarFace = 30,
    ClosedPocket = 31,
    LinearPath = 32,
    LinearProfile = 33,
    RectangularClosedProfile = 34,
    GeneralClosedProfile = 35,
    Polyline = 36,
    Plane = 37,
    Axis2Placement3d = 38,
    CartesianPoint = 39,
    Direction = 40,
    Drilling = 41,
    CenterDrilling = 42,
    Reaming = 43,
    Boring = 44,
    PlaneRoughMilling = 45,
    PlaneFinishMilling = 46,
    BottomAndSideRoughMilling = 47,
    BottomAndSideFinishMilling = 48,
    Bidirectional = 49,
    Unidirectional = 50,
    MillingTechnology = 51,
    MillingCuttingTool = 52,
    Endmill = 53,
    TaperedEndmill = 54,
    BallEndmill = 55,
    Facemill = 56,
    TwistDrill = 57,
    MillingToolDimension = 58,
    TolerancedLengthMeasure = 59,
    NumericParameter = 60,
    /// Every other keyword, every complex instance, and every instance that hasn't exactly one part.
    Opaque = 61,
}

impl Class {
    /// The number of the class in this profile's table, 1 to 61. Classes that serve one purpose stand beside each other there.
    pub fn code(self) -> u8
        ensures { result ≡ code_of self }
    {
        self as u8
    }

    /// Whether the class stands from the first to the last of these in the table, both included.
    pub fn is_between(self, first: Class, last: Class) -> bool
        ensures { result ≡ is_class_between first last self }
    {
        first.code() <= self.code() && self.code() <= last.code()
    }
}
