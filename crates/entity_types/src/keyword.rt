//! The class that a keyword names.

ghost use Rattle.std.specs.Prelude.{◌≡◌, map};
ghost use Rattle.std.specs.Str.{bytes_eq};
ghost use Rattle.entity_types.specs.Class.{class_of, class_among};

use crate::class::Class;

/// The keywords of this profile, in the order of the table of classes.
static WORDS: [(&[u8], Class); 67] = [
    (b"PROJECT", Class::Project),
    (b"WORKPLAN", Class::Workplan),
    (b"PARALLEL", Class::Parallel),
    (b"NON_SEQUENTIAL", Class::NonSequential),
    (b"SELECTIVE", Class::Selective),
    (b"IF_STATEMENT", Class::IfStatement),
    (b"WHILE_STATEMENT", Class::WhileStatement),
    (b"ASSIGNMENT", Class::Assignment),
    (b"SET_MARK", Class::SetMark),
    (b"WAIT_FOR_MARK", Class::WaitForMark),
    (b"MACHINING_WORKINGSTEP", Class::MachiningWorkingstep),
    (b"DISPLAY_MESSAGE", Class::Note),
    (b"OPTIONAL_STOP", Class::Note),
    (b"PROGRAM_STOP", Class::Note),
    (b"LOAD_TOOL", Class::Note),
    (b"UNLOAD_TOOL", Class::Note),
    (b"INDEX_TABLE", Class::Note),
    (b"INDEX_PALLET", Class::Note),
    (b"EXCHANGE_PALLET", Class::Note),
    (b"CHANNEL", Class::Channel),
    (b"NC_VARIABLE", Class::NcVariable),
    (b"NC_CONSTANT", Class::NcConstant),
    (b"COMPARISON_EQUAL", Class::ComparisonEqual),
    (b"COMPARISON_NOT_EQUAL", Class::ComparisonNotEqual),
    (b"COMPARISON_GREATER", Class::ComparisonGreater),
    (b"COMPARISON_GREATER_EQUAL", Class::ComparisonGreaterEqual),
    (b"COMPARISON_LESS", Class::ComparisonLess),
    (b"COMPARISON_LESS_EQUAL", Class::ComparisonLessEqual),
    (b"AND_EXPRESSION", Class::AndExpression),
    (b"OR_EXPRESSION", Class::OrExpression),
    (b"XOR_EXPRESSION", Class::XorExpression),
    (b"NOT_EXPRESSION", Class::NotExpression),
    (b"!NC_SUM", Class::NcSum),
    (b"!NC_DIFFERENCE", Class::NcDifference),
    (b"!NC_PRODUCT", Class::NcProduct),
    (b"ROUND_HOLE", Class::RoundHole),
    (b"PLANAR_FACE", Class::PlanarFace),
    (b"CLOSED_POCKET", Class::ClosedPocket),
    (b"LINEAR_PATH", Class::LinearPath),
    (b"LINEAR_PROFILE", Class::LinearProfile),
    (
        b"RECTANGULAR_CLOSED_PROFILE",
        Class::RectangularClosedProfile,
    ),
    (b"GENERAL_CLOSED_PROFILE", Class::GeneralClosedProfile),
    (b"POLYLINE", Class::Polyline),
    (b"PLANE", Class::Plane),
    (b"AXIS2_PLACEMENT_3D", Class::Axis2Placement3d),
    (b"CARTESIAN_POINT", Class::CartesianPoint),
    (b"DIRECTION", Class::Direction),
    (b"DRILLING", Class::Drilling),
    (b"CENTER_DRILLING", Class::CenterDrilling),
    (b"REAMING", Class::Reaming),
    (b"BORING", Class::Boring),
    (b"PLANE_ROUGH_MILLING", Class::PlaneRoughMilling),
    (b"PLANE_FINISH_MILLING", Class::PlaneFinishMilling),
    (
        b"BOTTOM_AND_SIDE_ROUGH_MILLING",
        Class::BottomAndSideRoughMilling,
    ),
    (
        b"BOTTOM_AND_SIDE_FINISH_MILLING",
        Class::BottomAndSideFinishMilling,
    ),
    (b"BIDIRECTIONAL", Class::Bidirectional),
    (b"UNIDIRECTIONAL", Class::Unidirectional),
    (b"MILLING_TECHNOLOGY", Class::MillingTechnology),
    (b"MILLING_CUTTING_TOOL", Class::MillingCuttingTool),
    (b"ENDMILL", Class::Endmill),
    (b"TAPERED_ENDMILL", Class::TaperedEndmill),
    (b"BALL_ENDMILL", Class::BallEndmill),
    (b"FACEMILL", Class::Facemill),
    (b"TWIST_DRILL", Class::TwistDrill),
    (b"MILLING_TOOL_DIMENSION", Class::MillingToolDimension),
    (b"TOLERANCED_LENGTH_MEASURE", Class::TolerancedLengthMeasure),
    (b"NUMERIC_PARAMETER", Class::NumericParameter),
];

/// Whether a keyword is this word. Most words have another length, so few are compared byte by byte.
fn is_word(keyword: &[u8], word: &[u8]) -> bool
    ensures { result ≡ bytes_eq keyword.now word.now }
{
    keyword.len() == word.len() && keyword == word
}

/// The class of the first row with this keyword.
fn class_among(rows: &[(&[u8], Class)], keyword: &[u8]) -> Class
    ensures { result ≡ class_among (map (λ row. (row.0.now, row.1)) rows.now) keyword.now }
{
    for row in rows {
        if is_word(keyword, row.0) {
            return row.1;
        }
    }
    Class::Opaque
}

/// The class that a keyword names. A keyword that this profile doesn't name gives `Opaque`.
pub fn class_of(keyword: &[u8]) -> Class
    ensures { result ≡ class_of keyword.now }
{
    class_among(&WORDS, keyword)
}
