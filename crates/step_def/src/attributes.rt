//! What the lookup of a workingstep finds. Lengths are in thousandths of a millimetre.

use nc_base::Number;

/// The coordinates of a point or a direction, with the number of its instance.
#[derive(Clone, Copy)]
pub(crate) struct Coordinates {
    pub(crate) number: Number,
    pub(crate) x: i64,
    pub(crate) y: i64,
    pub(crate) z: i64,
}

/// A number, with the position that holds it or the reference to it.
#[derive(Clone, Copy)]
pub(crate) struct Quantity {
    pub(crate) number: Number,
    pub(crate) position: u32,
    pub(crate) value: i64,
}

/// A number that has to be within a range, both ends included, with the position that is blamed where it isn't.
#[derive(Clone, Copy)]
pub(crate) struct Ranged {
    pub(crate) number: Number,
    pub(crate) position: u32,
    pub(crate) value: i64,
    pub(crate) least: i64,
    pub(crate) greatest: i64,
}

/// A placement: where it is, the direction of its z axis, and that of its x axis.
#[derive(Clone, Copy)]
pub(crate) struct Placement {
    pub(crate) point: Coordinates,
    pub(crate) axis: Option<Coordinates>,
    pub(crate) reference: Option<Coordinates>,
}

/// What is found of every operation.
#[derive(Clone, Copy)]
pub(crate) struct Technology {
    pub(crate) retract: Option<Quantity>,
    pub(crate) tool: Number,
    pub(crate) feed: Quantity,
    pub(crate) spindle: Quantity,
}

/// What is found of a planar face: how far and in which direction its course runs, and how wide it is.
#[derive(Clone, Copy)]
pub(crate) struct FacePart {
    pub(crate) length: Quantity,
    pub(crate) course: Coordinates,
    pub(crate) width: Quantity,
}

/// The points of a polyline of four points, or of five.
#[derive(Clone, Copy)]
pub(crate) struct CornerPoints {
    pub(crate) polyline: Number,
    pub(crate) first: Coordinates,
    pub(crate) second: Coordinates,
    pub(crate) third: Coordinates,
    pub(crate) fourth: Coordinates,
    pub(crate) fifth: Option<Coordinates>,
}

/// The outline of a pocket.
#[derive(Clone, Copy)]
pub(crate) enum Outline {
    /// The lengths of a rectangle that is centred on the placement.
    Lengths { length: Quantity, width: Quantity },
    /// The points of a polyline.
    Corners(CornerPoints),
    /// The number of a profile, a contour or a polyline that is no rectangle.
    Other(Number),
}

/// What is found of a feature, by its class.
#[derive(Clone, Copy)]
pub(crate) enum FeaturePart {
    Hole { diameter: Quantity },
    Face(FacePart),
    Hollow { outline: Outline },
}

/// How the rows of a face follow each other, and how much they overlap, in thousandths of the tool's diameter.
#[derive(Clone, Copy)]
pub(crate) struct Strategy {
    pub(crate) both: bool,
    pub(crate) overlap: Option<Quantity>,
}

/// What is found of an operation that mills a plane.
#[derive(Clone, Copy)]
pub(crate) struct FaceCut {
    pub(crate) diameter: Quantity,
    pub(crate) strategy: Strategy,
    pub(crate) axial: Option<Quantity>,
    pub(crate) bottom: Option<Quantity>,
}

/// What is found of an operation that mills a pocket.
#[derive(Clone, Copy)]
pub(crate) struct PocketCut {
    pub(crate) diameter: Quantity,
    pub(crate) axial: Option<Quantity>,
    pub(crate) radial: Option<Quantity>,
    pub(crate) side: Option<Quantity>,
    pub(crate) bottom: Option<Quantity>,
}

/// What is found of an operation, by its class.
#[derive(Clone, Copy)]
pub(crate) enum OperationPart {
    Drilling { dwell: Option<Quantity> },
    Facing(FaceCut),
    Pocketing(PocketCut),
}

/// All that the lookup of a workingstep finds: the feature and the operation, the placements of the security plane, of the
/// feature and of the plane at the feature's bottom, and what is found of both by their classes.
#[derive(Clone, Copy)]
pub(crate) struct Lookup {
    pub(crate) feature: Number,
    pub(crate) operation: Number,
    pub(crate) has_toolpath: bool,
    pub(crate) security: Placement,
    pub(crate) placement: Placement,
    pub(crate) floor: Placement,
    pub(crate) feature_part: FeaturePart,
    pub(crate) technology: Technology,
    pub(crate) operation_part: OperationPart,
}

/// The rectangle of a pocket.
#[derive(Clone, Copy)]
pub(crate) enum Area {
    /// The sides of a rectangle that is centred on the placement.
    Centred { length: Quantity, width: Quantity },
    /// The rectangle whose corners these points are, from the placement.
    Cornered(CornerPoints),
}

/// The sides of a rectangle.
#[derive(Clone, Copy)]
pub(crate) struct Sides {
    pub(crate) left: i64,
    pub(crate) low: i64,
    pub(crate) right: i64,
    pub(crate) high: i64,
}

/// What an operation makes of a feature.
#[derive(Clone, Copy)]
pub(crate) enum Machining {
    DrillHole {
        diameter: Quantity,
        dwell: Option<Quantity>,
    },
    MillFace {
        face: FacePart,
        cut: FaceCut,
    },
    MillPocket {
        area: Area,
        cut: PocketCut,
    },
}
