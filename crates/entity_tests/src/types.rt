//! Classes, used positions, targets and fields.

ghost use Rattle.std.specs.Prelude.{◌≡◌, true, false, pos, negsuc, [], ◌∷◌};
ghost use Rattle.entity_types.specs.Fits.{fields_fit};
ghost use Rattle.entity_types.specs.declared.class.Class.TheVariants as classes;
ghost use Rattle.entity_types.specs.declared.field.Field.TheVariants.{Absent, Present, Ref, Value, Refs, Values};

use crate::expect::expect;
use entity_types::{
    Class, Edit, Entity, EntityList, Field, FieldList, Target, UsedPosition, class_of, used,
};
use nc_base::{MAX_NUMBER, NoMemory, Number, NumberList};
use std::alloc::Global;
use std::process::Abort;
use std::test::Fail;

fn numbers(alloc: Global, all: &[Number]) -> Result<NumberList, NoMemory> {
    let mut list = NumberList::new(alloc);
    for number in all {
        list.push(*number)?;
    }
    Ok(list)
}

// A workplan of two elements, with a channel.
fn workplan(alloc: Global) -> Result<Entity, NoMemory> {
    let mut fields = FieldList::new(alloc);
    fields.push(Field::Refs(numbers(alloc, &[10, 11])?))?;
    fields.push(Field::Ref(8))?;
    Ok(Entity {
        number: 2,
        class: Class::Workplan,
        fields,
    })
}

// Stops unless it is such a workplan.
fn expect_workplan(rt: &impl Abort, alloc: Global, entity: &Entity) -> Result<(), Fail> {
    assert_eq!(rt; entity.class, Class::Workplan);
    assert_eq!(rt; entity.uses(alloc)?.as_slice(), [10, 11, 8].as_slice());
    Ok(())
}

// An edit that puts a copy of the entity from the seventh entry on.
fn edit_of(alloc: Global, entity: &Entity) -> Result<Edit, NoMemory> {
    let mut items = EntityList::new(alloc);
    items.push(entity.copy(alloc)?)?;
    Ok(Edit { at: 7, items })
}

#[test]
fn copies_and_uses(rt: HostRuntime) -> Result<(), Fail> {
    let alloc = rt.alloc();
    let plan = workplan(alloc)?;
    expect_workplan(&rt, alloc, &plan)?;
    expect(&rt, plan.number, 2);
    expect(&rt, matches!(plan.field(3), Some(Field::Ref(8))), true);
    expect(&rt, plan.field(1).is_none(), true);
    let copy = edit_of(alloc, &plan)?.copy(alloc)?;
    expect(&rt, copy.at, 7);
    expect(&rt, copy.items.len(), 1);
    for item in copy.items.as_slice() {
        expect_workplan(&rt, alloc, item)?;
    }
    Ok(())
}

// Keywords, and the number of the class of each.
const KEYWORDS: [(&[u8], u8); 16] = [
    (b"PROJECT", 1),
    (b"EXCHANGE_PALLET", 12),
    (b"!NC_SUM", 26),
    (b"NC_SUM", 61),
    (b"PLANE", 37),
    (b"PLANE_", 61),
    (b"PLAN", 61),
    (b"AXIS2_PLACEMENT_3D", 38),
    (b"PLANE_ROUGH_MILLING", 45),
    (b"NUMERIC_PARAMETER", 60),
    (b"plane", 61),
    (b"", 61),
    (b"PLANF", 61),
    (b"!NC_SUN", 61),
    (b"BOTTOM_AND_SIDE_FINISH_MILLING", 48),
    (b"BOTTOM_AND_SIDE_FINISH_MILLING_", 61),
];

#[test]
fn keywords(rt: HostRuntime) {
    for (keyword, code) in KEYWORDS {
        expect(&rt, class_of(keyword).code(), code);
    }
}

// The used positions of a class.
const POSITIONS: [(Class, &[u8]); 5] = [
    (Class::Workplan, &[2, 3]),
    (Class::SetMark, &[]),
    (Class::ClosedPocket, &[4, 5, 11]),
    (
        Class::BottomAndSideRoughMilling,
        &[1, 4, 6, 7, 13, 14, 15, 16],
    ),
    (Class::Opaque, &[]),
];

// It promises nothing, so that its caller is proved without what `used` promises.
fn used_by(class: Class) -> &'static [UsedPosition] {
    used(class)
}

#[test]
fn positions(rt: HostRuntime) {
    for (class, want) in POSITIONS {
        let positions = used_by(class);
        expect(&rt, positions.len(), want.len());
        for (found, position) in positions.iter().zip(want) {
            expect(&rt, found.position, *position);
        }
    }
}

// Which fields fit, at the edges of their kinds.
fn fitting()
    ensures empty_list { fields_fit classes.Workplan (Refs [] ∷ Absent ∷ []) ≡ true }
    ensures flag { fields_fit classes.Drilling (Present ∷ Absent ∷ Absent ∷ Absent ∷ Absent ∷ []) ≡ true }
    ensures limit { fields_fit classes.NcConstant (Value (pos 1000000000000000) ∷ []) ≡ true }
    ensures low_limit { fields_fit classes.NcConstant (Value (negsuc 999999999999999) ∷ []) ≡ true }
    ensures reference_as_length { fields_fit classes.RoundHole (Absent ∷ Absent ∷ Ref 9 ∷ []) ≡ true }
    ensures number_as_length { fields_fit classes.RoundHole (Ref 9 ∷ Absent ∷ Value (pos 10000) ∷ []) ≡ true }
    ensures two_numbers { fields_fit classes.Direction (Values 2 (pos 1) (negsuc 0) (pos 0) ∷ []) ≡ true }
{}

// Which don't.
fn unfitting()
    ensures empty_list { fields_fit classes.Parallel (Refs [] ∷ []) ≡ false }
    ensures reference_missing { fields_fit classes.Project (Absent ∷ []) ≡ false }
    ensures field_missing { fields_fit classes.Workplan (Refs [] ∷ []) ≡ false }
    ensures field_too_many { fields_fit classes.SetMark (Absent ∷ []) ≡ false }
    ensures no_flag { fields_fit classes.Project (Present ∷ []) ≡ false }
    ensures past_the_limit { fields_fit classes.NcConstant (Value (pos 1000000000000001) ∷ []) ≡ false }
    ensures past_the_low_limit { fields_fit classes.NcConstant (Value (negsuc 1000000000000000) ∷ []) ≡ false }
    ensures reference_as_number { fields_fit classes.NcConstant (Ref 9 ∷ []) ≡ false }
    ensures number_as_reference { fields_fit classes.RoundHole (Value (pos 0) ∷ Absent ∷ Absent ∷ []) ≡ false }
    ensures no_numbers { fields_fit classes.Direction (Values 0 (pos 0) (pos 0) (pos 0) ∷ []) ≡ false }
    ensures four_numbers { fields_fit classes.Direction (Values 4 (pos 0) (pos 0) (pos 0) ∷ []) ≡ false }
    ensures past_the_count { fields_fit classes.Direction (Values 1 (pos 0) (pos 1) (pos 0) ∷ []) ≡ false }
{}

#[test]
fn fields_of_kinds(rt: HostRuntime) -> Result<(), Fail> {
    fitting();
    unfitting();
    let numbers = numbers(rt.alloc(), &[8, MAX_NUMBER])?;
    let copy = Field::Refs(numbers).copy(rt.alloc())?;
    assert_eq!(rt; copy.references(), [8, MAX_NUMBER].as_slice());
    Ok(())
}

// A target, the first and last class that it takes of a row of classes, and those before and behind.
const TARGETS: [(Target, [Class; 2], [Class; 2]); 9] = [
    (
        Target::Workplan,
        [Class::Workplan, Class::Workplan],
        [Class::Project, Class::Parallel],
    ),
    (
        Target::Executable,
        [Class::Workplan, Class::Note],
        [Class::Project, Class::Channel],
    ),
    (
        Target::Channel,
        [Class::Channel, Class::Channel],
        [Class::Note, Class::NcVariable],
    ),
    (
        Target::Variable,
        [Class::NcVariable, Class::NcVariable],
        [Class::Channel, Class::NcConstant],
    ),
    (
        Target::Mark,
        [Class::SetMark, Class::SetMark],
        [Class::Assignment, Class::WaitForMark],
    ),
    (
        Target::Value,
        [Class::NcVariable, Class::NcConstant],
        [Class::Channel, Class::ComparisonEqual],
    ),
    (
        Target::Value,
        [Class::NcSum, Class::NcProduct],
        [Class::NotExpression, Class::RoundHole],
    ),
    (
        Target::Condition,
        [Class::ComparisonEqual, Class::NotExpression],
        [Class::NcConstant, Class::NcSum],
    ),
    (
        Target::Operation,
        [Class::Drilling, Class::BottomAndSideFinishMilling],
        [Class::Direction, Class::Bidirectional],
    ),
];

#[test]
fn targets(rt: HostRuntime) {
    for (target, inside, outside) in TARGETS {
        for class in inside {
            expect(&rt, target.accepts(class), true);
        }
        for class in outside {
            expect(&rt, target.accepts(class), false);
        }
    }
}

// Targets of no row of classes, and whether each takes a class.
const OTHER_TARGETS: [(Target, Class, bool); 3] = [
    (Target::Any, Class::Opaque, true),
    (Target::Feature, Class::ClosedPocket, true),
    (Target::Feature, Class::LinearPath, false),
];

#[test]
fn other_targets(rt: HostRuntime) {
    for (target, class, accepts) in OTHER_TARGETS {
        expect(&rt, target.accepts(class), accepts);
    }
}
