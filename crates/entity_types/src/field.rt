//! Fields: what stands at a used position.

ghost use Rattle.std.specs.Prelude.{◌≡◌, ◌++◌, OnOk, IfOk, option_copied};
ghost use Rattle.entity_types.specs.Entity.{field_at, references_of};

use crate::table::UsedPosition;
use nc_base::{ItemList, NoMemory, Number, NumberList};
use std::alloc::Global;
use std::slice::from_ref;

/// What stands at a used position of an entity. Numbers are in thousandths of the unit they are written in.
#[derive(Debug, Drop)]
pub enum Field {
    /// `$`, or a position past the last parameter.
    Absent,
    /// Something other than `$` at a flag.
    Present,
    /// A reference to the instance of this number.
    Ref(Number),
    /// A number.
    Value(i64),
    /// A list of references.
    Refs(NumberList),
    /// A list of `count` numbers, 1 to 3. Those left out are 0.
    Values { count: u8, x: i64, y: i64, z: i64 },
}

/// The fields of an entity.
pub type FieldList = ItemList<Field>;

impl Field {
    /// The references that stand there, in order.
    pub fn references(&self) -> &[Number]
        ensures { result.now ≡ references_of self.now }
    {
        match self {
            Field::Ref(number) => from_ref(number),
            Field::Refs(numbers) => numbers.as_slice(),
            Field::Absent | Field::Present | Field::Value(_) | Field::Values { .. } => &[],
        }
    }

    /// An equal field.
    pub fn copy(&self, alloc: Global) -> Result<Field, NoMemory>
        ensures { IfOk result (λ copy. copy ≡ self.now) }
    {
        Ok(match self {
            Field::Absent => Field::Absent,
            Field::Present => Field::Present,
            Field::Ref(number) => Field::Ref(*number),
            Field::Value(x) => Field::Value(*x),
            Field::Refs(numbers) => Field::Refs(copy_numbers(alloc, numbers.as_slice())?),
            Field::Values { count, x, y, z } => Field::Values {
                count: *count,
                x: *x,
                y: *y,
                z: *z,
            },
        })
    }
}

fn copy_numbers(alloc: Global, numbers: &[Number]) -> Result<NumberList, NoMemory>
    ensures { IfOk result (λ copy. copy ≡ numbers.now) }
{
    let mut copy = NumberList::new(alloc);
    push_all(&mut copy, numbers)?;
    Ok(copy)
}

pub(crate) fn push_all(list: &mut NumberList, numbers: &[Number]) -> Result<(), NoMemory>
    ensures { OnOk result (list.new ≡ list.old ++ numbers.now) }
{
    for number in numbers {
        list.push(*number)?;
    }
    Ok(())
}

pub(crate) fn copy_fields(alloc: Global, fields: &[Field]) -> Result<FieldList, NoMemory>
    ensures { IfOk result (λ copy. copy ≡ fields.now) }
{
    let mut copy = FieldList::new(alloc);
    for field in fields {
        copy.push(field.copy(alloc)?)?;
    }
    Ok(copy)
}

pub(crate) fn field_at<'a>(
    used: &[UsedPosition],
    fields: &'a [Field],
    position: u8,
) -> Option<&'a Field>
    ensures { option_copied result ≡ field_at used.now fields.now position }
{
    let [used, others @ ..] = used else {
        return None;
    };
    let [field, fields @ ..] = fields else {
        return None;
    };
    if used.position == position {
        Some(field)
    } else {
        field_at(others, fields, position)
    }
}
