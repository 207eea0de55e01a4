//! Parameters, and instances with one part.

ghost use Rattle.std.specs.Prelude.{◌≡◌, [], ◌∷◌, ◌++◌, IfOk, OnOk, decimal};
ghost use Rattle.p21_parse.specs.Tree.{list};
ghost use Rattle.p21_parse.specs.View.{tree_of, trees_of};
ghost use Rattle.big_case.specs.Parameters.{text, real, whole, minus, list_of, references, simple, instance, placement, plane};
ghost use Rattle.big_case.specs.Adds.{Adds};

use itoa::Buffer;
use nc_base::{NcText, NoMemory, Number, NumberList};
use p21_parse::{Instance, InstanceList, Param, ParamList, Part, PartList};
use std::alloc::Global;

/// A text.
pub fn text(alloc: Global, bytes: &[u8]) -> Result<Param, NoMemory>
    ensures { IfOk result (λ param. tree_of param ≡ text bytes.now) }
{
    Ok(Param::Text(NcText::of(alloc, bytes)?))
}

/// A real number as it is written.
pub fn real(alloc: Global, bytes: &[u8]) -> Result<Param, NoMemory>
    ensures { IfOk result (λ param. tree_of param ≡ real bytes.now) }
{
    Ok(Param::Real(NcText::of(alloc, bytes)?))
}

/// Puts the digits of a number at the end of a text.
pub fn put_decimal(out: &mut Vec<u8>, n: u32) -> Result<(), NoMemory>
    ensures { OnOk result (out.new.items ≡ out.old.items ++ decimal n) }
{
    let mut buffer = Buffer::new();
    out.extend_from_slice(buffer.format(n).as_bytes())?;
    Ok(())
}

/// A whole number as a real.
pub fn whole(alloc: Global, n: u32) -> Result<Param, NoMemory>
    ensures { IfOk result (λ param. tree_of param ≡ whole n) }
{
    let mut bytes = Vec::new(alloc);
    put_decimal(&mut bytes, n)?;
    bytes.push(b'.')?;
    real(alloc, bytes.as_slice())
}

/// A whole number as a real, with a minus before it.
pub fn minus(alloc: Global, n: u32) -> Result<Param, NoMemory>
    ensures { IfOk result (λ param. tree_of param ≡ minus n) }
{
    let mut bytes = Vec::new(alloc);
    bytes.push(b'-')?;
    put_decimal(&mut bytes, n)?;
    bytes.push(b'.')?;
    real(alloc, bytes.as_slice())
}

/// A list of parameters as one parameter.
pub fn list_of(elements: ParamList) -> Param
    ensures { tree_of result ≡ list (trees_of elements) }
{
    Param::List(elements)
}

/// A list without parameters.
pub fn empty_list(alloc: Global) -> Param
    ensures { tree_of result ≡ list_of [] }
{
    list_of(ParamList::new(alloc))
}

/// References to instances.
pub fn references(alloc: Global, numbers: &[Number]) -> Result<Param, NoMemory>
    ensures { IfOk result (λ param. tree_of param ≡ references numbers.now) }
{
    let mut elements = ParamList::new(alloc);
    for number in numbers {
        elements.push(Param::Reference(*number))?;
    }
    Ok(list_of(elements))
}

/// Puts an instance with one part behind others.
pub fn put(
    alloc: Global,
    items: &mut InstanceList,
    number: Number,
    keyword: &[u8],
    parameters: ParamList,
) -> Result<(), NoMemory>
    ensures { OnOk result (Adds (simple number keyword.now (trees_of parameters) ∷ []) items.old items.new) }
{
    let keyword = NcText::of(alloc, keyword)?;
    let mut parts = PartList::with_capacity(alloc, 1)?;
    parts.push(Part {
        keyword,
        parameters,
    })?;
    let complex = false;
    items.push(Instance {
        number,
        complex,
        parts,
    })
}

/// Puts an instance that has a list and no name.
pub fn put_listed(
    alloc: Global,
    items: &mut InstanceList,
    number: Number,
    keyword: &[u8],
    elements: ParamList,
) -> Result<(), NoMemory>
    ensures { OnOk result (Adds (instance number keyword.now (text [] ∷ list (trees_of elements) ∷ []) ∷ []) items.old items.new) }
{
    let mut params = ParamList::new(alloc);
    params.push(text(alloc, b"")?)?;
    params.push(list_of(elements))?;
    put(alloc, items, number, keyword, params)
}

/// Puts a placement that is not turned.
pub fn put_placement(
    alloc: Global,
    items: &mut InstanceList,
    number: Number,
    at: Number,
) -> Result<(), NoMemory>
    ensures { OnOk result (Adds (placement number at ∷ []) items.old items.new) }
{
    let mut params = ParamList::with_capacity(alloc, 4)?;
    params.push(text(alloc, b"")?)?;
    params.push(Param::Reference(at))?;
    params.push(Param::Unset)?;
    params.push(Param::Unset)?;
    put(alloc, items, number, b"AXIS2_PLACEMENT_3D", params)
}

/// Puts a plane.
pub fn put_plane(
    alloc: Global,
    items: &mut InstanceList,
    number: Number,
    at: Number,
) -> Result<(), NoMemory>
    ensures { OnOk result (Adds (plane number at ∷ []) items.old items.new) }
{
    let mut params = ParamList::with_capacity(alloc, 2)?;
    params.push(text(alloc, b"")?)?;
    params.push(Param::Reference(at))?;
    put(alloc, items, number, b"PLANE", params)
}
