//! Parameters, parts and instances made by hand.

use nc_base::{NcText, NoMemory, Number};
use p21_parse::{Instance, Param, ParamList, Part, PartList};
use std::alloc::Global;

/// The kinds of parameters that are a text.
#[derive(Clone, Copy)]
pub enum Kind {
    Int,
    Real,
    Text,
    Enumeration,
    Binary,
}

/// A parameter of this kind and these bytes.
pub fn value(alloc: Global, kind: Kind, bytes: &[u8]) -> Result<Param, NoMemory> {
    let text = NcText::of(alloc, bytes)?;
    Ok(match kind {
        Kind::Int => Param::Int(text),
        Kind::Real => Param::Real(text),
        Kind::Text => Param::Text(text),
        Kind::Enumeration => Param::Enumeration(text),
        Kind::Binary => Param::Binary(text),
    })
}

/// A keyword without parameters.
pub fn part(alloc: Global, keyword: &[u8]) -> Result<Part, NoMemory> {
    Ok(Part {
        keyword: NcText::of(alloc, keyword)?,
        parameters: ParamList::new(alloc),
    })
}

/// So many parts of a keyword.
pub fn parts(alloc: Global, keyword: &[u8], count: u32) -> Result<PartList, NoMemory> {
    let mut parts = PartList::new(alloc);
    for _ in 0..count {
        parts.push(part(alloc, keyword)?)?;
    }
    Ok(parts)
}

/// A simple instance without parameters.
pub fn simple(alloc: Global, number: Number, keyword: &[u8]) -> Result<Instance, NoMemory> {
    Ok(Instance {
        number,
        complex: false,
        parts: parts(alloc, keyword, 1)?,
    })
}

/// A simple instance of one parameter, with the keyword `A`.
pub fn with_param(alloc: Global, number: Number, param: Param) -> Result<Instance, NoMemory> {
    let mut only = part(alloc, b"A")?;
    only.parameters.push(param)?;
    let mut parts = PartList::new(alloc);
    parts.push(only)?;
    Ok(Instance {
        number,
        complex: false,
        parts,
    })
}
