//! Exchanges that are made of instances.

ghost use Rattle.std.specs.Prelude.{◌≡◌, map, IfOk, IfErr};
ghost use Rattle.p21_parse.specs.View.{tree_of, part_of, instance_of, exchange_of};
ghost use Rattle.p21_parse.specs.Allowed.{IsAllowed};
ghost use Rattle.p21_parse.specs.Spelled.{IsSpelled};
ghost use Rattle.p21_parse.specs.Built.{AreValid, AreFitting, IsRefusedList, empty_text, one_empty, standard_description, standard_name, standard_schema, standard_head};

use crate::error::BuildErr;
use crate::exchange::{Exchange, Instance, InstanceList, Part, PartList};
use crate::fitting::is_valid;
use crate::limits::MAX_INSTANCES;
use crate::param::{Param, ParamList};
use crate::repeat::first_repeat;
use nc_base::{NcText, NoMemory, Number};
use std::alloc::Global;

/// A text with nothing in it.
fn empty_text(alloc: Global) -> Param
    ensures { tree_of result ≡ empty_text }
{
    Param::Text(NcText::new(alloc))
}

/// A list of one text with nothing in it.
fn one_empty(alloc: Global) -> Result<Param, NoMemory>
    ensures { IfOk result (λ param. tree_of param ≡ one_empty) }
{
    let mut params = ParamList::new(alloc);
    params.push(empty_text(alloc))?;
    Ok(Param::List(params))
}

/// The version of the standard and the conformance class that this profile writes, and no description.
fn file_description(alloc: Global) -> Result<Part, NoMemory>
    ensures { IfOk result (λ part. part_of part ≡ standard_description) }
{
    let mut parameters = ParamList::new(alloc);
    parameters.push(one_empty(alloc)?)?;
    parameters.push(Param::Text(NcText::of(alloc, b"2;1")?))?;
    let keyword = NcText::of(alloc, b"FILE_DESCRIPTION")?;
    Ok(Part {
        keyword,
        parameters,
    })
}

/// No name, time, author, organization, preprocessor, originating system and authorization.
fn file_name(alloc: Global) -> Result<Part, NoMemory>
    ensures { IfOk result (λ part. part_of part ≡ standard_name) }
{
    let mut parameters = ParamList::new(alloc);
    parameters.push(empty_text(alloc))?;
    parameters.push(empty_text(alloc))?;
    parameters.push(one_empty(alloc)?)?;
    parameters.push(one_empty(alloc)?)?;
    parameters.push(empty_text(alloc))?;
    parameters.push(empty_text(alloc))?;
    parameters.push(empty_text(alloc))?;
    let keyword = NcText::of(alloc, b"FILE_NAME")?;
    Ok(Part {
        keyword,
        parameters,
    })
}

/// One schema without a name.
fn file_schema(alloc: Global) -> Result<Part, NoMemory>
    ensures { IfOk result (λ part. part_of part ≡ standard_schema) }
{
    let mut parameters = ParamList::new(alloc);
    parameters.push(one_empty(alloc)?)?;
    let keyword = NcText::of(alloc, b"FILE_SCHEMA")?;
    Ok(Part {
        keyword,
        parameters,
    })
}

/// The header that says nothing but the version.
fn standard_head(alloc: Global) -> Result<PartList, NoMemory>
    ensures { IfOk result (λ head. map part_of head ≡ standard_head) }
{
    let mut head = PartList::new(alloc);
    head.push(file_description(alloc)?)?;
    head.push(file_name(alloc)?)?;
    head.push(file_schema(alloc)?)?;
    Ok(head)
}

/// The numbers of the instances before the first that can't stand in a file even by itself, or is one too many.
fn fitting_numbers(alloc: Global, items: &[Instance]) -> Result<Vec<Number>, NoMemory>
    ensures { IfOk result (λ v. AreFitting (map instance_of items.now) v.items) }
{
    let mut numbers = Vec::new(alloc);
    for (at, item) in items.iter().enumerate() {
        if at >= MAX_INSTANCES {
            return Ok(numbers);
        }
        if !is_valid(item) {
            return Ok(numbers);
        }
        numbers.push(item.number)?;
    }
    Ok(numbers)
}

/// Whether instances can stand in a file together.
fn check(alloc: Global, items: &[Instance]) -> Result<(), BuildErr>
    ensures valid { IfOk result (λ _. AreValid (map instance_of items.now)) }
    ensures refused { IfErr result (IsRefusedList (map instance_of items.now)) }
{
    let numbers = fitting_numbers(alloc, items)?;
    if let Some(again) = first_repeat(alloc, numbers.as_slice())? {
        return Err(BuildErr::Invalid(again as u32));
    }
    if numbers.len() < items.len() {
        return Err(BuildErr::Invalid(numbers.len() as u32));
    }
    Ok(())
}

impl Exchange {
    /// The exchange of these instances, in their order, under the header
    /// `FILE_DESCRIPTION((''),'2;1');` `FILE_NAME('','',(''),(''),'','','');` `FILE_SCHEMA((''));`.
    ///
    /// # Errors
    /// The least index, counted from 0, of an instance that the grammar or the limits don't allow (at most `MAX_NESTING` parentheses in one another,
    /// at most `MAX_INSTANCES` instances), that can't be written (a number that no name has, a text or a keyword that no token spells), or whose
    /// number stood before. Or `NoMemory`, where memory runs out.
    pub fn of(alloc: Global, items: InstanceList) -> Result<Exchange, BuildErr>
        ensures built { IfOk result (λ x. exchange_of x ≡ record { head = standard_head; items = map instance_of items }) }
        ensures valid { IfOk result (λ x. IsAllowed (exchange_of x) × IsSpelled (exchange_of x)) }
        ensures refused { IfErr result (IsRefusedList (map instance_of items)) }
    {
        check(alloc, items.as_slice())?;
        let head = standard_head(alloc)?;
        Ok(Exchange { head, items })
    }
}
