//! Stores of projects whose instances are written as a file has them.

ghost use Rattle.std.specs.Prelude.{◌≡◌, IfOk};
ghost use Rattle.project_store.specs.Entities.{numbers_of};

use crate::expect::expect;
use entity_read::typed;
use entity_types::{Entity, EntityList};
use exec_tree::{TreeErr, build};
use nc_base::{NoMemory, Number, are_distinct};
use p21_lex::MAX_TEXT;
use p21_parse::{Exchange, Instance, read};
use project_store::Store;
use std::alloc::Global;
use std::process::Abort;
use std::test::Fail;

/// The beginning of a file, with a project whose main workplan is #2.
const HEAD: &[u8] =
    b"ISO-10303-21;HEADER;FILE_DESCRIPTION((''),'2;1');FILE_NAME('','',(''),(''),'','','');FILE_SCHEMA((''));ENDSEC;DATA;#1=PROJECT('P',#2);";

const FOOT: &[u8] = b"ENDSEC;END-ISO-10303-21;";

/// Puts a number in digits.
fn put_number(text: &mut Vec<u8>, alloc: Global, n: u32) -> Result<(), NoMemory> {
    let digits = format!(in alloc; "{n}")?;
    text.extend_from_slice(digits.as_bytes())?;
    Ok(())
}

/// Puts a text.
pub(crate) fn put(text: &mut Vec<u8>, more: &[u8]) -> Result<(), NoMemory> {
    Ok(text.extend_from_slice(more)?)
}

/// Puts a text with the first number at each `@` and the second at each `%`.
pub(crate) fn put_with(
    text: &mut Vec<u8>,
    alloc: Global,
    pattern: &[u8],
    first: u32,
    second: u32,
) -> Result<(), NoMemory> {
    for byte in pattern {
        match *byte {
            b'@' => put_number(text, alloc, first)?,
            b'%' => put_number(text, alloc, second)?,
            other => text.push(other)?,
        }
    }
    Ok(())
}

fn text_of(alloc: Global, data: &[u8]) -> Result<Vec<u8>, NoMemory> {
    let mut text = Vec::from_slice(alloc, HEAD)?;
    put(&mut text, data)?;
    put(&mut text, FOOT)?;
    Ok(text)
}

fn exchange(rt: &impl Abort, alloc: Global, data: &[u8]) -> Result<Exchange, Fail> {
    let text = text_of(alloc, data)?;
    assert!(rt; text.len() <= MAX_TEXT as usize, "the text is too long");
    Ok(read(alloc, text.as_slice())?)
}

/// The entities of these instances and of the project itself, as an edit puts them.
pub(crate) fn items(rt: &impl Abort, alloc: Global, data: &[u8]) -> Result<EntityList, Fail> {
    let exchange = exchange(rt, alloc, data)?;
    let mut items = EntityList::new(alloc);
    for instance in exchange.items.as_slice() {
        items.push(typed(alloc, instance)?)?;
    }
    Ok(items)
}

/// The entities of instances, and their numbers.
fn entities(alloc: Global, instances: &[Instance]) -> Result<(Vec<Entity>, Vec<Number>), Fail>
    ensures { IfOk result (λ made. numbers_of made.0.items ≡ made.1.items) }
{
    let mut all = Vec::new(alloc);
    let mut numbers = Vec::new(alloc);
    for instance in instances {
        let one = typed(alloc, instance)?;
        numbers.push(one.number)?;
        all.push(one)?;
    }
    Ok((all, numbers))
}

/// The store of these instances, beside the project itself.
pub(crate) fn store(rt: &impl Abort, alloc: Global, data: &[u8]) -> Result<Store, Fail> {
    let exchange = exchange(rt, alloc, data)?;
    let (all, numbers) = entities(alloc, exchange.items.as_slice())?;
    let distinct = are_distinct(alloc, numbers.as_slice())?;
    assert!(rt; distinct, "a number stands twice");
    Ok(Store::build(alloc, all)?)
}

/// The tree of these instances has this fault, or none.
pub(crate) fn expect_fault(
    rt: &impl Abort,
    alloc: Global,
    data: &[u8],
    want: Option<TreeErr>,
) -> Result<(), Fail> {
    let store = store(rt, alloc, data)?;
    let fault = build(alloc, &store).err();
    expect(rt, fault, want);
    Ok(())
}
