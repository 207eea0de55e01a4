//! Entities from instances as a file has them.

use entity_read::typed;
use entity_types::Entity;
use p21_lex::{MAX_TEXT, tokens};
use p21_parse::{InstanceList, MAX_INSTANCES, ReadErr, instances};
use std::alloc::Global;
use std::process::Abort;
use std::test::Fail;

/// The instances of a text that has nothing else. It promises nothing, so that its callers are proved without what reading promises.
fn listed(rt: &impl Abort, alloc: Global, text: &[u8]) -> Result<InstanceList, ReadErr> {
    assert!(rt; text.len() <= MAX_TEXT as usize);
    let tokens = tokens(alloc, text)?;
    let (items, next) = instances(alloc, text, tokens.as_slice(), 0, MAX_INSTANCES as u32)?;
    assert!(rt; next as usize == tokens.len(), "more than instances");
    Ok(items)
}

/// The entities of a text of instances, in its order.
pub fn entities(rt: &impl Abort, alloc: Global, text: &str) -> Result<Vec<Entity>, Fail> {
    let items = listed(rt, alloc, text.as_bytes())?;
    let mut all = Vec::new(alloc);
    for item in items.as_slice() {
        all.push(typed(alloc, item)?)?;
    }
    Ok(all)
}

/// The entity of a text of one instance.
pub fn entity(rt: &impl Abort, alloc: Global, text: &str) -> Result<Entity, Fail> {
    Ok(entities(rt, alloc, text)?.pop().ok_or("no instance")?)
}
