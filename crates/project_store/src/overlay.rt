//! A store with an edit's items put.

ghost use Rattle.std.specs.Prelude.{◌≡◌, IfOk, length, take};
ghost use Rattle.project_store.specs.Put.{put_all};
ghost use Rattle.project_store.specs.Entities.{entity_at};
ghost use Rattle.project_store.specs.Lasts.{AreLasts};

use crate::entities::Entities;
use crate::store::Store;
use entity_types::{Entity, EntityList};
use nc_base::{NoMemory, Number};
use std::alloc::Global;
use std::collections::BTreeMap;

/// A store with items put in their order, so that of two items with one number the later stands. Beside them stands where the last item
/// of each number is, so that no choice of items makes a look longer than the logarithm of their count.
#[derive(Drop)]
pub struct Overlay<'a> {
    pub store: &'a Store,
    pub items: &'a EntityList,
    lasts: BTreeMap<Number, u32>,
    ghost lasts_of_items: { AreLasts items.now lasts },
}

impl<'a> Overlay<'a> {
    /// The store with these items put.
    pub fn new(
        alloc: Global,
        store: &'a Store,
        items: &'a EntityList,
    ) -> Result<Overlay<'a>, NoMemory>
        ensures store { IfOk result (λ overlay. overlay.store.now ≡ store.now) }
        ensures items { IfOk result (λ overlay. overlay.items.now ≡ items.now) }
    {
        let lasts = lasts_of(alloc, items)?;
        Ok(Overlay {
            store,
            items,
            lasts,
        })
    }
}

/// The place of the last item of each number.
fn lasts_of(alloc: Global, items: &EntityList) -> Result<BTreeMap<Number, u32>, NoMemory>
    ensures { IfOk result (AreLasts items.now) }
{
    let mut lasts = BTreeMap::new(alloc);
    for i in 0..items.len() {
        let number = items.at(i).number;
        lasts.insert(number, i)?;
    }
    Ok(lasts)
}

impl Entities for Overlay<'_> {
    ghost entities = { λ o. put_all (entity_at o.store.now) o.items.now };

    fn get(&self, n: Number) -> Option<&Entity> {
        match self.lasts.get(&n) {
            Some(i) => Some(self.items.at(*i)),
            None => self.store.get(n),
        }
    }
}
