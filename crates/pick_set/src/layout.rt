//! The slots of each node's elements.

ghost use Rattle.std.specs.Prelude.{IfOk};
ghost use Rattle.pick_set.specs.Rows.{AreLaidOut};

use crate::row::Row;
use nc_base::NoMemory;
use std::alloc::Global;

/// A row of each node, and how many slots all have, where each node has so many elements. No memory holds more slots than a number counts.
pub fn lay_out(alloc: Global, rooms: &[u32]) -> Result<(Vec<Row>, usize), NoMemory>
    ensures { IfOk result (λ made. AreLaidOut rooms.now made.0.items made.1) }
{
    let mut rows = Vec::with_capacity(alloc, rooms.len())?;
    let mut base: usize = 0;
    for room in rooms {
        let Some(end) = base.checked_add(*room as usize) else {
            return Err(NoMemory);
        };
        rows.push(Row {
            base,
            room: *room,
            count: 0,
            next: 0,
        })?;
        base = end;
    }
    Ok((rows, base))
}
