//! The entities of a file, read slice after slice: of each slice its entities are kept, and the rest of it is dropped.

ghost use Rattle.std.specs.Prelude.{◌≤◌, length, take, IfOk};
ghost use Rattle.p21_parse.specs.Front.{IsFront};
ghost use Rattle.p21_parse.specs.View.{exchange_of};
ghost use Rattle.p21_parse.specs.declared.limits.TheConstants.{MAX_INSTANCES};
ghost use Rattle.project_read.specs.Gathered.{IsReadTo};
ghost use Rattle.project_read.specs.Reads.{ReadsEntities};

use crate::entities::entities_of;
use crate::gathered::Gathered;
use crate::limits::MAX_PROJECT_BYTES;
use crate::reason::ProjectErr;
use entity_types::Entity;
use nc_base::NoMemory;
use p21_parse::{MAX_INSTANCES, read, read_behind};
use p21_slices::{Front, front_of, next_slice};
use std::alloc::Global;

/// The entities of a text that is read as a whole, or why there are none.
fn entities_whole(alloc: Global, bytes: &[u8]) -> Result<Vec<Entity>, ProjectErr>
    requires { length bytes.now ≤ MAX_PROJECT_BYTES }
    ensures { ReadsEntities bytes.now result }
{
    let exchange = read(alloc, bytes)?;
    entities_of(alloc, exchange.items.as_slice())
}

/// The slices of a text behind its front, as far as they are whole instances, and not more than a file may have: what is kept of them, and
/// where they end.
fn gather(alloc: Global, bytes: &[u8], front: &Front) -> Result<(Gathered, usize), NoMemory>
    requires short { length bytes.now ≤ MAX_PROJECT_BYTES }
    requires front { IsFront (take front.now.len bytes.now) (exchange_of front.now.exchange) }
    requires few { length (exchange_of front.now.exchange).items ≤ MAX_INSTANCES }
    requires within { front.now.len ≤ length bytes.now }
    ensures { IfOk result (λ r. IsReadTo bytes.now r.1 r.0) }
{
    let mut gathered = Gathered::new(alloc);
    gathered.add(alloc, front.exchange.items.as_slice())?;
    let mut at = front.len;
    while let Some((items, len)) = next_slice(alloc, &bytes[at..])? {
        if gathered.numbers.len() + items.as_slice().len() > MAX_INSTANCES {
            break;
        }
        gathered.add(alloc, items.as_slice())?;
        at += len;
    }
    Ok((gathered, at))
}

/// The entities of a text, or why there are none. What is left behind the slices, be it the file's end or what refuses it, is read at once.
pub fn entities_in(alloc: Global, bytes: &[u8]) -> Result<Vec<Entity>, ProjectErr>
    requires { length bytes.now ≤ MAX_PROJECT_BYTES }
    ensures { ReadsEntities bytes.now result }
{
    let Some(front) = front_of(alloc, bytes)? else {
        return entities_whole(alloc, bytes);
    };
    let (mut gathered, at) = gather(alloc, bytes, &front)?;
    let rest = read_behind(alloc, bytes, at as u32, gathered.numbers.as_slice())?;
    gathered.add(alloc, rest.as_slice())?;
    gathered.finish()
}
