//! What a text is put together from.

ghost use Rattle.std.specs.Prelude.{◌≡◌, ◌++◌, ◌∷◌, OnOk, decimal};
ghost use Rattle.p21_print.specs.Printed.{between};

use itoa::Buffer;
use nc_base::{NoMemory, Number};

/// Puts bytes at the end of a text.
pub fn put(out: &mut Vec<u8>, bytes: &[u8]) -> Result<(), NoMemory>
    ensures { OnOk result (out.new.items ≡ out.old.items ++ bytes.now) }
{
    out.extend_from_slice(bytes)?;
    Ok(())
}

/// Puts bytes between two of the same marks.
pub fn put_between(out: &mut Vec<u8>, mark: u8, bytes: &[u8]) -> Result<(), NoMemory>
    ensures { OnOk result (out.new.items ≡ out.old.items ++ between mark bytes.now) }
{
    out.push(mark)?;
    out.extend_from_slice(bytes)?;
    out.push(mark)?;
    Ok(())
}

/// Puts the name of an instance, with no leading zeros (ISO 10303-21, entity instance names).
pub fn put_name(out: &mut Vec<u8>, number: Number) -> Result<(), NoMemory>
    ensures { OnOk result (out.new.items ≡ out.old.items ++ 35 ∷ decimal number) }
{
    let mut buffer = Buffer::new();
    out.push(b'#')?;
    out.extend_from_slice(buffer.format(number).as_bytes())?;
    Ok(())
}
