//! Parts, instances and entries of the header.

ghost use Rattle.std.specs.Prelude.{map, OnOk};
ghost use Rattle.p21_parse.specs.Spell.{spell_part, spell_all, spell_parts, spell_instance, spell_entry};
ghost use Rattle.p21_parse.specs.View.{part_of, instance_of};
ghost use Rattle.p21_print.specs.Appends.{Appends};

use crate::params::put_list;
use crate::pieces::{put, put_name};
use nc_base::NoMemory;
use p21_parse::{Instance, Part};

/// Puts a keyword and its parameters.
fn put_part(out: &mut Vec<u8>, part: &Part) -> Result<(), NoMemory>
    ensures { OnOk result (Appends (spell_part (part_of part.now)) out.old.items out.new.items) }
{
    put(out, part.keyword.bytes())?;
    put_list(out, &part.parameters)
}

/// Puts parts, one behind the other.
fn put_all(out: &mut Vec<u8>, parts: &[Part]) -> Result<(), NoMemory>
    ensures { OnOk result (Appends (spell_all spell_part (map part_of parts.now)) out.old.items out.new.items) }
{
    for part in parts {
        put_part(out, part)?;
    }
    Ok(())
}

/// Puts the parts of an instance: those of a complex one in their outer parentheses.
fn put_parts(out: &mut Vec<u8>, complex: bool, parts: &[Part]) -> Result<(), NoMemory>
    ensures { OnOk result (Appends (spell_parts complex (map part_of parts.now)) out.old.items out.new.items) }
{
    if !complex {
        return put_all(out, parts);
    }
    put(out, b"(")?;
    put_all(out, parts)?;
    put(out, b")")
}

/// Puts an instance in a line of its own.
pub fn put_instance(out: &mut Vec<u8>, instance: &Instance) -> Result<(), NoMemory>
    ensures { OnOk result (Appends (spell_instance (instance_of instance.now)) out.old.items out.new.items) }
{
    put_name(out, instance.number)?;
    put(out, b"=")?;
    put_parts(out, instance.complex, instance.parts.as_slice())?;
    put(out, b";\n")
}

/// Puts an entry of the header in a line of its own.
pub fn put_entry(out: &mut Vec<u8>, entry: &Part) -> Result<(), NoMemory>
    ensures { OnOk result (Appends (spell_entry (part_of entry.now)) out.old.items out.new.items) }
{
    put_part(out, entry)?;
    put(out, b";\n")
}
