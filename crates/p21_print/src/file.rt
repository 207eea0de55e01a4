//! The whole file.

ghost use Rattle.std.specs.Prelude.{◌≡◌, ◌<◌, map, Err, OnOk, IfOk};
ghost use Rattle.p21_parse.specs.declared.limits.TheConstants.{MAX_NESTING};
ghost use Rattle.p21_parse.specs.Nesting.{exchange_nesting};
ghost use Rattle.p21_parse.specs.Spell.{spell_all, spell_instance, spell_entry};
ghost use Rattle.p21_parse.specs.View.{part_of, instance_of, exchange_of};
ghost use Rattle.p21_parse.specs.Allowed.{IsAllowed};
ghost use Rattle.p21_parse.specs.Spelled.{IsSpelled};
ghost use Rattle.p21_parse.specs.Text.{IsText};
ghost use Rattle.p21_print.specs.Printed.{printed};
ghost use Rattle.p21_print.specs.Appends.{Appends};

use crate::error::PrintErr;
use crate::parts::{put_entry, put_instance};
use crate::pieces::put;
use crate::shallow::exchange_is_shallow;
use nc_base::NoMemory;
use p21_parse::{Exchange, Instance, Part};
use std::alloc::Global;

fn put_head(out: &mut Vec<u8>, entries: &[Part]) -> Result<(), NoMemory>
    ensures { OnOk result (Appends (spell_all spell_entry (map part_of entries.now)) out.old.items out.new.items) }
{
    for entry in entries {
        put_entry(out, entry)?;
    }
    Ok(())
}

fn put_items(out: &mut Vec<u8>, items: &[Instance]) -> Result<(), NoMemory>
    ensures { OnOk result (Appends (spell_all spell_instance (map instance_of items.now)) out.old.items out.new.items) }
{
    for instance in items {
        put_instance(out, instance)?;
    }
    Ok(())
}

/// The text of an exchange (ISO 10303-21, clear text encoding, in this profile). Each entry of the header and each instance has
/// a line of its own. There are no comments, and no blanks but the line feed behind each semicolon. Names have no leading zeros,
/// and all else stands as it was written. What was read reads back as the same exchange, where its text has at most 268,435,456
/// bytes. An exchange that no text has, as one with a text of a single apostrophe, is printed by the same rules.
///
/// # Errors
/// `TooDeep` where more than 32 parentheses lie in one another, as in an exchange that was made by hand. Or `NoMemory`.
pub fn print(alloc: Global, x: &Exchange) -> Result<Vec<u8>, PrintErr>
    ensures refused { result ≡ Err PrintErr.TooDeep → MAX_NESTING < exchange_nesting (exchange_of x.now) }
    ensures refuses { MAX_NESTING < exchange_nesting (exchange_of x.now) → result ≡ Err PrintErr.TooDeep }
    ensures text { IfOk result (λ v. v.items ≡ printed (exchange_of x.now)) }
    ensures back { IsAllowed (exchange_of x.now) → IsSpelled (exchange_of x.now) → IfOk result (λ v. IsText v.items (exchange_of x.now)) }
{
    if !exchange_is_shallow(x) {
        return Err(PrintErr::TooDeep);
    }
    let mut out = Vec::new(alloc);
    put(&mut out, b"ISO-10303-21;\nHEADER;\n")?;
    put_head(&mut out, x.head.as_slice())?;
    put(&mut out, b"ENDSEC;\nDATA;\n")?;
    put_items(&mut out, x.items.as_slice())?;
    put(&mut out, b"ENDSEC;\nEND-ISO-10303-21;\n")?;
    Ok(out)
}
