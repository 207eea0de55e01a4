//! The edits of a text.

ghost use Rattle.std.specs.Prelude.{◌≡◌, ◌≤◌, ℕ, List, length, IfOk, IfErr, Ok, Err};
ghost use Rattle.edit_script.specs.declared.limits.TheConstants.{MAX_EDITS};
ghost use Rattle.edit_script.specs.declared.error.ScriptErr.{ScriptErr};
ghost use Rattle.edit_script.specs.Edits.{EditModel};
ghost use Rattle.edit_script.specs.Reads.{Holds, Refuses, Reads, Gives};
ghost use Rattle.edit_script.specs.Source.{IsSource, TellsFrom};
ghost use Rattle.edit_script.specs.Gathering.{IsReadWhole};

use crate::error::ScriptErr;
use crate::gathered::Gathered;
use crate::laws::script_laws;
use crate::limits::MAX_EDITS;
use crate::source::Source;
use entity_types::Script;
use p21_lex::{MAX_TEXT, tokens, tokens_fit};
use std::alloc::Global;

/// All edits of a text, one after another: what is kept of them.
fn gather(alloc: Global, source: &Source) -> Result<Gathered, ScriptErr>
    requires { IsSource source.now }
    ensures read { IfOk result (IsReadWhole source.now) }
    ensures refused { IfErr result (TellsFrom source.now MAX_EDITS 0) }
{
    let mut gathered = Gathered::new(alloc);
    let mut at = 0;
    while at < source.tokens.len() {
        if gathered.count >= MAX_EDITS {
            return Err(source.one_more(at));
        }
        let (written, next) = source.edit(alloc, at)?;
        gathered.add(alloc, &written)?;
        at = next;
    }
    Ok(gathered)
}

/// The edits of a text, or why it holds none.
fn edits_in(alloc: Global, bytes: &[u8]) -> Result<Script, ScriptErr>
    requires { length bytes.now ≤ MAX_TEXT }
    ensures { Reads bytes.now result }
{
    let found = tokens(alloc, bytes)?;
    let tokens = found.as_slice();
    tokens_fit(bytes, tokens);
    let source = Source { bytes, tokens };
    let gathered = gather(alloc, &source)?;
    gathered.finish()
}

/// The script of edits in a text of at most `MAX_TEXT` bytes: any number of `EDIT AT n ; instances ENDEDIT ;` up to `MAX_EDITS`, in the tokens of clear
/// text (ISO 10303-21), where n, of one to seven digits, says from when on the edit is due, in entries of the log, and the instances, up to
/// `MAX_ITEMS`, are what it puts into the project (this profile). No edit is due before the one in front of it, and none puts a number twice.
///
/// # Errors
/// The first reason why the text holds none, in the order of `ScriptErr`, or `NoMemory`, where memory runs out.
pub fn read(alloc: Global, bytes: &[u8]) -> Result<Script, ScriptErr>
    requires { length bytes.now ≤ MAX_TEXT }
    // What is read stands in the text, and a refusal has its cause there.
    ensures read { Reads bytes.now result }
    // What stands in the text is read, unless memory runs out.
    ensures only { (script : List EditModel) → Holds bytes.now script → Gives result (Ok script) }
    // A cause gives its refusal, unless memory runs out.
    ensures refuses { (e : ScriptErr) → Refuses bytes.now e → Gives result (Err e) }
{
    script_laws();
    edits_in(alloc, bytes)
}
