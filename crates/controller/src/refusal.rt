//! The lines that say why a project, a script, a schedule or a log is refused.

ghost use Rattle.std.specs.Prelude.{◌≡◌, ◌+◌, ◌≤◌, ◌++◌, ◌∷◌, length};
ghost use Rattle.arrayvec.specs.ArrayVec.{array_vec_len};
ghost use Rattle.controller.specs.Refusal.{one, two, three, lex_text, read_text, type_text, store_text, tree_text, fault_text, reason_text, refusal_line, edits_text, script_text, script_line, log_text, log_line};

use crate::status::{LogReason, ScriptReason};
use edit_script::ScriptErr;
use entity_read::TypeErr;
use exec_tree::TreeErr;
use itoa::Buffer;
use nc_base::{Line, put, put_number};
use p21_lex::LexErr;
use p21_parse::ReadErr;
use project_read::ProjectReason;
use project_store::StoreErr;
use step_def::DefFault;

/// Puts a name and a number at the line's end.
fn put_one(line: &mut Line, name: &[u8], a: u32)
    requires { array_vec_len line.old + (length name.now + 41) ≤ 256 }
    ensures items { line.new.items ≡ line.old.items ++ one name.now a }
    ensures len { array_vec_len line.new ≤ array_vec_len line.old + (length name.now + 41) }
{
    put(line, name);
    put_number(line, a);
}

/// Puts a name and two numbers at the line's end.
fn put_two(line: &mut Line, name: &[u8], a: u32, b: u64)
    requires { array_vec_len line.old + (length name.now + 82) ≤ 256 }
    ensures items { line.new.items ≡ line.old.items ++ two name.now a b }
    ensures len { array_vec_len line.new ≤ array_vec_len line.old + (length name.now + 82) }
{
    put_one(line, name, a);
    let mut buffer = Buffer::new();
    put(line, b" ");
    put(line, buffer.format(b).as_bytes());
}

/// Puts a name and three numbers at the line's end.
fn put_three(line: &mut Line, name: &[u8], a: u32, b: u32, c: u32)
    requires { array_vec_len line.old + (length name.now + 123) ≤ 256 }
    ensures items { line.new.items ≡ line.old.items ++ three name.now a b c }
    ensures len { array_vec_len line.new ≤ array_vec_len line.old + (length name.now + 123) }
{
    put_two(line, name, a, u64::from(b));
    put_number(line, c);
}

/// Puts the fault of a text's tokens at the line's end.
fn put_lex(line: &mut Line, fault: LexErr)
    requires { array_vec_len line.old + 60 ≤ 256 }
    ensures items { line.new.items ≡ line.old.items ++ lex_text fault }
    ensures len { array_vec_len line.new ≤ array_vec_len line.old + 60 }
{
    match fault {
        LexErr::BadByte(place) => put_one(line, b"BadByte", place),
        LexErr::BadName(place) => put_one(line, b"BadName", place),
        LexErr::OpenString(place) => put_one(line, b"OpenString", place),
        LexErr::OpenComment(place) => put_one(line, b"OpenComment", place),
        LexErr::NumberTooLong(place) => put_one(line, b"NumberTooLong", place),
        LexErr::NoMemory => put(line, b"NoMemory"),
    }
}

/// Puts the fault of a text at the line's end.
fn put_read(line: &mut Line, fault: ReadErr)
    requires { array_vec_len line.old + 60 ≤ 256 }
    ensures items { line.new.items ≡ line.old.items ++ read_text fault }
    ensures len { array_vec_len line.new ≤ array_vec_len line.old + 60 }
{
    match fault {
        ReadErr::Lex(fault) => put_lex(line, fault),
        ReadErr::Syntax(place) => put_one(line, b"Syntax", place),
        ReadErr::TooDeep(place) => put_one(line, b"TooDeep", place),
        ReadErr::TooMany(place) => put_one(line, b"TooMany", place),
        ReadErr::Duplicate(n) => put_one(line, b"Duplicate", n),
        ReadErr::NoMemory => put(line, b"NoMemory"),
    }
}

/// Puts the fault of an instance at the line's end.
fn put_type(line: &mut Line, fault: TypeErr)
    requires { array_vec_len line.old + 100 ≤ 256 }
    ensures items { line.new.items ≡ line.old.items ++ type_text fault }
    ensures len { array_vec_len line.new ≤ array_vec_len line.old + 100 }
{
    match fault {
        TypeErr::BadAttribute(n, position) => {
            put_two(line, b"BadAttribute", n, u64::from(position));
        }
        TypeErr::NoMemory => put(line, b"NoMemory"),
    }
}

/// Puts the fault of a list of entities at the line's end.
fn put_store(line: &mut Line, fault: StoreErr)
    requires { array_vec_len line.old + 100 ≤ 256 }
    ensures items { line.new.items ≡ line.old.items ++ store_text fault }
    ensures len { array_vec_len line.new ≤ array_vec_len line.old + 100 }
{
    match fault {
        StoreErr::NoProject => put(line, b"NoProject"),
        StoreErr::ManyProjects(n) => put_one(line, b"ManyProjects", n),
        StoreErr::Unresolved(n, reference) => {
            put_two(line, b"Unresolved", n, u64::from(reference));
        }
        StoreErr::WrongKind(n, position) => put_two(line, b"WrongKind", n, u64::from(position)),
        StoreErr::NoMemory => put(line, b"NoMemory"),
    }
}

/// Puts the fault of a tree at the line's end.
fn put_tree(line: &mut Line, fault: TreeErr)
    requires { array_vec_len line.old + 60 ≤ 256 }
    ensures items { line.new.items ≡ line.old.items ++ tree_text fault }
    ensures len { array_vec_len line.new ≤ array_vec_len line.old + 60 }
{
    match fault {
        TreeErr::Shared(n) => put_one(line, b"Shared", n),
        TreeErr::TooDeep(n) => put_one(line, b"TreeTooDeep", n),
        TreeErr::TooManyNodes => put(line, b"TooManyNodes"),
        TreeErr::ExprTooBig(n) => put_one(line, b"ExprTooBig", n),
        TreeErr::TooManyChannels => put(line, b"TooManyChannels"),
        TreeErr::NewChannel(n) => put_one(line, b"NewChannel", n),
        TreeErr::NoMemory => put(line, b"NoMemory"),
    }
}

/// Puts the fault of a definition at the line's end.
fn put_fault(line: &mut Line, fault: DefFault)
    requires { array_vec_len line.old + 100 ≤ 256 }
    ensures items { line.new.items ≡ line.old.items ++ fault_text fault }
    ensures len { array_vec_len line.new ≤ array_vec_len line.old + 100 }
{
    match fault {
        DefFault::Missing(n, position) => put_two(line, b"Missing", n, u64::from(position)),
        DefFault::HasToolpath(operation) => put_one(line, b"HasToolpath", operation),
        DefFault::BadDirection(n) => put_one(line, b"BadDirection", n),
        DefFault::Mismatch(operation, feature) => {
            put_two(line, b"Mismatch", operation, u64::from(feature));
        }
        DefFault::NotRectangle(n) => put_one(line, b"NotRectangle", n),
        DefFault::NotPositive(n, position) => put_two(line, b"NotPositive", n, u64::from(position)),
        DefFault::OutOfRange(n, position) => put_two(line, b"OutOfRange", n, u64::from(position)),
        DefFault::ToolTooBig(tool) => put_one(line, b"ToolTooBig", tool),
        DefFault::TooManyBlocks(n, count) => put_two(line, b"TooManyBlocks", n, count),
    }
}

/// Puts the name and the numbers of a reason at the line's end.
fn put_reason(line: &mut Line, reason: ProjectReason)
    requires { array_vec_len line.old + 200 ≤ 256 }
    ensures items { line.new.items ≡ line.old.items ++ reason_text reason }
    ensures len { array_vec_len line.new ≤ array_vec_len line.old + 200 }
{
    match reason {
        ProjectReason::TooLong => put(line, b"TooLong"),
        ProjectReason::Read(fault) => put_read(line, fault),
        ProjectReason::Attribute(fault) => put_type(line, fault),
        ProjectReason::Store(fault) => put_store(line, fault),
        ProjectReason::Tree(fault) => put_tree(line, fault),
        ProjectReason::Definition(n, fault) => {
            put_one(line, b"Definition", n);
            put(line, b" ");
            put_fault(line, fault);
        }
        ProjectReason::NoStep(n) => put_one(line, b"NoStep", n),
    }
}

/// The line that says why a project is refused.
pub fn refusal_line(reason: ProjectReason) -> Line
    ensures { result.items ≡ refusal_line reason }
{
    let mut line = Line::new();
    put(&mut line, b"refused ");
    put_reason(&mut line, reason);
    put(&mut line, b"\n");
    line
}

/// Puts the fault of a script's text at the line's end.
fn put_edits(line: &mut Line, fault: ScriptErr)
    requires { array_vec_len line.old + 140 ≤ 256 }
    ensures items { line.new.items ≡ line.old.items ++ edits_text fault }
    ensures len { array_vec_len line.new ≤ array_vec_len line.old + 140 }
{
    match fault {
        ScriptErr::Lex(fault) => put_lex(line, fault),
        ScriptErr::Syntax(place) => put_one(line, b"Syntax", place),
        ScriptErr::TooDeep(place) => put_one(line, b"TooDeep", place),
        ScriptErr::TooMany(place) => put_one(line, b"TooMany", place),
        ScriptErr::AtOrder(edit) => put_one(line, b"AtOrder", edit),
        ScriptErr::Repeated(edit, n) => put_two(line, b"Repeated", edit, u64::from(n)),
        ScriptErr::Attribute(edit, n, position) => {
            put_three(line, b"Attribute", edit, n, position);
        }
        ScriptErr::NoMemory => put(line, b"NoMemory"),
    }
}

/// Puts the name and the numbers of a reason at the line's end.
fn put_script(line: &mut Line, reason: ScriptReason)
    requires { array_vec_len line.old + 140 ≤ 256 }
    ensures items { line.new.items ≡ line.old.items ++ script_text reason }
    ensures len { array_vec_len line.new ≤ array_vec_len line.old + 140 }
{
    match reason {
        ScriptReason::TooLong => put(line, b"TooLong"),
        ScriptReason::Script(fault) => put_edits(line, fault),
        ScriptReason::Schedule(place) => put_one(line, b"Schedule", place),
    }
}

/// The line that says why a script or a schedule is refused.
pub fn script_line(reason: ScriptReason) -> Line
    ensures { result.items ≡ script_line reason }
{
    let mut line = Line::new();
    put(&mut line, b"refused ");
    put_script(&mut line, reason);
    put(&mut line, b"\n");
    line
}

/// Puts the name and the number of a reason at the line's end.
fn put_log(line: &mut Line, reason: LogReason)
    requires { array_vec_len line.old + 60 ≤ 256 }
    ensures items { line.new.items ≡ line.old.items ++ log_text reason }
    ensures len { array_vec_len line.new ≤ array_vec_len line.old + 60 }
{
    match reason {
        LogReason::TooLong => put(line, b"TooLong"),
        LogReason::BadLine(number) => put_one(line, b"BadLine", number),
        LogReason::NoEnd => put(line, b"NoEnd"),
    }
}

/// The line that says why a file holds no log.
pub fn log_line(reason: LogReason) -> Line
    ensures { result.items ≡ log_line reason }
{
    let mut line = Line::new();
    put(&mut line, b"refused ");
    put_log(&mut line, reason);
    put(&mut line, b"\n");
    line
}
