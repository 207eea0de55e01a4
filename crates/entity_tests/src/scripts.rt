//! Texts that are read as scripts of edits, or refused. Each place was counted by hand.

use edit_script::{ScriptErr, read};
use entity_types::Script;
use p21_lex::MAX_TEXT;
use std::alloc::{AllocError, Global};
use std::process::Abort;
use std::test::Fail;

// In each row the parts of a text, between `~`, and then what it holds: the edits, each with when it is due and its numbers, or the refusal.
// `×32` says that the part stands there 32 times, `@5` stands for instances 1 to 5, and `¶` is a line feed.

/// Scripts: of no edit, of one and of two, with blanks and comments, and with keywords that are words of scripts too.
const HELD: &str = "|edits\n\
    ¶/* nothing */¶|edits\n\
    EDIT AT 0;ENDEDIT;|edits 0:\n\
    EDIT AT 9999999;ENDEDIT;|edits 9999999:\n\
    EDIT AT 5;#1=A();#2=CHANNEL('0');ENDEDIT;EDIT AT 5;#1=A();ENDEDIT;|edits 5:1,2 5:1\n\
    EDIT AT 0;ENDEDIT;EDIT AT 10;#7=A();ENDEDIT;|edits 0: 10:7\n\
    ¶EDIT/* a */AT¶7 ;¶#0012=A(1) ;/* b */¶ENDEDIT/**/;¶/* c */|edits 7:12\n\
    EDIT AT 1;#1=EDIT(AT(1));#2=(AT()ENDEDIT());ENDEDIT;|edits 1:1,2\n\
    EDIT AT 0;#1=A~(×32~)×32~;ENDEDIT;|edits 0:1\n";

/// Faults of tokens, which come before all others.
const UNREAD: &str = "EDIT AT 0;#0=A();ENDEDIT;|Lex(BadName(10))\n\
    X;EDIT a|Lex(BadByte(7))\n\
    EDIT AT 0;#1=A('x);|Lex(OpenString(15))\n\
    EDIT AT 5;ENDEDIT;EDIT AT 4;ENDEDIT;/*|Lex(OpenComment(36))\n";

/// Where no script goes on.
const UNGRAMMATICAL: &str = "X|Syntax(0)\n\
    ;|Syntax(0)\n\
    !EDIT AT 0;ENDEDIT;|Syntax(0)\n\
    EDIT|Syntax(4)\n\
    EDIT X|Syntax(5)\n\
    EDIT AT|Syntax(7)\n\
    EDIT AT 00;|Syntax(8)\n\
    EDIT AT 01;|Syntax(8)\n\
    EDIT AT 12345678;|Syntax(8)\n\
    EDIT AT -1;|Syntax(8)\n\
    EDIT AT +1;|Syntax(8)\n\
    EDIT AT 1.;|Syntax(8)\n\
    EDIT AT #1;|Syntax(8)\n\
    EDIT AT '1';|Syntax(8)\n\
    EDIT AT 0|Syntax(9)\n\
    EDIT AT 0 X|Syntax(10)\n\
    EDIT AT 0;|Syntax(10)\n\
    EDIT AT 0;X|Syntax(10)\n\
    EDIT AT 0;EDIT AT 0;|Syntax(10)\n\
    EDIT AT 0;#1 A();|Syntax(13)\n\
    EDIT AT 0;#1=A()|Syntax(16)\n\
    EDIT AT 0;#1=A();|Syntax(17)\n\
    EDIT AT 0;#1=A();END;|Syntax(17)\n\
    EDIT AT 0;#1=ENDEDIT;|Syntax(20)\n\
    EDIT AT 0;ENDEDIT|Syntax(17)\n\
    EDIT AT 0;ENDEDIT X|Syntax(18)\n\
    EDIT AT 0;ENDEDIT;X|Syntax(18)\n\
    EDIT AT 0;ENDEDIT;#1=A();|Syntax(18)\n\
    EDIT AT 0;ENDEDIT;EDIT AT 0;|Syntax(28)\n\
    EDIT AT 5;ENDEDIT;EDIT AT 4;ENDEDIT;X|Syntax(36)\n\
    EDIT AT 0;#1=A();#1=A();ENDEDIT;EDIT|Syntax(36)\n\
    EDIT AT 0;#1=A~(×33|TooDeep(46)\n\
    EDIT AT 0;#1=A~(×33~)×33~;ENDEDIT;|TooDeep(46)\n\
    EDIT AT 0;#1=A~(×32~X|Syntax(47)\n";

/// The first fault of an edit: of an earlier edit before that of a later one, and in one edit when it is due, then numbers, then attributes.
const FAULTY: &str = "EDIT AT 5;ENDEDIT;EDIT AT 4;ENDEDIT;|AtOrder(1)\n\
    EDIT AT 0;#1=A();#2=A();#2=A();#1=A();ENDEDIT;|Repeated(0, 2)\n\
    EDIT AT 0;#9=A();#2=A();#5=A();#9=A();#9=A();#2=A();ENDEDIT;|Repeated(0, 9)\n\
    EDIT AT 0;#3=A();ENDEDIT;EDIT AT 1;#3=A();#0003=A();ENDEDIT;|Repeated(1, 3)\n\
    EDIT AT 0;#7=CHANNEL();#8=CARTESIAN_POINT();#9=PLANE('',1);ENDEDIT;|Attribute(0, 8, 2)\n\
    EDIT AT 0;#7=IF_STATEMENT('',#1,3,4);ENDEDIT;|Attribute(0, 7, 3)\n\
    EDIT AT 5;ENDEDIT;EDIT AT 4;#1=DIRECTION();#1=DIRECTION();ENDEDIT;|AtOrder(1)\n\
    EDIT AT 5;#1=DIRECTION();#1=DIRECTION();ENDEDIT;|Repeated(0, 1)\n\
    EDIT AT 5;#1=DIRECTION();ENDEDIT;EDIT AT 4;ENDEDIT;|Attribute(0, 1, 2)\n\
    EDIT AT 5;#1=A();#1=A();ENDEDIT;EDIT AT 4;ENDEDIT;|Repeated(0, 1)\n";

/// As many edits and instances as there may be, and one more. What is held is how many edits there are, and instances in all.
const MANY: &str = "EDIT AT 0;ENDEDIT;×1000|1000 edits of 0\n\
    EDIT AT 0;ENDEDIT;×1001|TooMany(18000)\n\
    EDIT AT 0;ENDEDIT;×1000~X|Syntax(18000)\n\
    EDIT AT 0;ENDEDIT;×1000~EDIT|TooMany(18000)\n\
    EDIT AT 0;~@1000~ENDEDIT;|1 edits of 1000\n\
    EDIT AT 0;~@1001~ENDEDIT;|TooMany(8903)\n\
    EDIT AT 0;~#1=A();×1001~ENDEDIT;|TooMany(7010)\n\
    EDIT AT 0;~#1=A();×1000~ENDEDIT;|Repeated(0, 1)\n\
    EDIT AT 0;~@1000~ENDEDIT;EDIT AT 0;~@1001|TooMany(17814)\n";

/// The number that decimal digits are. Those of the tables fit.
fn number(digits: &str) -> u32 {
    let mut value: u32 = 0;
    for digit in digits.bytes() {
        value = value
            .wrapping_mul(10)
            .wrapping_add(u32::from(digit.wrapping_sub(b'0')));
    }
    value
}

/// Puts a part of a row.
fn put(alloc: Global, text: &mut String, part: &str) -> Result<(), AllocError> {
    if let Some(last) = part.strip_prefix('@') {
        for n in 1..=number(last) {
            let instance = format!(in alloc; "#{n}=A();")?;
            text.push_str(&instance)?;
        }
        return Ok(());
    }
    let (piece, times) = part.split_once('×').unwrap_or((part, "1"));
    for _ in 0..number(times) {
        text.push_str(piece)?;
    }
    Ok(())
}

/// The text of a row.
fn text_of(alloc: Global, parts: &str) -> Result<String, AllocError> {
    let mut joined = String::new(alloc);
    for part in parts.split('~') {
        put(alloc, &mut joined, part)?;
    }
    let mut text = String::new(alloc);
    for c in joined.chars() {
        text.push(if c == '¶' { '\n' } else { c })?;
    }
    Ok(text)
}

/// The script of a text. It promises nothing, so that its callers are proved without what reading promises.
fn script_in(rt: &impl Abort, alloc: Global, text: &[u8]) -> Result<Script, ScriptErr> {
    assert!(rt; text.len() <= MAX_TEXT as usize);
    read(alloc, text)
}

/// The edits of a script, as the rows have them.
fn listed(alloc: Global, script: &Script) -> Result<String, AllocError> {
    let mut shown = format!(in alloc; "edits")?;
    for edit in script.as_slice() {
        let at = format!(in alloc; " {}:", edit.at)?;
        shown.push_str(&at)?;
        for (i, item) in edit.items.as_slice().iter().enumerate() {
            let comma = if i == 0 { "" } else { "," };
            let n = format!(in alloc; "{comma}{}", item.number)?;
            shown.push_str(&n)?;
        }
    }
    Ok(shown)
}

/// How many edits a script has, and instances in all.
fn counted(alloc: Global, script: &Script) -> Result<String, AllocError> {
    let mut items: u32 = 0;
    for edit in script.as_slice() {
        items = items.wrapping_add(edit.items.len());
    }
    format!(in alloc; "{} edits of {items}", script.len())
}

fn expect_row(rt: &impl Abort, alloc: Global, line: &str, is_long: bool) -> Result<(), Fail> {
    let (parts, want) = line.split_once('|').ok_or("a row without an answer")?;
    let text = text_of(alloc, parts)?;
    let shown = match script_in(rt, alloc, text.as_bytes()) {
        Ok(script) if is_long => counted(alloc, &script)?,
        Ok(script) => listed(alloc, &script)?,
        Err(e) => format!(in alloc; "{e:?}")?,
    };
    assert_eq!(rt; shown.as_str(), want, "of {parts}");
    Ok(())
}

#[test]
fn scripts_and_refusals(rt: HostRuntime) -> Result<(), Fail> {
    for table in [HELD, UNREAD, UNGRAMMATICAL, FAULTY] {
        for line in table.lines() {
            expect_row(&rt, rt.alloc(), line, false)?;
        }
    }
    Ok(())
}

#[test]
fn many_edits_and_instances(rt: HostRuntime) -> Result<(), Fail> {
    for line in MANY.lines() {
        expect_row(&rt, rt.alloc(), line, true)?;
    }
    Ok(())
}
