//! The rest of a text whose front was read before.

use crate::rows::{bytes_of, row};
use crate::shared::{HEAD, joined};
use nc_base::Number;
use p21_lex::MAX_TEXT;
use p21_parse::{InstanceList, MAX_INSTANCES, read_behind};
use std::alloc::{AllocError, Global};
use std::process::Abort;
use std::test::Fail;

/// What stands before the place: the head and instance 5, 146 bytes.
const INSTANCE: &[u8] = b"#5=A();";

/// In each row the rest of the text, and the numbers of the instances in it, or why the whole text is refused.
const RESTS: &str = "ENDSEC;¶END-ISO-10303-21;¶|\n\
    #6=A();#7=B();ENDSEC;END-ISO-10303-21;| 6 7\n\
    ¶/*;*/#4=A(#5);ENDSEC;END-ISO-10303-21;| 4\n\
    |Syntax(146)\n\
    ENDSEC;|Syntax(153)\n\
    #6=A(;|Syntax(151)\n\
    #6=A();;|Syntax(153)\n\
    #6=a|Lex(BadByte(149))\n\
    #5=A();ENDSEC;END-ISO-10303-21;|Duplicate(5)\n\
    #6=A();#6|Duplicate(6)\n\
    #6=A(((((((((((((((((((((((((((((((((|TooDeep(182)\n\
    #5=A(((((((((((((((((((((((((((((((((|Duplicate(5)\n";

/// The numbers of instances, with a blank before each.
fn numbers_of(alloc: Global, items: &InstanceList) -> Result<String, AllocError> {
    let mut text = String::new(alloc);
    for item in items.as_slice() {
        let number = item.number;
        text.push_str(&format!(in alloc; " {number}")?)?;
    }
    Ok(text)
}

/// What stands behind a place of a text, before which instances of these numbers stand, or why the text is refused.
fn shown(
    rt: &impl Abort,
    alloc: Global,
    text: &[u8],
    from: usize,
    numbers: &[Number],
) -> Result<String, AllocError> {
    assert!(rt; text.len() <= MAX_TEXT as usize);
    assert!(rt; from <= text.len());
    assert!(rt; numbers.len() <= MAX_INSTANCES as usize);
    match read_behind(alloc, text, from as u32, numbers) {
        Ok(items) => numbers_of(alloc, &items),
        Err(refusal) => format!(in alloc; "{refusal:?}"),
    }
}

fn expect_rest(rt: &impl Abort, alloc: Global, line: &str) -> Result<(), Fail> {
    let (rest, want) = row(line);
    let rest = bytes_of(alloc, rest)?;
    let text = joined(alloc, &[(HEAD, 1), (INSTANCE, 1), (&rest, 1)])?;
    let found = shown(rt, alloc, text.as_slice(), 146, &[5])?;
    assert_eq!(rt; found.as_str(), want, "of {line}");
    Ok(())
}

#[test]
fn rests_are_read_or_refused_as_the_whole_text(rt: HostRuntime) -> Result<(), Fail> {
    for line in RESTS.lines() {
        expect_rest(&rt, rt.alloc(), line)?;
    }
    Ok(())
}
