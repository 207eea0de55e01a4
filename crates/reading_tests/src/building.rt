//! Exchanges made of instances, and instances alone.

use crate::made::{Kind, parts, simple, value, with_param};
use crate::shared::expect;
use ReadErr::{Syntax, TooDeep, TooMany};
use nc_base::{MAX_NUMBER, NcText, NoMemory, Number};
use p21_lex::{MAX_TEXT, tokens};
use p21_parse::{
    BuildErr, Exchange, Instance, InstanceList, Param, ParamList, Part, ReadErr, instances,
};
use std::alloc::Global;
use std::process::Abort;
use std::test::Fail;

// Values, and whether each can be written.
const VALUES: &[(Kind, &[u8], bool)] = &[
    (Kind::Int, b"0", true),
    (Kind::Int, b"-5", true),
    (Kind::Int, b"+005", true),
    (Kind::Int, b"-12345678901234567890123456789012345678", true),
    (Kind::Int, b"123456789012345678901234567890123456789", false),
    (Kind::Int, b"1.5", false),
    (Kind::Int, b"+", false),
    (Kind::Int, b"", false),
    (Kind::Int, b" 1", false),
    (Kind::Int, b"1 ", false),
    (Kind::Int, b"--1", false),
    (Kind::Real, b"1.", true),
    (Kind::Real, b"-0.5E-3", true),
    (Kind::Real, b"+1.5E+12", true),
    (
        Kind::Real,
        b"-123456789012345678.12345678901234567E-123",
        true,
    ),
    (
        Kind::Real,
        b"-123456789012345678.123456789012345678E-123",
        false,
    ),
    (Kind::Real, b"1", false),
    (Kind::Real, b".5", false),
    (Kind::Real, b"1.E", false),
    (Kind::Real, b"1.e5", false),
    (Kind::Text, b"", true),
    (Kind::Text, b"''", true),
    (Kind::Text, b"it''s", true),
    (Kind::Text, b" \t\r\n~\xff", true),
    (Kind::Text, b"'", false),
    (Kind::Text, b"it's", false),
    (Kind::Text, b"its'", false),
    (Kind::Text, b"'''", false),
    (Kind::Text, b"\x00", false),
    (Kind::Text, b"a\x00", false),
    (Kind::Text, b"\x1f", false),
    (Kind::Enumeration, b"T", true),
    (Kind::Enumeration, b"_B_1", true),
    (Kind::Enumeration, b"", false),
    (Kind::Enumeration, b"t", false),
    (Kind::Enumeration, b"1", false),
    (Kind::Enumeration, b"A-B", false),
    (Kind::Enumeration, b"A.B", false),
    (Kind::Binary, b"", true),
    (Kind::Binary, b"0AF", true),
    (Kind::Binary, b"0af", false),
    (Kind::Binary, b"G", false),
    (Kind::Binary, b"0\"", false),
];

// Keywords, and whether each can be written.
const KEYWORDS: &[(&[u8], bool)] = &[
    (b"A", true),
    (b"_1", true),
    (b"MACHINING_WORKINGSTEP", true),
    (b"!A", true),
    (b"!NC_1", true),
    (b"", false),
    (b"a", false),
    (b"A-B", false),
    (b"ISO-10303-21", false),
    (b"1A", false),
    (b"Aa", false),
    (b"A ", false),
    (b"!", false),
    (b"!!A", false),
    (b"!1", false),
    (b"!A-B", false),
    (b"A!", false),
];

// Numbers, and whether a name has each.
const NUMBERS: &[(Number, bool)] = &[
    (0, false),
    (1, true),
    (MAX_NUMBER, true),
    (2_147_483_648, false),
    (4_294_967_295, false),
];

// So many lists in one another.
fn nested(alloc: Global, count: u32) -> Result<Param, NoMemory> {
    let mut param = Param::List(ParamList::new(alloc));
    for _ in 1..count {
        let mut params = ParamList::new(alloc);
        params.push(param)?;
        param = Param::List(params);
    }
    Ok(param)
}

// A keyword with so many parameters that are not given.
fn typed(alloc: Global, keyword: &[u8], count: u32) -> Result<Param, NoMemory> {
    let mut params = ParamList::new(alloc);
    for _ in 0..count {
        params.push(Param::Unset)?;
    }
    Ok(Param::Typed(NcText::of(alloc, keyword)?, params))
}

fn with_parts(
    alloc: Global,
    number: Number,
    complex: bool,
    count: u32,
) -> Result<Instance, NoMemory> {
    Ok(Instance {
        number,
        complex,
        parts: parts(alloc, b"A", count)?,
    })
}

// What an instance is made of: one parameter, or its number or keyword or form.
#[derive(Clone, Copy)]
enum Case {
    Value(Kind, &'static [u8]),
    Reference(Number),
    // A keyword with so many parameters as a parameter.
    Typed(&'static [u8], u32),
    // So many lists in one another.
    Lists(u32),
    Unset,
    Derived,
    Named(Number),
    Keyword(&'static [u8]),
    // Whether it is complex, and how many parts it has.
    Parts(bool, u32),
}

fn param(alloc: Global, case: Case) -> Result<Param, NoMemory> {
    match case {
        Case::Value(kind, bytes) => value(alloc, kind, bytes),
        Case::Reference(number) => Ok(Param::Reference(number)),
        Case::Typed(keyword, count) => typed(alloc, keyword, count),
        Case::Lists(count) => nested(alloc, count),
        Case::Derived => Ok(Param::Derived),
        _ => Ok(Param::Unset),
    }
}

fn instance(alloc: Global, case: Case) -> Result<Instance, NoMemory> {
    match case {
        Case::Named(number) => simple(alloc, number, b"A"),
        Case::Keyword(keyword) => simple(alloc, 8, keyword),
        Case::Parts(complex, count) => with_parts(alloc, 8, complex, count),
        _ => with_param(alloc, 8, param(alloc, case)?),
    }
}

// How many instances an exchange has that is made of these, or why there is none.
fn made(alloc: Global, items: InstanceList) -> Result<u32, BuildErr> {
    let exchange = Exchange::of(alloc, items)?;
    Ok(exchange.items.len())
}

// An instance that can stand anywhere, and one behind it.
fn two(alloc: Global, case: Case) -> Result<InstanceList, NoMemory> {
    let mut items = InstanceList::new(alloc);
    items.push(simple(alloc, 7, b"A")?)?;
    items.push(instance(alloc, case)?)?;
    Ok(items)
}

// Stops unless the instance of the case can stand at index 1, behind another, or can't.
fn expect_stands(
    rt: &impl Abort,
    alloc: Global,
    row: usize,
    case: Case,
    valid: bool,
) -> Result<(), Fail> {
    let want = if valid {
        Ok(2)
    } else {
        Err(BuildErr::Invalid(1))
    };
    let answer = made(alloc, two(alloc, case)?);
    assert_eq!(rt; answer, want, "row {row}");
    Ok(())
}

#[test]
fn values_of_instances_are_looked_at(rt: HostRuntime) -> Result<(), Fail> {
    for (row, (kind, bytes, valid)) in VALUES.iter().enumerate() {
        let case = Case::Value(*kind, *bytes);
        expect_stands(&rt, rt.alloc(), row, case, *valid)?;
    }
    Ok(())
}

#[test]
fn numbers_of_instances_are_looked_at(rt: HostRuntime) -> Result<(), Fail> {
    for (row, (number, valid)) in NUMBERS.iter().enumerate() {
        for case in [Case::Reference(*number), Case::Named(*number)] {
            expect_stands(&rt, rt.alloc(), row, case, *valid)?;
        }
    }
    Ok(())
}

#[test]
fn keywords_of_instances_are_looked_at(rt: HostRuntime) -> Result<(), Fail> {
    for (row, (keyword, valid)) in KEYWORDS.iter().enumerate() {
        for case in [Case::Keyword(*keyword), Case::Typed(*keyword, 1)] {
            expect_stands(&rt, rt.alloc(), row, case, *valid)?;
        }
    }
    Ok(())
}

// Forms of instances and of parameters, and whether each can be written.
const FORMS: &[(Case, bool)] = &[
    (Case::Parts(false, 0), false),
    (Case::Parts(false, 1), true),
    (Case::Parts(false, 2), false),
    (Case::Parts(true, 0), false),
    (Case::Parts(true, 1), true),
    (Case::Parts(true, 2), true),
    (Case::Typed(b"B", 0), false),
    (Case::Typed(b"B", 1), true),
    (Case::Typed(b"B", 2), false),
    // The parentheses of the part are one more.
    (Case::Lists(1), true),
    (Case::Lists(31), true),
    (Case::Lists(32), false),
    (Case::Lists(100), false),
    (Case::Unset, true),
    (Case::Derived, true),
];

#[test]
fn forms_of_instances_are_looked_at(rt: HostRuntime) -> Result<(), Fail> {
    for (row, (case, valid)) in FORMS.iter().enumerate() {
        expect_stands(&rt, rt.alloc(), row, *case, *valid)?;
    }
    Ok(())
}

// Instances of these numbers and keywords.
fn listed(alloc: Global, rows: &[(Number, &[u8])]) -> Result<InstanceList, NoMemory> {
    let mut items = InstanceList::new(alloc);
    for (number, keyword) in rows {
        items.push(simple(alloc, *number, *keyword)?)?;
    }
    Ok(items)
}

#[test]
fn behind_an_instance_that_cant_stand_nothing_is_looked_at(rt: HostRuntime) -> Result<(), Fail> {
    let items = listed(rt.alloc(), &[(5, b"A"), (5, b"B"), (5, b"C"), (0, b"-")])?;
    expect(&rt, made(rt.alloc(), items), Err(BuildErr::Invalid(1)));
    Ok(())
}

// So many instances of distinct numbers, and one more.
fn many(alloc: Global, count: u32, last: Number) -> Result<InstanceList, NoMemory> {
    let mut items = InstanceList::new(alloc);
    for i in 0..count {
        items.push(simple(alloc, i.wrapping_add(1), b"A")?)?;
    }
    items.push(simple(alloc, last, b"A")?)?;
    Ok(items)
}

// How many instances of distinct numbers there are, the number of one more, and what that is made to.
const COUNTS: [(u32, Number, Result<u32, BuildErr>); 3] = [
    (199_999, 300_000, Ok(200_000)),
    (199_999, 1, Err(BuildErr::Invalid(199_999))),
    (200_000, 300_000, Err(BuildErr::Invalid(200_000))),
];

#[test]
fn numbers_and_counts_are_looked_at(rt: HostRuntime) -> Result<(), Fail> {
    for (count, last, want) in COUNTS {
        let items = many(rt.alloc(), count, last)?;
        expect(&rt, made(rt.alloc(), items), want);
    }
    Ok(())
}

fn is_empty_text(param: &Param) -> bool {
    match param {
        Param::Text(text) => text.is_empty(),
        _ => false,
    }
}

fn is_one_empty(param: &Param) -> bool {
    match param {
        Param::List(params) => match params.as_slice() {
            [only] => is_empty_text(only),
            _ => false,
        },
        _ => false,
    }
}

fn is_level(param: &Param) -> bool {
    match param {
        Param::Text(text) => text.bytes() == b"2;1".as_slice(),
        _ => false,
    }
}

// Whether a parameter is an empty text, a list of one, or the text `2;1`, by its form: `'`, `(` or `2`.
fn has_form(param: &Param, form: u8) -> bool {
    match form {
        b'\'' => is_empty_text(param),
        b'(' => is_one_empty(param),
        _ => is_level(param),
    }
}

fn have_forms(params: &[Param], forms: &[u8]) -> bool {
    for (param, form) in params.iter().zip(forms) {
        if !has_form(param, *form) {
            return false;
        }
    }
    params.len() == forms.len()
}

fn is_entry(entry: &Part, keyword: &[u8], forms: &[u8]) -> bool {
    entry.keyword.bytes() == keyword && have_forms(entry.parameters.as_slice(), forms)
}

// The entries of the standard header, and the forms of their parameters.
const ENTRIES: [(&[u8], &[u8]); 3] = [
    (b"FILE_DESCRIPTION", b"(2"),
    (b"FILE_NAME", b"''(('''"),
    (b"FILE_SCHEMA", b"("),
];

#[test]
fn instances_stand_under_the_standard_header(rt: HostRuntime) -> Result<(), Fail> {
    let exchange = Exchange::of(rt.alloc(), InstanceList::new(rt.alloc()))?;
    expect(&rt, exchange.items.len(), 0);
    expect(&rt, exchange.head.len(), 3);
    for (entry, (keyword, forms)) in exchange.head.as_slice().iter().zip(&ENTRIES) {
        assert!(rt; is_entry(entry, keyword, forms), "not {keyword:?}");
    }
    Ok(())
}

// Instances behind a word, and in front of one: #5 at byte 5, token 1; #6 at byte 12, token 7; END at token 14 of 15.
const MOVED: &[u8] = b"MOVE #5=A();#6=B(1);END";

// Texts, the token to begin at, how many instances there may be, and how many there are, up to which token, or why not.
type Row<'a> = (&'a [u8], u32, u32, Result<(u32, u32), ReadErr>);

const FOLLOWING: &[Row<'static>] = &[
    (b"", 0, 0, Ok((0, 0))),
    (b"", 0, 9, Ok((0, 0))),
    (MOVED, 0, 9, Ok((0, 0))),
    (MOVED, 1, 9, Ok((2, 14))),
    (MOVED, 1, 2, Ok((2, 14))),
    (MOVED, 1, 1, Err(TooMany(12))),
    (MOVED, 1, 0, Err(TooMany(5))),
    (MOVED, 3, 0, Ok((0, 3))),
    (MOVED, 7, 1, Ok((1, 14))),
    (MOVED, 7, 0, Err(TooMany(12))),
    (MOVED, 14, 0, Ok((0, 14))),
    (MOVED, 15, 0, Ok((0, 15))),
    // A number may come twice.
    (b"#5=A();#5=(B()!C(#5));", 0, 2, Ok((2, 18))),
    // Refusals at their places, and the earliest of two.
    (b"#5=A();#6 B();", 0, 2, Err(Syntax(10))),
    (b"#5=A();#6 B();", 0, 1, Err(TooMany(7))),
    (b"#5;#6=A();", 0, 1, Err(Syntax(2))),
    (b"#5;#6=A();", 0, 0, Err(TooMany(0))),
    (b"#5=A()", 0, 9, Err(Syntax(6))),
    (b"#5=A();#6", 0, 2, Err(Syntax(9))),
    (b"#5=A();#6", 0, 1, Err(TooMany(7))),
    (b"#5=A()  ", 0, 9, Err(Syntax(8))),
    (b"#5=A();=", 0, 9, Ok((1, 6))),
    (
        b"#5=A((((((((((((((((((((((((((((((((()))))))))))))))))))))))))))))))));",
        0,
        1,
        Err(TooDeep(36)),
    ),
    (
        b"#5=A(((((((((((((((((((((((((((((((())))))))))))))))))))))))))))))));#6=A();",
        0,
        1,
        Err(TooMany(69)),
    ),
];

fn following(
    rt: &impl Abort,
    alloc: Global,
    text: &[u8],
    from: u32,
    most: u32,
) -> Result<(InstanceList, u32), ReadErr> {
    assert!(rt; text.len() <= MAX_TEXT as usize);
    let tokens = tokens(alloc, text)?;
    assert!(rt; from as usize <= tokens.len());
    instances(alloc, text, tokens.as_slice(), from, most)
}

// How many instances follow, up to which token, or why not.
fn sizes_of(
    rt: &impl Abort,
    alloc: Global,
    text: &[u8],
    from: u32,
    most: u32,
) -> Result<(u32, u32), ReadErr> {
    let (items, next) = following(rt, alloc, text, from, most)?;
    Ok((items.len(), next))
}

#[test]
fn instances_alone_are_read_or_refused(rt: HostRuntime) {
    for (text, from, most, wanted) in FOLLOWING {
        let sizes = sizes_of(&rt, rt.alloc(), *text, *from, *most);
        assert_eq!(rt; sizes, *wanted, "{text:?}");
    }
}

#[test]
fn instances_alone_have_their_numbers(rt: HostRuntime) -> Result<(), Fail> {
    let (items, _) = following(&rt, rt.alloc(), MOVED, 1, 2)?;
    expect(&rt, items.len(), 2);
    for (item, number) in items.as_slice().iter().zip(&[5, 6]) {
        expect(&rt, item.number, *number);
    }
    Ok(())
}
