//! Instances as entities: each class and position of the table, written by hand after the profile's table.

use crate::expect::expect;
use entity_read::{TypeErr, typed};
use p21_lex::{MAX_TEXT, tokens};
use p21_parse::{Instance, InstanceList, PartList, ReadErr, instances};
use std::alloc::Global;
use std::process::Abort;
use std::test::Fail;

/// A line for each keyword: the number of its class, the keyword, and its used positions, each with its kind. A kind is r (reference),
/// l (list), m (list of at least one), n (number), e (length), v (value), p (numbers) or f (flag); a capital says that `$` may stand there too.
const TABLE: &str = "1 PROJECT 2:r\n\
    2 WORKPLAN 2:l 3:R\n\
    3 PARALLEL 2:m\n\
    4 NON_SEQUENTIAL 2:m\n\
    5 SELECTIVE 2:m\n\
    6 IF_STATEMENT 2:r 3:r 4:R\n\
    7 WHILE_STATEMENT 2:r 3:r\n\
    8 ASSIGNMENT 2:r 3:v\n\
    9 SET_MARK\n\
    10 WAIT_FOR_MARK 2:r\n\
    11 MACHINING_WORKINGSTEP 2:R 3:r 4:r\n\
    12 DISPLAY_MESSAGE\n\
    12 OPTIONAL_STOP\n\
    12 PROGRAM_STOP\n\
    12 LOAD_TOOL\n\
    12 UNLOAD_TOOL\n\
    12 INDEX_TABLE\n\
    12 INDEX_PALLET\n\
    12 EXCHANGE_PALLET\n\
    13 CHANNEL\n\
    14 NC_VARIABLE 2:N\n\
    15 NC_CONSTANT 2:n\n\
    16 COMPARISON_EQUAL 1:v 2:v\n\
    17 COMPARISON_NOT_EQUAL 1:v 2:v\n\
    18 COMPARISON_GREATER 1:v 2:v\n\
    19 COMPARISON_GREATER_EQUAL 1:v 2:v\n\
    20 COMPARISON_LESS 1:v 2:v\n\
    21 COMPARISON_LESS_EQUAL 1:v 2:v\n\
    22 AND_EXPRESSION 1:l\n\
    23 OR_EXPRESSION 1:l\n\
    24 XOR_EXPRESSION 1:r 2:r\n\
    25 NOT_EXPRESSION 1:r\n\
    26 !NC_SUM 1:v 2:v\n\
    27 !NC_DIFFERENCE 1:v 2:v\n\
    28 !NC_PRODUCT 1:v 2:v\n\
    29 ROUND_HOLE 4:R 5:R 6:E\n\
    30 PLANAR_FACE 4:R 5:R 6:R 7:R\n\
    31 CLOSED_POCKET 4:R 5:R 11:R\n\
    32 LINEAR_PATH 2:E 3:R\n\
    33 LINEAR_PROFILE 2:E\n\
    34 RECTANGULAR_CLOSED_PROFILE 2:E 3:E\n\
    35 GENERAL_CLOSED_PROFILE 2:R\n\
    36 POLYLINE 2:l\n\
    37 PLANE 2:R\n\
    38 AXIS2_PLACEMENT_3D 2:R 3:R 4:R\n\
    39 CARTESIAN_POINT 2:p\n\
    40 DIRECTION 2:p\n\
    41 DRILLING 1:f 4:E 6:R 7:R 12:N\n\
    42 CENTER_DRILLING 1:f 4:E 6:R 7:R 12:N\n\
    43 REAMING 1:f 4:E 6:R 7:R 12:N\n\
    44 BORING 1:f 4:E 6:R 7:R 12:N\n\
    45 PLANE_ROUGH_MILLING 1:f 4:E 6:R 7:R 12:R 13:E 14:E\n\
    46 PLANE_FINISH_MILLING 1:f 4:E 6:R 7:R 12:R 13:E 14:E\n\
    47 BOTTOM_AND_SIDE_ROUGH_MILLING 1:f 4:E 6:R 7:R 13:E 14:E 15:E 16:E\n\
    48 BOTTOM_AND_SIDE_FINISH_MILLING 1:f 4:E 6:R 7:R 13:E 14:E 15:E 16:E\n\
    49 BIDIRECTIONAL 1:N\n\
    50 UNIDIRECTIONAL 1:N\n\
    51 MILLING_TECHNOLOGY 1:N 4:N\n\
    52 MILLING_CUTTING_TOOL 2:R\n\
    53 ENDMILL 1:R\n\
    54 TAPERED_ENDMILL 1:R\n\
    55 BALL_ENDMILL 1:R\n\
    56 FACEMILL 1:R\n\
    57 TWIST_DRILL 1:R\n\
    58 MILLING_TOOL_DIMENSION 1:E\n\
    59 TOLERANCED_LENGTH_MEASURE 1:n\n\
    60 NUMERIC_PARAMETER 2:n\n";

/// A line of the table.
#[derive(Clone, Copy)]
struct Class {
    code: u8,
    keyword: &'static str,
    positions: &'static str,
}

fn class_in(line: &'static str) -> Result<Class, Fail> {
    let (code, rest) = line.split_once(' ').ok_or("a number alone")?;
    let (keyword, positions) = rest.split_once(' ').unwrap_or((rest, ""));
    Ok(Class {
        code: number(code),
        keyword,
        positions,
    })
}

/// Parameters that fit a kind, and others that don't, with blanks between them.
fn forms(kind: &str) -> (&'static str, &'static str) {
    match kind {
        "r" | "R" => ("#7", "12 * (#7) 'x'"),
        "l" => ("(#7,#7) ()", "#7 (#7,12) *"),
        "m" => ("(#7,#7) (#7)", "#7 () (12)"),
        "n" | "N" => ("12 -1.5 LENGTH_MEASURE(1.5)", "#7 1.E13 'x' *"),
        "e" | "E" | "v" => ("12 -1.5 LENGTH_MEASURE(1.5) #7", "(#7) 1.E13 *"),
        "p" => (
            "(12) (12,-1.5) (12,-1.5,LENGTH_MEASURE(1.5))",
            "() (12,12,12,12) (#7) 12",
        ),
        _ => ("$ * #7 (12)", ""),
    }
}

/// Whether `$` may stand where this kind is.
fn may_be_unset(kind: &str) -> bool {
    kind == "f" || kind.bytes().all(|byte| byte.is_ascii_uppercase())
}

/// The number that decimal digits are. The table's are below 256.
fn number(digits: &str) -> u8 {
    let mut value: u8 = 0;
    for digit in digits.bytes() {
        value = value
            .wrapping_mul(10)
            .wrapping_add(digit.wrapping_sub(b'0'));
    }
    value
}

/// A used position with its kind.
fn position(word: &str) -> Result<(u8, &str), Fail> {
    let (position, kind) = word.split_once(':').ok_or("a position without a kind")?;
    Ok((number(position), kind))
}

/// The first of some forms.
fn first(forms: &'static str) -> &'static str {
    match forms.split_once(' ') {
        Some((first, _)) => first,
        None => forms,
    }
}

/// Parameters that fit these positions, each with a comma before it, but for another at one position.
fn parameters(alloc: Global, positions: &str, at: u8, other: &str) -> Result<String, Fail> {
    let mut text = String::new(alloc);
    let mut next = 1;
    for word in positions.split_whitespace() {
        let (position, kind) = position(word)?;
        for _ in next..position {
            text.push_str(",'x'")?;
        }
        text.push_str(",")?;
        text.push_str(if position == at {
            other
        } else {
            first(forms(kind).0)
        })?;
        next = position.saturating_add(1);
    }
    Ok(text)
}

/// An instance of this class as a file has it, with another parameter at one position.
fn text_of(alloc: Global, class: &Class, at: u8, other: &str) -> Result<String, Fail> {
    let parameters = parameters(alloc, class.positions, at, other)?;
    let listed = parameters.as_str().strip_prefix(',').unwrap_or("");
    let keyword = class.keyword;
    Ok(format!(in alloc; "#70={keyword}({listed});")?)
}

/// The instances of a text that has nothing else. It promises nothing, so that its callers are proved without what reading promises.
fn listed(rt: &impl Abort, alloc: Global, text: &[u8]) -> Result<InstanceList, ReadErr> {
    assert!(rt; text.len() <= MAX_TEXT as usize);
    let tokens = tokens(alloc, text)?;
    let (items, next) = instances(alloc, text, tokens.as_slice(), 0, 1)?;
    assert!(rt; next as usize == tokens.len(), "more than instances");
    Ok(items)
}

fn instance(rt: &impl Abort, alloc: Global, text: &str) -> Result<Instance, Fail> {
    Ok(
        listed(rt, alloc, text.as_bytes())?
            .pop()
            .ok_or("no instance")?,
    )
}

/// The number of an instance's class, or why it has none. It promises nothing, so that tests go on without what `typed` promises.
fn code(alloc: Global, instance: &Instance) -> Result<u8, TypeErr> {
    Ok(typed(alloc, instance)?.class.code())
}

fn expect_code(
    rt: &impl Abort,
    alloc: Global,
    text: &str,
    want: Result<u8, TypeErr>,
) -> Result<(), Fail> {
    let instance = instance(rt, alloc, text)?;
    assert_eq!(rt; code(alloc, &instance), want, "of {text}");
    Ok(())
}

/// Stops unless each of these parameters gives this answer, at one position of an instance of the class.
fn expect_forms(
    rt: &impl Abort,
    alloc: Global,
    class: &Class,
    at: u8,
    forms: &str,
    want: Result<u8, TypeErr>,
) -> Result<(), Fail> {
    for form in forms.split_whitespace() {
        let text = text_of(alloc, class, at, form)?;
        expect_code(rt, alloc, &text, want)?;
    }
    Ok(())
}

fn expect_position(rt: &impl Abort, alloc: Global, class: &Class, word: &str) -> Result<(), Fail> {
    let (at, kind) = position(word)?;
    let (fitting, others) = forms(kind);
    let good = Ok(class.code);
    let bad = Err(TypeErr::BadAttribute(70, u32::from(at)));
    expect_forms(rt, alloc, class, at, fitting, good)?;
    expect_forms(rt, alloc, class, at, others, bad)?;
    let unset = if may_be_unset(kind) { good } else { bad };
    expect_forms(rt, alloc, class, at, "$", unset)
}

#[test]
fn each_class_and_position(rt: HostRuntime) -> Result<(), Fail> {
    for line in TABLE.lines() {
        let class = class_in(line)?;
        expect_forms(&rt, rt.alloc(), &class, 0, "$", Ok(class.code))?;
        for word in class.positions.split_whitespace() {
            expect_position(&rt, rt.alloc(), &class, word)?;
        }
    }
    Ok(())
}

/// Instances that have the class of all others, and one whose used position stands past its last parameter.
const OTHERS: [(&str, Result<u8, TypeErr>); 3] = [
    ("#70=RAPID_MOVEMENT();", Ok(61)),
    ("#70=(PLANE('x',#7));", Ok(61)),
    ("#70=CARTESIAN_POINT();", Err(TypeErr::BadAttribute(70, 2))),
];

#[test]
fn what_is_opaque_or_too_short(rt: HostRuntime) -> Result<(), Fail> {
    for (text, want) in OTHERS {
        expect_code(&rt, rt.alloc(), text, want)?;
    }
    Ok(())
}

#[test]
fn what_has_not_one_part_is_opaque(rt: HostRuntime) -> Result<(), Fail> {
    let mut two = instance(&rt, rt.alloc(), "#70=(PLANE('x',#7)PLANE('x',#7));")?;
    two.complex = false;
    expect(&rt, code(rt.alloc(), &two), Ok(61));
    let none = Instance {
        number: 70,
        complex: false,
        parts: PartList::new(rt.alloc()),
    };
    expect(&rt, code(rt.alloc(), &none), Ok(61));
    Ok(())
}
