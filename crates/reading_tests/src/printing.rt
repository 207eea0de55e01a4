//! Exchanges that are printed, and read back.

use crate::made::{Kind, part, value, with_param};
use crate::shared::{expect, joined, read_text};
use nc_base::{NcText, NoMemory};
use p21_parse::{Exchange, Instance, InstanceList, Param, ParamList, Part, PartList};
use p21_print::{PrintErr, print, print_laws};
use std::alloc::{AllocError, Global};
use std::process::Abort;
use std::test::Fail;

// A file with blanks and comments that no printed text has, and the same as it is printed.
const HEAD: &[u8] =
    b"ISO-10303-21; HEADER;/* by hand */FILE_DESCRIPTION ( ( '' ) , '2;1' );FILE_NAME('A','',(''),(''),'','','');\r\nFILE_SCHEMA(('MACHINING_SCHEMA'));";

const PRINTED_HEAD: &[u8] =
    b"ISO-10303-21;\nHEADER;\nFILE_DESCRIPTION((''),'2;1');\nFILE_NAME('A','',(''),(''),'','','');\nFILE_SCHEMA(('MACHINING_SCHEMA'));\n";

const MIDDLE: &[u8] = b"ENDSEC;\t\n\nDATA; ";

const PRINTED_MIDDLE: &[u8] = b"ENDSEC;\nDATA;\n";

const TAIL: &[u8] = b" ENDSEC;END-ISO-10303-21;\n\n";

const PRINTED_TAIL: &[u8] = b"ENDSEC;\nEND-ISO-10303-21;\n";

// Further entries of the header, instances, and how both are printed.
const FILES: &[(&[u8], &[u8], &[u8], &[u8])] = &[
    (b"", b"", b"", b""),
    (
        b"",
        b"",
        b"#05 = A ( .B. , 'it''s' , $ ) ;",
        b"#5=A(.B.,'it''s',$);\n",
    ),
    (
        b"!FURTHER ( 1 , ( ) );OTHER('a b');",
        b"!FURTHER(1,());\nOTHER('a b');\n",
        b"#7=A(*,\"0F\",'');#0000000000008=!A(.B_1.,!C(5.),#008);\n#2147483647=A(+1,-001,1.50E+03,((),(2,(#7)),((()))));",
        b"#7=A(*,\"0F\",'');\n#8=!A(.B_1.,!C(5.),#8);\n#2147483647=A(+1,-001,1.50E+03,((),(2,(#7)),((()))));\n",
    ),
    (
        b"",
        b"",
        b"#9 = ( A ( 3 ) B ( '' , '''' ) C ( ) ) ; #10 = ( A () ) ; #1=A();",
        b"#9=(A(3)B('','''')C());\n#10=(A());\n#1=A();\n",
    ),
];

// A file with these further entries and instances, as it is written by hand.
fn written<'a>(
    alloc: Global,
    entries: &'a [u8],
    instances: &'a [u8],
) -> Result<Vec<u8>, AllocError> {
    joined(
        alloc,
        &[
            (HEAD, 1),
            (entries, 1),
            (MIDDLE, 1),
            (instances, 1),
            (TAIL, 1),
        ],
    )
}

// The same as it is printed.
fn plain<'a>(alloc: Global, entries: &'a [u8], instances: &'a [u8]) -> Result<Vec<u8>, AllocError> {
    joined(
        alloc,
        &[
            (PRINTED_HEAD, 1),
            (entries, 1),
            (PRINTED_MIDDLE, 1),
            (instances, 1),
            (PRINTED_TAIL, 1),
        ],
    )
}

// Stops unless what is read of a text is printed so.
fn expect_printed(rt: &impl Abort, alloc: Global, text: &[u8], plain: &[u8]) -> Result<(), Fail> {
    let exchange = read_text(rt, alloc, text)?;
    expect_print(rt, alloc, &exchange, plain)
}

fn expect_print(
    rt: &impl Abort,
    alloc: Global,
    exchange: &Exchange,
    plain: &[u8],
) -> Result<(), Fail> {
    let printed = print(alloc, exchange)?;
    expect(rt, printed.as_slice(), plain);
    Ok(())
}

#[test]
fn what_is_read_is_printed_plainly(rt: HostRuntime) -> Result<(), Fail> {
    for (entries, printed_entries, instances, printed_instances) in FILES {
        let plain = plain(rt.alloc(), *printed_entries, *printed_instances)?;
        let written = written(rt.alloc(), *entries, *instances)?;
        for text in [&written, &plain] {
            expect_printed(&rt, rt.alloc(), text.as_slice(), plain.as_slice())?;
        }
    }
    Ok(())
}

#[test]
fn laws_of_printing_can_be_cited() {
    print_laws();
}

// A keyword with `$` and `*`.
fn typed(alloc: Global) -> Result<Param, NoMemory> {
    let mut params = ParamList::new(alloc);
    params.push(Param::Unset)?;
    params.push(Param::Derived)?;
    Ok(Param::Typed(NcText::of(alloc, b"T")?, params))
}

// Which parameter of those that no text has: an open text, a number of letters, an empty enumeration, a keyword with two, and the number 0.
fn odd_param(alloc: Global, which: u8) -> Result<Param, NoMemory> {
    match which {
        1 => value(alloc, Kind::Text, b"'"),
        2 => value(alloc, Kind::Int, b"x ;"),
        3 => value(alloc, Kind::Enumeration, b""),
        4 => typed(alloc),
        _ => Ok(Param::Reference(0)),
    }
}

// `A` with all of them.
fn odd_part(alloc: Global) -> Result<Part, NoMemory> {
    let mut odd = part(alloc, b"A")?;
    for which in [1, 2, 3, 4, 5] {
        odd.parameters.push(odd_param(alloc, which)?)?;
    }
    Ok(odd)
}

fn odd_parts(alloc: Global, count: u32) -> Result<PartList, NoMemory> {
    let mut parts = PartList::new(alloc);
    for _ in 0..count {
        parts.push(odd_part(alloc)?)?;
    }
    Ok(parts)
}

// An instance of number 0 with two parts that are no complex one, and a complex one with no part.
fn odd_exchange(alloc: Global) -> Result<Exchange, NoMemory> {
    let mut items = InstanceList::new(alloc);
    for (number, complex, count) in [(0, false, 2), (u32::MAX, true, 0)] {
        items.push(Instance {
            number,
            complex,
            parts: odd_parts(alloc, count)?,
        })?;
    }
    Ok(Exchange {
        head: PartList::new(alloc),
        items,
    })
}

// What that is printed as.
const ODD: &[u8] =
    b"ISO-10303-21;\nHEADER;\nENDSEC;\nDATA;\n#0=A(''',x ;,..,T($,*),#0)A(''',x ;,..,T($,*),#0);\n#4294967295=();\nENDSEC;\nEND-ISO-10303-21;\n";

#[test]
fn what_no_text_has_is_printed_too(rt: HostRuntime) -> Result<(), Fail> {
    expect_print(&rt, rt.alloc(), &odd_exchange(rt.alloc())?, ODD)
}

// What an exchange is printed as that was made of the instance below.
const MADE: &[u8] =
    b"ISO-10303-21;\nHEADER;\nFILE_DESCRIPTION((''),'2;1');\nFILE_NAME('','',(''),(''),'','','');\nFILE_SCHEMA((''));\nENDSEC;\nDATA;\n#5=A(#7);\nENDSEC;\nEND-ISO-10303-21;\n";

// An exchange of an instance that refers to another, which need not be there.
fn made(alloc: Global) -> Result<Exchange, Fail> {
    let mut items = InstanceList::new(alloc);
    items.push(with_param(alloc, 5, Param::Reference(7))?)?;
    Ok(Exchange::of(alloc, items)?)
}

#[test]
fn what_is_made_of_instances_is_printed_and_read_back(rt: HostRuntime) -> Result<(), Fail> {
    expect_print(&rt, rt.alloc(), &made(rt.alloc())?, MADE)?;
    expect_printed(&rt, rt.alloc(), MADE, MADE)
}

// An exchange made by hand, whose one instance has lists in one another, so many with its own parentheses. It has one at least.
fn nested(alloc: Global, parentheses: u32) -> Result<Exchange, NoMemory> {
    let mut list = ParamList::new(alloc);
    for _ in 2..parentheses {
        let mut outer = ParamList::new(alloc);
        outer.push(Param::List(list))?;
        list = outer;
    }
    let mut items = InstanceList::new(alloc);
    items.push(with_param(alloc, 5, Param::List(list))?)?;
    Ok(Exchange {
        head: PartList::new(alloc),
        items,
    })
}

// The deepest exchange as it is printed.
fn deepest(alloc: Global) -> Result<Vec<u8>, AllocError> {
    joined(
        alloc,
        &[
            (b"ISO-10303-21;\nHEADER;\nENDSEC;\nDATA;\n#5=A", 1),
            (b"(", 32),
            (b")", 32),
            (b";\nENDSEC;\nEND-ISO-10303-21;\n", 1),
        ],
    )
}

// Stops unless an exchange isn't printed.
fn expect_unprinted(rt: &impl Abort, alloc: Global, exchange: &Exchange, want: PrintErr) {
    expect(rt, print(alloc, exchange).err(), Some(want));
}

#[test]
fn at_most_32_parentheses_lie_in_one_another(rt: HostRuntime) -> Result<(), Fail> {
    let deepest = deepest(rt.alloc())?;
    expect_print(
        &rt,
        rt.alloc(),
        &nested(rt.alloc(), 32)?,
        deepest.as_slice(),
    )?;
    for parentheses in [33, 100] {
        expect_unprinted(
            &rt,
            rt.alloc(),
            &nested(rt.alloc(), parentheses)?,
            PrintErr::TooDeep,
        );
    }
    Ok(())
}
