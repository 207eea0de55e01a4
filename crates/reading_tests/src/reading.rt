//! Texts that are read as exchanges, or refused.

use crate::rows::{bytes_of, number, row};
use crate::shared::{HEAD, TAIL, expect, joined, read_text};
use ReadErr::{Duplicate, TooMany};
use nc_base::NoMemory;
use p21_parse::{
    Instance, MAX_INSTANCES, Param, ParamList, Part, ReadErr, grammar_laws, instance_laws,
    text_laws,
};
use std::alloc::{AllocError, Global};
use std::process::Abort;
use std::test::Fail;

// The beginnings of a header, of 22, 52, 90 and 125 bytes, and its end.
const TOP: &[u8] = b"ISO-10303-21;\nHEADER;\n";

const DESCRIBED: &[u8] = b"ISO-10303-21;\nHEADER;\nFILE_DESCRIPTION((''),'2;1');\n";

const NAMED: &[u8] =
    b"ISO-10303-21;\nHEADER;\nFILE_DESCRIPTION((''),'2;1');\nFILE_NAME('A','',(''),(''),'','','');\n";

const HEADED: &[u8] =
    b"ISO-10303-21;\nHEADER;\nFILE_DESCRIPTION((''),'2;1');\nFILE_NAME('A','',(''),(''),'','','');\nFILE_SCHEMA(('MACHINING_SCHEMA'));\n";

const DATA: &[u8] = b"ENDSEC;\nDATA;\n";

// A project with one drilled hole.
const DRILLED_HOLE: &[u8] =
    b"ISO-10303-21;\nHEADER;\nFILE_DESCRIPTION((''),'2;1');\nFILE_NAME('A','',(''),(''),'','','');\nFILE_SCHEMA(('MACHINING_SCHEMA'));\nENDSEC;\nDATA;\n#1=PROJECT('P',#2);\n#2=WORKPLAN('MAIN',(#10),$);\n#10=MACHINING_WORKINGSTEP('WS',#50,#20,#30);\n#20=ROUND_HOLE('H',$,(),#60,#51,10.);\n#30=DRILLING($,$,'D',5.,$,#44,#45,$,$,$,$,$);\n#44=MILLING_CUTTING_TOOL('T',#46);\n#45=MILLING_TECHNOLOGY(0.040,$,$,20.);\n#46=TWIST_DRILL(#47);\n#47=MILLING_TOOL_DIMENSION(10.);\n#50=PLANE('SEC',#61);\n#51=PLANE('DEPTH',#62);\n#60=AXIS2_PLACEMENT_3D('',#70,$,$);\n#61=AXIS2_PLACEMENT_3D('',#71,$,$);\n#62=AXIS2_PLACEMENT_3D('',#72,$,$);\n#70=CARTESIAN_POINT('',(10.,20.,0.));\n#71=CARTESIAN_POINT('',(0.,0.,30.));\n#72=CARTESIAN_POINT('',(0.,0.,-15.));\nENDSEC;\nEND-ISO-10303-21;\n";

// A plate with a face, a hole and a pocket.
const PLATE: &[u8] =
    b"ISO-10303-21;\nHEADER;\n/* written by a CAM system */\nFILE_DESCRIPTION(('PLATE'),'2;1');\nFILE_NAME('PLATE.STP','2004-05-01T10:00:00',('A. WRITER'),('SHOP'),'','CAM','');\nFILE_SCHEMA(('MACHINING_SCHEMA','MILLING_SCHEMA'));\nENDSEC;\nDATA;\n#1=PROJECT('PLATE',#2,(#4),$,$,$);\n#2=WORKPLAN('MAIN WORKPLAN',(#10,#11,#12,#13),$,#8,$);\n#4=WORKPIECE('PLATE',$,0.01,$,$,$,());\n#8=SETUP('SETUP1',$,#50,());\n#9=(GEOMETRIC_REPRESENTATION_CONTEXT(3)REPRESENTATION_CONTEXT('',''));\n#10=MACHINING_WORKINGSTEP('FACE',#50,#16,#20,$);\n#11=MACHINING_WORKINGSTEP('DRILL',#50,#17,#21,$);\n#12=MACHINING_WORKINGSTEP('REAM',#50,#17,#22,$);\n#13=MACHINING_WORKINGSTEP('POCKET',#50,#18,#23,$);\n#16=PLANAR_FACE('FACE',#4,(#20),#60,#51,#24,#25,$,());\n#17=ROUND_HOLE('HOLE',#4,(#21,#22),#61,#52,#34,$,$);\n#18=CLOSED_POCKET('POCKET',#4,(#23),#62,#53,(),$,$,#35,$,#26);\n#20=PLANE_FINISH_MILLING($,$,'F',10.,$,#40,#45,$,$,$,$,#28,2.5,$);\n#21=DRILLING($,$,'D',10.,$,#41,#46,$,$,$,$,$,$,$);\n#22=REAMING($,$,'R',10.,$,#42,#46,$,$,$,$,0.5,$,$,.T.,$,$);\n#23=BOTTOM_AND_SIDE_ROUGH_MILLING($,$,'P',15.,$,#40,#45,$,$,$,$,#29,6.5,5.,1.,0.5);\n#24=LINEAR_PATH($,#36,#74);\n#25=LINEAR_PROFILE($,#37);\n#26=GENERAL_CLOSED_PROFILE($,#27);\n#27=POLYLINE('CONTOUR',(#75,#76,#77,#78,#75));\n#28=BIDIRECTIONAL(0.05,.T.,#74,.LEFT.,$);\n#29=CONTOUR_PARALLEL(0.05,.T.,.CCW.,.CONVENTIONAL.);\n#34=TOLERANCED_LENGTH_MEASURE(22.,#38);\n#35=TOLERANCED_LENGTH_MEASURE(10.,#38);\n#36=TOLERANCED_LENGTH_MEASURE(120.,#38);\n#37=NUMERIC_PARAMETER('PROFILE LENGTH',100.,'MM');\n#38=PLUS_MINUS_VALUE(0.3,0.3,3);\n#40=MILLING_CUTTING_TOOL('MILL',#43,(),80.,$,$);\n#41=MILLING_CUTTING_TOOL('DRILL',#44,(),90.,$,$);\n#42=MILLING_CUTTING_TOOL('REAMER',#47,(),100.,$,$);\n#43=ENDMILL(#48,4,.RIGHT.,.F.,$);\n#44=TWIST_DRILL(#48,2,.RIGHT.,.F.,0.84);\n#45=MILLING_TECHNOLOGY(0.04,.TCP.,$,20.,$,.F.,.F.,.F.,$);\n#46=MILLING_TECHNOLOGY(0.03,.TCP.,$,16.,$,.F.,.F.,.F.,$);\n#47=REAMER(#48,6,.RIGHT.,.F.,$);\n#48=MILLING_TOOL_DIMENSION(20.,$,$,$,$,$,$);\n#50=PLANE('SECURITY',#63);\n#51=PLANE('FACE DEPTH',#64);\n#52=PLANE('HOLE DEPTH',#65);\n#53=PLANE('POCKET DEPTH',#65);\n#60=AXIS2_PLACEMENT_3D('FACE',#70,#79,#80);\n#61=AXIS2_PLACEMENT_3D('HOLE',#71,#79,#80);\n#62=AXIS2_PLACEMENT_3D('POCKET',#72,#79,#80);\n#63=AXIS2_PLACEMENT_3D('SECURITY',#73,#79,#80);\n#64=AXIS2_PLACEMENT_3D('',#81,#79,#80);\n#65=AXIS2_PLACEMENT_3D('',#82,#79,#80);\n#70=CARTESIAN_POINT('',(0.,0.,5.));\n#71=CARTESIAN_POINT('',(20.,60.,0.));\n#72=CARTESIAN_POINT('',(40.,20.,0.));\n#73=CARTESIAN_POINT('',(0.,0.,30.));\n#74=DIRECTION('',(0.,1.,0.));\n#75=CARTESIAN_POINT('',(0.,0.,0.));\n#76=CARTESIAN_POINT('',(0.,80.,0.));\n#77=CARTESIAN_POINT('',(50.,80.,0.));\n#78=CARTESIAN_POINT('',(50.,0.,0.));\n#79=DIRECTION('',(0.,0.,1.));\n#80=DIRECTION('',(1.,0.,0.));\n#81=CARTESIAN_POINT('',(0.,0.,-5.));\n#82=CARTESIAN_POINT('',(0.,0.,-30.));\nENDSEC;\nEND-ISO-10303-21;\n";

// A parameter of each kind.
const KINDS: &[u8] =
    b"#7 = A ( * , \"0F\" , 'it''s' ) ;\n#8=A(.B_1.,!C(5.),#008);\n#9=A($,-1,((),2));\n";

/// In each row instances behind the 139 bytes of a head, and why the file is refused, or nothing. The rows are, in this order: files that
/// are read; faults of tokens, of instances and of parameters; and numbers that come twice, before or behind another fault.
const INSTANCES: &str = "|\n\
    #2147483647=A();¶#1=A('''',#1);¶|\n\
    #5=!A(!B(1));¶|\n\
    #5=(A());¶|\n\
    #5=A(+12345678901234567890123456789012345678);¶|\n\
    #5=A(#5,'#5=');¶#6=A(#5);¶|\n\
    #5=A(123456789012345678901234567890123456789);¶|Lex(NumberTooLong(144))\n\
    #0=A();¶|Lex(BadName(139))\n\
    #2147483648=A();¶|Lex(BadName(139))\n\
    #5=A(a);¶|Lex(BadByte(144))\n\
    #5=A('a\x01');¶|Lex(BadByte(146))\n\
    #5=;¶#5=A(.5);¶|Lex(BadByte(149))\n\
    #5=A();¶#5=A();¶#0=A();¶|Lex(BadName(155))\n\
    A();¶|Syntax(139)\n\
    #5 A();¶|Syntax(142)\n\
    #5=;¶|Syntax(142)\n\
    #5=#6();¶|Syntax(142)\n\
    #5=A-B();¶|Syntax(142)\n\
    #5=!A-5();¶|Syntax(144)\n\
    #5=A;¶|Syntax(143)\n\
    #5=A()¶|Syntax(146)\n\
    #5=A()B();¶|Syntax(145)\n\
    #5=();¶|Syntax(143)\n\
    #5=(A(),B());¶|Syntax(146)\n\
    #5=((A()));¶|Syntax(143)\n\
    #5=(A();¶|Syntax(146)\n\
    #5=A(1,);¶|Syntax(146)\n\
    #5=A(,1);¶|Syntax(144)\n\
    #5=A(1 2);¶|Syntax(146)\n\
    #5=A(1;¶|Syntax(145)\n\
    #5=A((1);¶|Syntax(147)\n\
    #5=A(=);¶|Syntax(144)\n\
    #5=A(B-C);¶|Syntax(144)\n\
    #5=A(!B);¶|Syntax(146)\n\
    #5=A(B());¶|Syntax(146)\n\
    #5=A(B(1,2));¶|Syntax(147)\n\
    #72=A();¶#72=A();¶|Duplicate(72)\n\
    #72=A();¶#73=(A());¶#0072=B();¶|Duplicate(72)\n\
    #5=A();¶#6=A();¶#6=A();¶#5=A();¶|Duplicate(6)\n\
    #5=A();¶#5 A();¶|Duplicate(5)\n\
    #5=A();¶#5=;¶|Duplicate(5)\n\
    #5=;¶#5=A();¶|Syntax(142)\n\
    #5=A()#5=A();¶|Syntax(145)\n";

// In each row the parts of a text, between `+`, and why it is refused, or nothing. `@` names a text, and `×32` says that the part stands
// there 32 times.

/// Headers, their schemas and further entries, ends of files, and a text that ends with the number that comes twice.
const HEADERS: &str = "|Syntax(0)\n\
    \x20×9+/* */|Syntax(14)\n\
    HEADER;|Syntax(0)\n\
    ISO-10303-21|Syntax(12)\n\
    @TOP+FILE_DESCRIPTION(('AB|Lex(OpenString(40))\n\
    @TOP+FILE_NAME('','');¶|Syntax(22)\n\
    @TOP+FILE_DESCRIPTION((''));¶|Syntax(43)\n\
    @TOP+FILE_DESCRIPTION('','','');¶|Syntax(44)\n\
    @DESCRIBED|Syntax(52)\n\
    @DESCRIBED+FILE_NAME('A','',(''),(''),'','');¶|Syntax(84)\n\
    @DESCRIBED+FILE_NAME('A','',(''),(''),'','','','');¶|Syntax(87)\n\
    @NAMED+FILE_SCHEMA();¶|Syntax(102)\n\
    @NAMED+FILE_SCHEMA(());¶|Syntax(103)\n\
    @NAMED+FILE_SCHEMA((1));¶|Syntax(103)\n\
    @NAMED+FILE_SCHEMA('M');¶|Syntax(102)\n\
    @NAMED+FILE_SCHEMA(('M',));¶|Syntax(107)\n\
    @NAMED+FILE_SCHEMA(('M'),1);¶|Syntax(107)\n\
    @HEADED+ENDSEC(1);¶×2+@DATA+@TAIL|\n\
    @HEADED+DATA(1,());!X(A(*));+@DATA+@TAIL|\n\
    @HEADED+EXTRA();¶|Syntax(131)\n\
    @HEADED+ENDSEC();¶|Syntax(132)\n\
    @HEADED+ENDSEC X|Syntax(132)\n\
    @HEADED+A-B(1);¶|Syntax(125)\n\
    @HEADED+ENDSEC;¶DATA(1);¶|Syntax(137)\n\
    @HEAD|Syntax(139)\n\
    @HEAD+END-ISO-10303-21;|Syntax(139)\n\
    @HEAD+ENDSEC;¶|Syntax(147)\n\
    @HEAD+ENDSEC;¶END-ISO-10303-21|Syntax(163)\n\
    @HEAD+@TAIL+#5=A();¶|Syntax(165)\n\
    @HEAD+@TAIL+;|Syntax(165)\n\
    \x20/* */ +@HEAD+@TAIL+/* */¶×2|\n\
    @HEAD+#5=A();¶#6=A(|Syntax(152)\n\
    @HEAD+#5=A();¶#5|Duplicate(5)\n";

/// Lists, typed parameters and complex instances in one another, the same in the header, and beside a number that comes twice.
const NESTED: &str = "@HEAD+#5=A+(×32+)×32+;+@TAIL|\n\
    @HEAD+#5=A+(×33+)×33+;+@TAIL|TooDeep(175)\n\
    @HEAD+#5=A+(×32|Syntax(175)\n\
    @HEAD+#5=A(+(),×40+1);+@TAIL|\n\
    @HEAD+#5=A(+B(×31+1+)×32+;+@TAIL|\n\
    @HEAD+#5=A(+B(×32+1+)×33+;+@TAIL|TooDeep(207)\n\
    @HEAD+#5=A(+B(×31+B+)×32|Syntax(207)\n\
    @HEAD+#5=(A()B+(×32+)×33+;+@TAIL|\n\
    @HEAD+#5=(A()B+(×33+)×34+;+@TAIL|TooDeep(179)\n\
    @HEADED+E+(×32+1+)×32+;+@DATA+@TAIL|\n\
    @HEADED+E+(×33+1+)×33+;+@DATA+@TAIL|TooDeep(158)\n\
    @TOP+FILE_DESCRIPTION+(×33|TooDeep(70)\n\
    @HEAD+#5=A();¶×2+#6=A+(×33|Duplicate(5)\n\
    @HEAD+#5=A+(×33+)×33+;¶#5=A();¶+@TAIL|TooDeep(175)\n";

// What follows instances 1 to 199,999, whose numbers go from 100,001 on and which take 12 bytes each, and why the file is refused, if it is.
const LAST: &[(&[u8], Option<ReadErr>)] = &[
    (b"#300000=A();", None),
    (b"#100001=A();", Some(Duplicate(100_001))),
    (b"#300000=A();#300001=A();", Some(TooMany(2_400_139))),
    (b"#300000=A();#100001=A();", Some(TooMany(2_400_139))),
];

// Puts an instance of this number.
fn put_instance(alloc: Global, text: &mut Vec<u8>, number: u32) -> Result<(), AllocError> {
    let line = format!(in alloc; "#{number}=A();")?;
    text.extend_from_slice(line.as_bytes())
}

// Instances of these numbers, which go from one on by a step.
fn stepped(alloc: Global, first: u32, step: u32, count: u32) -> Result<Vec<u8>, AllocError> {
    let mut text = Vec::new(alloc);
    let mut number = first;
    for _ in 0..count {
        put_instance(alloc, &mut text, number)?;
        number = number.wrapping_add(step);
    }
    Ok(text)
}

// How many entries of the header and how many instances a text has, or why it is refused.
fn sizes_of(rt: &impl Abort, alloc: Global, text: &[u8]) -> Result<(u32, u32), ReadErr> {
    let exchange = read_text(rt, alloc, text)?;
    Ok((exchange.head.len(), exchange.items.len()))
}

fn expect_refusal(
    rt: &impl Abort,
    alloc: Global,
    pieces: &[(&[u8], u32)],
    want: Option<ReadErr>,
) -> Result<(), Fail> {
    let text = joined(alloc, pieces)?;
    let refusal = sizes_of(rt, alloc, text.as_slice()).err();
    assert_eq!(rt; refusal, want, "of {} bytes", text.len());
    Ok(())
}

// Why a text is refused, or nothing.
fn shown(rt: &impl Abort, alloc: Global, text: &[u8]) -> Result<String, AllocError> {
    match sizes_of(rt, alloc, text) {
        Ok(_) => Ok(String::new(alloc)),
        Err(refusal) => format!(in alloc; "{refusal:?}"),
    }
}

fn expect_instances(rt: &impl Abort, alloc: Global, line: &str) -> Result<(), Fail> {
    let (instances, want) = row(line);
    let instances = bytes_of(alloc, instances)?;
    let text = joined(alloc, &[(HEAD, 1), (&instances, 1), (TAIL, 1)])?;
    let found = shown(rt, alloc, text.as_slice())?;
    assert_eq!(rt; found.as_str(), want, "of {line}");
    Ok(())
}

#[test]
fn instances_are_read_or_refused_at_their_place(rt: HostRuntime) -> Result<(), Fail> {
    for line in INSTANCES.lines() {
        expect_instances(&rt, rt.alloc(), line)?;
    }
    Ok(())
}

// The bytes of a part.
fn part_bytes(alloc: Global, part: &str) -> Result<Vec<u8>, AllocError> {
    match part {
        "@TOP" => Vec::from_slice(alloc, TOP),
        "@DESCRIBED" => Vec::from_slice(alloc, DESCRIBED),
        "@NAMED" => Vec::from_slice(alloc, NAMED),
        "@HEADED" => Vec::from_slice(alloc, HEADED),
        "@DATA" => Vec::from_slice(alloc, DATA),
        "@HEAD" => Vec::from_slice(alloc, HEAD),
        "@TAIL" => Vec::from_slice(alloc, TAIL),
        _ => bytes_of(alloc, part),
    }
}

fn put_part(alloc: Global, text: &mut Vec<u8>, part: &str) -> Result<(), AllocError> {
    let (part, times) = part.split_once('×').unwrap_or((part, "1"));
    let bytes = part_bytes(alloc, part)?;
    for _ in 0..number(times) {
        text.extend_from_slice(&bytes)?;
    }
    Ok(())
}

fn text_of(alloc: Global, parts: &str) -> Result<Vec<u8>, AllocError> {
    let mut text = Vec::new(alloc);
    for part in parts.split('+') {
        put_part(alloc, &mut text, part)?;
    }
    Ok(text)
}

fn expect_parts(rt: &impl Abort, alloc: Global, line: &str) -> Result<(), Fail> {
    let (parts, want) = row(line);
    let text = text_of(alloc, parts)?;
    let found = shown(rt, alloc, text.as_slice())?;
    assert_eq!(rt; found.as_str(), want, "of {line}");
    Ok(())
}

#[test]
fn files_are_read_or_refused_at_their_place(rt: HostRuntime) -> Result<(), Fail> {
    for table in [HEADERS, NESTED] {
        for line in table.lines() {
            expect_parts(&rt, rt.alloc(), line)?;
        }
    }
    Ok(())
}

// Stops unless a file of these instances and those behind them is refused so, or read.
fn expect_behind<'a>(
    rt: &impl Abort,
    alloc: Global,
    front: &'a [u8],
    last: &'a [u8],
    want: Option<ReadErr>,
) -> Result<(), Fail> {
    expect_refusal(
        rt,
        alloc,
        &[(HEAD, 1), (front, 1), (last, 1), (TAIL, 1)],
        want,
    )
}

#[test]
fn files_have_at_most_200_000_instances(rt: HostRuntime) -> Result<(), Fail> {
    let front = stepped(rt.alloc(), 100_001, 1, MAX_INSTANCES as u32 - 1)?;
    for (last, refusal) in LAST {
        expect_behind(&rt, rt.alloc(), &front, *last, *refusal)?;
    }
    Ok(())
}

fn expect_sizes(
    rt: &impl Abort,
    alloc: Global,
    pieces: &[(&[u8], u32)],
    want: (u32, u32),
) -> Result<(), Fail> {
    let text = joined(alloc, pieces)?;
    expect(rt, sizes_of(rt, alloc, text.as_slice()), Ok(want));
    Ok(())
}

#[test]
fn files_of_200_000_instances_have_them_all(rt: HostRuntime) -> Result<(), Fail> {
    let front = stepped(rt.alloc(), 100_001, 1, MAX_INSTANCES as u32 - 1)?;
    expect_sizes(
        &rt,
        rt.alloc(),
        &[(HEAD, 1), (&front, 1), (b"#300000=A();", 1), (TAIL, 1)],
        (3, MAX_INSTANCES as u32),
    )
}

// 199,900 numbers that a file may pick so that a hash over them has them all in one place: each 8192 from the next. Nothing is hashed, so they
// take no longer than others, whether they rise, or fall, or one of them stands a second time at the end.
const COLLIDING: u32 = 199_900;

const STEP: u32 = 8192;

// Whether such numbers are read, and refused where the first stands a second time at the end.
fn expect_stepped(
    rt: &impl Abort,
    alloc: Global,
    first: u32,
    step: u32,
    again: &[u8],
) -> Result<(), Fail> {
    let front = stepped(alloc, first, step, COLLIDING)?;
    expect_behind(rt, alloc, &front, b"", None)?;
    expect_behind(rt, alloc, &front, again, Some(Duplicate(first)))
}

#[test]
fn numbers_that_rise_by_a_step_are_read(rt: HostRuntime) -> Result<(), Fail> {
    expect_stepped(&rt, rt.alloc(), STEP, STEP, b"#8192=A();")
}

#[test]
fn numbers_that_fall_by_a_step_are_read(rt: HostRuntime) -> Result<(), Fail> {
    let first = COLLIDING * STEP;
    let step = 0u32.wrapping_sub(STEP);
    expect_stepped(&rt, rt.alloc(), first, step, b"#1637580800=A();")
}

// Instances of which the number at one index stands once more at another.
fn with_repeat(alloc: Global, first: u32, again: u32) -> Result<Vec<u8>, AllocError> {
    let mut text = Vec::new(alloc);
    for i in 0..SMALL {
        let number = (if i == again { first } else { i }).wrapping_add(100);
        put_instance(alloc, &mut text, number)?;
    }
    Ok(text)
}

const SMALL: u32 = 7;

#[test]
fn a_number_is_found_wherever_it_stands_again(rt: HostRuntime) -> Result<(), Fail> {
    for again in 1..SMALL {
        for first in 0..again {
            let text = with_repeat(rt.alloc(), first, again)?;
            expect_refusal(
                &rt,
                rt.alloc(),
                &[(HEAD, 1), (&text, 1), (b"#9=;", 1)],
                Some(Duplicate(first.wrapping_add(100))),
            )?;
        }
    }
    Ok(())
}

#[test]
fn files_have_their_entries_and_instances(rt: HostRuntime) -> Result<(), Fail> {
    for (text, instances) in [(DRILLED_HOLE, 17), (PLATE, 59)] {
        expect_sizes(&rt, rt.alloc(), &[(text, 1)], (3, instances))?;
    }
    Ok(())
}

fn is_keyword(part: &Part, keyword: &[u8]) -> bool {
    part.keyword.bytes() == keyword
}

// Four elements, of which the last is #13.
fn are_elements(params: &[Param]) -> bool {
    matches!(params, [_, _, _, Param::Reference(13)])
}

fn are_of_plan(params: &[Param]) -> bool {
    let [
        Param::Text(text),
        Param::List(steps),
        Param::Unset,
        Param::Reference(8),
        Param::Unset,
    ] = params
    else {
        return false;
    };
    text.bytes() == b"MAIN WORKPLAN".as_slice() && are_elements(steps.as_slice())
}

// The main workplan of the plate.
fn is_plan(item: &Instance) -> bool {
    let [part] = item.parts.as_slice() else {
        return false;
    };
    item.number == 2
        && !item.complex
        && is_keyword(part, b"WORKPLAN")
        && are_of_plan(part.parameters.as_slice())
}

// Its complex instance.
fn is_context(item: &Instance) -> bool {
    let [first, second] = item.parts.as_slice() else {
        return false;
    };
    item.number == 9
        && item.complex
        && is_keyword(first, b"GEOMETRIC_REPRESENTATION_CONTEXT")
        && is_keyword(second, b"REPRESENTATION_CONTEXT")
        && second.parameters.len() == 2
}

#[test]
fn instances_are_read(rt: HostRuntime) -> Result<(), Fail> {
    let plate = read_text(&rt, rt.alloc(), PLATE)?;
    let [_, plan, _, _, context, ..] = plate.items.as_slice() else {
        panic!(rt; "fewer than five instances")
    };
    assert!(rt; is_plan(plan));
    assert!(rt; is_context(context));
    Ok(())
}

fn are_derived_binary_text(params: &[Param]) -> bool {
    let [Param::Derived, Param::Binary(binary), Param::Text(raw)] = params else {
        return false;
    };
    binary.bytes() == b"0F".as_slice() && raw.bytes() == b"it''s".as_slice()
}

fn is_real(params: &[Param]) -> bool {
    let [Param::Real(real)] = params else {
        return false;
    };
    real.bytes() == b"5.".as_slice()
}

fn are_enumeration_typed_reference(params: &[Param]) -> bool {
    let [
        Param::Enumeration(word),
        Param::Typed(keyword, inner),
        Param::Reference(8),
    ] = params
    else {
        return false;
    };
    word.bytes() == b"B_1".as_slice()
        && keyword.bytes() == b"!C".as_slice()
        && is_real(inner.as_slice())
}

fn are_list_int(params: &[Param]) -> bool {
    let [Param::List(none), Param::Int(two)] = params else {
        return false;
    };
    none.is_empty() && two.bytes() == b"2".as_slice()
}

fn are_unset_int_list(params: &[Param]) -> bool {
    let [Param::Unset, Param::Int(whole), Param::List(params)] = params else {
        return false;
    };
    whole.bytes() == b"-1".as_slice() && are_list_int(params.as_slice())
}

// The parameters of a simple instance.
fn parameters(item: &Instance) -> &[Param] {
    match item.parts.as_slice() {
        [part] => part.parameters.as_slice(),
        _ => &[],
    }
}

#[test]
fn parameters_of_each_kind_are_read(rt: HostRuntime) -> Result<(), Fail> {
    let text = joined(rt.alloc(), &[(HEAD, 1), (KINDS, 1), (TAIL, 1)])?;
    let exchange = read_text(&rt, rt.alloc(), text.as_slice())?;
    let [first, second, third] = exchange.items.as_slice() else {
        panic!(rt; "not three instances")
    };
    assert!(rt; are_derived_binary_text(parameters(first)));
    assert!(rt; are_enumeration_typed_reference(parameters(second)));
    assert!(rt; are_unset_int_list(parameters(third)));
    Ok(())
}

// A reference and a derived value.
fn two(alloc: Global) -> Result<ParamList, NoMemory> {
    let mut params = ParamList::new(alloc);
    params.push(Param::Reference(7))?;
    params.push(Param::Derived)?;
    Ok(params)
}

// Which of them a parameter is.
fn which(param: &Option<Param>) -> &'static str {
    match param {
        Some(Param::Derived) => "*",
        Some(Param::Reference(7)) => "#7",
        Some(_) => "another",
        None => "none",
    }
}

#[test]
fn lists_of_parameters_grow_and_shrink(rt: HostRuntime) -> Result<(), Fail> {
    expect(&rt, ParamList::new(rt.alloc()).is_empty(), true);
    let mut params = two(rt.alloc())?;
    assert_eq!(rt; params.len(), 2);
    assert!(rt; matches!(params.at(1), Param::Derived));
    for want in ["*", "#7", "none"] {
        expect(&rt, which(&params.pop()), want);
    }
    Ok(())
}

#[test]
fn laws_of_exchanges_can_be_cited() {
    grammar_laws();
    instance_laws();
    text_laws();
}
