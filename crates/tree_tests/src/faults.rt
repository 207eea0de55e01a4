//! The first fault of a walk, by projects small enough to read.

use crate::projects::expect_fault;
use TreeErr::{ExprTooBig, Shared, TooManyChannels};
use exec_tree::TreeErr;
use std::test::Fail;

/// Instances, and the first fault of their tree.
type Row = (&'static [u8], Option<TreeErr>);

const ROWS: &[Row] = &[
    (b"#2=WORKPLAN('M',(),$);", None),
    // one executable twice: side by side, in two branches, below itself, the main workplan
    (
        b"#2=WORKPLAN('M',(#3,#4),$);#3=DISPLAY_MESSAGE('');#4=DISPLAY_MESSAGE('');",
        None,
    ),
    (
        b"#2=WORKPLAN('M',(#3,#3),$);#3=DISPLAY_MESSAGE('');",
        Some(Shared(3)),
    ),
    (
        b"#2=WORKPLAN('M',(#3,#4),$);#3=WORKPLAN('',(#5),$);#4=PARALLEL('',(#5));#5=SET_MARK('');",
        Some(Shared(5)),
    ),
    (
        b"#2=WORKPLAN('M',(#3),$);#3=SELECTIVE('',(#4,#3));#4=LOAD_TOOL('');",
        Some(Shared(3)),
    ),
    (b"#2=WORKPLAN('M',(#2),$);", Some(Shared(2))),
    (
        b"#2=WORKPLAN('M',(#3),$);#3=IF_STATEMENT('',#9,#4,#4);#4=DISPLAY_MESSAGE('');#9=AND_EXPRESSION(());",
        Some(Shared(4)),
    ),
    (
        b"#2=WORKPLAN('M',(#3,#4),$);#3=IF_STATEMENT('',#9,#5,$);#4=IF_STATEMENT('',#9,#6,$);#5=SET_MARK('');#6=SET_MARK('');#9=OR_EXPRESSION(());",
        None,
    ),
    // a mark that is waited for stands where it is set
    (
        b"#2=WORKPLAN('M',(#3,#4),$);#3=SET_MARK('');#4=WAIT_FOR_MARK('',#3);",
        None,
    ),
    // conditions and values that lead back to themselves, by one step and by two, and one that shares without an end
    (
        b"#2=WORKPLAN('M',(#3),$);#3=WHILE_STATEMENT('W',#4,#6);#4=NOT_EXPRESSION(#4);#6=DISPLAY_MESSAGE('X');",
        Some(ExprTooBig(3)),
    ),
    (
        b"#2=WORKPLAN('M',(#3),$);#3=IF_STATEMENT('',#4,#6,$);#4=NOT_EXPRESSION(#5);#5=XOR_EXPRESSION(#4,#7);#7=COMPARISON_LESS(1.,2.);#6=DISPLAY_MESSAGE('');",
        Some(ExprTooBig(3)),
    ),
    (
        b"#2=WORKPLAN('M',(#3),$);#3=ASSIGNMENT('',#5,#7);#5=NC_VARIABLE('V',$);#7=!NC_SUM(#7,#7);",
        Some(ExprTooBig(3)),
    ),
    // an expression that shares: 511 nodes, and 1,023
    (
        b"#2=WORKPLAN('M',(#3),$);#3=ASSIGNMENT('',#5,#17);#5=NC_VARIABLE('V',$);#10=!NC_SUM(#5,1.);#11=!NC_SUM(#10,#10);#12=!NC_SUM(#11,#11);#13=!NC_SUM(#12,#12);#14=!NC_SUM(#13,#13);#15=!NC_SUM(#14,#14);#16=!NC_SUM(#15,#15);#17=!NC_SUM(#16,#16);",
        None,
    ),
    (
        b"#2=WORKPLAN('M',(#3),$);#3=ASSIGNMENT('',#5,#18);#5=NC_VARIABLE('V',$);#10=!NC_SUM(#5,1.);#11=!NC_SUM(#10,#10);#12=!NC_SUM(#11,#11);#13=!NC_SUM(#12,#12);#14=!NC_SUM(#13,#13);#15=!NC_SUM(#14,#14);#16=!NC_SUM(#15,#15);#17=!NC_SUM(#16,#16);#18=!NC_SUM(#17,#17);",
        Some(ExprTooBig(3)),
    ),
    // eight channels, one of them named twice, and nine
    (
        b"#2=WORKPLAN('M',(#3,#4,#5,#6,#7,#8,#9,#10),#11);#3=WORKPLAN('',(),#12);#4=WORKPLAN('',(),#13);#5=WORKPLAN('',(),#14);#6=WORKPLAN('',(),#15);#7=WORKPLAN('',(),#16);#8=WORKPLAN('',(),#17);#9=WORKPLAN('',(),#18);#10=WORKPLAN('',(),#12);#11=CHANNEL('');#12=CHANNEL('');#13=CHANNEL('');#14=CHANNEL('');#15=CHANNEL('');#16=CHANNEL('');#17=CHANNEL('');#18=CHANNEL('');",
        None,
    ),
    (
        b"#2=WORKPLAN('M',(#3,#4,#5,#6,#7,#8,#9,#10),#11);#3=WORKPLAN('',(),#12);#4=WORKPLAN('',(),#13);#5=WORKPLAN('',(),#14);#6=WORKPLAN('',(),#15);#7=WORKPLAN('',(),#16);#8=WORKPLAN('',(),#17);#9=WORKPLAN('',(),#18);#10=WORKPLAN('',(),#19);#11=CHANNEL('');#12=CHANNEL('');#13=CHANNEL('');#14=CHANNEL('');#15=CHANNEL('');#16=CHANNEL('');#17=CHANNEL('');#18=CHANNEL('');#19=CHANNEL('');",
        Some(TooManyChannels),
    ),
    // what lies below an executable comes before what follows it
    (
        b"#2=WORKPLAN('M',(#3,#4),$);#3=WORKPLAN('',(#4,#5,#5),$);#4=SET_MARK('');#5=SET_MARK('');",
        Some(Shared(5)),
    ),
];

#[test]
fn the_first_fault_decides(rt: HostRuntime) -> Result<(), Fail> {
    for (data, want) in ROWS {
        expect_fault(&rt, rt.alloc(), data, *want)?;
    }
    Ok(())
}
