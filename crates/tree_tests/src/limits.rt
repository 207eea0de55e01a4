//! Each limit of a tree and one past it, and which of two faults in one project comes first.

use crate::projects::{expect_fault, put, put_with};
use TreeErr::{ExprTooBig, Shared, TooDeep, TooManyChannels, TooManyNodes};
use exec_tree::{MAX_EXPRESSION_NODES, MAX_TREE_NESTING, MAX_TREE_NODES, TreeErr};
use nc_base::NoMemory;
use std::alloc::Global;
use std::process::Abort;
use std::test::Fail;

/// So many workplans from #`from` on, each in the one before. The last holds the executable of the number behind them, which isn't put.
fn put_chain(text: &mut Vec<u8>, alloc: Global, from: u32, count: u32) -> Result<(), NoMemory> {
    for i in 0..count {
        let n = from.wrapping_add(i);
        put_with(
            text,
            alloc,
            b"#@=WORKPLAN('',(#%),$);",
            n,
            n.wrapping_add(1),
        )?;
    }
    Ok(())
}

/// The pattern for each number from #`from` on, with a number that stands as far behind `other`.
fn put_each(
    text: &mut Vec<u8>,
    alloc: Global,
    pattern: &[u8],
    from: u32,
    other: u32,
    count: u32,
) -> Result<(), NoMemory> {
    for i in 0..count {
        put_with(
            text,
            alloc,
            pattern,
            from.wrapping_add(i),
            other.wrapping_add(i),
        )?;
    }
    Ok(())
}

/// Workplan #`number`, with so many elements from #`from` on and #`last` behind them.
fn put_workplan(
    text: &mut Vec<u8>,
    alloc: Global,
    number: u32,
    from: u32,
    count: u32,
    last: u32,
) -> Result<(), NoMemory> {
    put_with(text, alloc, b"#@=WORKPLAN('',(", number, 0)?;
    put_each(text, alloc, b"#@,", from, 0, count)?;
    put_with(text, alloc, b"#@),$);", last, 0)
}

/// Workplan #`number`, with so many notes, at least one, that end with #900000.
fn put_notes(text: &mut Vec<u8>, alloc: Global, number: u32, count: u32) -> Result<(), NoMemory> {
    let before = count.saturating_sub(1);
    put_workplan(text, alloc, number, 10_000, before, 900_000)?;
    put_each(text, alloc, b"#@=DISPLAY_MESSAGE('');", 10_000, 0, before)?;
    put(text, b"#900000=DISPLAY_MESSAGE('');")
}

/// Condition #390: an AND of so many times comparison #391, which has three nodes, and of the empty OR #392, which has one.
fn put_conjunction(text: &mut Vec<u8>, alloc: Global, count: u32) -> Result<(), NoMemory> {
    put(text, b"#390=AND_EXPRESSION((")?;
    for _ in 0..count {
        put(text, b"#391,")?;
    }
    put(
        text,
        b"#392));#391=COMPARISON_LESS(1.,2.);#392=OR_EXPRESSION(());",
    )
}

/// Workplan #200 with so many whiles, each with a condition of 999 nodes and a note: 1,001 nodes each. The last while is #499.
fn put_whiles(text: &mut Vec<u8>, alloc: Global, count: u32) -> Result<(), NoMemory> {
    let before = count.saturating_sub(1);
    put_workplan(text, alloc, 200, 400, before, 499)?;
    put_each(
        text,
        alloc,
        b"#@=WHILE_STATEMENT('',#393,#%);#%=DISPLAY_MESSAGE('');",
        400,
        500,
        before,
    )?;
    put(
        text,
        b"#499=WHILE_STATEMENT('',#393,#599);#599=DISPLAY_MESSAGE('');#393=NOT_EXPRESSION(#390);",
    )?;
    put_conjunction(text, alloc, 332)
}

fn expect_nesting(
    rt: &impl Abort,
    alloc: Global,
    count: u32,
    want: Option<TreeErr>,
) -> Result<(), Fail> {
    let mut text = Vec::new(alloc);
    put_chain(&mut text, alloc, 2, count)?;
    put_with(
        &mut text,
        alloc,
        b"#@=DISPLAY_MESSAGE('');",
        count.wrapping_add(2),
        0,
    )?;
    expect_fault(rt, alloc, text.as_slice(), want)
}

/// A note in 63 workplans has nesting 64.
#[test]
fn executables_lie_in_each_other_up_to_the_nesting(rt: HostRuntime) -> Result<(), Fail> {
    assert_eq!(&rt; MAX_TREE_NESTING, 64);
    expect_nesting(&rt, rt.alloc(), 63, None)?;
    expect_nesting(&rt, rt.alloc(), 64, Some(TooDeep(66)))
}

fn expect_list(
    rt: &impl Abort,
    alloc: Global,
    count: u32,
    want: Option<TreeErr>,
) -> Result<(), Fail> {
    let mut text = Vec::new(alloc);
    put_notes(&mut text, alloc, 2, count)?;
    expect_fault(rt, alloc, text.as_slice(), want)
}

/// With the main workplan, `MAX_TREE_NODES` and one more.
#[test]
fn a_list_has_as_many_nodes_as_a_tree(rt: HostRuntime) -> Result<(), Fail> {
    assert_eq!(&rt; MAX_TREE_NODES, 65_535);
    expect_list(&rt, rt.alloc(), 65_534, None)?;
    expect_list(&rt, rt.alloc(), 65_535, Some(TooManyNodes))
}

/// A while whose condition is an AND of so many comparisons and an empty OR, with a NOT around it.
fn expect_condition(
    rt: &impl Abort,
    alloc: Global,
    count: u32,
    condition: &[u8],
    want: Option<TreeErr>,
) -> Result<(), Fail> {
    let mut text = Vec::new(alloc);
    put(
        &mut text,
        b"#2=WORKPLAN('M',(#3),$);#4=NOT_EXPRESSION(#5);#5=NOT_EXPRESSION(#390);#6=DISPLAY_MESSAGE('');",
    )?;
    put(&mut text, condition)?;
    put_conjunction(&mut text, alloc, count)?;
    expect_fault(rt, alloc, text.as_slice(), want)
}

/// An AND of 332 comparisons and an empty OR has 998 nodes, with two NOTs around it 1,000. With 333 it has 1,001.
#[test]
fn an_expression_has_so_many_nodes(rt: HostRuntime) -> Result<(), Fail> {
    assert_eq!(&rt; MAX_EXPRESSION_NODES, 1_000);
    let whole: &[u8] = b"#3=WHILE_STATEMENT('',#4,#6);";
    let inner: &[u8] = b"#3=WHILE_STATEMENT('',#390,#6);";
    expect_condition(&rt, rt.alloc(), 332, whole, None)?;
    expect_condition(&rt, rt.alloc(), 333, inner, Some(ExprTooBig(3)))
}

fn expect_whiles(
    rt: &impl Abort,
    alloc: Global,
    notes: u32,
    want: Option<TreeErr>,
) -> Result<(), Fail> {
    let mut text = Vec::new(alloc);
    put(&mut text, b"#2=WORKPLAN('M',(#200,#4),$);")?;
    put_whiles(&mut text, alloc, 65)?;
    put_notes(&mut text, alloc, 4, notes)?;
    expect_fault(rt, alloc, text.as_slice(), want)
}

/// The main workplan, 65 whiles of 1,001 nodes, 467 notes, and the two workplans that hold them are 65,535. One note more is too many.
#[test]
fn nodes_of_expressions_count(rt: HostRuntime) -> Result<(), Fail> {
    expect_whiles(&rt, rt.alloc(), 467, None)?;
    expect_whiles(&rt, rt.alloc(), 468, Some(TooManyNodes))
}

fn expect_if(
    rt: &impl Abort,
    alloc: Global,
    notes: u32,
    want: Option<TreeErr>,
) -> Result<(), Fail> {
    let mut text = Vec::new(alloc);
    put(
        &mut text,
        b"#2=WORKPLAN('M',(#3,#4),$);#3=IF_STATEMENT('',#9,#5,$);#5=DISPLAY_MESSAGE('');#9=AND_EXPRESSION(());",
    )?;
    put_notes(&mut text, alloc, 4, notes)?;
    expect_fault(rt, alloc, text.as_slice(), want)
}

/// The main workplan, an if with its condition and a note for yes, a workplan and 65,530 notes are 65,535: the branch for no, which is left out,
/// is no node.
#[test]
fn a_branch_that_is_left_out_is_no_node(rt: HostRuntime) -> Result<(), Fail> {
    expect_if(&rt, rt.alloc(), 65_530, None)?;
    expect_if(&rt, rt.alloc(), 65_531, Some(TooManyNodes))
}

/// A subtree with a fault of its own.
#[derive(Clone, Copy)]
enum Faulty {
    Shared,
    TooDeep,
    TooManyNodes,
    ExprTooBig,
    TooManyChannels,
}

/// Each with its workplan's number, and its fault.
const FAULTS: &[(Faulty, u32, TreeErr)] = &[
    (Faulty::Shared, 10, Shared(11)),
    (Faulty::TooDeep, 100, TooDeep(163)),
    (Faulty::TooManyNodes, 200, TooManyNodes),
    (Faulty::ExprTooBig, 20, ExprTooBig(21)),
    (Faulty::TooManyChannels, 30, TooManyChannels),
];

/// #100 has nesting 2, #163 nesting 65.
fn put_deep(text: &mut Vec<u8>, alloc: Global) -> Result<(), NoMemory> {
    put_chain(text, alloc, 100, 63)?;
    put(text, b"#163=DISPLAY_MESSAGE('');")
}

/// Workplan #30 with nine workplans, each with a channel of its own.
fn put_channels(text: &mut Vec<u8>, alloc: Global) -> Result<(), NoMemory> {
    put_workplan(text, alloc, 30, 31, 8, 39)?;
    put_each(
        text,
        alloc,
        b"#@=WORKPLAN('',(),#%);#%=CHANNEL('');",
        31,
        51,
        9,
    )
}

fn put_faulty(text: &mut Vec<u8>, alloc: Global, faulty: Faulty) -> Result<(), NoMemory> {
    match faulty {
        Faulty::Shared => put(
            text,
            b"#10=WORKPLAN('',(#11,#11),$);#11=DISPLAY_MESSAGE('');",
        ),
        Faulty::TooDeep => put_deep(text, alloc),
        Faulty::TooManyNodes => put_whiles(text, alloc, 66),
        Faulty::ExprTooBig => put(
            text,
            b"#20=WORKPLAN('',(#21),$);#21=WHILE_STATEMENT('',#22,#23);#22=NOT_EXPRESSION(#22);#23=DISPLAY_MESSAGE('');",
        ),
        Faulty::TooManyChannels => put_channels(text, alloc),
    }
}

/// A main workplan with these two, and all five subtrees.
fn expect_first(
    rt: &impl Abort,
    alloc: Global,
    first: u32,
    second: u32,
    want: TreeErr,
) -> Result<(), Fail> {
    let mut text = Vec::new(alloc);
    put_with(
        &mut text,
        alloc,
        b"#2=WORKPLAN('M',(#@,#%),$);",
        first,
        second,
    )?;
    for (faulty, _, _) in FAULTS {
        put_faulty(&mut text, alloc, *faulty)?;
    }
    expect_fault(rt, alloc, text.as_slice(), Some(want))
}

/// Each pair of faults in one project, in both orders: the walk comes to the first one first.
#[test]
fn of_two_faulty_subtrees_the_first_decides(rt: HostRuntime) -> Result<(), Fail> {
    for (_, first, want) in FAULTS {
        for (_, second, _) in FAULTS {
            expect_first(&rt, rt.alloc(), *first, *second, *want)?;
        }
    }
    Ok(())
}

/// Two faults at one executable: it stands in 64 workplans, and may stand before them too.
const AT_ONE: &[(&[u8], TreeErr)] = &[
    (
        b"#2=WORKPLAN('M',(#163,#100),$);#163=DISPLAY_MESSAGE('');",
        Shared(163),
    ),
    (
        b"#2=WORKPLAN('M',(#100),$);#163=DISPLAY_MESSAGE('');",
        TooDeep(163),
    ),
    (
        b"#2=WORKPLAN('M',(#100),$);#163=WHILE_STATEMENT('',#22,#23);#22=NOT_EXPRESSION(#22);#23=DISPLAY_MESSAGE('');",
        TooDeep(163),
    ),
];

fn expect_at_one(rt: &impl Abort, alloc: Global, data: &[u8], want: TreeErr) -> Result<(), Fail> {
    let mut text = Vec::from_slice(alloc, data)?;
    put_chain(&mut text, alloc, 100, 63)?;
    expect_fault(rt, alloc, text.as_slice(), Some(want))
}

#[test]
fn of_two_faults_at_one_executable_the_first_in_the_order_decides(
    rt: HostRuntime,
) -> Result<(), Fail> {
    for (data, want) in AT_ONE {
        expect_at_one(&rt, rt.alloc(), data, *want)?;
    }
    Ok(())
}

fn expect_big_after(rt: &impl Abort, alloc: Global, count: u32, want: TreeErr) -> Result<(), Fail> {
    let mut text = Vec::new(alloc);
    put(
        &mut text,
        b"#2=WORKPLAN('M',(#200,#21),$);#21=WHILE_STATEMENT('',#22,#23);#22=NOT_EXPRESSION(#22);#23=DISPLAY_MESSAGE('');",
    )?;
    put_whiles(&mut text, alloc, count)?;
    expect_fault(rt, alloc, text.as_slice(), Some(want))
}

/// With 65 whiles before it, of 65,065 nodes, an expression that is too big counts 1,000 and makes too many; with 64 of them it doesn't.
#[test]
fn too_many_nodes_come_before_too_big_an_expression(rt: HostRuntime) -> Result<(), Fail> {
    expect_big_after(&rt, rt.alloc(), 64, ExprTooBig(21))?;
    expect_big_after(&rt, rt.alloc(), 65, TooManyNodes)
}
