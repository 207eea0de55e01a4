//! What a tree holds: nodes by place and by number, channels, roles, conditions and values; and the tree of a project after edits.

ghost use Rattle.std.specs.Prelude.{◌≡◌};

use crate::expect::expect;
use crate::projects::{items, store};
use exec_tree::{Kind, Node, NodeKind, Role, Tree, TreeErr, build, rebuild};
use nc_base::{NoMemory, Number, NumberList, Steps};
use nc_expr::{Vars, test, value};
use project_store::Overlay;
use std::alloc::Global;
use std::marker::Brand;
use std::process::Abort;
use std::sync::ledger::{Blank, Ledger};
use std::test::Fail;

/// An if without a branch for no, a workplan with a channel of its own, a parallel, and workingsteps in both.
const PROJECT: &[u8] =
    b"#2=WORKPLAN('M',(#3,#9),#20);#3=IF_STATEMENT('',#4,#6,$);#4=COMPARISON_LESS(#5,3.);#5=NC_VARIABLE('V',1.);#6=WORKPLAN('',(#14,#7,#8),#21);#7=ASSIGNMENT('',#5,#10);#8=WAIT_FOR_MARK('',#12);#9=PARALLEL('',(#15,#12,#13));#10=!NC_PRODUCT(#5,2.5);#12=SET_MARK('');#13=WORKPLAN('',(),$);#14=MACHINING_WORKINGSTEP('',$,#30,#31);#15=MACHINING_WORKINGSTEP('',$,#30,#31);#20=CHANNEL('');#21=CHANNEL('');#30=ROUND_HOLE();#31=DRILLING();";

/// The nodes by place: number, channel, kind, and the places of the elements. Place 6 is the branch that is left out.
const NODES: &[(Option<Number>, u8, Kind, &[Number])] = &[
    (Some(2), 0, Kind::Plan, &[1, 7]),
    (Some(3), 0, Kind::If, &[2, 6]),
    (Some(6), 1, Kind::Plan, &[3, 4, 5]),
    (Some(14), 1, Kind::Work, &[]),
    (Some(7), 1, Kind::Assign, &[]),
    (Some(8), 1, Kind::Wait, &[]),
    (None, 0, Kind::Plan, &[]),
    (Some(9), 0, Kind::Par, &[8, 9, 10]),
    (Some(15), 0, Kind::Work, &[]),
    (Some(12), 0, Kind::Set, &[]),
    (Some(13), 0, Kind::Plan, &[]),
];

/// By number: the place, the channel, and the role. The last two are no nodes: a condition, and nothing.
const NUMBERS: &[(Number, Option<u32>, u8, Role)] = &[
    (2, Some(0), 0, Role::Free),
    (3, Some(1), 0, Role::Free),
    (6, Some(2), 1, Role::Free),
    (14, Some(3), 1, Role::Cutting),
    (7, Some(4), 1, Role::Free),
    (8, Some(5), 1, Role::Waiting(12)),
    (9, Some(7), 0, Role::Free),
    (15, Some(8), 0, Role::Cutting),
    (12, Some(9), 0, Role::Free),
    (13, Some(10), 0, Role::Free),
    (4, None, 0, Role::Free),
    (99, None, 0, Role::Free),
];

fn expect_node(rt: &impl Abort, node: &Node, row: &(Option<Number>, u8, Kind, &[Number])) {
    expect(rt, node.number, row.0);
    expect(rt, node.channel, row.1);
    expect(rt, node.kind.kind(), row.2);
    assert!(rt; node.elements.as_slice() == row.3);
}

fn expect_number(rt: &impl Abort, tree: &Tree, row: &(Number, Option<u32>, u8, Role)) {
    expect(rt, tree.place_of(row.0), row.1);
    expect(rt, tree.channel(row.0), row.2);
    expect(rt, tree.role(row.0), row.3);
}

fn tree(rt: &impl Abort, alloc: Global, data: &[u8]) -> Result<Tree, Fail> {
    let store = store(rt, alloc, data)?;
    Ok(build(alloc, &store)?)
}

#[test]
fn a_tree_has_its_nodes_in_preorder(rt: HostRuntime) -> Result<(), Fail> {
    let tree = tree(&rt, rt.alloc(), PROJECT)?;
    assert_eq!(&rt; tree.nodes().len(), NODES.len());
    for (node, row) in tree.nodes().iter().zip(NODES) {
        expect_node(&rt, node, row);
    }
    Ok(())
}

#[test]
fn a_number_has_a_place_a_channel_and_a_role(rt: HostRuntime) -> Result<(), Fail> {
    let tree = tree(&rt, rt.alloc(), PROJECT)?;
    for row in NUMBERS {
        expect_number(&rt, &tree, row);
    }
    Ok(())
}

fn expect_lists(rt: &impl Abort, tree: &Tree, steps: &[Number], channels: &[Number]) {
    assert!(rt; tree.steps() == steps);
    assert!(rt; tree.channel_table() == channels);
}

#[test]
fn a_tree_has_its_workingsteps_and_channels_in_order(rt: HostRuntime) -> Result<(), Fail> {
    let tree = tree(&rt, rt.alloc(), PROJECT)?;
    assert_eq!(&rt; tree.steps(), [14, 15].as_slice());
    assert_eq!(&rt; tree.channel_table(), [20, 21].as_slice());
    assert_eq!(&rt;
        (tree.main_workplan(), tree.len(), tree.channels()),
        (2, 11, 2)
    );
    Ok(())
}

/// There is a channel 0 where none is named.
#[test]
fn there_is_always_a_channel(rt: HostRuntime) -> Result<(), Fail> {
    let tree = tree(&rt, rt.alloc(), b"#2=WORKPLAN('M',(),$);")?;
    expect(&rt, tree.channels(), 1);
    Ok(())
}

/// What a node of this number says under the variable's value: a condition's answer, or an assignment's variable and value.
fn said(tree: &Tree, n: Number, vars: &Vars) -> (Option<bool>, Option<(Number, i64)>) {
    match tree.node_of(n) {
        Some(node) => match &node.kind {
            NodeKind::If(condition) | NodeKind::While(condition) => {
                (Some(test(condition, vars)), None)
            }
            NodeKind::Assign(variable, e) => (None, Some((*variable, value(e, vars)))),
            _ => (None, None),
        },
        None => (None, None),
    }
}

/// The variable's value, the if's answer, and the assigned value.
const SAID: &[(i64, bool, i64)] = &[
    (1_000, true, 2_500),
    (2_999, true, 7_497),
    (3_000, false, 7_500),
    (-1, true, -2),
];

fn expect_said(
    rt: &impl Abort,
    alloc: Global,
    tree: &Tree,
    row: &(i64, bool, i64),
) -> Result<(), NoMemory> {
    let (x, answer, assigned) = *row;
    let vars = Vars::new(alloc, &[(5, x)])?;
    expect(rt, said(tree, 3, &vars), (Some(answer), None));
    expect(rt, said(tree, 7, &vars), (None, Some((5, assigned))));
    Ok(())
}

#[test]
fn nodes_say_conditions_and_values(rt: HostRuntime) -> Result<(), Fail> {
    let tree = tree(&rt, rt.alloc(), PROJECT)?;
    for row in SAID {
        expect_said(&rt, rt.alloc(), &tree, row)?;
    }
    Ok(())
}

/// The numbers of the nodes by place, each looked at on a counter; 0 where a node has none.
fn looked_at<L: Ledger>(alloc: Global, blank: Blank, tree: &Tree) -> Result<NumberList, NoMemory>
    requires name { blank.name ≡ L.name }
    requires parts { blank.parts ≡ L.parts }
    requires one { blank.parts ≡ 1 }
{
    let (book, share) = blank.open::<L>();
    let mut steps = Steps::new(book, share);
    let mut numbers = NumberList::new(alloc);
    for place in 0..tree.len() {
        numbers.push(tree.node(place, &mut steps).number.unwrap_or(0))?;
    }
    Ok(numbers)
}

#[test]
fn a_look_at_a_place_finds_its_node(rt: HostRuntime) -> Result<(), Fail> {
    let tree = tree(&rt, rt.alloc(), PROJECT)?;
    let numbers = looked_at::<Brand>(rt.alloc(), Blank::new(1), &tree)?;
    assert!(&rt; numbers.as_slice() == [2, 3, 6, 14, 7, 8, 0, 9, 15, 12, 13].as_slice());
    Ok(())
}

/// The tree of the project after an edit, with the channel numbers of the tree before.
fn after(rt: &impl Abort, alloc: Global, edit: &[u8]) -> Result<Result<Tree, TreeErr>, Fail> {
    let store = store(rt, alloc, PROJECT)?;
    let old = build(alloc, &store)?;
    let items = items(rt, alloc, edit)?;
    let overlay = Overlay::new(alloc, &store, &items)?;
    Ok(rebuild(alloc, &overlay, &old))
}

/// The main workplan is put with the other channel, and without the if: the channels keep their numbers.
#[test]
fn channels_keep_their_numbers(rt: HostRuntime) -> Result<(), Fail> {
    let tree = after(&rt, rt.alloc(), b"#2=WORKPLAN('M',(#9),#21);")??;
    expect_lists(&rt, &tree, &[15], &[20, 21]);
    expect(&rt, tree.channel(2), 1);
    expect(&rt, tree.channel(15), 1);
    Ok(())
}

/// What an edit puts, and the fault of the tree after it.
const EDITS: &[(&[u8], Option<TreeErr>)] = &[
    (b"#13=WORKPLAN('',(#16),#21);#16=SET_MARK('');", None),
    (b"#13=WORKPLAN('',(#8),#20);", Some(TreeErr::Shared(8))),
    (
        b"#13=WORKPLAN('',(#8),#22);#22=CHANNEL('');",
        Some(TreeErr::NewChannel(13)),
    ),
];

fn expect_after(
    rt: &impl Abort,
    alloc: Global,
    edit: &[u8],
    want: Option<TreeErr>,
) -> Result<(), Fail> {
    let fault = after(rt, alloc, edit)?.err();
    expect(rt, fault, want);
    Ok(())
}

#[test]
fn no_channel_comes_by_an_edit(rt: HostRuntime) -> Result<(), Fail> {
    for (edit, want) in EDITS {
        expect_after(&rt, rt.alloc(), edit, *want)?;
    }
    Ok(())
}
