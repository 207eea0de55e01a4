//! Tables of trees.

ghost use Rattle.std.specs.Prelude.{◌≡◌};
ghost use Rattle.tree_table.specs.Table.{IsTable};

use crate::rows::PROJECTS;
use crate::trees::tree;
use exec_tree::Tree;
use nc_base::{Number, Steps};
use place_set::{MAX_PLACES, PlaceSet};
use std::alloc::Global;
use std::marker::Brand;
use std::process::Abort;
use std::sync::ledger::{Blank, Ledger};
use std::test::Fail;
use trace_law::next;
use tree_table::{Continuation, Row, Table};

/// A workplan of each kind that has elements: an empty workplan, a parallel, a non-sequential, a while and an if without a branch for no.
const KINDS: &str = "#2=WORKPLAN('M',(#3,#4,#7,#10,#12),$);#3=WORKPLAN('',(),$);\
    #4=PARALLEL('',(#5,#6));#5=MACHINING_WORKINGSTEP('',$,#30,#31);#6=DISPLAY_MESSAGE('');\
    #7=NON_SEQUENTIAL('',(#8,#9));#8=DISPLAY_MESSAGE('');#9=WORKPLAN('',(),$);\
    #10=WHILE_STATEMENT('',#91,#11);#11=DISPLAY_MESSAGE('');#12=IF_STATEMENT('',#91,#13,$);#13=DISPLAY_MESSAGE('');";

/// The rows of its nodes, in preorder. The branch that the if leaves out has none.
const ROWS: [(Option<u32>, Continuation, u32); 12] = [
    (Some(2), Continuation::Done, 64),
    (None, Continuation::Opens(2), 63),
    (Some(2), Continuation::Opens(5), 63),
    (Some(3), Continuation::Joins(2), 62),
    (Some(4), Continuation::Joins(2), 62),
    (Some(5), Continuation::Opens(8), 63),
    (Some(6), Continuation::PicksOn(5), 62),
    (None, Continuation::PicksOn(5), 62),
    (Some(8), Continuation::Opens(10), 63),
    (Some(9), Continuation::TestsAgain(8), 62),
    (Some(10), Continuation::Done, 63),
    (Some(11), Continuation::Done, 62),
];

fn expect_row(rt: &impl Abort, row: &Row, want: (Option<u32>, Continuation, u32)) {
    assert_eq!(rt; (row.into, row.after, row.levels), want);
}

#[test]
fn rows_of_all_kinds(rt: HostRuntime) -> Result<(), Fail> {
    let tree = tree(&rt, rt.alloc(), KINDS)?;
    let table = Table::new(rt.alloc(), &tree)?;
    assert_eq!(&rt; table.rows().len(), 13);
    for (row, want) in table.rows().iter().zip(ROWS.iter()) {
        expect_row(&rt, row, *want);
    }
    Ok(())
}

fn number_at(tree: &Tree, place: u32) -> Number {
    match tree.nodes().get(place as usize) {
        Some(node) => node.number.unwrap_or(0),
        None => 0,
    }
}

// The nodes of the places in a set, in the order of places.
fn numbers_in(alloc: Global, tree: &Tree, set: &PlaceSet) -> Result<Vec<Number>, Fail> {
    let mut numbers = Vec::new(alloc);
    for place in 0..tree.len() {
        if place < MAX_PLACES && set.contains(place) {
            numbers.push(number_at(tree, place))?;
        }
    }
    Ok(numbers)
}

// Opens the tree by its table, with the looks counted on this ledger.
fn open_counted<L: Ledger>(table: &Table, tree: &Tree, set: &mut PlaceSet, blank: Blank)
    requires name { blank.name ≡ L.name }
    requires parts { blank.parts ≡ L.parts }
    requires one { blank.parts ≡ 1 }
    requires table { IsTable tree.now.nodes table.now.rows.items }
{
    let (book, share) = blank.open::<L>();
    let mut steps = Steps::new(book, share);
    table.open_tree(tree, set, &mut steps);
}

// Stops unless opening the tree by its table gives the nodes where a run begins.
fn expect_opened(rt: &impl Abort, alloc: Global, tree: &Tree) -> Result<(), Fail> {
    let table = Table::new(alloc, tree)?;
    let mut set = PlaceSet::new();
    open_counted::<Brand>(&table, tree, &mut set, Blank::new(1));
    let begins = next(alloc, tree, &[])?;
    assert_eq!(rt;
        numbers_in(alloc, tree, &set)?.as_slice(),
        begins.as_slice()
    );
    Ok(())
}

#[test]
fn trees_are_opened_by_their_tables(rt: HostRuntime) -> Result<(), Fail> {
    for (data, _rows) in PROJECTS {
        let tree = tree(&rt, rt.alloc(), data)?;
        expect_opened(&rt, rt.alloc(), &tree)?;
    }
    Ok(())
}
