//! Verdicts on edits. Each row has the steps that were dispatched, the items of an edit as a file has them, and the verdict, worked out by hand from the five rules.

ghost use Rattle.std.specs.Prelude.{◌≡◌, true};
ghost use Rattle.std.specs.List.{list_all};
ghost use Rattle.project_store.specs.Entities.{entity_at};
ghost use Rattle.step_def.specs.Condition.{is_workingstep};
ghost use Rattle.exec_tree.specs.Built.{steps_in};

use crate::entities::entities;
use crate::store::store;
use edit_rules::laws::{
    accepted_edits_are_safe, accepted_edits_keep_a_project, rules_decide,
    steps_of_trees_are_workingsteps, verdicts_ask_for_members,
};
use edit_rules::{Project, judge};
use entity_types::{Edit, EntityList};
use exec_tree::Tree;
use nc_base::{NoMemory, Number, Steps, Verdict};
use project_versions::{StepSet, Versions};
use std::alloc::{AllocError, Global};
use std::marker::Brand;
use std::process::Abort;
use std::sync::ledger::{Blank, Ledger};
use std::test::Fail;

/// Three holes are drilled. Steps 10 and 11 share a drilling, 10 and 12 a hole, and all three the tool. Step 19, which has no security plane,
/// isn't in the tree, and no step uses point 99.
const SHOP: &str = "#1=PROJECT('',#2);\n\
    #2=WORKPLAN('',(#12,#10,#3,#11),#7);\n\
    #3=DISPLAY_MESSAGE('');\n\
    #4=NC_VARIABLE('',1.);\n\
    #5=!NC_PRODUCT(#4,#4);\n\
    #7=CHANNEL('');\n\
    #10=MACHINING_WORKINGSTEP('',#50,#20,#30);\n\
    #11=MACHINING_WORKINGSTEP('',#50,#21,#30);\n\
    #12=MACHINING_WORKINGSTEP('',#50,#20,#31);\n\
    #19=MACHINING_WORKINGSTEP('',$,#20,#31);\n\
    #20=ROUND_HOLE('',$,$,#60,#51,10.);\n\
    #21=ROUND_HOLE('',$,$,#60,#51,10.);\n\
    #30=DRILLING($,$,$,5.,$,#44,#45,$,$,$,$,$);\n\
    #31=DRILLING($,$,$,5.,$,#44,#45,$,$,$,$,$);\n\
    #44=MILLING_CUTTING_TOOL('',#46);\n\
    #45=MILLING_TECHNOLOGY(0.04,$,$,20.);\n\
    #46=TWIST_DRILL($);\n\
    #50=PLANE('',#61);\n\
    #51=PLANE('',#62);\n\
    #60=AXIS2_PLACEMENT_3D('',#70,$,$);\n\
    #61=AXIS2_PLACEMENT_3D('',#71,$,$);\n\
    #62=AXIS2_PLACEMENT_3D('',#72,$,$);\n\
    #70=CARTESIAN_POINT('',(10.,20.,0.));\n\
    #71=CARTESIAN_POINT('',(0.,0.,30.));\n\
    #72=CARTESIAN_POINT('',(0.,0.,-15.));\n\
    #99=CARTESIAN_POINT('',(0.,0.,0.));\n";

/// J1: what stands there is of what a run is made of, or of another class; or what is new is of what a run is made of, workingsteps too. The first item counts.
const CLASSES: &str = "|#1=PROJECT('',#2);|J1 1 1\n\
    |#2=WORKPLAN('',(),$);|J1 2 2\n\
    |#3=DISPLAY_MESSAGE('');|J1 3 12\n\
    |#4=NC_VARIABLE('',1.);|J1 4 14\n\
    |#5=!NC_PRODUCT(#4,#4);|J1 5 28\n\
    |#7=CHANNEL('');|J1 7 13\n\
    |#3=CARTESIAN_POINT('',(0.,0.,0.));|J1 3 12\n\
    |#20=PLANE('',#61);|J1 20 29\n\
    |#20=MACHINING_WORKINGSTEP('',#50,#20,#30);|J1 20 29\n\
    |#10=PLANE('',#61);|J1 10 11\n\
    |#99=DISPLAY_MESSAGE('');|J1 99 39\n\
    |#100=DISPLAY_MESSAGE('');|J1 100 12\n\
    |#100=MACHINING_WORKINGSTEP('',#50,#20,#30);|J1 100 11\n\
    |#100=PROJECT('',#2);|J1 100 1\n\
    |#100=!NC_PRODUCT(#4,#4);|J1 100 28\n\
    |#100=ROUND_HOLE('',$,$,$,$,$);|accepted\n\
    |#100=ANYTHING(#98);|accepted\n\
    |#10=MACHINING_WORKINGSTEP('',#50,#21,#31);|accepted\n\
    |#7=CHANNEL('');#3=DISPLAY_MESSAGE('');|J1 7 13\n\
    ||accepted";

/// J2 and J3: what items refer to. The first item counts, then its first position, then the first place in a list; what the edit brings is there, and what isn't looked at is not missed.
const REFERENCES: &str = "|#20=ROUND_HOLE('',$,$,#60,#98,10.);|J2 20 98\n\
    |#20=ROUND_HOLE('',$,$,#97,#98,10.);|J2 20 97\n\
    |#100=POLYLINE('',(#99,#98,#97));|J2 100 98\n\
    |#21=ROUND_HOLE('',$,$,#60,#98,10.);#20=ROUND_HOLE('',$,$,#60,#97,10.);|J2 21 98\n\
    |#10=MACHINING_WORKINGSTEP('',#50,#98,#30);|J2 10 98\n\
    |#20=ROUND_HOLE('',$,$,#98,#51,10.);#98=AXIS2_PLACEMENT_3D('',#70,$,$);|accepted\n\
    |#20=ROUND_HOLE(#98,#98,#98,#60,#51,10.);|accepted\n\
    |#100=PLANE('',#100);|accepted\n\
    |#10=MACHINING_WORKINGSTEP('',#50,#30,#30);|J3 10 3\n\
    |#10=MACHINING_WORKINGSTEP('',#50,#20,#20);|J3 10 4\n\
    |#10=MACHINING_WORKINGSTEP('',#50,#30,#20);|J3 10 3\n\
    |#12=MACHINING_WORKINGSTEP('',#50,#20,#20);#10=MACHINING_WORKINGSTEP('',#50,#30,#20);|J3 12 4\n\
    |#10=MACHINING_WORKINGSTEP('',#50,#100,#30);#100=CARTESIAN_POINT('',(0.,0.,0.));|J3 10 3\n\
    |#10=MACHINING_WORKINGSTEP('',#50,#100,#30);#100=ROUND_HOLE('',$,$,#60,#51,10.);|accepted";

/// J4: the least step that was dispatched and is reached, in the store with the edit put. Dispatched steps that aren't reached refuse nothing.
const DISPATCHED: &str = "10|#30=DRILLING($,$,$,6.,$,#44,#45,$,$,$,$,$);|J4 10 0\n\
    12 10|#44=MILLING_CUTTING_TOOL('',#46);|J4 10 0\n\
    11 12|#44=MILLING_CUTTING_TOOL('',#46);|J4 11 0\n\
    10|#10=MACHINING_WORKINGSTEP('',#50,#20,#30);|J4 10 0\n\
    11|#72=CARTESIAN_POINT('',(0.,0.,-16.));|J4 11 0\n\
    11|#12=MACHINING_WORKINGSTEP('',#50,#21,#31);#21=ROUND_HOLE('',$,$,#60,#51,10.);|J4 11 0\n\
    12|#12=MACHINING_WORKINGSTEP('',#50,#21,#31);#20=ROUND_HOLE('',$,$,#60,#51,10.);|J4 12 0\n\
    12|#30=DRILLING($,$,$,6.,$,#44,#45,$,$,$,$,$);|accepted\n\
    10 12|#21=ROUND_HOLE('',$,$,#60,#51,11.);|accepted\n\
    10|#12=MACHINING_WORKINGSTEP('',#50,#20,#30);|accepted\n\
    10 11 12|#99=CARTESIAN_POINT('',(1.,0.,0.));|accepted\n\
    10 11 12||accepted";

/// J5: the least step of the tree that is reached and has a fault in the store with the edit put, with the code of the fault. Step 19 has one all along, and isn't in the tree. Some
/// rows make steps refer to the same.
const FAULTY: &str = "|#20=ROUND_HOLE('',$,$,#60,#51,0.);|J5 10 6\n\
    |#21=ROUND_HOLE('',$,$,#60,#51,0.);|J5 11 6\n\
    |#45=MILLING_TECHNOLOGY(0.,$,$,20.);|J5 10 6\n\
    |#50=PLANE('',$);|J5 10 1\n\
    |#31=DRILLING((),$,$,5.,$,#44,#45,$,$,$,$,$);|J5 12 2\n\
    |#62=AXIS2_PLACEMENT_3D('',#72,#100,$);#100=DIRECTION('',(1.,0.,0.));|J5 10 3\n\
    |#11=MACHINING_WORKINGSTEP('',#50,#21,#100);#100=BOTTOM_AND_SIDE_ROUGH_MILLING($,$,$,5.,$,#101,#45,$,$,$,$,$,$,$,$,$);#101=MILLING_CUTTING_TOOL('',#102);#102=ENDMILL(#103);#103=MILLING_TOOL_DIMENSION(10.);|J5 11 4\n\
    |#71=CARTESIAN_POINT('',(0.,0.,-100000.001));|J5 10 7\n\
    11|#20=ROUND_HOLE('',$,$,#60,#51,0.);|J5 10 6\n\
    |#12=MACHINING_WORKINGSTEP('',$,#20,#31);#11=MACHINING_WORKINGSTEP('',$,#21,#30);|J5 11 1\n\
    |#31=DRILLING($,$,$,6.,$,#44,#45,$,$,$,$,$);|accepted\n\
    |#19=MACHINING_WORKINGSTEP('',$,#21,#31);|accepted\n\
    |#11=MACHINING_WORKINGSTEP('',#50,#20,#30);#20=ROUND_HOLE('',$,$,#60,#51,11.);|accepted\n\
    |#11=MACHINING_WORKINGSTEP('',#50,#20,#30);#20=ROUND_HOLE('',$,$,#60,#51,0.);|J5 10 6\n\
    |#11=MACHINING_WORKINGSTEP('',#50,#20,#30);#31=DRILLING((),$,$,5.,$,#44,#45,$,$,$,$,$);#30=DRILLING($,$,$,5.,$,#44,#45,$,$,$,$,$);|J5 12 2\n\
    |#10=MACHINING_WORKINGSTEP('',#50,#20,#30);#11=MACHINING_WORKINGSTEP('',#50,#20,#30);#12=MACHINING_WORKINGSTEP('',$,#20,#30);|J5 12 1\n\
    |#11=MACHINING_WORKINGSTEP('',$,#21,#30);#12=MACHINING_WORKINGSTEP('',$,#21,#30);|J5 11 1\n\
    |#100=ROUND_HOLE('',$,$,#60,#51,0.);|accepted\n\
    |#20=ROUND_HOLE('',$,$,#60,#51,0.);#10=MACHINING_WORKINGSTEP('',#50,#21,#30);#12=MACHINING_WORKINGSTEP('',#50,#21,#31);|accepted";

/// Of two rules that apply the earlier decides, whatever the order of the items and of the steps.
const ORDER: &str = "|#20=ROUND_HOLE('',$,$,#98,#51,10.);#3=DISPLAY_MESSAGE('');|J1 3 12\n\
    |#10=MACHINING_WORKINGSTEP('',#50,#30,#30);#3=DISPLAY_MESSAGE('');|J1 3 12\n\
    10|#30=DRILLING($,$,$,6.,$,#44,#45,$,$,$,$,$);#3=DISPLAY_MESSAGE('');|J1 3 12\n\
    |#20=ROUND_HOLE('',$,$,#60,#51,0.);#3=DISPLAY_MESSAGE('');|J1 3 12\n\
    |#10=MACHINING_WORKINGSTEP('',#50,#30,#30);#20=ROUND_HOLE('',$,$,#98,#51,10.);|J2 20 98\n\
    10|#20=ROUND_HOLE('',$,$,#98,#51,10.);|J2 20 98\n\
    |#20=ROUND_HOLE('',$,$,#60,#51,0.);#21=ROUND_HOLE('',$,$,#98,#51,10.);|J2 21 98\n\
    10|#10=MACHINING_WORKINGSTEP('',#50,#30,#30);|J3 10 3\n\
    |#20=ROUND_HOLE('',$,$,#60,#51,0.);#11=MACHINING_WORKINGSTEP('',#50,#30,#30);|J3 11 3\n\
    12|#20=ROUND_HOLE('',$,$,#60,#51,0.);|J4 12 0";

/// The first part of a row, and what follows it.
fn row(line: &str) -> (&str, &str) {
    line.split_once('|').unwrap_or((line, ""))
}

/// The number that decimal digits are.
fn number(digits: &str) -> Number {
    let mut value: u32 = 0;
    for digit in digits.bytes() {
        value = value
            .wrapping_mul(10)
            .wrapping_add(u32::from(digit.wrapping_sub(b'0')));
    }
    value
}

/// The items of an edit.
fn edit(rt: &impl Abort, alloc: Global, text: &str) -> Result<Edit, Fail> {
    let mut items = EntityList::new(alloc);
    for item in entities(rt, alloc, text)? {
        items.push(item)?;
    }
    Ok(Edit { at: 0, items })
}

/// The set of these steps, which are of the tree.
fn set_of(rt: &impl Abort, alloc: Global, tree: &Tree, text: &str) -> Result<StepSet, Fail> {
    let mut set = StepSet::new(alloc, tree.steps())?;
    for word in text.split(' ') {
        let step = number(word);
        if step != 0 {
            assert!(rt;
                tree.steps().contains(&step),
                "step {step} isn't in the tree"
            );
            set.add(step);
        }
    }
    Ok(set)
}

/// A verdict as the log has it.
fn shown(alloc: Global, verdict: Verdict) -> Result<String, AllocError> {
    match verdict {
        Verdict::Accepted => String::from_str(alloc, "accepted"),
        Verdict::Refused { code, a, b } => format!(in alloc; "J{code} {a} {b}"),
    }
}

/// The verdict on an edit, with its definitions counted on this ledger. It promises nothing, so that its callers are proved without what
/// judging promises.
fn counted<L: Ledger>(
    alloc: Global,
    versions: &Versions,
    tree: &Tree,
    sent: &StepSet,
    edit: &Edit,
    blank: Blank,
) -> Result<Verdict, NoMemory>
    requires name { blank.name ≡ L.name }
    requires parts { blank.parts ≡ L.parts }
    requires one { blank.parts ≡ 1 }
    requires steps { versions.now.steps ≡ steps_in tree.now.nodes }
    requires workingsteps { list_all (is_workingstep (entity_at versions.now.store)) (steps_in tree.now.nodes) ≡ true }
{
    let (book, share) = blank.open::<L>();
    let mut steps = Steps::new(book, share);
    judge(alloc, versions, tree, sent, edit, &mut steps)
}

fn verdict(
    alloc: Global,
    versions: &Versions,
    tree: &Tree,
    sent: &StepSet,
    edit: &Edit,
) -> Result<Verdict, NoMemory>
    requires steps { versions.now.steps ≡ steps_in tree.now.nodes }
    requires workingsteps { list_all (is_workingstep (entity_at versions.now.store)) (steps_in tree.now.nodes) ≡ true }
{
    counted::<Brand>(alloc, versions, tree, sent, edit, Blank::new(1))
}

/// Stops unless the edits of these rows are judged as they say.
fn expect_verdicts(
    rt: &impl Abort,
    alloc: Global,
    versions: &Versions,
    tree: &Tree,
    rows: &str,
) -> Result<(), Fail>
    requires steps { versions.now.steps ≡ steps_in tree.now.nodes }
    requires workingsteps { list_all (is_workingstep (entity_at versions.now.store)) (steps_in tree.now.nodes) ≡ true }
{
    for line in rows.split('\n') {
        let (sent, rest) = row(line);
        let (items, want) = row(rest);
        let sent = set_of(rt, alloc, tree, sent)?;
        let edit = edit(rt, alloc, items)?;
        let found = shown(alloc, verdict(alloc, versions, tree, &sent, &edit)?)?;
        assert_eq!(rt; found.as_str(), want, "of {line}");
    }
    Ok(())
}

/// Stops unless edits of the shop are judged as the rows say.
fn expect_rows(rt: &impl Abort, alloc: Global, rows: &str) -> Result<(), Fail> {
    let project = Project::accept(alloc, store(rt, alloc, SHOP)?)?;
    let (store, tree) = project.parts();
    steps_of_trees_are_workingsteps();
    let versions = Versions::new(alloc, store, tree.steps(), 0)?;
    expect_verdicts(rt, alloc, &versions, &tree, rows)
}

#[test]
fn classes_of_items(rt: HostRuntime) -> Result<(), Fail> {
    expect_rows(&rt, rt.alloc(), CLASSES)
}

#[test]
fn references_of_items(rt: HostRuntime) -> Result<(), Fail> {
    expect_rows(&rt, rt.alloc(), REFERENCES)
}

#[test]
fn dispatched_steps(rt: HostRuntime) -> Result<(), Fail> {
    expect_rows(&rt, rt.alloc(), DISPATCHED)
}

#[test]
fn faulty_definitions(rt: HostRuntime) -> Result<(), Fail> {
    expect_rows(&rt, rt.alloc(), FAULTY)
}

#[test]
fn the_earlier_rule_decides(rt: HostRuntime) -> Result<(), Fail> {
    expect_rows(&rt, rt.alloc(), ORDER)
}

#[test]
fn laws_of_verdicts_can_be_cited() {
    rules_decide();
    accepted_edits_are_safe();
    accepted_edits_keep_a_project();
    verdicts_ask_for_members();
}
