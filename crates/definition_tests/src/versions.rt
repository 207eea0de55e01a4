//! What an edit reaches, versions after edits, and sets of steps. What is wanted is worked out by hand from the references in the texts.

ghost use Rattle.std.specs.Prelude.{◌≡◌, ◌≤◌, [], ◌∷◌, length, IfOk};

use crate::entities::entity;
use crate::putting::can_be_put;
use crate::store::store;
use entity_types::{Edit, EntityList};
use nc_base::Number;
use project_versions::laws::few_are_new;
use project_versions::{StepSet, Versions};
use std::alloc::Global;
use std::process::Abort;
use std::test::Fail;

/// An edit of few items.
fn edit(rt: &impl Abort, alloc: Global, texts: &[&str]) -> Result<Edit, Fail>
    ensures { IfOk result (λ edit. length edit.items ≤ 4) }
{
    let mut items = EntityList::new(alloc);
    for text in texts {
        items.push(entity(rt, alloc, *text)?)?;
    }
    let few = items.len() <= 4;
    assert!(rt; few);
    Ok(Edit { at: 0, items })
}

/// Step 10 drills with tool 44 and step 11 too; both, and step 12, have technology 45. Step 12 has a feature and a tool of its own.
const PROJECT: &str = "#1=PROJECT('',#2);\
    #2=WORKPLAN('',(#12,#10,#11),$);\
    #10=MACHINING_WORKINGSTEP('',#50,#20,#30);\
    #11=MACHINING_WORKINGSTEP('',#50,#20,#31);\
    #12=MACHINING_WORKINGSTEP('',$,#21,#32);\
    #20=ROUND_HOLE('',$,$,#60,$,10.);\
    #21=ROUND_HOLE('',$,$,#61,$,10.);\
    #30=DRILLING($,$,$,5.,$,#44,#45,$,$,$,$,$);\
    #31=DRILLING($,$,$,5.,$,#44,#45,$,$,$,$,$);\
    #32=DRILLING($,$,$,5.,$,#48,#45,$,$,$,$,$);\
    #44=MILLING_CUTTING_TOOL('',#46);\
    #48=MILLING_CUTTING_TOOL('',#46);\
    #45=MILLING_TECHNOLOGY(0.04,$,$,20.);\
    #46=TWIST_DRILL($);\
    #50=PLANE('',#61);\
    #60=AXIS2_PLACEMENT_3D('',#70,$,$);\
    #61=AXIS2_PLACEMENT_3D('',#71,$,$);\
    #70=CARTESIAN_POINT('',(10.,20.,0.));\
    #71=CARTESIAN_POINT('',(0.,0.,30.));";

/// Items, and the steps that they reach.
type Row = (&'static [&'static str], &'static [Number]);

const ROWS: [Row; 9] = [
    // A shared tool, and one that one step has alone.
    (&["#44=MILLING_CUTTING_TOOL('',#46);"], &[10, 11]),
    (&["#48=MILLING_CUTTING_TOOL('',#46);"], &[12]),
    // What both tools refer to.
    (&["#46=TWIST_DRILL($);"], &[10, 11, 12]),
    // A point, four references away.
    (&["#70=CARTESIAN_POINT('',(1.,2.,0.));"], &[10, 11]),
    // A step itself.
    (&["#12=MACHINING_WORKINGSTEP('',$,#21,#30);"], &[12]),
    // What refers to steps, and isn't one.
    (&["#2=WORKPLAN('',(#12,#10,#11),$);"], &[]),
    // New, so that nothing refers to it; and new, where an item comes to refer to it.
    (&["#99=TWIST_DRILL($);"], &[]),
    (
        &["#99=TWIST_DRILL($);", "#48=MILLING_CUTTING_TOOL('',#99);"],
        &[12],
    ),
    // The operation refers to its tool no more, so that the tool reaches the other step alone; but the operation is put as well.
    (
        &[
            "#30=DRILLING($,$,$,5.,$,#48,#45,$,$,$,$,$);",
            "#44=MILLING_CUTTING_TOOL('',#46);",
        ],
        &[10, 11],
    ),
];

#[test]
fn an_edit_reaches_what_leads_to_it(rt: HostRuntime) -> Result<(), Fail> {
    let store = store(&rt, rt.alloc(), PROJECT)?;
    let versions = Versions::new(rt.alloc(), store, &[12, 10, 11], 0)?;
    for (texts, want) in ROWS {
        let edit = edit(&rt, rt.alloc(), texts)?;
        let reached = versions.reached(rt.alloc(), &edit)?;
        assert_eq!(&rt; reached.as_slice(), want);
    }
    Ok(())
}

/// Assignments in place of workingsteps, so that the items can be constants. The first has constant 8, the second 9, the third their sum.
const ASSIGNMENTS: &str = "#1=PROJECT('',#2);\
    #2=WORKPLAN('',(#3,#4,#5),$);\
    #3=ASSIGNMENT('',#7,#8);\
    #4=ASSIGNMENT('',#7,#9);\
    #5=ASSIGNMENT('',#7,#6);\
    #6=!NC_SUM(#8,#9);\
    #7=NC_VARIABLE('V',$);\
    #8=NC_CONSTANT('a',1.);\
    #9=NC_CONSTANT('b',2.);";

/// What has become of the assignments after two edits.
fn put_both(
    rt: &impl Abort,
    alloc: Global,
    first: &[&str],
    second: &[&str],
) -> Result<Versions, Fail>
    ensures { IfOk result (λ made. made.steps ≡ 3 ∷ 4 ∷ 5 ∷ []) }
{
    let mut versions = Versions::new(alloc, store(rt, alloc, ASSIGNMENTS)?, &[3, 4, 5], 8)?;
    few_are_new();
    let one = edit(rt, alloc, first)?;
    let can = can_be_put(alloc, versions.store(), &one.items)?;
    assert!(rt; can);
    versions.put(alloc, one)?;
    let two = edit(rt, alloc, second)?;
    let can = can_be_put(alloc, versions.store(), &two.items)?;
    assert!(rt; can);
    versions.put(alloc, two)?;
    Ok(versions)
}

#[test]
fn versions_count_the_edits_that_reach_a_step(rt: HostRuntime) -> Result<(), Fail> {
    let versions = put_both(
        &rt,
        rt.alloc(),
        &["#8=NC_CONSTANT('a',3.);", "#20=NC_CONSTANT('c',4.);"],
        &[
            "#9=NC_CONSTANT('b',5.);",
            "#8=NC_CONSTANT('a',6.);",
            "#20=NC_CONSTANT('c',7.);",
        ],
    )?;
    assert_eq!(&rt; versions.store().len(), 10);
    assert_eq!(&rt; versions.version(3), 2);
    assert_eq!(&rt; versions.version(4), 1);
    assert_eq!(&rt; versions.version(5), 2);
    Ok(())
}

#[test]
fn a_set_has_the_steps_that_were_added(rt: HostRuntime) -> Result<(), Fail> {
    let mut set = StepSet::new(rt.alloc(), &[12, 10, 11])?;
    assert!(&rt; !set.has(10));
    set.add(10);
    assert!(&rt; set.has(10));
    assert!(&rt; !set.has(12));
    assert!(&rt; !set.has(99));
    set.add(12);
    set.add(10);
    assert!(&rt; set.has(12));
    assert!(&rt; set.has(10));
    assert!(&rt; !set.has(11));
    Ok(())
}
