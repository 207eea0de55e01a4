//! Projects whose instances are written as a file has them.

use edit_rules::Project;
use edit_script::read;
use entity_types::Script;
use nc_base::NoMemory;
use project_read::{MAX_PROJECT_BYTES, project_in};
use std::alloc::Global;
use std::process::Abort;
use std::test::Fail;

/// The beginning of a file, with a project whose main workplan is #2.
const HEAD: &str =
    "ISO-10303-21;HEADER;FILE_DESCRIPTION((''),'2;1');FILE_NAME('','',(''),(''),'','','');FILE_SCHEMA((''));ENDSEC;DATA;#1=PROJECT('P',#2);";

/// What the workingsteps of the tests are made of, and the end of a file. A step `#150,#120,#130` drills a hole at (10, 20), 15 mm deep; one
/// with #132 dwells half a second at its bottom; `#151,#121,#131` is another hole with another tool.
const FOOT: &str =
    "#44=MILLING_CUTTING_TOOL('T',$);#46=MILLING_CUTTING_TOOL('U',$);#120=ROUND_HOLE('',$,(),#160,#152,10.);#121=ROUND_HOLE('',$,(),#163,#153,10.);#130=DRILLING($,$,'',5.,$,#44,#145);#131=DRILLING($,$,'',3.,$,#46,#146);#132=DRILLING($,$,'',5.,$,#44,#145,$,$,$,$,0.5);#145=MILLING_TECHNOLOGY(0.040,$,$,20.);#146=MILLING_TECHNOLOGY(0.025,$,$,-12.5);#150=PLANE('',#161);#151=PLANE('',#164);#152=PLANE('',#162);#153=PLANE('',#165);#160=AXIS2_PLACEMENT_3D('',#170,$,$);#161=AXIS2_PLACEMENT_3D('',#171,$,$);#162=AXIS2_PLACEMENT_3D('',#172,$,$);#163=AXIS2_PLACEMENT_3D('',#173,$,$);#164=AXIS2_PLACEMENT_3D('',#174,$,$);#165=AXIS2_PLACEMENT_3D('',#175,$,$);#170=CARTESIAN_POINT('',(10.,20.,0.));#171=CARTESIAN_POINT('',(0.,0.,30.));#172=CARTESIAN_POINT('',(0.,0.,-15.));#173=CARTESIAN_POINT('',(-4.,0.,-1.));#174=CARTESIAN_POINT('',(0.,0.,50.));#175=CARTESIAN_POINT('',(0.,0.,-7.));ENDSEC;END-ISO-10303-21;";

fn text_of(alloc: Global, data: &str) -> Result<String, NoMemory> {
    Ok(format!(in alloc; "{HEAD}{data}{FOOT}")?)
}

/// The project of these instances. It promises nothing, so that its callers are proved without what reading promises.
pub(crate) fn project(rt: &impl Abort, alloc: Global, data: &str) -> Result<Project, Fail> {
    let text = text_of(alloc, data)?;
    assert!(rt; text.len() <= MAX_PROJECT_BYTES, "the text is too long");
    Ok(project_in(alloc, text.as_bytes())?)
}

/// The script of this text. It promises nothing either.
pub(crate) fn script(rt: &impl Abort, alloc: Global, text: &str) -> Result<Script, Fail> {
    assert!(rt; text.len() <= 100_000, "the text is too long");
    Ok(read(alloc, text.as_bytes())?)
}
