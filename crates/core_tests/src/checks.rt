//! Logs that are judged, worked out by hand.

use crate::logs::lines_of;
use crate::projects::{project, script};
use log_check::{Answer, check};
use log_read::read;
use nc_base::NoMemory;
use run_log::{Ending, Log};
use std::alloc::Global;
use std::process::Abort;
use std::test::Fail;

// Each part of a table begins with `*` and what its project shows. The line behind that has the project's instances, and each further line is a log: the text
// of a script, a bar, the log as logs.rt has it, a bar, and what is found.

/// A step, its blocks, and how a log ends.
const STEPS: &str = "* one step\n\
    #2=WORKPLAN('',(#10),$);#10=MACHINING_WORKINGSTEP('',#150,#120,#130);\n\
    |step 10 / end done 8|legal done\n\
    |step 10 / end limit 8|illegal 8\n\
    |step 10 / end blocked 8|illegal 8\n\
    |D 10 0 / b 10 0 / end limit 2|legal limit\n\
    |D 10 0 / b 10 0 / end done 2|illegal 2\n\
    |D 10 0 / b 10 0 / end blocked 2|illegal 2\n\
    |end limit 0|illegal 0\n\
    |end done 0|illegal 0\n\
    |D 10 1 / end limit 1|illegal 0\n\
    |D 9 0 / end limit 1|illegal 0\n\
    |D 2 0 / end limit 1|illegal 0\n\
    |E 10 / end limit 1|illegal 0\n\
    |b 10 0 / end limit 1|illegal 0\n\
    |M 10 / end limit 1|illegal 0\n\
    |S 10 / end limit 1|illegal 0\n\
    |P 10 0 / end limit 1|illegal 0\n\
    |T 10 1 / end limit 1|illegal 0\n\
    |X 0 ok / end limit 1|illegal 0\n\
    |D 10 0 / D 10 0 / end limit 2|illegal 1\n\
    |D 10 0 / b 10 1 / end limit 2|illegal 1\n\
    |D 10 0 / E 10 / end limit 2|illegal 1\n\
    |D 10 0 / B 10 0 T 44 20001 / end limit 2|illegal 1\n\
    |D 10 0 / B 10 0 R 10000 20000 30000 / end limit 2|illegal 1\n\
    |D 10 0 / b 10 0 / b 10 0 / end limit 3|illegal 2\n\
    |D 10 0 / b 10 0 / b 10 1 / b 10 2 / B 10 3 F 10000 20000 -15000 41 / end limit 5|illegal 4\n\
    |D 10 0 / b 10 0 / b 10 1 / b 10 2 / B 10 3 F 10000 20000 -15001 40 / b 10 4 / b 10 5 / E 10 / end done 8|illegal 4\n\
    |D 10 0 / b 10 0 / b 10 1 / b 10 2 / b 10 3 / b 10 4 / E 10 / end done 7|illegal 6\n\
    |step 10 / E 10 / end done 9|illegal 8\n\
    |step 10 / D 10 0 / end limit 9|illegal 8\n\
    * two steps of one channel\n\
    #2=WORKPLAN('',(#3),$);#3=PARALLEL('',(#10,#9));#9=MACHINING_WORKINGSTEP('',#150,#120,#130);#10=MACHINING_WORKINGSTEP('',#150,#120,#130);\n\
    |step 10 / step 9 / end done 16|legal done\n\
    |step 9 / step 10 / end done 16|legal done\n\
    |D 9 0 / D 10 0 / end limit 2|illegal 1\n\
    |D 9 0 / b 9 0 / b 10 0 / end limit 3|illegal 2\n\
    * two steps in a row\n\
    #2=WORKPLAN('',(#10,#9),$);#9=MACHINING_WORKINGSTEP('',#150,#120,#130);#10=MACHINING_WORKINGSTEP('',#150,#120,#130);\n\
    |step 10 / step 9 / end done 16|legal done\n\
    |step 9 / step 10 / end done 16|illegal 0\n\
    * two channels\n\
    #2=WORKPLAN('',(#3),$);#3=PARALLEL('',(#4,#5));#4=WORKPLAN('',(#10),#8);#5=WORKPLAN('',(#9),#11);#8=CHANNEL('0');#11=CHANNEL('1');#9=MACHINING_WORKINGSTEP('',#150,#120,#130);#10=MACHINING_WORKINGSTEP('',#150,#120,#130);\n\
    |D 9 0 / b 9 0 / D 10 0 / b 10 0 / b 9 1 / b 10 1 / end limit 6|legal limit\n\
    |D 9 0 / D 10 0 / b 9 0 / b 9 1 / b 10 1 / end limit 5|illegal 4\n";

/// Marks, choices and values.
const FLOW: &str = "* each channel waits for the other\n\
    #2=WORKPLAN('',(#3),$);#3=PARALLEL('',(#4,#5));#4=WORKPLAN('',(#6,#13),#8);#5=WORKPLAN('',(#7,#11),#9);#6=WAIT_FOR_MARK('',#11);#7=WAIT_FOR_MARK('',#13);#11=SET_MARK('');#13=SET_MARK('');#8=CHANNEL('0');#9=CHANNEL('1');\n\
    |end blocked 0|legal blocked\n\
    |end limit 0|illegal 0\n\
    |end done 0|illegal 0\n\
    |W 6 / end limit 1|illegal 0\n\
    |S 13 / end limit 1|illegal 0\n\
    * a wait behind its mark\n\
    #2=WORKPLAN('',(#7,#6),$);#6=WAIT_FOR_MARK('',#7);#7=SET_MARK('');\n\
    |S 7 / W 6 / end done 2|legal done\n\
    |S 7 / end limit 1|legal limit\n\
    |S 7 / end blocked 1|illegal 1\n\
    |W 6 / S 7 / end done 2|illegal 0\n\
    * three in any order\n\
    #2=WORKPLAN('',(#3),$);#3=NON_SEQUENTIAL('',(#4,#5,#6));#4=DISPLAY_MESSAGE('');#5=DISPLAY_MESSAGE('');#6=DISPLAY_MESSAGE('');\n\
    |P 3 0 / M 4 / P 3 1 / M 5 / P 3 2 / M 6 / end done 6|legal done\n\
    |P 3 2 / M 6 / P 3 0 / M 4 / P 3 1 / M 5 / end done 6|legal done\n\
    |P 3 1 / M 5 / P 3 2 / M 6 / P 3 0 / M 4 / end done 6|legal done\n\
    |P 3 1 / M 5 / P 3 1 / M 5 / end limit 4|illegal 2\n\
    |P 3 3 / end limit 1|illegal 0\n\
    |P 3 1 / M 4 / end limit 2|illegal 1\n\
    |P 3 1 / P 3 0 / end limit 2|illegal 1\n\
    |P 4 0 / end limit 1|illegal 0\n\
    |M 4 / end limit 1|illegal 0\n\
    |P 3 2 / M 6 / P 3 0 / M 4 / P 3 1 / M 5 / P 3 1 / end limit 7|illegal 6\n\
    * one of three\n\
    #2=WORKPLAN('',(#3),$);#3=SELECTIVE('',(#4,#5,#6));#4=DISPLAY_MESSAGE('');#5=DISPLAY_MESSAGE('');#6=DISPLAY_MESSAGE('');\n\
    |P 3 0 / M 4 / end done 2|legal done\n\
    |P 3 2 / M 6 / end done 2|legal done\n\
    |P 3 3 / end limit 1|illegal 0\n\
    |P 3 2 / M 6 / P 3 1 / end limit 3|illegal 2\n\
    * two in any order, in each of two rounds\n\
    #2=WORKPLAN('',(#3),$);#3=WHILE_STATEMENT('',#4,#5);#4=COMPARISON_LESS(#6,2.);#6=NC_VARIABLE('V',$);#11=ASSIGNMENT('',#6,#12);#12=!NC_SUM(#6,1.);#5=WORKPLAN('',(#7,#11),$);#7=NON_SEQUENTIAL('',(#8,#9));#8=DISPLAY_MESSAGE('');#9=DISPLAY_MESSAGE('');\n\
    |T 3 1 / P 7 1 / M 9 / P 7 0 / M 8 / A 11 1000 / T 3 1 / P 7 1 / M 9 / P 7 0 / M 8 / A 11 2000 / T 3 0 / end done 13|legal done\n\
    |T 3 1 / P 7 0 / M 8 / P 7 1 / M 9 / A 11 1000 / T 3 1 / P 7 1 / M 9 / P 7 1 / end limit 10|illegal 9\n\
    |T 3 0 / end done 1|illegal 0\n\
    |T 3 1 / P 7 1 / M 9 / P 7 0 / M 8 / A 11 1001 / end limit 6|illegal 5\n\
    |T 3 1 / P 7 1 / M 9 / P 7 0 / M 8 / A 11 1000 / T 3 0 / end done 7|illegal 6\n\
    * an if\n\
    #2=WORKPLAN('',(#3),$);#3=IF_STATEMENT('',#14,#7,#8);#14=COMPARISON_EQUAL(#6,0.);#6=NC_VARIABLE('V',$);#7=DISPLAY_MESSAGE('');#8=DISPLAY_MESSAGE('');\n\
    |T 3 1 / M 7 / end done 2|legal done\n\
    |T 3 1 / M 8 / end done 2|illegal 1\n\
    |T 3 0 / M 8 / end done 2|illegal 0\n\
    * nothing\n\
    #2=WORKPLAN('',(),$);\n\
    |end done 0|legal done\n\
    |end blocked 0|illegal 0\n\
    |end limit 0|illegal 0\n";

/// Edits: when they are due, the verdicts on them, and what they change.
const EDITS: &str = "* one step\n\
    #2=WORKPLAN('',(#10),$);#10=MACHINING_WORKINGSTEP('',#150,#120,#130);\n\
    EDIT AT 0;#172=CARTESIAN_POINT('',(0.,0.,-18.));ENDEDIT;|X 0 ok / D 10 1 / b 10 0 / b 10 1 / b 10 2 / B 10 3 F 10000 20000 -18000 40 / b 10 4 / b 10 5 / E 10 / end done 9|legal done\n\
    EDIT AT 0;#172=CARTESIAN_POINT('',(0.,0.,-18.));ENDEDIT;|X 0 ok / D 10 1 / b 10 0 / b 10 1 / b 10 2 / b 10 3 / b 10 4 / b 10 5 / E 10 / end done 9|illegal 5\n\
    EDIT AT 0;#172=CARTESIAN_POINT('',(0.,0.,-18.));ENDEDIT;|X 0 ok / D 10 0 / end limit 2|illegal 1\n\
    EDIT AT 0;#172=CARTESIAN_POINT('',(0.,0.,-18.));ENDEDIT;|D 10 0 / end limit 1|illegal 0\n\
    EDIT AT 0;#172=CARTESIAN_POINT('',(0.,0.,-18.));ENDEDIT;|X 0 no J4 10 0 / end limit 1|illegal 0\n\
    EDIT AT 0;#172=CARTESIAN_POINT('',(0.,0.,-18.));ENDEDIT;|X 1 ok / end limit 1|illegal 0\n\
    EDIT AT 0;#172=CARTESIAN_POINT('',(0.,0.,-18.));ENDEDIT;|X 0 ok / X 0 ok / end limit 2|illegal 1\n\
    EDIT AT 1;#172=CARTESIAN_POINT('',(0.,0.,-18.));ENDEDIT;|D 10 0 / X 0 no J4 10 0 / b 10 0 / b 10 1 / b 10 2 / b 10 3 / b 10 4 / b 10 5 / E 10 / end done 9|legal done\n\
    EDIT AT 1;#172=CARTESIAN_POINT('',(0.,0.,-18.));ENDEDIT;|D 10 0 / X 0 no J4 10 1 / end limit 2|illegal 1\n\
    EDIT AT 1;#172=CARTESIAN_POINT('',(0.,0.,-18.));ENDEDIT;|D 10 0 / X 0 no J5 10 0 / end limit 2|illegal 1\n\
    EDIT AT 1;#172=CARTESIAN_POINT('',(0.,0.,-18.));ENDEDIT;|D 10 0 / X 0 ok / end limit 2|illegal 1\n\
    EDIT AT 1;#172=CARTESIAN_POINT('',(0.,0.,-18.));ENDEDIT;|D 10 0 / b 10 0 / end limit 2|illegal 1\n\
    EDIT AT 1;#172=CARTESIAN_POINT('',(0.,0.,-18.));ENDEDIT;|X 0 ok / end limit 1|illegal 0\n\
    EDIT AT 1000;#172=CARTESIAN_POINT('',(0.,0.,-18.));ENDEDIT;|step 10 / X 0 no J4 10 0 / end done 9|legal done\n\
    EDIT AT 1000;#172=CARTESIAN_POINT('',(0.,0.,-18.));ENDEDIT;|step 10 / end done 8|illegal 8\n\
    EDIT AT 1000;#172=CARTESIAN_POINT('',(0.,0.,-18.));ENDEDIT;|step 10 / end limit 8|legal limit\n\
    EDIT AT 0;#172=CARTESIAN_POINT('',(0.,0.,15.));ENDEDIT;|X 0 no J5 10 6 / step 10 / end done 9|legal done\n\
    EDIT AT 0;#172=CARTESIAN_POINT('',(0.,0.,15.));ENDEDIT;|X 0 ok / step 10 / end done 9|illegal 0\n\
    * each of two waits for the other\n\
    #2=WORKPLAN('',(#3),$);#3=PARALLEL('',(#4,#5));#4=WORKPLAN('',(#6,#13),#8);#5=WORKPLAN('',(#7,#11),#9);#6=WAIT_FOR_MARK('',#11);#7=WAIT_FOR_MARK('',#13);#8=CHANNEL('');#9=CHANNEL('');#11=SET_MARK('');#13=SET_MARK('');\n\
    EDIT AT 1000;ENDEDIT;|X 0 ok / end blocked 1|legal blocked\n\
    EDIT AT 1000;ENDEDIT;|end blocked 0|illegal 0\n\
    EDIT AT 1000;ENDEDIT;|end limit 0|illegal 0\n";

/// The text of a log whose entries and last line a table has.
fn text_of(alloc: Global, entries: &str) -> Result<String, NoMemory> {
    let lines = lines_of(alloc, entries)?;
    Ok(format!(in alloc; "STEPNC-LOG 1\n{lines}")?)
}

/// What is found of a log of these instances and this text of a script. It promises nothing, so that its callers are proved without what `check` promises.
fn found(
    rt: &impl Abort,
    alloc: Global,
    data: &str,
    edits: &str,
    log: Log,
    ending: Ending,
) -> Result<Answer, Fail> {
    let project = project(rt, alloc, data)?;
    let script = script(rt, alloc, edits)?;
    Ok(check(alloc, project, script, log, ending)?)
}

fn word_of(ending: Ending) -> &'static str {
    match ending {
        Ending::Done => "done",
        Ending::Blocked => "blocked",
        Ending::Limit => "limit",
    }
}

/// What is found as the program says it.
fn said(alloc: Global, answer: Answer) -> Result<String, NoMemory> {
    Ok(match answer {
        Answer::Legal(ending) => {
            let word = word_of(ending);
            format!(in alloc; "legal {word}")?
        }
        Answer::Illegal(place) => format!(in alloc; "illegal {place}")?,
    })
}

/// Stops unless this log is legal with its ending.
pub(crate) fn expect_legal(
    rt: &impl Abort,
    alloc: Global,
    data: &str,
    edits: &str,
    log: Log,
    ending: Ending,
    place: &str,
) -> Result<(), Fail> {
    let answer = found(rt, alloc, data, edits, log, ending)?;
    assert!(rt; answer == Answer::Legal(ending), "of {place}");
    Ok(())
}

fn log_in(alloc: Global, text: &str) -> Result<(Log, Ending), Fail> {
    Ok(read(alloc, text.as_bytes())?)
}

/// Stops unless a row's log is found to be what the row says.
fn expect_row(rt: &impl Abort, alloc: Global, data: &str, row: &str) -> Result<(), Fail> {
    let (edits, rest) = row.split_once('|').unwrap_or((row, ""));
    let (entries, wanted) = rest.split_once('|').unwrap_or((rest, ""));
    let text = text_of(alloc, entries)?;
    let (log, ending) = log_in(alloc, &text)?;
    let answer = found(rt, alloc, data, edits, log, ending)?;
    let said = said(alloc, answer)?;
    assert_eq!(rt; said.as_str(), wanted, "of {row}");
    Ok(())
}

/// Stops unless each log of a part of a table is found to be what its row says.
fn expect_part(rt: &impl Abort, alloc: Global, part: &str) -> Result<(), Fail> {
    let (_, project) = part.split_once('\n').unwrap_or((part, ""));
    let (data, rows) = project.split_once('\n').unwrap_or((project, ""));
    for row in rows.lines() {
        expect_row(rt, alloc, data, row)?;
    }
    Ok(())
}

fn expect_table(rt: &impl Abort, alloc: Global, table: &str) -> Result<(), Fail> {
    for part in table.split("* ") {
        expect_part(rt, alloc, part)?;
    }
    Ok(())
}

#[test]
fn steps_are_judged(rt: HostRuntime) -> Result<(), Fail> {
    expect_table(&rt, rt.alloc(), STEPS)
}

#[test]
fn choices_and_marks_are_judged(rt: HostRuntime) -> Result<(), Fail> {
    expect_table(&rt, rt.alloc(), FLOW)
}

#[test]
fn edits_in_logs_are_judged(rt: HostRuntime) -> Result<(), Fail> {
    expect_table(&rt, rt.alloc(), EDITS)
}
