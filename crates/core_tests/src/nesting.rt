//! Every kind of executable in every other: two holders in each other around each kind, and each kind directly in a loop without an end.

use crate::logs::{count_of, expect_run, lines_of, log_up_to};
use nc_base::NoMemory;
use std::alloc::Global;
use std::process::Abort;
use std::test::Fail;

/// What holds an executable: its instances, with `@` for the digit of its level and `%` for that of the level below it, where `%00` is what it holds;
/// the entries before those of what it holds, and the entries behind them.
const HOLDERS: &str =
    "#@00=WORKPLAN('',(#@01,#%00,#@02),$);#@01=DISPLAY_MESSAGE('');#@02=DISPLAY_MESSAGE('');|M @01|M @02\n\
    #@00=PARALLEL('',(#%00,#@01));#@01=DISPLAY_MESSAGE('');||M @01\n\
    #@00=NON_SEQUENTIAL('',(#%00,#@01));#@01=DISPLAY_MESSAGE('');|P @00 0|P @00 1 / M @01\n\
    #@00=SELECTIVE('',(#%00,#@01));#@01=DISPLAY_MESSAGE('');|P @00 0|\n\
    #@00=IF_STATEMENT('',#@02,#%00,#@01);#@01=DISPLAY_MESSAGE('');#@02=AND_EXPRESSION(());|T @00 1|\n\
    #@00=IF_STATEMENT('',#@02,#@01,#%00);#@01=DISPLAY_MESSAGE('');#@02=OR_EXPRESSION(());|T @00 0|\n\
    #@00=WHILE_STATEMENT('',#@01,#@02);#@01=COMPARISON_LESS(#@03,1.);#@02=WORKPLAN('',(#%00,#@04),$);#@03=NC_VARIABLE('',$);#@04=ASSIGNMENT('',#@03,1.);|T @00 1|A @04 1000 / T @00 0\n";

/// A loop without an end.
const ENDLESS: &str = "#@00=WHILE_STATEMENT('',#@01,#%00);#@01=AND_EXPRESSION(());|T @00 1|T @00 1";

/// An executable: its instances, and the entries that it makes. The mark #7 is set before.
const KINDS: &str = "#@00=WORKPLAN('',(),$);|\n\
    #@00=WORKPLAN('',(#@01,#@02),$);#@01=DISPLAY_MESSAGE('');#@02=PROGRAM_STOP('');|M @01 / M @02\n\
    #@00=PARALLEL('',(#@01,#@02));#@01=WORKPLAN('',(),$);#@02=WORKPLAN('',(),$);|\n\
    #@00=PARALLEL('',(#@01,#@02));#@01=DISPLAY_MESSAGE('');#@02=DISPLAY_MESSAGE('');|M @01 / M @02\n\
    #@00=NON_SEQUENTIAL('',(#@01,#@02));#@01=DISPLAY_MESSAGE('');#@02=DISPLAY_MESSAGE('');|P @00 0 / M @01 / P @00 1 / M @02\n\
    #@00=SELECTIVE('',(#@01,#@02));#@01=DISPLAY_MESSAGE('');#@02=DISPLAY_MESSAGE('');|P @00 0 / M @01\n\
    #@00=IF_STATEMENT('',#@02,#@01,$);#@01=DISPLAY_MESSAGE('');#@02=AND_EXPRESSION(());|T @00 1 / M @01\n\
    #@00=IF_STATEMENT('',#@02,#@01,$);#@01=DISPLAY_MESSAGE('');#@02=OR_EXPRESSION(());|T @00 0\n\
    #@00=WHILE_STATEMENT('',#@01,#@02);#@01=COMPARISON_LESS(#@03,2.);#@02=ASSIGNMENT('',#@03,#@04);#@03=NC_VARIABLE('',$);#@04=!NC_SUM(#@03,1.);|T @00 1 / A @02 1000 / T @00 1 / A @02 2000 / T @00 0\n\
    #@00=ASSIGNMENT('',#@01,-0.5);#@01=NC_VARIABLE('',$);|A @00 -500\n\
    #@00=SET_MARK('');|S @00\n\
    #@00=WAIT_FOR_MARK('',#7);|W @00\n\
    #@00=MACHINING_WORKINGSTEP('',#150,#120,#130);|step @00\n\
    #@00=OPTIONAL_STOP('');|M @00\n";

/// The digits of three levels below the main workplan.
const LEVELS: [&str; 4] = ["3", "4", "5", "6"];

/// A part of a row on a level.
fn on_level(alloc: Global, part: &str, level: usize) -> Result<String, NoMemory> {
    let digit = LEVELS.get(level).unwrap_or(&"");
    let below = LEVELS.get(level.wrapping_add(1)).unwrap_or(&"");
    let own = part.replace(alloc, "@", digit)?;
    Ok(own.replace(alloc, "%", below)?)
}

/// The parts of a row.
fn parts(row: &str) -> (&str, &str, &str) {
    let (instances, entries) = row.split_once('|').unwrap_or((row, ""));
    let (before, behind) = entries.split_once('|').unwrap_or((entries, ""));
    (instances, before, behind)
}

/// What holders in each other and the innermost executable make together: its instances and its entries.
#[derive(Drop)]
struct Nested {
    instances: String,
    entries: String,
}

/// An executable on a level.
fn innermost(alloc: Global, kind: &str, level: usize) -> Result<Nested, NoMemory> {
    let (instances, entries, _) = parts(kind);
    let instances = on_level(alloc, instances, level)?;
    let entries = on_level(alloc, entries, level)?;
    Ok(Nested { instances, entries })
}

/// What stands on the level below, held on this one.
fn held(alloc: Global, holder: &str, below: &Nested, level: usize) -> Result<Nested, NoMemory> {
    let (instances, before, behind) = parts(holder);
    let own = on_level(alloc, instances, level)?;
    let before = on_level(alloc, before, level)?;
    let behind = on_level(alloc, behind, level)?;
    let instances = format!(in alloc; "{own}{}", below.instances)?;
    let entries = format!(in alloc; "{before} / {} / {behind}", below.entries)?;
    Ok(Nested { instances, entries })
}

/// Stops unless the main workplan, which sets the mark #7 before, makes these entries, up to a limit, and ends so.
fn expect_main(
    rt: &impl Abort,
    alloc: Global,
    nested: &Nested,
    ending: &str,
    room: u32,
) -> Result<(), Fail> {
    let data = format!(in alloc;
        "#2=WORKPLAN('',(#7,#300),$);#7=SET_MARK('');{}",
        nested.instances
    )?;
    let lines = lines_of(alloc, &format!(in alloc; "S 7 / {}", nested.entries)?)?;
    let count = count_of(&lines);
    let last = format!(in alloc; "end {ending} {count}")?;
    let limit = count.saturating_add(room);
    let wanted = log_up_to(alloc, &lines, &last, limit)?;
    expect_run(rt, alloc, &data, "", &[], limit, &wanted, &nested.instances)
}

/// Stops unless each kind in the inner of two holders makes the entries that it should.
fn expect_kinds(rt: &impl Abort, alloc: Global, outer: &str, inner: &str) -> Result<(), Fail> {
    for kind in KINDS.lines() {
        let kind = innermost(alloc, kind, 2)?;
        let inner = held(alloc, inner, &kind, 1)?;
        let outer = held(alloc, outer, &inner, 0)?;
        expect_main(rt, alloc, &outer, "done", 1)?;
    }
    Ok(())
}

fn expect_holders(rt: &impl Abort, alloc: Global, outer: &str) -> Result<(), Fail> {
    for inner in HOLDERS.lines() {
        expect_kinds(rt, alloc, outer, inner)?;
    }
    Ok(())
}

#[test]
fn every_kind_runs_in_every_other(rt: HostRuntime) -> Result<(), Fail> {
    for outer in HOLDERS.lines() {
        expect_holders(&rt, rt.alloc(), outer)?;
    }
    Ok(())
}

#[test]
fn every_kind_runs_directly_in_a_loop(rt: HostRuntime) -> Result<(), Fail> {
    for kind in KINDS.lines() {
        let kind = innermost(rt.alloc(), kind, 1)?;
        let round = held(rt.alloc(), ENDLESS, &kind, 0)?;
        expect_main(&rt, rt.alloc(), &round, "limit", 0)?;
    }
    Ok(())
}
