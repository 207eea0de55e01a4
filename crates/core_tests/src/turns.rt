//! A core turn by turn: where it stands, what a channel can do, and who did what.

ghost use Rattle.std.specs.Prelude.{◌≡◌, ◌≤◌, []};
ghost use Rattle.run_log.specs.declared.entry.TheConstants.{MAX_ENTRIES};

use crate::logs::{log_of, number};
use crate::projects::project;
use edit_rules::Project;
use entity_types::Script;
use nc_base::{NoMemory, Steps};
use nc_outside::MemorySink;
use run_core::{Acted, Action, PathUse, RunCore, RunName, Standing};
use run_log::{Ending, Entry, write};
use std::alloc::Global;
use std::marker::Brand;
use std::process::Abort;
use std::sync::ledger::{Blank, Ledger};
use std::test::Fail;

/// A step and a mark in channel 0, and in channel 1 a wait for that mark and a message.
const MEETING: &str =
    "#2=WORKPLAN('',(#3),$);#3=PARALLEL('',(#4,#5));#4=WORKPLAN('',(#10,#11),#8);#5=WORKPLAN('',(#6,#7),#9);#6=WAIT_FOR_MARK('',#11);#7=DISPLAY_MESSAGE('');#8=CHANNEL('');#9=CHANNEL('');#10=MACHINING_WORKINGSTEP('',#150,#120,#130);#11=SET_MARK('');";

/// A row has the actor and the channel; where the run stands before; the node of the channel that goes on, and whether it starts; and the entry
/// that a turn of the channel makes.
const MEETING_TURNS: &str = "5 1|Ready - -\n\
    5 2|Ready - -\n\
    5 200|Ready - -\n\
    3 0|Ready 10 starts|D 10 0 own\n\
    3 1|Ready - -\n\
    4 0|Ready 10 -|B 10 0 T 44 20000\n\
    0 0|Ready 10 -|B 10 1 R 10000 20000 30000\n\
    15 0|Ready 10 -|B 10 2 R 10000 20000 5000\n\
    8 0|Ready 10 -|B 10 3 F 10000 20000 -15000 40\n\
    8 0|Ready 10 -|B 10 4 R 10000 20000 5000\n\
    8 0|Ready 10 -|B 10 5 R 10000 20000 30000\n\
    8 0|Ready 10 -|E 10\n\
    1 1|Ready - -\n\
    1 0|Ready 11 -|S 11\n\
    1 0|Ready - -\n\
    2 1|Ready 6 -|W 6\n\
    2 1|Ready 7 -|M 7\n\
    2 1|Done - -\n\
    2 0|Done - -\n";

/// The same with room for two entries alone.
const SHORT_TURNS: &str = "3 0|Ready 10 starts|D 10 0 own\n\
    4 0|Ready 10 -|B 10 0 T 44 20000\n\
    4 0|Limit 10 -\n\
    4 1|Limit - -\n";

/// Each of two channels waits for a mark that the other sets behind its own wait. A step of channel 0 stands beside them.
const CROSSED: &str =
    "#2=WORKPLAN('',(#3),$);#3=PARALLEL('',(#4,#5,#10));#4=WORKPLAN('',(#6,#13),#8);#5=WORKPLAN('',(#7,#11),#9);#6=WAIT_FOR_MARK('',#11);#7=WAIT_FOR_MARK('',#13);#8=CHANNEL('');#9=CHANNEL('');#10=DISPLAY_MESSAGE('');#11=SET_MARK('');#13=SET_MARK('');";

const CROSSED_TURNS: &str = "0 1|Ready - -\n\
    0 0|Ready 10 -|M 10\n\
    0 0|Blocked - -\n\
    0 1|Blocked - -\n";

/// Two steps of channel 0 side by side, and one of channel 1.
const HELD_BACK: &str =
    "#2=WORKPLAN('',(#3),$);#3=PARALLEL('',(#4,#5,#6));#4=WORKPLAN('',(#11,#10),#21);#5=WORKPLAN('',(#9),#21);#6=WORKPLAN('',(#8,#12),#22);#8=MACHINING_WORKINGSTEP('',#150,#120,#130);#9=MACHINING_WORKINGSTEP('',#150,#120,#130);#10=MACHINING_WORKINGSTEP('',#150,#120,#130);#11=WAIT_FOR_MARK('',#12);#12=SET_MARK('');#21=CHANNEL('');#22=CHANNEL('');";

/// Up to seven entries.
const HELD_BACK_TURNS: &str = "0 0|Ready 9 starts|D 9 0 own\n\
    1 1|Ready 8 starts|D 8 0 own\n\
    0 0|Ready 9 -|B 9 0 T 44 20000\n\
    1 1|Ready 8 -|B 8 0 T 44 20000\n\
    1 1|Ready 8 -|B 8 1 R 10000 20000 30000\n\
    0 0|Ready 9 -|B 9 1 R 10000 20000 30000\n\
    0 0|Ready 9 -|B 9 2 R 10000 20000 5000\n\
    0 0|Limit 9 -\n\
    1 1|Limit 8 -\n";

/// The line of an entry.
fn line_of(alloc: Global, entry: Entry) -> Result<String, Fail> {
    let log = log_of(alloc, &[entry])?;
    let mut sink = MemorySink::new(alloc, 200)?;
    write(&log, Ending::Done, &mut sink)?;
    let text = String::from_utf8(Vec::from_slice(alloc, sink.bytes())?)?;
    Ok(String::from_str(alloc, text.lines().nth(1).unwrap_or(""))?)
}

/// Where a run stands and what a channel can do, as the rows have it.
fn shown(alloc: Global, standing: Standing, action: Option<Action>) -> Result<String, NoMemory> {
    let Some(Action { node, starts }) = action else {
        return Ok(format!(in alloc; "{standing:?} - -")?);
    };
    let starts = if starts { "starts" } else { "-" };
    Ok(format!(in alloc; "{standing:?} {node} {starts}")?)
}

/// What a turn of a channel does, where it does anything.
fn acted<N: RunName, L: Ledger>(
    core: &mut RunCore<N>,
    who: u8,
    channel: u8,
    steps: &mut Steps<L>,
) -> Option<Acted> {
    if who >= 16 {
        return None;
    }
    match core.standing() {
        Standing::Ready => match core.ready(channel) {
            Some(_) => Some(core.act(who, channel, steps)),
            None => None,
        },
        _ => None,
    }
}

/// The actor and the channel of a row.
fn who_and_channel(row: &str) -> (u8, u8) {
    let (turn, _) = row.split_once('|').unwrap_or((row, ""));
    let (who, channel) = turn.split_once(' ').unwrap_or((turn, ""));
    (
        u8::try_from(number(who)).unwrap_or(0),
        u8::try_from(number(channel)).unwrap_or(0),
    )
}

/// The line of an entry, and after that of a dispatch whose path it goes by.
fn deed_of(alloc: Global, deed: Acted) -> Result<String, Fail> {
    let mut line = line_of(alloc, deed.entry)?;
    if deed.path == PathUse::Own {
        line.push_str(" own")?;
    }
    Ok(line)
}

/// The row of a turn, as it is found.
fn turned<N: RunName, L: Ledger>(
    alloc: Global,
    core: &mut RunCore<N>,
    row: &str,
    steps: &mut Steps<L>,
) -> Result<String, Fail> {
    let (who, channel) = who_and_channel(row);
    let mut found = shown(alloc, core.standing(), core.ready(channel))?;
    if let Some(deed) = acted(core, who, channel, steps) {
        found.push_str("|")?;
        found.push_str(&deed_of(alloc, deed)?)?;
    }
    Ok(format!(in alloc; "{who} {channel}|{found}\n")?)
}

/// Each actor with its entry.
fn deeds(alloc: Global, log: &[Entry], actors: &[u8]) -> Result<String, Fail> {
    let mut text = String::new(alloc);
    for (entry, who) in log.iter().zip(actors.iter()) {
        let line = line_of(alloc, *entry)?;
        text.push_str(&format!(in alloc; "{who}: {line}\n")?)?;
    }
    Ok(text)
}

/// What is found in these turns of a core, and who did what.
fn turns_of<N: RunName, L: Ledger>(
    alloc: Global,
    core: &mut RunCore<N>,
    rows: &String,
    steps: &mut Steps<L>,
) -> Result<String, Fail> {
    let mut found = String::new(alloc);
    for row in rows.lines() {
        found.push_str(&turned(alloc, core, row, steps)?)?;
    }
    found.push_str(&deeds(alloc, core.log(), core.actors())?)?;
    Ok(found)
}

/// What is found in these turns of a new core. It holds the core, so it does nothing else: each way out of it drops a core.
fn walked<N: RunName, L: Ledger>(
    alloc: Global,
    project: Project,
    limit: u32,
    rows: &String,
    blank: Blank,
) -> Result<String, Fail>
    requires limited { (1 ≤ limit) × (limit ≤ MAX_ENTRIES) }
    requires project { project ≡ N.project }
    requires script { N.script ≡ [] }
    requires limit { limit ≡ N.limit }
    requires name { blank.name ≡ L.name }
    requires parts { blank.parts ≡ L.parts }
    requires one { blank.parts ≡ 1 }
{
    let (book, share) = blank.open::<L>();
    let mut counter = Steps::new(book, share);
    let mut core = RunCore::<N>::open(alloc, project, Script::new(alloc), limit)?;
    turns_of(alloc, &mut core, rows, &mut counter)
}

fn found(alloc: Global, project: Project, limit: u32, rows: &str) -> Result<String, Fail>
    requires { (1 ≤ limit) × (limit ≤ MAX_ENTRIES) }
{
    let rows = String::from_str(alloc, rows)?;
    walked::<Brand, Brand>(alloc, project, limit, &rows, Blank::new(1))
}

/// What is to be found: the rows, and behind them the actor of each entry with it.
fn wanted(alloc: Global, rows: &str) -> Result<String, Fail> {
    let mut text = String::from_str(alloc, rows)?;
    for row in rows.lines() {
        let (_, rest) = row.split_once('|').unwrap_or((row, ""));
        if let Some((_, entry)) = rest.split_once('|') {
            let (who, _) = who_and_channel(row);
            let entry = entry.strip_suffix(" own").unwrap_or(entry);
            text.push_str(&format!(in alloc; "{who}: {entry}\n")?)?;
        }
    }
    Ok(text)
}

/// Stops unless a core of these instances makes these turns.
fn expect_walk(
    rt: &impl Abort,
    alloc: Global,
    data: &str,
    limit: u32,
    rows: &str,
) -> Result<(), Fail>
    requires { (1 ≤ limit) × (limit ≤ MAX_ENTRIES) }
{
    let project = project(rt, alloc, data)?;
    let found = found(alloc, project, limit, rows)?;
    let wanted = wanted(alloc, rows)?;
    assert_eq!(rt; found.as_str(), wanted.as_str());
    Ok(())
}

#[test]
fn two_channels_meet_at_a_mark(rt: HostRuntime) -> Result<(), Fail> {
    expect_walk(&rt, rt.alloc(), MEETING, 100, MEETING_TURNS)
}

#[test]
fn a_core_stands_at_its_limit(rt: HostRuntime) -> Result<(), Fail> {
    expect_walk(&rt, rt.alloc(), MEETING, 2, SHORT_TURNS)?;
    expect_walk(&rt, rt.alloc(), HELD_BACK, 7, HELD_BACK_TURNS)
}

#[test]
fn a_core_is_blocked(rt: HostRuntime) -> Result<(), Fail> {
    expect_walk(&rt, rt.alloc(), CROSSED, 100, CROSSED_TURNS)
}
