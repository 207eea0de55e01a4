//! A run under a schedule, on one thread.

ghost use Rattle.std.specs.Prelude.{◌≡◌, ◌≤◌, ◌++◌, [], true, is_some, IfOk, OnOk};
ghost use Rattle.std.specs.Option.{option_to_list};
ghost use Rattle.run_log.specs.declared.entry.TheConstants.{MAX_ENTRIES};
ghost use Rattle.run_law.specs.Endings.{EndsSo};
ghost use Rattle.run_law.specs.Replay.{has_ended, turn, turns_of, rounds, replay};
ghost use Rattle.project_law.specs.ProjectRules.{rules_of, channel_numbers, upto};
ghost use Rattle.project_law.specs.Run.{IsRun};
ghost use Rattle.run_core.specs.Idle.{AreIdle};

use crate::idle::IdleChannels;
use crate::named::{RunCore, RunName};
use crate::standings::{Standing, is_over};
use edit_rules::Project;
use entity_types::Script;
use nc_base::{NoMemory, Steps};
use project_law::laws::project_rules_are_sound;
use run_law::laws::{endings_by_next, replay_ends};
use run_log::{Ending, Log};
use std::alloc::Global;
use std::marker::Brand;
use std::sync::ledger::{Blank, Ledger};

/// The actor of a run under a schedule: the caller.
const CALLER: u8 = 8;

/// One turn of a channel. It says whether it made an entry.
fn turn<N: RunName, L: Ledger>(
    core: &mut RunCore<N>,
    alloc: Global,
    channel: u8,
    steps: &mut Steps<L>,
) -> Result<bool, NoMemory>
    ensures log { OnOk result (core.new.0 ≡ core.old.0 ++ option_to_list (turn (rules_of N.project N.script) N.limit core.old.0 channel)) }
    ensures made { IfOk result (λ made. made ≡ is_some (turn (rules_of N.project N.script) N.limit core.old.0 channel)) }
{
    core.legal();
    match core.standing() {
        Standing::Ready => Ok(core.go_on(CALLER, channel, steps).is_some()),
        Standing::EditDue => {
            core.judge_next(alloc, CALLER, steps)?;
            Ok(true)
        }
        Standing::Done | Standing::Blocked | Standing::Limit => Ok(false),
    }
}

/// A turn of a channel, unless its last turn made nothing and no entry was made since.
fn turn_unless_idle<N: RunName, L: Ledger>(
    core: &mut RunCore<N>,
    alloc: Global,
    idle: &mut IdleChannels,
    channel: u8,
    steps: &mut Steps<L>,
) -> Result<(), NoMemory>
    requires { AreIdle (rules_of N.project N.script) N.limit core.old.0 idle.old }
    ensures log { OnOk result (core.new.0 ≡ core.old.0 ++ option_to_list (turn (rules_of N.project N.script) N.limit core.old.0 channel)) }
    ensures idle { OnOk result (AreIdle (rules_of N.project N.script) N.limit core.new.0 idle.new) }
{
    if idle.has(channel) {
        return Ok(());
    }
    if turn(core, alloc, channel, steps)? {
        idle.clear();
    } else {
        idle.put(channel);
    }
    Ok(())
}

/// Turns of these channels, in order.
fn turns<N: RunName, L: Ledger>(
    core: &mut RunCore<N>,
    alloc: Global,
    idle: &mut IdleChannels,
    channels: &[u8],
    steps: &mut Steps<L>,
) -> Result<(), NoMemory>
    requires { AreIdle (rules_of N.project N.script) N.limit core.old.0 idle.old }
    ensures log { OnOk result (core.new.0 ≡ turns_of (rules_of N.project N.script) N.limit core.old.0 channels.now) }
    ensures idle { OnOk result (AreIdle (rules_of N.project N.script) N.limit core.new.0 idle.new) }
{
    for channel in channels {
        turn_unless_idle(core, alloc, idle, *channel, steps)?;
    }
    Ok(())
}

/// Rounds of all channels until the run has ended.
fn rounds<N: RunName, L: Ledger>(
    core: &mut RunCore<N>,
    alloc: Global,
    idle: &mut IdleChannels,
    channels: &[u8],
    limit: u32,
    steps: &mut Steps<L>,
) -> Result<(), NoMemory>
    requires limit { limit ≡ N.limit }
    requires idle { AreIdle (rules_of N.project N.script) N.limit core.old.0 idle.old }
    ensures { OnOk result (core.new.0 ≡ rounds (rules_of N.project N.script) N.limit channels.now N.limit core.old.0) }
{
    replay_ends();
    for round in 0..limit {
        if is_over(core.standing()) {
            return Ok(());
        }
        turns(core, alloc, idle, channels, steps)?;
    }
    Ok(())
}

/// The numbers of so many channels.
fn channel_list(alloc: Global, count: u8) -> Result<Vec<u8>, NoMemory>
    ensures { IfOk result (λ list. list.items ≡ upto count) }
{
    let mut list = Vec::new(alloc);
    for channel in 0..count {
        list.push(channel)?;
    }
    Ok(list)
}

/// How a run ends that has ended.
fn ending<N: RunName>(core: &RunCore<N>) -> Ending
    requires { has_ended (rules_of N.project N.script) N.limit core.now.0 ≡ true }
    ensures { EndsSo (rules_of N.project N.script) N.limit core.now.0 result }
{
    core.legal();
    endings_by_next();
    match core.standing() {
        Standing::Done => Ending::Done,
        Standing::Blocked => Ending::Blocked,
        _ => Ending::Limit,
    }
}

/// Runs a core under a schedule to its end: how it ended.
fn run<N: RunName, L: Ledger>(
    core: &mut RunCore<N>,
    alloc: Global,
    limit: u32,
    schedule: &[u8],
    steps: &mut Steps<L>,
) -> Result<Ending, NoMemory>
    requires limit { limit ≡ N.limit }
    requires anew { core.old.0 ≡ [] }
    ensures replayed { OnOk result (core.new.0 ≡ replay (rules_of N.project N.script) (channel_numbers N.project) schedule.now N.limit) }
    ensures run { IfOk result (λ end. IsRun N.project N.script N.limit core.new.0 end) }
{
    project_rules_are_sound();
    replay_ends();
    let mut idle = IdleChannels::new();
    let channels = channel_list(alloc, core.channels())?;
    turns(core, alloc, &mut idle, schedule, steps)?;
    rounds(core, alloc, &mut idle, channels.as_slice(), limit, steps)?;
    core.legal();
    Ok(ending(core))
}

/// The run that N names, under a schedule, by a counter of its own.
fn replay_named<N: RunName, L: Ledger>(
    alloc: Global,
    project: Project,
    script: Script,
    limit: u32,
    schedule: &[u8],
    blank: Blank,
) -> Result<(Log, Ending), NoMemory>
    requires limited { (1 ≤ limit) × (limit ≤ MAX_ENTRIES) }
    requires project { project ≡ N.project }
    requires script { script ≡ N.script }
    requires limit { limit ≡ N.limit }
    requires name { blank.name ≡ L.name }
    requires parts { blank.parts ≡ L.parts }
    requires one { blank.parts ≡ 1 }
    ensures replayed { IfOk result (λ ran. ran.0 ≡ replay (rules_of N.project N.script) (channel_numbers N.project) schedule.now N.limit) }
    ensures run { IfOk result (λ ran. IsRun N.project N.script N.limit ran.0 ran.1) }
{
    let (book, share) = blank.open::<L>();
    let mut counter = Steps::new(book, share);
    let mut core = RunCore::<N>::open(alloc, project, script, limit)?;
    let ending = run(&mut core, alloc, limit, schedule, &mut counter)?;
    Ok((core.into_log(), ending))
}

/// The run of a project and a script of edits under a schedule of channels: turns as scheduled, then rounds of all channels to its end, or until
/// the log has `limit` entries, which is 1 to `MAX_ENTRIES`. The log is a legal run, and the ending is its own. A turn of a channel that the
/// project doesn't have makes nothing.
///
/// # Errors
/// `NoMemory` where there is none for the core, or to judge or put an edit.
pub fn replay(
    alloc: Global,
    project: Project,
    script: Script,
    limit: u32,
    schedule: &[u8],
) -> Result<(Log, Ending), NoMemory>
    requires { (1 ≤ limit) × (limit ≤ MAX_ENTRIES) }
    ensures replayed { IfOk result (λ ran. ran.0 ≡ replay (rules_of project script) (channel_numbers project) schedule.now limit) }
    ensures run { IfOk result (λ ran. IsRun project script limit ran.0 ran.1) }
{
    replay_named::<Brand, Brand>(alloc, project, script, limit, schedule, Blank::new(1))
}
