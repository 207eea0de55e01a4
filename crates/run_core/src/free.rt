//! A core with its own project, script and limit.

ghost use Rattle.std.specs.Prelude.{◌≡◌, ◌<◌, ◌≤◌, ◌+◌, ◌++◌, ℕ, ◌∷◌, [], true, max, length, Some, IsSome, IfSome, IfOk, OnErr, option_map};
ghost use Rattle.run_log.specs.declared.entry.TheConstants.{MAX_ENTRIES};
ghost use Rattle.exec_tree.specs.Exec.{has};
ghost use Rattle.run_law.specs.Fits.{judged};
ghost use Rattle.run_law.specs.Sound.{IsSound};
ghost use Rattle.run_law.specs.Replay.{ready, turn};
ghost use Rattle.project_law.specs.ProjectRules.{rules_of, store_channels, store_steps, version_after};
ghost use Rattle.project_law.specs.Legal.{Legal};
ghost use Rattle.std.specs.Option.{option_to_list};
ghost use Rattle.run_core.specs.Standings.{standing_of};
ghost use Rattle.run_state.specs.Actions.{starts_next, most_looks};
ghost use Rattle.run_core.specs.Core.{path_use};
ghost use Rattle.run_core.specs.declared.standings.Standing.TheVariants.{Ready, EditDue};
ghost use Rattle.run_log.specs.declared.entry.Entry.TheVariants.{Edit};
ghost use Rattle.run_state.specs.Edits.{reached_by};

use crate::standings::{Standing, standing_by};
use edit_rules::Project;
use entity_types::Script;
use nc_base::{NoMemory, Number, Steps, Verdict};
use run_log::{Entry, Log};
use run_state::{Action, RunState};
use std::alloc::Global;
use std::marker::Model;
use std::sync::ledger::Ledger;

/// Which path a workingstep that is dispatched goes by.
#[derive(Clone, Copy, Debug, PartialEq, Eq)]
pub enum PathUse {
    /// The entry is no dispatch.
    NotADispatch,
    /// The core makes the path itself, block by block.
    Own,
}

/// The entry that was appended, and the path that it goes by where it is a dispatch.
#[derive(Clone, Copy, Debug, PartialEq, Eq)]
pub struct Acted {
    pub entry: Entry,
    pub path: PathUse,
}

/// The path that a dispatch goes by.
fn path_use(entry: &Entry) -> PathUse
    ensures { result ≡ path_use entry.now }
{
    match *entry {
        Entry::Dispatch { .. } => PathUse::Own,
        _ => PathUse::NotADispatch,
    }
}

/// A core with its own project, script and limit. Contracts see these, its log and its actors.
#[derive(Drop)]
pub struct FreeCore {
    state: RunState,
    limit: u32,
    actors: Vec<u8>,
}

impl Model for FreeCore {
    ghost use Rattle.run_core.specs.Core.{Run, IsKept};

    ghost Value = { Run };

    ghost view = { λ a. record { project = a.state.project; script = a.state.script; limit = a.limit; log = a.state.list; actors = a.actors.items } };

    ghost invariant = { λ a. IsKept a.state a.limit a.actors };
}

impl FreeCore {
    /// A core with an empty log.
    pub fn open(
        alloc: Global,
        project: Project,
        script: Script,
        limit: u32,
    ) -> Result<FreeCore, NoMemory>
        requires { (1 ≤ limit) × (limit ≤ MAX_ENTRIES) }
        ensures { IfOk result (λ core. core ≡ record { project = project; script = script; limit = limit; log = []; actors = [] }) }
    {
        let actors = Vec::with_capacity(alloc, limit as usize)?;
        let state = RunState::open(alloc, project, script, limit)?;
        Ok(FreeCore {
            state,
            limit,
            actors,
        })
    }

    /// Where the run stands.
    pub fn standing(&self) -> Standing
        ensures stands { result ≡ standing_of (rules_of self.now.project self.now.script) self.now.limit self.now.log }
        ensures legal { Legal self.now.project self.now.script self.now.log }
    {
        self.state.legal();
        let all = self.state.are_judged();
        let waiting = self.state.all_wait();
        standing_by(
            all && self.state.is_over(),
            all && waiting,
            self.state.len() >= self.limit as usize,
            self.state.is_due(waiting),
        )
    }

    /// The first enabled node of a channel, and whether it is a workingstep to be dispatched.
    pub fn ready(&self, channel: u8) -> Option<Action>
        ensures node { option_map (λ it. it.node) result ≡ ready (rules_of self.now.project self.now.script) self.now.log channel }
        ensures starts { IfSome result (λ it. it.starts ≡ starts_next (rules_of self.now.project self.now.script) self.now.log it.node) }
    {
        match self.state.ready(channel) {
            Some(place) => Some(self.state.action(place)),
            None => None,
        }
    }

    /// How many channels the project has, at least one.
    pub fn channels(&self) -> u8
        ensures { result ≡ max 1 (length (store_channels self.now.project)) }
    {
        self.state.channels()
    }

    /// The project's rules are sound, and the log is a legal run that is no longer than its limit.
    pub fn legal(&self)
        ensures sound { IsSound (rules_of self.now.project self.now.script) }
        ensures legal { Legal self.now.project self.now.script self.now.log }
        ensures within { length self.now.log ≤ self.now.limit }
    {
        self.state.legal();
    }

    /// Appends the entry of the first enabled node of a channel, where there is one. Each look at a node counts one step.
    pub fn go_on<L: Ledger>(&mut self, who: u8, channel: u8, steps: &mut Steps<L>) -> Option<Acted>
        requires stands { standing_of (rules_of self.old.project self.old.script) self.old.limit self.old.log ≡ Ready }
        requires who { who < 16 }
        ensures turn { option_map (λ it. it.entry) result ≡ turn (rules_of self.old.project self.old.script) self.old.limit self.old.log channel }
        ensures path { IfSome result (λ it. it.path ≡ path_use it.entry) }
        ensures log { self.new ≡ record self.old { log = self.old.log ++ option_to_list (option_map (λ it. it.entry) result); actors = self.old.actors ++ option_to_list (option_map (λ it. who) result) } }
        ensures looks { IfSome result (λ it. steps.new ≤ steps.old + most_looks (rules_of self.old.project self.old.script) self.old.log it.entry) }
    {
        let Some(entry) = self.state.go_on(channel, steps) else {
            return None;
        };
        self.actors.push_reserved(who);
        Some(Acted {
            entry,
            path: path_use(&entry),
        })
    }

    /// Appends the entry of the first enabled node of a channel. Each look at a node counts one step.
    pub fn act<L: Ledger>(&mut self, who: u8, channel: u8, steps: &mut Steps<L>) -> Acted
        requires stands { standing_of (rules_of self.old.project self.old.script) self.old.limit self.old.log ≡ Ready }
        requires one { IsSome (ready (rules_of self.old.project self.old.script) self.old.log channel) }
        requires who { who < 16 }
        ensures turn { turn (rules_of self.old.project self.old.script) self.old.limit self.old.log channel ≡ Some result.entry }
        ensures path { result.path ≡ path_use result.entry }
        ensures log { self.new ≡ record self.old { log = self.old.log ++ result.entry ∷ []; actors = self.old.actors ++ who ∷ [] } }
        ensures looks { steps.new ≤ steps.old + most_looks (rules_of self.old.project self.old.script) self.old.log result.entry }
    {
        self.go_on(who, channel, steps).unwrap()
    }

    /// Appends the verdict on the next edit, which is due, and puts the edit where it is accepted.
    pub fn judge_next<L: Ledger>(
        &mut self,
        alloc: Global,
        who: u8,
        steps: &mut Steps<L>,
    ) -> Result<Verdict, NoMemory>
        requires stands { standing_of (rules_of self.old.project self.old.script) self.old.limit self.old.log ≡ EditDue }
        requires who { who < 16 }
        ensures turn { IfOk result (λ verdict. (channel : ℕ) → turn (rules_of self.old.project self.old.script) self.old.limit self.old.log channel ≡ Some (Edit (judged self.old.log) verdict)) }
        ensures ok { IfOk result (λ verdict. self.new ≡ record self.old { log = self.old.log ++ Edit (judged self.old.log) verdict ∷ []; actors = self.old.actors ++ who ∷ [] }) }
        ensures err { OnErr result (self.new ≡ self.old) }
        ensures ticks { steps.new ≤ steps.old + reached_by self.old.project self.old.script self.old.log (judged self.old.log) }
    {
        let verdict = self.state.judge(alloc, steps)?;
        self.state.settle(alloc, verdict)?;
        self.actors.push_reserved(who);
        Ok(verdict)
    }

    /// The version of a workingstep of the tree: how many edits that were accepted reached it.
    pub fn version(&self, step: Number) -> u32
        requires { has (store_steps self.now.project) step ≡ true }
        ensures { result ≡ version_after self.now.script self.now.project self.now.log step }
    {
        self.state.version(step)
    }

    /// The log.
    pub fn log(&self) -> &[Entry]
        ensures { result.now ≡ self.now.log }
    {
        self.state.log()
    }

    /// The log, without a copy.
    pub fn into_log(self) -> Log
        ensures { result ≡ self.log }
    {
        self.state.into_log()
    }

    /// The actor of each entry.
    pub fn actors(&self) -> &[u8]
        ensures { result.now ≡ self.now.actors }
    {
        self.actors.as_slice()
    }
}
