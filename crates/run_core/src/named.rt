//! A core under a name.

ghost use Rattle.std.specs.Prelude.{◌≡◌, ◌<◌, ◌≤◌, ◌+◌, ◌++◌, ◌∷◌, [], ℕ, true, max, length, IsSome, IfSome, IfOk, OnErr, option_map, Some};
ghost use Rattle.run_log.specs.declared.entry.TheConstants.{MAX_ENTRIES};
ghost use Rattle.run_log.specs.declared.entry.Entry.TheVariants.{Edit};
ghost use Rattle.exec_tree.specs.Exec.{has};
ghost use Rattle.run_law.specs.Fits.{judged};
ghost use Rattle.run_law.specs.Sound.{IsSound};
ghost use Rattle.run_law.specs.Replay.{ready, turn};
ghost use Rattle.project_law.specs.ProjectRules.{rules_of, store_channels, store_steps, version_after};
ghost use Rattle.project_law.specs.Legal.{Legal};
ghost use Rattle.run_core.specs.Standings.{standing_of};
ghost use Rattle.run_state.specs.Actions.{starts_next, most_looks};
ghost use Rattle.run_core.specs.Core.{path_use};
ghost use Rattle.std.specs.Option.{option_to_list};
ghost use Rattle.run_core.specs.declared.standings.Standing.TheVariants.{Ready, EditDue};
ghost use Rattle.run_state.specs.Edits.{reached_by};

use crate::free::{Acted, FreeCore};
use crate::standings::Standing;
use edit_rules::Project;
use entity_types::Script;
use nc_base::{NoMemory, Number, Steps, Verdict};
use run_log::{Entry, Log};
use run_state::Action;
use std::alloc::Global;
use std::marker::{Brand, Model, PhantomData};
use std::sync::ledger::Ledger;

/// Which run it is. The caller picks the name.
pub trait RunName {
    ghost use Rattle.std.specs.Prelude.{ℕ, List};
    ghost use Rattle.entity_types.specs.declared.entity.Entity.{Entity as EntitySeen};
    ghost use Rattle.entity_types.specs.declared.edit.Edit.{Edit as EditSeen};

    /// The run's project, its script, and the most entries that its log may have.
    ghost project: { List EntitySeen };

    ghost script: { List EditSeen };

    ghost limit: { ℕ };
}

impl RunName for Brand {
    ghost use Rattle.std.specs.Prelude.{[]};

    ghost project = { [] };

    ghost script = { [] };

    ghost limit = { 1 };
}

/// The core of the run that N names: it makes one legal entry after another. Contracts see its log and its actors.
#[derive(Drop)]
pub struct RunCore<N: RunName> {
    core: FreeCore,
    of: PhantomData<N>,
}

impl<N: RunName> Model for RunCore<N> {
    ghost use Rattle.std.specs.Prelude.{◌≡◌, ℕ, [], List};
    ghost use Rattle.run_log.specs.declared.entry.Entry.{Entry};

    ghost Value = { List Entry × List ℕ };

    ghost view = { λ a. (a.core.log, a.core.actors) };

    ghost invariant = { λ a. (a.core.project ≡ N.project) × (a.core.script ≡ N.script) × (a.core.limit ≡ N.limit) };
}

impl<N: RunName> RunCore<N> {
    /// A core of the run that N names, with an empty log. `limit` is 1 to `MAX_ENTRIES`. All memory that its log and its actors need is taken here.
    ///
    /// # Errors
    /// `NoMemory` where there is none.
    pub fn open(
        alloc: Global,
        project: Project,
        script: Script,
        limit: u32,
    ) -> Result<RunCore<N>, NoMemory>
        requires limited { (1 ≤ limit) × (limit ≤ MAX_ENTRIES) }
        requires project { project ≡ N.project }
        requires script { script ≡ N.script }
        requires limit { limit ≡ N.limit }
        ensures { IfOk result (λ core. core ≡ ([], [])) }
    {
        let core = FreeCore::open(alloc, project, script, limit)?;
        Ok(RunCore {
            core,
            of: PhantomData,
        })
    }

    /// Where the run stands. It takes no memory.
    pub fn standing(&self) -> Standing
        ensures { result ≡ standing_of (rules_of N.project N.script) N.limit self.now.0 }
    {
        self.core.standing()
    }

    /// The first enabled node of a channel, in the order of the nodes where the run can go on, and whether it is a workingstep to be dispatched.
    /// None comes exactly where there is none. It takes no memory.
    pub fn ready(&self, channel: u8) -> Option<Action>
        ensures node { option_map (λ it. it.node) result ≡ ready (rules_of N.project N.script) self.now.0 channel }
        ensures starts { IfSome result (λ it. it.starts ≡ starts_next (rules_of N.project N.script) self.now.0 it.node) }
    {
        self.core.ready(channel)
    }

    /// Appends the entry of the first enabled node of a channel, which a turn of that channel makes, for the actor `who`, below 16. It takes no
    /// memory. It counts a step for each look at a node of the tree: at most four times the sum of the tree's greatest nesting, one, the
    /// number of nodes where the run could go on, and the number of nodes to which it comes by the entry.
    pub fn act<L: Ledger>(&mut self, who: u8, channel: u8, steps: &mut Steps<L>) -> Acted
        requires stands { standing_of (rules_of N.project N.script) N.limit self.old.0 ≡ Ready }
        requires one { IsSome (ready (rules_of N.project N.script) self.old.0 channel) }
        requires who { who < 16 }
        ensures turn { turn (rules_of N.project N.script) N.limit self.old.0 channel ≡ Some result.entry }
        ensures path { result.path ≡ path_use result.entry }
        ensures log { self.new ≡ (self.old.0 ++ result.entry ∷ [], self.old.1 ++ who ∷ []) }
        ensures looks { steps.new ≤ steps.old + most_looks (rules_of N.project N.script) self.old.0 result.entry }
    {
        self.core.act(who, channel, steps)
    }

    /// The same where a node of the channel is enabled, and nothing where none is: `ready` and `act` at once.
    pub fn go_on<L: Ledger>(&mut self, who: u8, channel: u8, steps: &mut Steps<L>) -> Option<Acted>
        requires stands { standing_of (rules_of N.project N.script) N.limit self.old.0 ≡ Ready }
        requires who { who < 16 }
        ensures turn { option_map (λ it. it.entry) result ≡ turn (rules_of N.project N.script) N.limit self.old.0 channel }
        ensures path { IfSome result (λ it. it.path ≡ path_use it.entry) }
        ensures log { self.new ≡ (self.old.0 ++ option_to_list (option_map (λ it. it.entry) result), self.old.1 ++ option_to_list (option_map (λ it. who) result)) }
        ensures looks { IfSome result (λ it. steps.new ≤ steps.old + most_looks (rules_of N.project N.script) self.old.0 it.entry) }
    {
        self.core.go_on(who, channel, steps)
    }

    /// Appends the verdict on the next edit, which is due, for the actor `who`, below 16, and puts the edit where it is accepted. It counts a step
    /// for each definition that is looked up: at most one for each workingstep that the edit reaches.
    ///
    /// # Errors
    /// `NoMemory` where there is none to judge or to put the edit; the core is then as it was.
    pub fn judge_next<L: Ledger>(
        &mut self,
        alloc: Global,
        who: u8,
        steps: &mut Steps<L>,
    ) -> Result<Verdict, NoMemory>
        requires stands { standing_of (rules_of N.project N.script) N.limit self.old.0 ≡ EditDue }
        requires who { who < 16 }
        ensures turn { IfOk result (λ verdict. (channel : ℕ) → turn (rules_of N.project N.script) N.limit self.old.0 channel ≡ Some (Edit (judged self.old.0) verdict)) }
        ensures ok { IfOk result (λ verdict. self.new ≡ (self.old.0 ++ Edit (judged self.old.0) verdict ∷ [], self.old.1 ++ who ∷ [])) }
        ensures err { OnErr result (self.new ≡ self.old) }
        ensures ticks { steps.new ≤ steps.old + reached_by N.project N.script self.old.0 (judged self.old.0) }
    {
        self.core.judge_next(alloc, who, steps)
    }

    /// The version of a workingstep of the project's tree: how many edits that were accepted reached it. It takes no memory.
    pub fn version(&self, step: Number) -> u32
        requires { has (store_steps N.project) step ≡ true }
        ensures { result ≡ version_after N.script N.project self.now.0 step }
    {
        self.core.version(step)
    }

    /// What holds of every core: the rules of its project and script are sound, and its log is a legal run that is no longer than its limit.
    pub fn legal(&self)
        ensures sound { IsSound (rules_of N.project N.script) }
        ensures legal { Legal N.project N.script self.now.0 }
        ensures within { length self.now.0 ≤ N.limit }
    {
        self.core.legal();
    }

    /// How many channels the project has, at least one.
    pub fn channels(&self) -> u8
        ensures { result ≡ max 1 (length (store_channels N.project)) }
    {
        self.core.channels()
    }

    /// The log.
    pub fn log(&self) -> &[Entry]
        ensures { result.now ≡ self.now.0 }
    {
        self.core.log()
    }

    /// The log, without a copy.
    pub fn into_log(self) -> Log
        ensures { result ≡ self.0 }
    {
        self.core.into_log()
    }

    /// The actor of each entry of the log.
    pub fn actors(&self) -> &[u8]
        ensures { result.now ≡ self.now.1 }
    {
        self.core.actors()
    }
}
