//! The window of plans.

ghost use Rattle.std.specs.Prelude.{◌≡◌, ◌↔◌, ◌⊎◌, ℕ, option_copied, option_map, IfOk, [], IfSome, IsSomeAnd, IsTrue, false, Contains, map};
ghost use Rattle.exec_tree.specs.Built.{steps_in};
ghost use Rattle.plan_store.specs.StepAhead.{ticket_of, ticket_in, plan_in, first_waiting, handed, kept};
ghost use Rattle.plan_store.specs.Stage.{is_kept};
ghost use Rattle.plan_law.specs.Tickets.{all_renewed};
ghost use Rattle.project_versions.specs.Versioned.{version_of};

use crate::coming::come_in;
use crate::opening::{fill_all, lines_of};
use crate::renewing::renew_all;
use exec_tree::Tree;
use nc_base::{NoMemory, Number, NumberList};
use path_blocks::Plan;
use plan_store::{Made, PlanStore, Ticket};
use project_versions::{StepSet, Versions};
use std::alloc::Global;
use std::marker::Model;

/// The tickets of the steps ahead with their plans, and what tells which step comes next in each channel. Contracts see the steps ahead, each channel's steps in preorder, all
/// steps, and those that were dispatched.
#[derive(Drop)]
pub struct PlanWindow {
    store: PlanStore,
    sent: StepSet,
    lines: Vec<NumberList>,
    nexts: Vec<usize>,
}

impl Model for PlanWindow {
    ghost use Rattle.plan_window.specs.Window.{Windowed};
    ghost use Rattle.plan_window.specs.Kept.{IsKept};

    ghost Value = { Windowed };

    ghost view = { λ a. record { ahead = a.store; lines = a.lines.items; known = a.sent.steps; sent = a.sent.members } };

    ghost invariant = { λ a. IsKept a.store a.lines.items a.sent.steps a.sent.members a.nexts.items };
}

impl PlanWindow {
    ghost use Rattle.plan_window.specs.Window.{Windowed, IsWindow, AreOpening, lines_in, version_by, ahead_after};

    /// The windows of a run of this tree before its first entry: each step ahead is at version 0, and its ticket waits.
    pub fn open(alloc: Global, tree: &Tree) -> Result<PlanWindow, NoMemory>
        ensures lines { IfOk result (λ made. made.lines ≡ lines_in tree.now.nodes) }
        ensures known { IfOk result (λ made. made.known ≡ steps_in tree.now.nodes) }
        ensures sent { IfOk result (λ made. made.sent ≡ []) }
        ensures opening { IfOk result (λ made. AreOpening made.ahead) }
    {
        tree.nodes();
        let sent = StepSet::new(alloc, tree.steps())?;
        let lines = lines_of(alloc, tree)?;
        let mut store = PlanStore::new();
        let nexts = fill_all(alloc, &mut store, &lines, &sent)?;
        Ok(PlanWindow {
            store,
            sent,
            lines,
            nexts,
        })
    }

    /// The tickets of each channel are those of the first four of its steps that were never dispatched. This does nothing: its contract says so.
    pub fn legal(&self)
        ensures { IsWindow self.now }
    {
        self.store.tickets();
    }

    /// The tickets, by channel, and those of a channel in the order of its steps.
    pub fn tickets(&self) -> &[Ticket]
        ensures { result.now ≡ map ticket_of self.now.ahead }
    {
        self.store.tickets()
    }

    /// The step's ticket. None comes exactly where it has none.
    pub fn ticket_of(&self, step: Number) -> Option<Ticket>
        ensures { result ≡ ticket_in self.now.ahead step }
    {
        self.store.ticket_of(step)
    }

    /// Whether the step was dispatched.
    pub fn was_sent(&self, step: Number) -> bool
        ensures { IsTrue result ↔ Contains self.now.sent step }
    {
        self.sent.has(step)
    }

    /// Follows the dispatch of a step, one of those that are known. Where it has a ticket this is taken, the plan that was kept is given, and
    /// the next step of its channel comes in, at its version, 0 where no versions are kept. A step that has none, since a wait holds up
    /// those before it or a loop dispatches it again, leaves the tickets as they are. None comes exactly where no plan was kept.
    pub fn dispatch(&mut self, step: Number, versions: Option<&Versions>) -> Option<Plan>
        requires known { Contains self.old.known step }
        requires versions { IfSome (option_copied versions) (λ v. v.steps ≡ self.old.known) }
        ensures plan { result ≡ plan_in self.old.ahead step }
        ensures ahead { self.new.ahead ≡ ahead_after (version_by (option_copied versions.entry)) self.old step }
        ensures lines { self.new.lines ≡ self.old.lines }
        ensures known { self.new.known ≡ self.old.known }
        ensures sent { (n : ℕ) → Contains self.new.sent n ↔ (n ≡ step) ⊎ Contains self.old.sent n }
    {
        self.store.tickets();
        self.sent.add(step);
        let Some(ticket) = self.store.ticket_of(step) else {
            return None;
        };
        let plan = self.store.take(step);
        let channel = ticket.channel as usize;
        self.nexts[channel] = come_in(
            &mut self.store,
            ticket.channel,
            self.lines[channel].as_slice(),
            self.nexts[channel],
            &self.sent,
            versions,
        );
        plan
    }

    /// Lets each ticket whose step has another version wait again at that version, without its plan. The others stay.
    pub fn renew(&mut self, versions: &Versions)
        requires { versions.now.steps ≡ self.old.known }
        ensures ahead { self.new.ahead ≡ all_renewed (version_of versions.now.versions) self.old.ahead }
        ensures lines { self.new.lines ≡ self.old.lines }
        ensures known { self.new.known ≡ self.old.known }
        ensures sent { self.new.sent ≡ self.old.sent }
    {
        self.legal();
        renew_all(&mut self.store, versions);
    }

    /// Hands out the first ticket that waits: its step, and the version that the plan is to be of. None comes exactly where none waits.
    pub fn offer(&mut self) -> Option<(Number, u32)>
        ensures first { result ≡ option_map (λ a. (a.step, a.version)) (first_waiting self.old.ahead) }
        ensures handed { self.new ≡ record self.old { ahead = handed self.old.ahead } }
    {
        self.store.hand()
    }

    /// Keeps a plan. The step has a ticket, which is at the plan's version and isn't `Kept`.
    pub fn keep(&mut self, made: Made)
        requires { IsSomeAnd (ticket_in self.old.ahead made.step) (λ t. (t.version ≡ made.version) × (is_kept t.state ≡ false)) }
        ensures { self.new ≡ record self.old { ahead = kept self.old.ahead made.step made.plan } }
    {
        self.store.keep(made);
    }
}
