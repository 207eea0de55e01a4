//! Whether an entry of a node fits the entries so far.

ghost use Rattle.std.specs.Prelude.{◌≡◌, ◌↔◌, ℕ, Some, IsSome, IfSome, List, false};
ghost use Rattle.exec_tree.specs.Walked.{place_from};
ghost use Rattle.trace_law.specs.Of.{number_of};
ghost use Rattle.run_log.specs.declared.entry.Entry.{Entry};
ghost use Rattle.run_law.specs.Rules.{Rules};
ghost use Rattle.run_law.specs.Fits.{Fits, is_due};
ghost use Rattle.run_law.specs.Tested.{IsTested};
ghost use Rattle.run_law.specs.Replay.{made};
ghost use Rattle.project_law.specs.Script.{store_after};
ghost use Rattle.project_law.specs.ProjectRules.{rules_of};
ghost use Rattle.run_log.specs.declared.entry.Entry.TheVariants.{Pick};
ghost use Rattle.tree_table.specs.Placed.{number_at};
ghost use Rattle.run_frames.specs.Standing.{IsPlace};
ghost use Rattle.run_state.specs.Actions.{is_pick, MayGoOn};
ghost use Rattle.run_state.specs.Kept.{IsDefined};

use crate::same::is_same;
use crate::state::RunState;
use nc_base::{Number, Steps};
use path_blocks::Def;
use run_law::laws::{logs_move, what_fits_is_tested, what_is_made_fits};
use run_log::Entry;
use std::sync::ledger::Ledger;
use trace_law::laws::blocks_are_counted;

/// How a run goes on with an entry that fits: the place of its node, and of a step that is dispatched the definition.
#[derive(Drop)]
pub struct Fitting {
    pub place: u32,
    pub def: Option<Def>,
}

/// An entry that passes the tests is the one that its node makes, unless it picks an element.
fn what_passes_is_made()
    ensures { (r : Rules) (t : List Entry) (n : ℕ) (x : Entry) → number_of x ≡ Some n → is_pick x ≡ false → IsTested r t n x → x ≡ made r t n }
{
    logs_move();
    blocks_are_counted();
}

impl RunState {
    /// How the run goes on with a pick of node `n`, at a place, which may go on.
    fn picking(&self, place: u32, n: Number, k: u32) -> Option<Fitting>
        requires place { IsPlace self.now.nodes place }
        requires number { number_at self.now.nodes place ≡ n }
        requires may { MayGoOn (rules_of self.now.project self.now.script) self.now.list n }
        ensures fits { IsSome result ↔ Fits (rules_of self.now.project self.now.script) self.now.list (Pick n k) }
        ensures place { IfSome result (λ it. it.place ≡ place) }
        ensures defined { IfSome result (λ it. IsDefined (store_after self.now.script self.now.project self.now.list) (Pick n k) it.def) }
    {
        what_fits_is_tested();
        self.legal();
        if self.may_pick(place, k) {
            Some(Fitting { place, def: None })
        } else {
            None
        }
    }

    /// How the run goes on with another entry of node `n`, at a place, which may go on.
    fn making<L: Ledger>(
        &self,
        place: u32,
        n: Number,
        entry: &Entry,
        steps: &mut Steps<L>,
    ) -> Option<Fitting>
        requires place { IsPlace self.now.nodes place }
        requires number { number_at self.now.nodes place ≡ n }
        requires may { MayGoOn (rules_of self.now.project self.now.script) self.now.list n }
        requires of { number_of entry.now ≡ Some n }
        requires no_pick { is_pick entry.now ≡ false }
        ensures fits { IsSome result ↔ Fits (rules_of self.now.project self.now.script) self.now.list entry.now }
        ensures place { IfSome result (λ it. it.place ≡ place) }
        ensures defined { IfSome result (λ it. IsDefined (store_after self.now.script self.now.project self.now.list) entry.now it.def) }
    {
        what_fits_is_tested();
        what_passes_is_made();
        what_is_made_fits();
        self.legal();
        let made = self.made(place, steps);
        if is_same(&made.entry, entry) {
            Some(Fitting {
                place,
                def: made.def,
            })
        } else {
            None
        }
    }

    /// How the run goes on with an entry of node `n`, where it fits: where no edit is due, the run can go on at the node, the node is enabled,
    /// and the entry is what it does next, with the values of the run. A pick may take any index that is left. At most one look at a node.
    pub fn fitting<L: Ledger>(
        &self,
        due: bool,
        n: Number,
        entry: &Entry,
        steps: &mut Steps<L>,
    ) -> Option<Fitting>
        requires due { due ≡ is_due (rules_of self.now.project self.now.script) self.now.list }
        requires number { number_of entry.now ≡ Some n }
        ensures fits { IsSome result ↔ Fits (rules_of self.now.project self.now.script) self.now.list entry.now }
        ensures place { IfSome result (λ it. place_from 0 self.now.nodes n ≡ Some it.place) }
        ensures defined { IfSome result (λ it. IsDefined (store_after self.now.script self.now.project self.now.list) entry.now it.def) }
    {
        what_fits_is_tested();
        self.legal();
        if due {
            return None;
        }
        let Some(place) = self.next_place(n) else {
            return None;
        };
        if !self.is_enabled(n) {
            return None;
        }
        match *entry {
            Entry::Pick { k, .. } => self.picking(place, n, k),
            _ => self.making(place, n, entry, steps),
        }
    }
}
