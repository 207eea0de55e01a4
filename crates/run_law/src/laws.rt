//! Laws of legal runs. Each function's contract is the law.

ghost use Rattle.std.specs.Prelude.{◌≡◌, ℕ, List, [], ◌∷◌, ◌++◌, true, false, Some, None, take, ◌↔◌, ◌≢◌, ◌<◌, length, slice_get, ◌≤◌, ◌+◌};
ghost use Rattle.std.specs.List.{list_all};
ghost use Rattle.std.specs.Option.{option_to_list};
ghost use Rattle.path_blocks.specs.declared.limits.TheConstants.{MAX_BLOCKS};
ghost use Rattle.nc_base.specs.declared.verdict.Verdict.{Verdict};
ghost use Rattle.exec_tree.specs.Exec.{Exec, nodes, has, AreDistinct};
ghost use Rattle.trace_law.specs.Of.{number_of};
ghost use Rattle.trace_law.specs.Part.{Part};
ghost use Rattle.trace_law.specs.State.{marks, marked, sent, dispatched, stage, stage_step};
ghost use Rattle.trace_law.specs.Offer.{offer, IsOffered};
ghost use Rattle.run_log.specs.declared.entry.Entry.{Entry};
ghost use Rattle.run_log.specs.declared.entry.Entry.TheVariants.{Edit};
ghost use Rattle.exec_tree.specs.declared.role.Role.TheVariants.{Waiting};
ghost use Rattle.run_law.specs.Rules.{Rules};
ghost use Rattle.run_law.specs.Fits.{Fits, HasValues, plain, next_of, is_stuck, is_due, is_enabled, judged};
ghost use Rattle.run_law.specs.Endings.{IsDone, IsBlocked, waits};
ghost use Rattle.run_law.specs.Tested.{IsTested};
ghost use Rattle.run_law.specs.Legal.{Legal};
ghost use Rattle.run_law.specs.Agree.{HasOneMore};
ghost use Rattle.run_law.specs.Replay.{made, has_ended, replay, rounds, AreChannels};
ghost use Rattle.run_law.specs.Ahead.{unsent, without, window_without};
ghost use Rattle.run_law.specs.Sound.{IsSound};
ghost use Rattle.run_law.specs.Length.{HasNoLoop, HasNumbers, is_within, most_entries};

use trace_law::laws::{
    blocks_are_counted, open_can_go_on, part_by_steps, part_of_own_nodes, what_can_go_on_is_open,
    what_is_offered_follows, whole_where_nothing_is_next,
};

/// A legal run is one so far of its tree, grows by what fits, and is legal up to each place.
pub fn legal_runs()
    ensures none { (r : Rules) → Legal r [] }
    ensures more { (r : Rules) (t : List Entry) (x : Entry) → Legal r t → Fits r t x → Legal r (t ++ x ∷ []) }
    ensures front { (r : Rules) (t u : List Entry) → Legal r (t ++ u) → Legal r t }
    ensures part { (r : Rules) (t : List Entry) → IsSound r → Legal r t → Part (r.tree t) (plain t) }
{
    part_by_steps();
}

/// Where a legal run is stuck, each node where it can go on waits for a mark that isn't set.
pub fn stuck_means_waiting()
    ensures { (r : Rules) (t : List Entry) (n : ℕ) → IsSound r → Legal r t → is_stuck r t ≡ true → has (next_of r t) n ≡ true
        → (m : ℕ) × (r.role t n ≡ Waiting m) × (has (marks t) m ≡ false) }
{
    legal_runs();
    open_can_go_on();
}

/// What an enabled node does next, with the values of the run, fits where no edit is due.
pub fn what_is_done_fits()
    ensures { (r : Rules) (t : List Entry) (n : ℕ) (x : Entry) → IsSound r → Legal r t → is_due r t ≡ false → has (next_of r t) n ≡ true → is_enabled r t n ≡ true
        → number_of x ≡ Some n → IsOffered (offer (r.tree t) (plain t) n) n x → HasValues r t x → Fits r t x }
{
    part_by_steps();
    what_is_offered_follows();
}

/// What a turn makes of an enabled node fits where no edit is due.
pub fn what_is_made_fits()
    ensures { (r : Rules) (t : List Entry) (n : ℕ) → IsSound r → Legal r t → is_due r t ≡ false → has (next_of r t) n ≡ true → is_enabled r t n ≡ true → Fits r t (made r t n) }
{
    part_by_steps();
    blocks_are_counted();
    what_can_go_on_is_open();
    what_is_offered_follows();
}

/// The run under a schedule is legal and has ended, where each node is of one of the channels.
pub fn replay_ends()
    ensures legal { (r : Rules) (channels schedule : List ℕ) (limit : ℕ) → IsSound r → Legal r (replay r channels schedule limit) }
    ensures ended { (r : Rules) (channels schedule : List ℕ) (limit c0 : ℕ) → IsSound r → AreChannels r channels → has channels c0 ≡ true → has_ended r limit (replay r channels schedule limit) ≡ true }
    ensures from { (r : Rules) (channels : List ℕ) (limit k : ℕ) (t : List Entry) → IsSound r → Legal r t → Legal r (rounds r limit channels k t) }
    ensures from_ended { (r : Rules) (channels : List ℕ) (limit k c0 : ℕ) (t : List Entry) → IsSound r → Legal r t → AreChannels r channels → has channels c0 ≡ true → limit ≤ length t + k → has_ended r limit (rounds r limit channels k t) ≡ true }
    ensures stays { (r : Rules) (channels : List ℕ) (limit k : ℕ) (t : List Entry) → has_ended r limit t ≡ true → rounds r limit channels k t ≡ t }
{
    legal_runs();
    what_is_made_fits();
    stuck_means_waiting();
}

/// The steps ahead move with a dispatch alone: its step leaves, and the next one comes in where it was among them.
pub fn steps_ahead_move()
    ensures window { (k n : ℕ) (ns : List ℕ) → AreDistinct ns → take k (without n ns) ≡ window_without k n ns }
    ensures dispatch { (t : List Entry) (x : Entry) (n : ℕ) (ns : List ℕ) → dispatched x ≡ Some n → unsent (t ++ x ∷ []) ns ≡ without n (unsent t ns) }
    ensures other { (t : List Entry) (x : Entry) (ns : List ℕ) → dispatched x ≡ None → unsent (t ++ x ∷ []) ns ≡ unsent t ns }
{}

/// Where a legal run is done, and where it is blocked, by the nodes where it can go on.
pub fn endings_by_next()
    ensures done { (r : Rules) (t : List Entry) → IsSound r → Legal r t → IsDone r t ↔ ((slice_get r.edits (judged t) ≡ None) × (next_of r t ≡ [])) }
    ensures blocked { (r : Rules) (t : List Entry) → IsSound r → Legal r t → IsBlocked r t ↔ ((slice_get r.edits (judged t) ≡ None) × (next_of r t ≢ []) × (list_all (waits r t) (next_of r t) ≡ true)) }
{
    legal_runs();
    whole_where_nothing_is_next();
}

/// An entry of a node fits a legal run exactly where it passes the tests.
pub fn what_fits_is_tested()
    ensures { (r : Rules) (t : List Entry) (n : ℕ) (x : Entry) → IsSound r → Legal r t → number_of x ≡ Some n → Fits r t x ↔ IsTested r t n x }
{
    part_by_steps();
    what_is_offered_follows();
}

/// A legal run that judged every edit stays legal where one is put at the script's end, due from the run's length on, and a legal run
/// stays legal where the last edit, which isn't judged, is taken off the script.
pub fn scripts_grow()
    ensures submit { (r q : Rules) (at : ℕ) (t : List Entry) → IsSound r → HasOneMore r q at t → Legal r t → judged t ≡ length r.edits → at ≡ length t → Legal q t }
    ensures withdraw { (r q : Rules) (at : ℕ) (t : List Entry) → HasOneMore r q at t → Legal q t → judged t ≤ length r.edits → Legal r t }
{
    what_is_offered_follows();
    legal_runs();
}

/// With one more entry the marks that are set, the steps that were dispatched, the blocks that a step has, the entries of nodes and the
/// count of judged edits change as that entry says.
pub fn logs_move()
    ensures marks { (t : List Entry) (x : Entry) → marks (t ++ x ∷ []) ≡ marks t ++ option_to_list (marked x) }
    ensures sent { (t : List Entry) (x : Entry) → sent (t ++ x ∷ []) ≡ sent t ++ option_to_list (dispatched x) }
    ensures stage { (t : List Entry) (x : Entry) (n : ℕ) → stage n (t ++ x ∷ []) ≡ stage_step n (stage n t) x }
    ensures node { (t : List Entry) (x : Entry) (n : ℕ) → number_of x ≡ Some n → (plain (t ++ x ∷ []) ≡ plain t ++ x ∷ []) × (judged (t ++ x ∷ []) ≡ judged t) }
    ensures edit { (t : List Entry) (i : ℕ) (w : Verdict) → (plain (t ++ Edit i w ∷ []) ≡ plain t) × (judged (t ++ Edit i w ∷ []) ≡ judged t + 1) }
    ensures plain_stage { (t : List Entry) (n : ℕ) → stage n (plain t) ≡ stage n t }
{}

/// A run of a tree without loops has only so many entries: three for each node, and for each workingstep those of the longest path with its
/// dispatch and its end. Of a legal run this holds beside its edits.
pub fn runs_are_short()
    ensures part { (e : Exec) (t : List Entry) → HasNoLoop e → HasNumbers e → list_all is_within t ≡ true → Part e t → length t ≤ most_entries e }
    ensures begun { (e : Exec) (t : List Entry) → HasNoLoop e → HasNumbers e → 0 < length (nodes e) → list_all is_within t ≡ true → Part e t → length t < most_entries e }
    ensures legal { (r : Rules) (t : List Entry) → IsSound r → Legal r t → HasNoLoop (r.tree t) → HasNumbers (r.tree t) → 0 < length (nodes (r.tree t))
        → ((u : List Entry) (n : ℕ) → length (r.path u n) ≤ MAX_BLOCKS) → length t < length r.edits + most_entries (r.tree t) }
{
    part_of_own_nodes();
    legal_runs();
}
