//! Laws of the tickets of a run. Each function's contract is the law.

ghost use Rattle.std.specs.Prelude.{◌≡◌, ◌++◌, ◌∷◌, [], ℕ, List, Option, Some, None};
ghost use Rattle.path_blocks.specs.declared.def.Def.{Def};
ghost use Rattle.run_log.specs.declared.entry.Entry.{Entry};
ghost use Rattle.exec_tree.specs.Exec.{AreDistinct};
ghost use Rattle.trace_law.specs.State.{dispatched};
ghost use Rattle.run_law.specs.Rules.{Rules};
ghost use Rattle.run_law.specs.Ahead.{unsent, steps_of};
ghost use Rattle.plan_store.specs.StepAhead.{StepAhead, step_in};
ghost use Rattle.plan_store.specs.Windows.{AreWindows};
ghost use Rattle.plan_law.specs.Tickets.{AreTickets, LeavesSteps, next_in, moved, all_renewed};

use run_law::laws::steps_ahead_move;

/// The tickets of a run move with the dispatch of a step that has one: it leaves, and the next step of its channel comes in. A step that
/// has none leaves them. An entry that leaves steps and versions leaves them.
///
/// An accepted edit leaves the steps of the channels too, and where a step's version stays, its definition stays: then they move by
/// renewing those whose step has another version.
pub fn tickets_move()
    ensures dispatch { (r : Rules) (definition : ℕ → Option Def) (t : List Entry) (x : Entry) (n : ℕ) (all : List StepAhead) (a : StepAhead) → dispatched x ≡ Some n → LeavesSteps r t (t ++ x ∷ []) → ((k : ℕ) → AreDistinct (unsent t (steps_of r t k))) → AreWindows all → AreTickets r definition t all → step_in all n ≡ Some a → AreTickets r definition (t ++ x ∷ []) (moved (r.version t) all n a.channel (next_in r t a.channel)) }
    ensures beyond { (r : Rules) (definition : ℕ → Option Def) (t : List Entry) (x : Entry) (n : ℕ) (all : List StepAhead) → dispatched x ≡ Some n → LeavesSteps r t (t ++ x ∷ []) → ((k : ℕ) → AreDistinct (unsent t (steps_of r t k))) → AreTickets r definition t all → step_in all n ≡ None → AreTickets r definition (t ++ x ∷ []) all }
    ensures other { (r : Rules) (definition : ℕ → Option Def) (t : List Entry) (x : Entry) (all : List StepAhead) → dispatched x ≡ None → LeavesSteps r t (t ++ x ∷ []) → AreTickets r definition t all → AreTickets r definition (t ++ x ∷ []) all }
    ensures judged { (r : Rules) (before after : ℕ → Option Def) (t : List Entry) (x : Entry) (all : List StepAhead) → dispatched x ≡ None → ((c : ℕ) → steps_of r (t ++ x ∷ []) c ≡ steps_of r t c)
        → ((n : ℕ) → r.version (t ++ x ∷ []) n ≡ r.version t n → after n ≡ before n) → AreTickets r before t all → AreTickets r after (t ++ x ∷ []) (all_renewed (r.version (t ++ x ∷ [])) all) }
{
    steps_ahead_move();
}
