//! What the definitions mean, as contracts of functions that do nothing.

ghost use Rattle.std.specs.Prelude.{◌≡◌, ℕ, true};
ghost use Rattle.exec_tree.specs.Exec.{Exec, nodes, has, AreDistinct};
ghost use Rattle.trace_law.specs.After.{after};
ghost use Rattle.tree_table.specs.Onward.{Onward, onward, coming_in, acting};

use trace_law::laws::leads_opens;

/// Where a run goes on when a node that has entries is over, told by what is opened, is the same told by the nodes that come in.
pub fn onward_is_after()
    ensures { (e : Exec) (k : Onward) (m : ℕ) → AreDistinct (nodes e) → has (acting e) m ≡ true → coming_in (onward e k m) ≡ after e (coming_in k) m }
{
    leads_opens();
}
