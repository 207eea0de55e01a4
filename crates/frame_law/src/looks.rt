//! How many nodes one entry looks at, and that it opens no more than the nodes to which the run comes by it. Each function's contract is the law, and its body is empty.

ghost use Rattle.std.specs.Prelude.{◌≡◌, ◌≤◌, ◌+◌, ◌*◌, ◌⊎◌, ◌++◌, ◌∷◌, ℕ, true, false, List, [], length, Option};
ghost use Rattle.exec_tree.specs.Exec.{Exec, Execs, nodes, has, AreDistinct};
ghost use Rattle.entity_types.specs.declared.entity.Entity.{Entity};
ghost use Rattle.exec_tree.specs.TreeOf.{tree_of};
ghost use Rattle.trace_law.specs.Next.{next};
ghost use Rattle.trace_law.specs.Cells.{Cell};
ghost use Rattle.trace_law.specs.Leading.{leads};
ghost use Rattle.run_log.specs.declared.entry.Entry.{Entry};
ghost use Rattle.frame_law.specs.Executable.{executable_at};
ghost use Rattle.frame_law.specs.Way.{Follows, AreKeptBut};
ghost use Rattle.frame_law.specs.Onward.{Done, onward};
ghost use Rattle.frame_law.specs.ComeTo.{come_to, come_to_in_order, nesting, turned, new_in};
ghost use Rattle.frame_law.specs.Looks.{finding, opening, opening_first, way_looks, picks_on, looks, opened, AreNumbered, AreNumberedAll};

/// In the tree of a store each element has a number, but for the branches that ifs leave out.
pub fn trees_are_numbered()
    ensures { (entities : ℕ → Option Entity) (main : ℕ) → AreNumbered (tree_of entities main) }
{}

/// On the way up from a node there are at most as many non-sequentials as the nesting.
pub fn the_way_is_short()
    ensures { (e : Exec) (m : ℕ) → picks_on (onward e Done m) ≤ nesting e }
{}

/// To find where opening an executable leads and to open it there takes at most two looks at each node to which the run comes by that, and one more for the branch that an
/// if leaves out; to open elements in order, where the first of them leads is known, at most two at each.
pub fn what_is_opened_is_looked_at_twice()
    ensures executable { (e : Exec) → AreNumbered e → finding e + opening e ≤ 2 * length (come_to e []) + 1 }
    ensures elements { (es : Execs) → AreNumberedAll es → opening_first es ≤ 2 * length (come_to_in_order es []) }
{}

/// To open an executable where opening leads takes no more looks than to open it.
pub fn where_it_leads_is_opened_as_soon()
    ensures { (e : Exec) → opening (leads e) ≤ opening e }
{}

/// What is written at a node and within it changes none of the looks on the way up from the node.
pub fn the_way_is_looked_at_alike()
    ensures { (c c' : ℕ → Cell) (e : Exec) (m : ℕ) → AreDistinct (nodes e) → AreKeptBut c c' (nodes (executable_at e m)) → way_looks c' (onward e Done m) ≡ way_looks c (onward e Done m) }
{}

/// An entry looks at its own node, at one more for the branch that an if leaves out, once at each non-sequential on the way up, of which there are at most as many as the
/// nesting, and at most twice at each node that it opens.
pub fn looks_are_told_by_what_is_opened()
    ensures { (e : Exec) (x : Entry) (m : ℕ) (c : ℕ → Cell) → AreNumbered e → looks c e x m ≤ 2 + nesting e + 2 * length (opened c e x m) }
{}

/// What an entry opens, the run has come to after it, and hadn't before, or it lies in the body of a while that begins anew.
pub fn what_is_opened_is_new()
    ensures come { (e : Exec) (t : List Entry) (x : Entry) (m : ℕ) (c : ℕ → Cell) (q : ℕ) → Follows c e t x m → has (opened c e x m) q ≡ true → has (come_to e (t ++ x ∷ [])) q ≡ true }
    ensures fresh { (e : Exec) (t : List Entry) (x : Entry) (m : ℕ) (c : ℕ → Cell) (q : ℕ) → Follows c e t x m → has (opened c e x m) q ≡ true → (has (come_to e t) q ≡ false) ⊎ (has (turned e x) q ≡ true) }
    ensures number { (e : Exec) (t : List Entry) (x : Entry) (m : ℕ) (c : ℕ → Cell) → Follows c e t x m → length (opened c e x m) ≤ length (new_in e t x) }
{}

/// So an entry's looks are bounded by the tree's greatest nesting, the number of nodes where the run can go on before it, and the number of nodes that are new by it.
pub fn looks_are_bounded()
    ensures { (e : Exec) (t : List Entry) (x : Entry) (m : ℕ) (c : ℕ → Cell) → Follows c e t x m → AreNumbered e → looks c e x m ≤ 4 * (nesting e + 1 + length (next e t) + length (new_in e t x)) }
{}
