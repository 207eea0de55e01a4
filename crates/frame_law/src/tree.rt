//! Laws of the tree that make its table of ways, and let what it says be shown node by node. Each function's contract is the law, and its body is empty.

ghost use Rattle.std.specs.Prelude.{◌≡◌, ℕ, true, false, [], ◌++◌, Option, Some, None};
ghost use Rattle.exec_tree.specs.Exec.{Exec, Plan, Par, NonSeq, Sel, If, While, Execs, None_left, nodes, nodes_all, has, count, AreDistinct};
ghost use Rattle.trace_law.specs.Cells.{Cell, Picked};
ghost use Rattle.trace_law.specs.Next.{next, next_in_order, next_at};
ghost use Rattle.trace_law.specs.Frames.{is_shared, Stands, StandsAt};
ghost use Rattle.trace_law.specs.Leading.{leads};
ghost use Rattle.frame_law.specs.Executable.{executable_at, own_number, element, behind};
ghost use Rattle.frame_law.specs.Onward.{Onward, Done, Opens, PicksOn, TestsAgain, opened_or, joined_or, onward};
ghost use Rattle.frame_law.specs.Way.{AreKeptBut, AreUnpicked, AreUnpickedAll, IsGone, along};

/// The way up from a node lies apart from the node and what is within, and passes no node twice.
pub fn the_way_lies_apart()
    ensures { (e : Exec) (m : ℕ) → AreDistinct (nodes e) → AreDistinct (nodes (executable_at e m) ++ along (onward e Done m)) }
{}

/// What is found of a node within an executable of the tree is what is found in the tree, and the way up from the node leads through that executable.
pub fn the_way_leads_through()
    ensures found { (e : Exec) (n m : ℕ) → AreDistinct (nodes e) → has (nodes (executable_at e n)) m ≡ true → executable_at e m ≡ executable_at (executable_at e n) m }
    ensures onward { (e : Exec) (k : Onward) (n m : ℕ) → AreDistinct (nodes e) → has (nodes (executable_at e n)) m ≡ true → onward e k m ≡ onward (executable_at e n) (onward e k n) m }
{}

/// Each non-sequential without elements has no picks where that is so at each node.
pub fn unpicked_at_each_node()
    ensures { (e : Exec) (c : ℕ → Cell) → AreDistinct (nodes e) → ((n : ℕ) → has (nodes e) n ≡ true → executable_at e n ≡ NonSeq n None_left → c n ≡ Picked []) → AreUnpicked c e }
{}

/// The executable where opening leads has a number where it has something to do, and is found at it: from a node, from an executable of the tree, and from the elements behind one of a plan.
pub fn where_it_leads_is_found()
    ensures within { (e : Exec) (r : ℕ) → AreDistinct (nodes e) → own_number (leads e) ≡ Some r → (has (nodes e) r ≡ true) × (executable_at e r ≡ leads e) }
    ensures number { (e : Exec) → (next e [] ≡ [] → ⊥) → (r : ℕ) × (own_number (leads e) ≡ Some r) }
    ensures tree { (e : Exec) (p r : ℕ) → AreDistinct (nodes e) → own_number (leads (executable_at e p)) ≡ Some r → executable_at e r ≡ leads (executable_at e p) }
    ensures elements { (e : Exec) (number : Option ℕ) (p : ℕ) (es : Execs) (i r : ℕ) → AreDistinct (nodes e) → executable_at e p ≡ Plan number es → own_number (leads (Plan None (behind es i))) ≡ Some r → executable_at e r ≡ leads (Plan None (behind es i)) }
{}

/// Where each non-sequential without elements in an executable has no picks, that is so of what is found in the executable, of each of its elements, and of those behind one.
pub fn unpicked_within()
    ensures found { (e : Exec) (m : ℕ) (c : ℕ → Cell) → AreUnpicked c e → AreUnpicked c (executable_at e m) }
    ensures elements { (n : ℕ) (es : Execs) (c : ℕ → Cell) → AreUnpicked c (NonSeq n es) → AreUnpickedAll c es }
    ensures element { (es : Execs) (i : ℕ) (c : ℕ → Cell) → AreUnpickedAll c es → AreUnpicked c (element es i) }
    ensures behind { (es : Execs) (i : ℕ) (c : ℕ → Cell) → AreUnpickedAll c es → AreUnpickedAll c (behind es i) }
{}

/// Element i, as trace_law's words for it have it.
pub fn an_element_is_opened()
    ensures next { (es : Execs) (i : ℕ) → next_at es i [] ≡ next (element es i) [] }
    ensures stands { (es : Execs) (i : ℕ) (c : ℕ → Cell) → Stands c (element es i) [] → StandsAt c es i [] }
    ensures within { (es : Execs) (i q : ℕ) → has (nodes_all es) q ≡ false → has (nodes (element es i)) q ≡ false }
{}

/// To open where an executable leads, or elements in order, is to open these; and what is opened lies within.
pub fn what_leads_is_opened()
    ensures stands { (e : Exec) (c : ℕ → Cell) → AreUnpicked c e → Stands c (leads e) [] → Stands c e [] }
    ensures within { (e : Exec) (q : ℕ) → has (nodes e) q ≡ false → has (nodes (leads e)) q ≡ false }
    ensures elements { (es : Execs) (c c' : ℕ → Cell) → AreUnpickedAll c' es → Stands c' (leads (Plan None es)) [] → AreKeptBut c c' (nodes (leads (Plan None es))) → IsGone c (Opens es) c' }
{}

/// The root is found at its own number, and the way up from there is the one that goes on once the tree is over.
pub fn the_root_is_found()
    ensures found { (e : Exec) (n : ℕ) → own_number e ≡ Some n → executable_at e n ≡ e }
    ensures onward { (e : Exec) (k : Onward) (n : ℕ) → own_number e ≡ Some n → onward e k n ≡ k }
{}

/// An element is found at its own number, and the way up from it is told by what holds it and the way up from there: in a plan the elements behind it are opened, a
/// parallel that is shared has one element less, a non-sequential picks on, a while tests again, and from an element of a selective or a branch the way is that of the whole.
pub fn elements_are_found()
    ensures plan { (e : Exec) (k : Onward) (number : Option ℕ) (p : ℕ) (es : Execs) (i q : ℕ) → AreDistinct (nodes e) → executable_at e p ≡ Plan number es → own_number (element es i) ≡ Some q → (executable_at e q ≡ element es i) × (onward e k q ≡ opened_or (next_in_order (behind es i) []) (behind es i) (onward e k p)) }
    ensures parallel { (e : Exec) (k : Onward) (p : ℕ) (es : Execs) (i q : ℕ) → AreDistinct (nodes e) → executable_at e p ≡ Par p es → own_number (element es i) ≡ Some q → (executable_at e q ≡ element es i) × (onward e k q ≡ joined_or (is_shared es) p (onward e k p)) }
    ensures non_sequential { (e : Exec) (k : Onward) (p : ℕ) (es : Execs) (i q : ℕ) → AreDistinct (nodes e) → executable_at e p ≡ NonSeq p es → own_number (element es i) ≡ Some q → (executable_at e q ≡ element es i) × (onward e k q ≡ PicksOn p (count es) (onward e k p)) }
    ensures selective { (e : Exec) (k : Onward) (p : ℕ) (es : Execs) (i q : ℕ) → AreDistinct (nodes e) → executable_at e p ≡ Sel p es → own_number (element es i) ≡ Some q → (executable_at e q ≡ element es i) × (onward e k q ≡ onward e k p) }
    ensures branch_yes { (e : Exec) (k : Onward) (p : ℕ) (a b : Exec) (q : ℕ) → AreDistinct (nodes e) → executable_at e p ≡ If p a b → own_number a ≡ Some q → (executable_at e q ≡ a) × (onward e k q ≡ onward e k p) }
    ensures branch_no { (e : Exec) (k : Onward) (p : ℕ) (a b : Exec) (q : ℕ) → AreDistinct (nodes e) → executable_at e p ≡ If p a b → own_number b ≡ Some q → (executable_at e q ≡ b) × (onward e k q ≡ onward e k p) }
    ensures body { (e : Exec) (k : Onward) (p : ℕ) (a : Exec) (q : ℕ) → AreDistinct (nodes e) → executable_at e p ≡ While p a → own_number a ≡ Some q → (executable_at e q ≡ a) × (onward e k q ≡ TestsAgain p) }
{}
