//! The way up as code goes it: step by step, and after an entry's own node was written. Each function's contract is the law, and its body is empty.

ghost use Rattle.std.specs.Prelude.{◌≡◌, ◌==◌, ◌+◌, ◌-◌, if◌then◌else◌, ℕ, Bool, true, false, List, [], ◌∷◌, ◌++◌, length, Some, None};
ghost use Rattle.exec_tree.specs.Exec.{LeafKind, Exec, Work, Leaf, NonSeq, Sel, If, While, Execs, nodes, nodes_all, count, AreDistinct};
ghost use Rattle.trace_law.specs.Next.{next, next_at};
ghost use Rattle.trace_law.specs.State.{stage_step};
ghost use Rattle.trace_law.specs.Cells.{Cell, Over, Picked, AnsweredBy, Left, stage_of, picked};
ghost use Rattle.trace_law.specs.Coming.{Changes};
ghost use Rattle.trace_law.specs.Frames.{left, Stands, StandsInOrder, StandsAt};
ghost use Rattle.run_log.specs.declared.entry.Entry.{Entry};
ghost use Rattle.run_log.specs.declared.entry.Entry.TheVariants.{Pick, Test};
ghost use Rattle.frame_law.specs.Executable.{executable_at};
ghost use Rattle.frame_law.specs.Onward.{Onward, Done, Opens, Joins, PicksOn, TestsAgain, onward, brings};
ghost use Rattle.frame_law.specs.Way.{Follows, AreKeptBut, AreUnpicked, IsGone, along};

/// The way up, step by step: nothing is left to do, elements are opened, a parallel has one element less and the way goes on where that was its last, a
/// non-sequential goes on itself or the way goes on from it, a while goes on itself.
pub fn the_way_is_gone_step_by_step()
    ensures done { (c : ℕ → Cell) → IsGone c Done c }
    ensures opens { (c c' : ℕ → Cell) (es : Execs) → StandsInOrder c' es [] → AreKeptBut c c' (nodes_all es) → IsGone c (Opens es) c' }
    ensures joins { (c c' : ℕ → Cell) (n : ℕ) (k : Onward) → (left (c n) == 1) ≡ false → c' n ≡ Left (left (c n) - 1) → AreKeptBut c c' (n ∷ []) → IsGone c (Joins n k) c' }
    ensures joins_last { (c d c' : ℕ → Cell) (n : ℕ) (k : Onward) → AreDistinct (n ∷ along k) → left (c n) ≡ 1 → d n ≡ Left (left (c n) - 1) → AreKeptBut c d (n ∷ []) → IsGone d k c' → IsGone c (Joins n k) c' }
    ensures picks { (c : ℕ → Cell) (n total : ℕ) (k : Onward) → (length (picked (c n)) == total) ≡ false → IsGone c (PicksOn n total k) c }
    ensures picked_all { (c c' : ℕ → Cell) (n total : ℕ) (k : Onward) → length (picked (c n)) ≡ total → IsGone c k c' → IsGone c (PicksOn n total k) c' }
    ensures tests { (c : ℕ → Cell) (n : ℕ) → IsGone c (TestsAgain n) c }
    ensures brings_none { (c : ℕ → Cell) (n : ℕ) (k : Onward) → (left (c n) == 1) ≡ false → brings c (Joins n k) ≡ [] }
    ensures brings_on { (c d : ℕ → Cell) (n : ℕ) (k : Onward) → AreDistinct (n ∷ along k) → left (c n) ≡ 1 → AreKeptBut c d (n ∷ []) → brings c (Joins n k) ≡ brings d k }
{}

/// A workingstep or a leaf that is over is written first, and then the way up from it is gone.
pub fn a_node_is_over_and_the_way_is_gone()
    ensures workingstep { (e : Exec) (t : List Entry) (x : Entry) (m : ℕ) (c d c' : ℕ → Cell) → Follows c e t x m → AreUnpicked c' e → executable_at e m ≡ Work m → stage_step m (stage_of (c m)) x ≡ None → d m ≡ Over → AreKeptBut c d (m ∷ []) → IsGone d (onward e Done m) c' → Stands c' e (t ++ x ∷ []) }
    ensures workingstep_came { (e : Exec) (t : List Entry) (x : Entry) (m : ℕ) (c d : ℕ → Cell) → Follows c e t x m → executable_at e m ≡ Work m → stage_step m (stage_of (c m)) x ≡ None → AreKeptBut c d (m ∷ []) → Changes (next e t) (next e (t ++ x ∷ [])) m (brings d (onward e Done m)) }
    ensures leaf { (e : Exec) (t : List Entry) (x : Entry) (m : ℕ) (kind : LeafKind) (c d c' : ℕ → Cell) → Follows c e t x m → AreUnpicked c' e → executable_at e m ≡ Leaf m kind → d m ≡ Over → AreKeptBut c d (m ∷ []) → IsGone d (onward e Done m) c' → Stands c' e (t ++ x ∷ []) }
    ensures leaf_came { (e : Exec) (t : List Entry) (x : Entry) (m : ℕ) (kind : LeafKind) (c d : ℕ → Cell) → Follows c e t x m → executable_at e m ≡ Leaf m kind → AreKeptBut c d (m ∷ []) → Changes (next e t) (next e (t ++ x ∷ [])) m (brings d (onward e Done m)) }
{}

/// The last element of a non-sequential is picked, or one of a selective, and has nothing to do: it is opened first, and then the way up is gone.
pub fn a_pick_is_over_and_the_way_is_gone()
    ensures non_sequential { (e : Exec) (t : List Entry) (m : ℕ) (es : Execs) (i : ℕ) (c d c' : ℕ → Cell) → Follows c e t (Pick m i) m → AreUnpicked c' e → executable_at e m ≡ NonSeq m es → next_at es i [] ≡ [] → length (picked (c m)) + 1 ≡ count es → d m ≡ Picked (picked (c m) ++ i ∷ []) → StandsAt d es i [] → AreKeptBut c d (m ∷ nodes_all es) → IsGone d (onward e Done m) c' → Stands c' e (t ++ Pick m i ∷ []) }
    ensures non_sequential_came { (e : Exec) (t : List Entry) (m : ℕ) (es : Execs) (i : ℕ) (c d : ℕ → Cell) → Follows c e t (Pick m i) m → executable_at e m ≡ NonSeq m es → next_at es i [] ≡ [] → length (picked (c m)) + 1 ≡ count es → AreKeptBut c d (m ∷ nodes_all es) → Changes (next e t) (next e (t ++ Pick m i ∷ [])) m (brings d (onward e Done m)) }
    ensures selective { (e : Exec) (t : List Entry) (m : ℕ) (es : Execs) (i : ℕ) (c d c' : ℕ → Cell) → Follows c e t (Pick m i) m → AreUnpicked c' e → executable_at e m ≡ Sel m es → next_at es i [] ≡ [] → d m ≡ Picked (i ∷ []) → StandsAt d es i [] → AreKeptBut c d (m ∷ nodes_all es) → IsGone d (onward e Done m) c' → Stands c' e (t ++ Pick m i ∷ []) }
    ensures selective_came { (e : Exec) (t : List Entry) (m : ℕ) (es : Execs) (i : ℕ) (c d : ℕ → Cell) → Follows c e t (Pick m i) m → executable_at e m ≡ Sel m es → next_at es i [] ≡ [] → AreKeptBut c d (m ∷ nodes_all es) → Changes (next e t) (next e (t ++ Pick m i ∷ [])) m (brings d (onward e Done m)) }
{}

/// The branch of an if has nothing to do, or a while's answer is no: the answer is written first, and then the way up is gone.
pub fn a_test_is_over_and_the_way_is_gone()
    ensures branch { (e : Exec) (t : List Entry) (m : ℕ) (a b : Exec) (ans : Bool) (c d c' : ℕ → Cell) → Follows c e t (Test m ans) m → AreUnpicked c' e → executable_at e m ≡ If m a b → next (if ans then a else b) [] ≡ [] → d m ≡ AnsweredBy (Some ans) → Stands d (if ans then a else b) [] → AreKeptBut c d (nodes (If m a b)) → IsGone d (onward e Done m) c' → Stands c' e (t ++ Test m ans ∷ []) }
    ensures branch_came { (e : Exec) (t : List Entry) (m : ℕ) (a b : Exec) (ans : Bool) (c d : ℕ → Cell) → Follows c e t (Test m ans) m → executable_at e m ≡ If m a b → next (if ans then a else b) [] ≡ [] → AreKeptBut c d (nodes (If m a b)) → Changes (next e t) (next e (t ++ Test m ans ∷ [])) m (brings d (onward e Done m)) }
    ensures turn { (e : Exec) (t : List Entry) (m : ℕ) (a : Exec) (c d c' : ℕ → Cell) → Follows c e t (Test m false) m → AreUnpicked c' e → executable_at e m ≡ While m a → d m ≡ AnsweredBy (Some false) → AreKeptBut c d (m ∷ []) → IsGone d (onward e Done m) c' → Stands c' e (t ++ Test m false ∷ []) }
    ensures turn_came { (e : Exec) (t : List Entry) (m : ℕ) (a : Exec) (c d : ℕ → Cell) → Follows c e t (Test m false) m → executable_at e m ≡ While m a → AreKeptBut c d (nodes (While m a)) → Changes (next e t) (next e (t ++ Test m false ∷ [])) m (brings d (onward e Done m)) }
{}
