//! The same for each kind of entry: what is written at its node and on the way up, that the frames then stand for the run with the entry,
//! and how the nodes where the run can go on change. Each function's contract is the law, and its body is empty.

ghost use Rattle.std.specs.Prelude.{◌≡◌, ◌==◌, ◌+◌, if◌then◌else◌, ℕ, Bool, true, false, List, [], ◌∷◌, ◌++◌, length, Option, Some, None};
ghost use Rattle.exec_tree.specs.Exec.{LeafKind, Exec, Work, Leaf, NonSeq, Sel, If, While, Execs, nodes, nodes_all, has, count, AreDistinct};
ghost use Rattle.trace_law.specs.Next.{first_of_two, next, next_at};
ghost use Rattle.trace_law.specs.State.{stage_step};
ghost use Rattle.trace_law.specs.Cells.{Cell, Cutting, Over, Picked, AnsweredBy, stage_of, picked, work_after, next_by};
ghost use Rattle.trace_law.specs.Coming.{Changes};
ghost use Rattle.trace_law.specs.Frames.{Stands, StandsAt, Goes};
ghost use Rattle.run_log.specs.declared.entry.Entry.{Entry};
ghost use Rattle.run_log.specs.declared.entry.Entry.TheVariants.{Pick, Test};
ghost use Rattle.frame_law.specs.Executable.{executable_at};
ghost use Rattle.frame_law.specs.Onward.{Done, onward, brings};
ghost use Rattle.frame_law.specs.Way.{Follows, AreKeptBut, AreUnpicked, touched, Ran};

/// What is written at a node and, where it opens one, in its element: the node goes by the entry.
pub fn a_node_moves_by_itself()
    ensures workingstep { (x : Entry) (m : ℕ) (c c' : ℕ → Cell) → c' m ≡ work_after m (c m) x → Goes c (Work m) x c' }
    ensures leaf { (x : Entry) (m : ℕ) (kind : LeafKind) (c c' : ℕ → Cell) → c' m ≡ Over → Goes c (Leaf m kind) x c' }
    ensures non_sequential { (m : ℕ) (es : Execs) (i : ℕ) (c c' : ℕ → Cell) → c' m ≡ Picked (picked (c m) ++ i ∷ []) → StandsAt c' es i [] → Goes c (NonSeq m es) (Pick m i) c' }
    ensures selective { (m : ℕ) (es : Execs) (i : ℕ) (c c' : ℕ → Cell) → picked (c m) ≡ [] → c' m ≡ Picked (i ∷ []) → StandsAt c' es i [] → Goes c (Sel m es) (Pick m i) c' }
    ensures branch { (m : ℕ) (a b : Exec) (ans : Bool) (c c' : ℕ → Cell) → c' m ≡ AnsweredBy (Some ans) → Stands c' (if ans then a else b) [] → Goes c (If m a b) (Test m ans) c' }
    ensures turn { (m : ℕ) (a : Exec) (c c' : ℕ → Cell) → c' m ≡ AnsweredBy (Some true) → Stands c' a [] → Goes c (While m a) (Test m true) c' }
    ensures no_turn { (m : ℕ) (a : Exec) (c c' : ℕ → Cell) → c' m ≡ AnsweredBy (Some false) → Goes c (While m a) (Test m false) c' }
{}

/// Where a node goes on once that is written, so whether it is over: a workingstep and a leaf where their cell says so, a non-sequential where its element has
/// nothing to do and all are picked, a selective and an if where their element has nothing to do, a while after a no.
pub fn a_node_tells_whether_it_is_over()
    ensures workingstep_over { (m : ℕ) (c : ℕ → Cell) → c m ≡ Over → next_by c (Work m) ≡ [] }
    ensures workingstep_on { (m : ℕ) (blocks : Option ℕ) (c : ℕ → Cell) → c m ≡ Cutting blocks → next_by c (Work m) ≡ m ∷ [] }
    ensures leaf { (m : ℕ) (kind : LeafKind) (c : ℕ → Cell) → c m ≡ Over → next_by c (Leaf m kind) ≡ [] }
    ensures non_sequential { (m : ℕ) (es : Execs) (i : ℕ) (c c' : ℕ → Cell) → AreDistinct (nodes (NonSeq m es)) → c' m ≡ Picked (picked (c m) ++ i ∷ []) → StandsAt c' es i [] → next_by c' (NonSeq m es) ≡ first_of_two (next_at es i []) (if length (picked (c m)) + 1 == count es then [] else m ∷ []) }
    ensures selective { (m : ℕ) (es : Execs) (i : ℕ) (c : ℕ → Cell) → AreDistinct (nodes (Sel m es)) → c m ≡ Picked (i ∷ []) → StandsAt c es i [] → next_by c (Sel m es) ≡ next_at es i [] }
    ensures branch { (m : ℕ) (a b : Exec) (ans : Bool) (c : ℕ → Cell) → AreDistinct (nodes (If m a b)) → c m ≡ AnsweredBy (Some ans) → Stands c (if ans then a else b) [] → next_by c (If m a b) ≡ next (if ans then a else b) [] }
    ensures turn { (m : ℕ) (a : Exec) (c : ℕ → Cell) → AreDistinct (nodes (While m a)) → c m ≡ AnsweredBy (Some true) → Stands c a [] → next_by c (While m a) ≡ first_of_two (next a []) (m ∷ []) }
    ensures no_turn { (m : ℕ) (a : Exec) (c : ℕ → Cell) → c m ≡ AnsweredBy (Some false) → next_by c (While m a) ≡ [] }
{}

/// A workingstep that is dispatched, or makes a block: its own cell alone is written, and the nodes where the run can go on stay.
pub fn a_workingstep_goes_on()
    ensures stands { (e : Exec) (t : List Entry) (x : Entry) (m blocks : ℕ) (c c' : ℕ → Cell) → Follows c e t x m → AreUnpicked c' e → executable_at e m ≡ Work m → stage_step m (stage_of (c m)) x ≡ Some blocks → c' m ≡ Cutting (Some blocks) → AreKeptBut c c' (m ∷ []) → Stands c' e (t ++ x ∷ []) }
    ensures came { (e : Exec) (t : List Entry) (x : Entry) (m blocks : ℕ) (c : ℕ → Cell) → Follows c e t x m → executable_at e m ≡ Work m → stage_step m (stage_of (c m)) x ≡ Some blocks → Changes (next e t) (next e (t ++ x ∷ [])) m (m ∷ []) }
{}

/// A workingstep that ends: it is over, and the run goes on from it.
pub fn a_workingstep_ends()
    ensures stands { (e : Exec) (t : List Entry) (x : Entry) (m : ℕ) (c c' : ℕ → Cell) → Follows c e t x m → AreUnpicked c' e → executable_at e m ≡ Work m → stage_step m (stage_of (c m)) x ≡ None → c' m ≡ Over → Ran c c' (onward e Done m) → AreKeptBut c c' (m ∷ touched c (onward e Done m)) → Stands c' e (t ++ x ∷ []) }
    ensures came { (e : Exec) (t : List Entry) (x : Entry) (m : ℕ) (c : ℕ → Cell) → Follows c e t x m → executable_at e m ≡ Work m → stage_step m (stage_of (c m)) x ≡ None → Changes (next e t) (next e (t ++ x ∷ [])) m (brings c (onward e Done m)) }
{}

/// A leaf does what it does, and is over.
pub fn a_leaf_is_done()
    ensures stands { (e : Exec) (t : List Entry) (x : Entry) (m : ℕ) (kind : LeafKind) (c c' : ℕ → Cell) → Follows c e t x m → AreUnpicked c' e → executable_at e m ≡ Leaf m kind → c' m ≡ Over → Ran c c' (onward e Done m) → AreKeptBut c c' (m ∷ touched c (onward e Done m)) → Stands c' e (t ++ x ∷ []) }
    ensures came { (e : Exec) (t : List Entry) (x : Entry) (m : ℕ) (kind : LeafKind) (c : ℕ → Cell) → Follows c e t x m → executable_at e m ≡ Leaf m kind → Changes (next e t) (next e (t ++ x ∷ [])) m (brings c (onward e Done m)) }
{}

/// A pick of a non-sequential opens the element. Where that has nothing to do and was the last, the run goes on from the non-sequential.
pub fn an_element_is_picked()
    ensures stands { (e : Exec) (t : List Entry) (m : ℕ) (es : Execs) (i : ℕ) (c c' : ℕ → Cell) → Follows c e t (Pick m i) m → AreUnpicked c' e → executable_at e m ≡ NonSeq m es → c' m ≡ Picked (picked (c m) ++ i ∷ []) → StandsAt c' es i [] → (next_at es i [] ≡ [] → length (picked (c m)) + 1 ≡ count es → Ran c c' (onward e Done m)) → ((q : ℕ) → has (m ∷ nodes_all es) q ≡ false → (next_at es i [] ≡ [] → length (picked (c m)) + 1 ≡ count es → has (touched c (onward e Done m)) q ≡ false) → c' q ≡ c q) → Stands c' e (t ++ Pick m i ∷ []) }
    ensures came { (e : Exec) (t : List Entry) (m : ℕ) (es : Execs) (i : ℕ) (c : ℕ → Cell) → Follows c e t (Pick m i) m → executable_at e m ≡ NonSeq m es → Changes (next e t) (next e (t ++ Pick m i ∷ [])) m (first_of_two (next_at es i []) (if length (picked (c m)) + 1 == count es then brings c (onward e Done m) else m ∷ [])) }
{}

/// The pick of a selective opens the element. Where that has nothing to do, the run goes on from the selective.
pub fn an_element_is_chosen()
    ensures stands { (e : Exec) (t : List Entry) (m : ℕ) (es : Execs) (i : ℕ) (c c' : ℕ → Cell) → Follows c e t (Pick m i) m → AreUnpicked c' e → executable_at e m ≡ Sel m es → c' m ≡ Picked (i ∷ []) → StandsAt c' es i [] → (next_at es i [] ≡ [] → Ran c c' (onward e Done m)) → ((q : ℕ) → has (m ∷ nodes_all es) q ≡ false → (next_at es i [] ≡ [] → has (touched c (onward e Done m)) q ≡ false) → c' q ≡ c q) → Stands c' e (t ++ Pick m i ∷ []) }
    ensures came { (e : Exec) (t : List Entry) (m : ℕ) (es : Execs) (i : ℕ) (c : ℕ → Cell) → Follows c e t (Pick m i) m → executable_at e m ≡ Sel m es → Changes (next e t) (next e (t ++ Pick m i ∷ [])) m (first_of_two (next_at es i []) (brings c (onward e Done m))) }
{}

/// The test of an if opens the branch of its answer. Where that has nothing to do, the run goes on from the if.
pub fn a_branch_is_taken()
    ensures stands { (e : Exec) (t : List Entry) (m : ℕ) (a b : Exec) (ans : Bool) (c c' : ℕ → Cell) → Follows c e t (Test m ans) m → AreUnpicked c' e → executable_at e m ≡ If m a b → c' m ≡ AnsweredBy (Some ans) → Stands c' (if ans then a else b) [] → (next (if ans then a else b) [] ≡ [] → Ran c c' (onward e Done m)) → ((q : ℕ) → has (nodes (If m a b)) q ≡ false → (next (if ans then a else b) [] ≡ [] → has (touched c (onward e Done m)) q ≡ false) → c' q ≡ c q) → Stands c' e (t ++ Test m ans ∷ []) }
    ensures came { (e : Exec) (t : List Entry) (m : ℕ) (a b : Exec) (ans : Bool) (c : ℕ → Cell) → Follows c e t (Test m ans) m → executable_at e m ≡ If m a b → Changes (next e t) (next e (t ++ Test m ans ∷ [])) m (first_of_two (next (if ans then a else b) []) (brings c (onward e Done m))) }
{}

/// The test of a while opens its body, and where that has nothing to do it tests again; after a no the run goes on from the while.
pub fn a_turn_is_tested()
    ensures turn { (e : Exec) (t : List Entry) (m : ℕ) (a : Exec) (c c' : ℕ → Cell) → Follows c e t (Test m true) m → AreUnpicked c' e → executable_at e m ≡ While m a → c' m ≡ AnsweredBy (Some true) → Stands c' a [] → AreKeptBut c c' (m ∷ nodes a) → Stands c' e (t ++ Test m true ∷ []) }
    ensures over { (e : Exec) (t : List Entry) (m : ℕ) (a : Exec) (c c' : ℕ → Cell) → Follows c e t (Test m false) m → AreUnpicked c' e → executable_at e m ≡ While m a → c' m ≡ AnsweredBy (Some false) → Ran c c' (onward e Done m) → AreKeptBut c c' (m ∷ touched c (onward e Done m)) → Stands c' e (t ++ Test m false ∷ []) }
    ensures came { (e : Exec) (t : List Entry) (m : ℕ) (a : Exec) (ans : Bool) (c : ℕ → Cell) → Follows c e t (Test m ans) m → executable_at e m ≡ While m a → Changes (next e t) (next e (t ++ Test m ans ∷ [])) m (if ans then first_of_two (next a []) (m ∷ []) else brings c (onward e Done m)) }
{}
