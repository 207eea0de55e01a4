//! Laws of Whole, Part and Next. Each function's contract is the law, and its body is empty.

ghost use Rattle.std.specs.Prelude.{◌≡◌, ◌↔◌, ◌+◌, ◌&&◌, ℕ, Bool, List, [], ◌∷◌, ◌++◌, true, Some, None};
ghost use Rattle.exec_tree.specs.Exec.{Exec, Execs, Par, Then, nodes, AreDistinct, has, works, HasChoices};
ghost use Rattle.trace_law.specs.Of.{is_of, number_of, only};
ghost use Rattle.trace_law.specs.State.{keeps, is_open, stage};
ghost use Rattle.trace_law.specs.Offer.{offer, offer_by, Cuts, IsOffered, IsOpen};
ghost use Rattle.trace_law.specs.Cells.{Cell, Shows, Moves, next_by};
ghost use Rattle.trace_law.specs.After.{after, enters, lows, Done, Ends};
ghost use Rattle.trace_law.specs.Leading.{leads, NoPicks};
ghost use Rattle.trace_law.specs.Coming.{came, Changes, next_of_one};
ghost use Rattle.trace_law.specs.Frames.{Stands, Goes, going, one_where};
ghost use Rattle.std.specs.List.{filter, find, list_any};
ghost use Rattle.trace_law.specs.Whole.{Whole};
ghost use Rattle.trace_law.specs.Part.{Part};
ghost use Rattle.trace_law.specs.Next.{next, next_in_order};
ghost use Rattle.trace_law.specs.Step.{Step, Continues};
ghost use Rattle.run_log.specs.declared.entry.Entry.{Entry};
ghost use Rattle.run_log.specs.declared.entry.Entry.TheVariants.{Block};
ghost use Rattle.path_blocks.specs.declared.block.Block.{Block as PathBlock};
ghost use Rattle.trace_law.specs.Stray.{first_stray, IsFirstStray};

/// A part is whole exactly where nothing can go on.
pub fn whole_where_nothing_is_next()
    ensures { (e : Exec) (t : List Entry) → Part e t → (Whole e t ↔ (next e t ≡ [])) }
{}

/// A workplan goes on at its first element that isn't whole.
pub fn a_workplan_goes_on_at_its_first()
    ensures whole { (e : Exec) (es : Execs) (t : List Entry) → Whole e (only (nodes e) t) → next_in_order (Then e es) t ≡ next_in_order es t }
    ensures part { (e : Exec) (es : Execs) (t : List Entry) → Part e (only (nodes e) t) → (Whole e (only (nodes e) t) → ⊥) → next_in_order (Then e es) t ≡ next e (only (nodes e) t) }
{}

/// Where a part followed by one entry is a part, that entry's node could go on.
pub fn next_entry_is_of_next()
    ensures { (e : Exec) (t : List Entry) (x : Entry) → AreDistinct (nodes e) → Part e t → Part e (t ++ x ∷ []) → is_of (next e t) x ≡ true }
{}

/// The parts with one more entry are the parts and a step from them.
pub fn part_by_steps()
    ensures none { (e : Exec) → Part e [] }
    ensures more { (e : Exec) (t : List Entry) (x : Entry) → AreDistinct (nodes e) → (Part e (t ++ x ∷ []) ↔ (Part e t × Step e t x)) }
{}

/// The parts with one more entry are the parts, where the entry is of a node that can go on and is right there.
pub fn part_by_next()
    ensures { (e : Exec) (t : List Entry) (x : Entry) → AreDistinct (nodes e) → (Part e (t ++ x ∷ []) ↔ (Part e t × (is_of (next e t) x ≡ true) × Continues e t x)) }
{}

/// All entries of a part are of the executable's nodes, and what is whole is a part.
pub fn part_of_own_nodes()
    ensures nodes { (e : Exec) (t : List Entry) → Part e t → only (nodes e) t ≡ t }
    ensures whole { (e : Exec) (t : List Entry) → Whole e t → Part e t }
{}

/// Cells that show a part tell where it goes on, and move with each entry.
pub fn cells_follow()
    ensures next { (e : Exec) (t : List Entry) (c : ℕ → Cell) → AreDistinct (nodes e) → Part e t → Shows c e t → next e t ≡ next_by c e }
    ensures moved { (e : Exec) (t : List Entry) (x : Entry) (c c' : ℕ → Cell) → AreDistinct (nodes e) → Part e (t ++ x ∷ []) → Shows c e t → Moves c e x c' → Shows c' e (t ++ x ∷ []) }
    ensures offer { (e : Exec) (t : List Entry) (m : ℕ) (c : ℕ → Cell) → has (nodes e) m ≡ true → Shows c e t → offer e t m ≡ offer_by c e m }
    ensures tested { (e : Exec) (t : List Entry) (x : Entry) (m : ℕ) (c : ℕ → Cell) → AreDistinct (nodes e) → Part e t → Shows c e t → number_of x ≡ Some m → has (nodes e) m ≡ true → (Part e (t ++ x ∷ []) ↔ ((is_of (next_by c e) x ≡ true) × IsOffered (offer_by c e m) m x)) }
{}

/// What can go on after a part can go on after one more entry too, unless that entry is its own and no dispatch or block.
pub fn what_can_go_on_stays()
    ensures { (e : Exec) (t : List Entry) (x : Entry) (m : ℕ) → AreDistinct (nodes e) → Part e (t ++ x ∷ []) → keeps m x ≡ true → has (next e t) m ≡ true → has (next e (t ++ x ∷ [])) m ≡ true }
{}

/// A workingstep that is open is among those that can go on.
pub fn open_can_go_on()
    ensures { (e : Exec) (t : List Entry) (n : ℕ) → AreDistinct (nodes e) → has (works e) n ≡ true → Part e t → is_open n t ≡ true → has (next e t) n ≡ true }
{}

/// What follows a part is what its node does next, where the node can go on.
pub fn what_is_offered_follows()
    ensures follows { (e : Exec) (t : List Entry) (x : Entry) (m : ℕ) → AreDistinct (nodes e) → Part e t → number_of x ≡ Some m → is_of (next e t) x ≡ true → IsOffered (offer e t m) m x → Part e (t ++ x ∷ []) }
    ensures offered { (e : Exec) (t : List Entry) (x : Entry) (m : ℕ) → AreDistinct (nodes e) → Part e (t ++ x ∷ []) → number_of x ≡ Some m → (is_of (next e t) x ≡ true) × IsOffered (offer e t m) m x }
{}

/// Where a node cuts its next block or ends, it has as many blocks since its last dispatch as the log says.
pub fn blocks_are_counted()
    ensures follows { (e : Exec) (t : List Entry) (n k : ℕ) (b : PathBlock) → AreDistinct (nodes e) → Part e (t ++ Block n k b ∷ []) → stage n t ≡ Some k }
    ensures offered { (e : Exec) (t : List Entry) (n k : ℕ) → offer e t n ≡ Cuts k → stage n t ≡ Some k }
{}

/// Where a node can go on, and each selective has an element, there is something that the node can do.
pub fn what_can_go_on_is_open()
    ensures { (e : Exec) (t : List Entry) (m : ℕ) → AreDistinct (nodes e) → HasChoices e → Part e t → has (next e t) m ≡ true → IsOpen (offer e t m) }
{}

/// Frames that stand for a part tell where it goes on and what is done there, and move with each entry. They tell nothing of other nodes.
pub fn frames_follow()
    ensures next { (e : Exec) (t : List Entry) (c : ℕ → Cell) → AreDistinct (nodes e) → Part e t → Stands c e t → next e t ≡ next_by c e }
    ensures offer { (e : Exec) (t : List Entry) (m : ℕ) (c : ℕ → Cell) → AreDistinct (nodes e) → Part e t → Stands c e t → has (next e t) m ≡ true → offer e t m ≡ offer_by c e m }
    ensures moved { (e : Exec) (t : List Entry) (x : Entry) (c c' : ℕ → Cell) → AreDistinct (nodes e) → Part e (t ++ x ∷ []) → Stands c e t → Goes c e x c' → Stands c' e (t ++ x ∷ []) }
    ensures came { (e : Exec) (t : List Entry) (x : Entry) (m : ℕ) (c : ℕ → Cell) → AreDistinct (nodes e) → Part e (t ++ x ∷ []) → Stands c e t → number_of x ≡ Some m → Changes (next e t) (next e (t ++ x ∷ [])) m (came c e x []) }
    ensures table { (e : Exec) (x : Entry) (m : ℕ) (c : ℕ → Cell) → AreDistinct (nodes e) → Ends c x m → has (lows e) m ≡ true → came c e x [] ≡ enters c (after e Done m) }
    ensures left { (n : ℕ) (es : Execs) (t : List Entry) (x : Entry) → AreDistinct (nodes (Par n es)) → Part (Par n es) (t ++ x ∷ []) → going es (t ++ x ∷ []) + 1 ≡ going es t + one_where (next_of_one es x (t ++ x ∷ [])) }
{}

/// The nodes where a run can go on stand in preorder.
pub fn next_stands_in_preorder()
    ensures order { (e : Exec) (t : List Entry) → AreDistinct (nodes e) → next e t ≡ filter (has (next e t)) (nodes e) }
    ensures first { (e : Exec) (t : List Entry) (test : ℕ → Bool) → AreDistinct (nodes e) → find test (next e t) ≡ find (λ n. has (next e t) n && test n) (nodes e) }
    ensures any { (e : Exec) (t : List Entry) (test : ℕ → Bool) → AreDistinct (nodes e) → list_any test (next e t) ≡ list_any (λ n. has (next e t) n && test n) (nodes e) }
{}

/// To open where an executable leads is to open it: the same nodes come in, and the frames written stand for the whole.
pub fn leads_opens()
    ensures next { (e : Exec) → next (leads e) [] ≡ next e [] }
    ensures stands { (e : Exec) (c : ℕ → Cell) → NoPicks c e → Stands c (leads e) [] → Stands c e [] }
{}

/// Where none of a list's entries strays from a tree the list is a run so far of it, and else the first that strays is found.
pub fn strays_are_found()
    ensures none { (e : Exec) (t : List Entry) → AreDistinct (nodes e) → (first_stray e [] t ≡ None) ↔ Part e t }
    ensures first { (e : Exec) (t : List Entry) (x : Entry) → AreDistinct (nodes e) → first_stray e [] t ≡ Some x → IsFirstStray e t x }
{
    part_by_steps();
    part_by_next();
    what_is_offered_follows();
}
