//! Laws of frames by an entry's own node. Each function's contract is the law, and its body is empty.

ghost use Rattle.std.specs.Prelude.{◌≡◌, ℕ, true, List, [], ◌∷◌, ◌++◌, Some};
ghost use Rattle.exec_tree.specs.Exec.{Exec, Work, Execs, nodes, nodes_all, has, AreDistinct};
ghost use Rattle.trace_law.specs.Of.{number_of};
ghost use Rattle.trace_law.specs.Part.{Part};
ghost use Rattle.trace_law.specs.State.{stage_step};
ghost use Rattle.trace_law.specs.Next.{next};
ghost use Rattle.trace_law.specs.Offer.{IsOffered, offer, offer_by};
ghost use Rattle.trace_law.specs.Cells.{Cell, stage_of, next_by, AreKept};
ghost use Rattle.trace_law.specs.Coming.{came, Changes};
ghost use Rattle.trace_law.specs.Frames.{Stands, StandsAt, Goes};
ghost use Rattle.run_log.specs.declared.entry.Entry.{Entry};
ghost use Rattle.frame_law.specs.Executable.{executable_at};
ghost use Rattle.frame_law.specs.Onward.{Onward, Done, onward, brings};
ghost use Rattle.frame_law.specs.Way.{Follows, Writes, AreUnpicked, AreKeptBut, touched, along, Ran, blocks_after};

/// What comes in by an entry is told at its own node: by what the node is, and where the run goes on from it.
pub fn what_comes_in_at_a_node()
    ensures { (e : Exec) (x : Entry) (k : Onward) (m : ℕ) (c : ℕ → Cell) → number_of x ≡ Some m → came c e x (brings c k) ≡ came c (executable_at e m) x (brings c (onward e k m)) }
{}

/// Where an entry's own node has gone, where that is over the way up from it too, and no other cell is written, the frames of the whole tree have gone.
pub fn frames_go_up()
    ensures { (e : Exec) (t : List Entry) (x : Entry) (m : ℕ) (c c' : ℕ → Cell) → Follows c e t x m → AreUnpicked c' e → Writes c (executable_at e m) (onward e Done m) x c' → Goes c e x c' }
{}

/// Both together: the frames then stand for the run with the entry, and the nodes where it can go on have changed as the entry's own node tells.
pub fn frames_stand_by_a_node()
    ensures stands { (e : Exec) (t : List Entry) (x : Entry) (m : ℕ) (c c' : ℕ → Cell) → Follows c e t x m → AreUnpicked c' e → Writes c (executable_at e m) (onward e Done m) x c' → Stands c' e (t ++ x ∷ []) }
    ensures came { (e : Exec) (t : List Entry) (x : Entry) (m : ℕ) (c : ℕ → Cell) → Follows c e t x m → Changes (next e t) (next e (t ++ x ∷ [])) m (came c (executable_at e m) x (brings c (onward e Done m))) }
{}

/// Where a run can go on at a node, the node's own frame says so, and what the node does next.
pub fn a_node_does_what_its_frame_says()
    ensures next { (e : Exec) (t : List Entry) (m : ℕ) (c : ℕ → Cell) → AreDistinct (nodes e) → Part e t → Stands c e t → has (next e t) m ≡ true → has (next_by c (executable_at e m)) m ≡ true }
    ensures offer { (e : Exec) (t : List Entry) (m : ℕ) (c : ℕ → Cell) → AreDistinct (nodes e) → Part e t → Stands c e t → has (next e t) m ≡ true → offer e t m ≡ offer_by c (executable_at e m) m }
{}

/// An entry that goes on is what its own node does next, and the node can go on, by the node's own frame.
pub fn an_entry_is_what_its_node_does()
    ensures next { (e : Exec) (t : List Entry) (x : Entry) (m : ℕ) (c : ℕ → Cell) → Follows c e t x m → has (next_by c (executable_at e m)) m ≡ true }
    ensures offered { (e : Exec) (t : List Entry) (x : Entry) (m : ℕ) (c : ℕ → Cell) → Follows c e t x m → IsOffered (offer_by c (executable_at e m) m) m x }
    ensures workingstep { (e : Exec) (t : List Entry) (x : Entry) (m : ℕ) (c : ℕ → Cell) → Follows c e t x m → executable_at e m ≡ Work m → stage_step m (stage_of (c m)) x ≡ blocks_after x }
{}

/// Where nodes ns that lie apart from the way were written first, from c to d, and then the way was gone, from d to c', that is as if it were gone from c: what was
/// written first stays, and the way wrote and brings in the same.
pub fn the_way_is_gone_after()
    ensures stays { (d c' : ℕ → Cell) (ns : List ℕ) (k : Onward) → AreDistinct (ns ++ along k) → AreKeptBut d c' (touched d k) → AreKept d c' ns }
    ensures ran { (c d c' : ℕ → Cell) (ns : List ℕ) (k : Onward) → AreDistinct (ns ++ along k) → AreKeptBut c d ns → Ran d c' k → Ran c c' k }
    ensures kept { (c d c' : ℕ → Cell) (ns : List ℕ) (k : Onward) → AreDistinct (ns ++ along k) → AreKeptBut c d ns → AreKeptBut d c' (touched d k) → AreKeptBut c c' (ns ++ touched c k) }
    ensures same { (c d : ℕ → Cell) (ns : List ℕ) (k : Onward) → AreDistinct (ns ++ along k) → AreKeptBut c d ns → brings d k ≡ brings c k }
{}

/// Frames that stand still do where the cells of what they stand in are kept.
pub fn what_is_kept_stands()
    ensures whole { (e : Exec) (t : List Entry) (c c' : ℕ → Cell) → AreKept c c' (nodes e) → Stands c e t → Stands c' e t }
    ensures element { (es : Execs) (i : ℕ) (t : List Entry) (c c' : ℕ → Cell) → AreKept c c' (nodes_all es) → StandsAt c es i t → StandsAt c' es i t }
{}
