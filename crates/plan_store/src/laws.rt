//! Laws of the steps ahead, as lists. Each function's contract is the law.

ghost use Rattle.std.specs.Prelude.{◌≡◌, ◌<◌, ◌++◌, ◌∷◌, [], ℕ, List};
ghost use Rattle.plan_store.specs.declared.limits.TheConstants.{WINDOW_CHANNELS};
ghost use Rattle.plan_store.specs.StepAhead.{StepAhead, window, placed, taken, changed, wanted};
ghost use Rattle.plan_store.specs.Windows.{AreWindows};

/// What each call does to the window of one channel, and that the windows tell all.
pub fn windows_move()
    ensures placed { (all : List StepAhead) (n c v : ℕ) → window (placed all n c v) c ≡ window all c ++ wanted n c v ∷ [] }
    ensures elsewhere { (all : List StepAhead) (n c v k : ℕ) → AreWindows all → (c ≡ k → ⊥) → window (placed all n c v) k ≡ window all k }
    ensures taken { (all : List StepAhead) (n k : ℕ) → window (taken all n) k ≡ taken (window all k) n }
    ensures changed { (all : List StepAhead) (n k : ℕ) (f : StepAhead → StepAhead) → ((a : StepAhead) → (f a).channel ≡ a.channel) → window (changed n f all) k ≡ changed n f (window all k) }
    ensures same { (xs ys : List StepAhead) → AreWindows xs → AreWindows ys → ((k : ℕ) → k < WINDOW_CHANNELS → window xs k ≡ window ys k) → xs ≡ ys }
{}
