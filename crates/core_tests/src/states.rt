//! What the definitions say of the states of runs, of the values of their entries, and of how they end.

ghost use Rattle.std.specs.Prelude.{◌≡◌, Some, None, true, false, [], ◌∷◌, pos};
ghost use Rattle.path_blocks.specs.declared.block.Block.TheVariants.{Dwell};
ghost use Rattle.run_log.specs.declared.entry.Entry.TheVariants as entries;
ghost use Rattle.run_log.specs.declared.entry.Ending.TheVariants as endings;
ghost use Rattle.exec_tree.specs.Exec.{Work, Plan, None_left, Then};
ghost use Rattle.trace_law.specs.State.{is_open, stage};
ghost use Rattle.run_law.specs.Fits.{HasValues};
ghost use Rattle.run_law.specs.Endings.{EndsSo};
ghost use Rattle.run_law.specs.PlainRules.{plain_rules};

// What the entries of a run say of its state, which values the next entry may have, and how a run ends.
fn states_and_values()
    ensures closed { is_open 10 [] ≡ false }
    ensures open { is_open 10 (entries.Dispatch 10 0 ∷ entries.Block 10 0 (Dwell (pos 5)) ∷ []) ≡ true }
    ensures other { is_open 7 (entries.Dispatch 10 0 ∷ []) ≡ false }
    ensures ended { is_open 10 (entries.Dispatch 10 0 ∷ entries.End 10 ∷ []) ≡ false }
    ensures counted { stage 10 (entries.Dispatch 10 0 ∷ entries.Block 10 0 (Dwell (pos 5)) ∷ entries.Block 10 1 (Dwell (pos 5)) ∷ []) ≡ Some 2 }
    ensures anew { stage 10 (entries.Dispatch 10 0 ∷ entries.Block 10 0 (Dwell (pos 5)) ∷ entries.Dispatch 10 1 ∷ []) ≡ Some 0 }
    ensures version { HasValues (plain_rules (λ _. None) (Work 10)) [] (entries.Dispatch 10 1) → ⊥ }
    ensures block { HasValues (plain_rules (λ _. Some (Dwell (pos 5) ∷ [])) (Work 10)) [] (entries.Block 10 0 (Dwell (pos 5))) }
    ensures no_block { HasValues (plain_rules (λ _. Some (Dwell (pos 5) ∷ [])) (Work 10)) [] (entries.Block 10 1 (Dwell (pos 5))) → ⊥ }
    ensures early_end { HasValues (plain_rules (λ _. Some (Dwell (pos 5) ∷ [])) (Work 10)) (entries.Dispatch 10 0 ∷ []) (entries.End 10) → ⊥ }
    ensures empty_plan { EndsSo (plain_rules (λ _. None) (Plan (Some 2) None_left)) 1 [] endings.Done }
    ensures not_done { EndsSo (plain_rules (λ _. None) (Plan (Some 2) (Then (Work 10) None_left))) 1 (entries.Dispatch 10 0 ∷ []) endings.Done → ⊥ }
    ensures no_limit { EndsSo (plain_rules (λ _. None) (Plan (Some 2) (Then (Work 10) None_left))) 1 [] endings.Limit → ⊥ }
{}

#[test]
fn definitions_are_worked_out() {
    states_and_values();
}
