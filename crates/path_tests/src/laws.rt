ghost use Rattle.std.specs.Prelude.{◌≡◌, ℕ, Some, None, [], ◌∷◌, pos};
ghost use Rattle.path_blocks.specs.declared.block.Block.TheVariants.{Dwell};
ghost use Rattle.run_log.specs.declared.entry.Entry.TheVariants.{Dispatch, Block, End};
ghost use Rattle.exec_tree.specs.Exec.{Work, Plan, None_left, Then};
ghost use Rattle.trace_law.specs.Whole.{Whole};
ghost use Rattle.trace_law.specs.Part.{Part};
ghost use Rattle.trace_law.specs.Next.{next};

// Step 10 with one block, and then step 7 without any, as elements of workplan 2: where the run goes on, and that it is whole.
fn two_steps_in_order()
    ensures begins { next (Plan (Some 2) (Then (Work 10) (Then (Work 7) None_left))) [] ≡ 10 ∷ [] }
    ensures goes_on { next (Plan (Some 2) (Then (Work 10) (Then (Work 7) None_left))) (Dispatch 10 0 ∷ []) ≡ 10 ∷ [] }
    ensures second { next (Plan (Some 2) (Then (Work 10) (Then (Work 7) None_left))) (Dispatch 10 0 ∷ Block 10 0 (Dwell (pos 5)) ∷ End 10 ∷ []) ≡ 7 ∷ [] }
    ensures whole { Whole (Plan (Some 2) (Then (Work 10) (Then (Work 7) None_left))) (Dispatch 10 0 ∷ Block 10 0 (Dwell (pos 5)) ∷ End 10 ∷ Dispatch 7 0 ∷ End 7 ∷ []) }
    ensures empty { Whole (Plan None None_left) [] }
{}

// A block left out, a second step before the first has ended, the steps turned round, an entry of no step: none is a run.
fn no_runs()
    ensures gap { Whole (Work 10) (Dispatch 10 0 ∷ Block 10 1 (Dwell (pos 5)) ∷ End 10 ∷ []) → ⊥ }
    ensures early { Part (Plan (Some 2) (Then (Work 10) (Then (Work 7) None_left))) (Dispatch 10 0 ∷ Dispatch 7 0 ∷ []) → ⊥ }
    ensures turned { Part (Plan (Some 2) (Then (Work 10) (Then (Work 7) None_left))) (Dispatch 7 0 ∷ End 7 ∷ Dispatch 10 0 ∷ []) → ⊥ }
    ensures stranger { Part (Plan (Some 2) (Then (Work 10) (Then (Work 7) None_left))) (Dispatch 9 0 ∷ []) → ⊥ }
{}

#[test]
fn runs_of_a_plan() {
    two_steps_in_order();
    no_runs();
}
