ghost use Rattle.std.specs.Prelude.{◌≡◌, pos, negsuc, Some, None, true, false, [], ◌∷◌};
ghost use Rattle.nc_outside.specs.Outside.{Rose, Appends, AppendsFront};
ghost use Rattle.nc_outside.specs.MemoryState.{one_more, is_listed, share_a_count};
ghost use Rattle.path_blocks.specs.declared.block.Block.TheVariants as blocks;
ghost use Rattle.path_blocks.specs.declared.def.Shape.TheVariants as shapes;
ghost use Rattle.path_blocks.specs.Kind.{is_drill, is_plane, is_pocket};
ghost use Rattle.path_blocks.specs.Range.{is_within, is_course, fits_shape};
ghost use Rattle.path_blocks.specs.WithinPocket.{StaysWithin};

// Counts of faults, at the end of their type too, and what a sink has taken.
fn counts_and_taken_bytes()
    ensures rose { Rose 3 4 }
    ensures stayed { Rose 3 3 → ⊥ }
    ensures full { Rose 18446744073709551615 18446744073709551615 }
    ensures below_full { Rose 18446744073709551614 18446744073709551614 → ⊥ }
    ensures last { one_more 18446744073709551614 ≡ 18446744073709551615 }
    ensures end { one_more 18446744073709551615 ≡ 18446744073709551615 }
    ensures listed { is_listed (2 ∷ 0 ∷ []) 0 ≡ true }
    ensures unlisted { is_listed (2 ∷ 0 ∷ []) 1 ≡ false }
    ensures absent { share_a_count [] (65 ∷ []) (66 ∷ []) ≡ true }
    ensures appended { Appends (Some (1 ∷ [])) (Some (1 ∷ 2 ∷ [])) (2 ∷ []) }
    ensures lost { Appends (Some (1 ∷ [])) None [] → ⊥ }
    ensures other { Appends (Some (1 ∷ [])) (Some (1 ∷ 3 ∷ [])) (2 ∷ []) → ⊥ }
    ensures nothing { AppendsFront (Some []) (Some []) (2 ∷ []) }
{}

// The ranges of numbers and of shapes, at their ends.
fn ranges()
    ensures least { is_within (negsuc 199999999) ≡ true }
    ensures below { is_within (negsuc 200000000) ≡ false }
    ensures greatest { is_within (pos 200000000) ≡ true }
    ensures above { is_within (pos 200000001) ≡ false }
    ensures along_x { is_course (pos 1) (pos 0) ≡ true }
    ensures against_y { is_course (pos 0) (negsuc 0) ≡ true }
    ensures slanted { is_course (pos 1) (pos 1) ≡ false }
    ensures nowhere { is_course (pos 0) (pos 0) ≡ false }
    ensures no_unit { is_course (pos 2) (pos 0) ≡ false }
    ensures no_dwell { fits_shape (shapes.Drill (pos 0) (pos 0) (pos 0)) ≡ true }
    ensures dwell_before_now { fits_shape (shapes.Drill (pos 0) (pos 0) (negsuc 0)) ≡ false }
    ensures least_face { fits_shape (shapes.Plane (pos 0) (pos 0) (negsuc 0) (pos 0) (pos 1) (pos 1) (pos 1) true) ≡ true }
    ensures no_length { fits_shape (shapes.Plane (pos 0) (pos 0) (negsuc 0) (pos 0) (pos 0) (pos 1) (pos 1) true) ≡ false }
    ensures no_width { fits_shape (shapes.Plane (pos 0) (pos 0) (negsuc 0) (pos 0) (pos 1) (pos 0) (pos 1) true) ≡ false }
    ensures no_step { fits_shape (shapes.Plane (pos 0) (pos 0) (negsuc 0) (pos 0) (pos 1) (pos 1) (pos 0) true) ≡ false }
    ensures point { fits_shape (shapes.Pocket (pos 5) (pos 0) (pos 5) (pos 0) (pos 1)) ≡ true }
    ensures left_past_right { fits_shape (shapes.Pocket (pos 6) (pos 0) (pos 5) (pos 0) (pos 1)) ≡ false }
    ensures low_past_high { fits_shape (shapes.Pocket (pos 5) (pos 1) (pos 5) (pos 0) (pos 1)) ≡ false }
    ensures no_radial { fits_shape (shapes.Pocket (pos 5) (pos 0) (pos 5) (pos 0) (pos 0)) ≡ false }
{}

// Which shape is which, and where the feeds of a pocket from (0, 1) to (4, 3) with its bottom at -2 may go.
fn kinds_and_places()
    ensures drill { is_drill (shapes.Drill (pos 0) (pos 0) (pos 0)) ≡ true }
    ensures no_plane { is_plane (shapes.Drill (pos 0) (pos 0) (pos 0)) ≡ false }
    ensures no_pocket { is_pocket (shapes.Drill (pos 0) (pos 0) (pos 0)) ≡ false }
    ensures pocket { is_pocket (shapes.Pocket (pos 5) (pos 0) (pos 5) (pos 0) (pos 1)) ≡ true }
    ensures corner { StaysWithin (negsuc 1) (shapes.Pocket (pos 0) (pos 1) (pos 4) (pos 3) (pos 1)) (blocks.Feed (pos 4) (pos 1) (negsuc 1) (pos 40)) }
    ensures rapid { StaysWithin (negsuc 1) (shapes.Pocket (pos 0) (pos 1) (pos 4) (pos 3) (pos 1)) (blocks.Rapid (pos 9) (pos 9) (pos 9)) }
    ensures too_far { StaysWithin (negsuc 1) (shapes.Pocket (pos 0) (pos 1) (pos 4) (pos 3) (pos 1)) (blocks.Feed (pos 5) (pos 1) (negsuc 1) (pos 40)) → ⊥ }
    ensures too_low { StaysWithin (negsuc 1) (shapes.Pocket (pos 0) (pos 1) (pos 4) (pos 3) (pos 1)) (blocks.Feed (pos 4) (pos 0) (negsuc 1) (pos 40)) → ⊥ }
    ensures too_deep { StaysWithin (negsuc 1) (shapes.Pocket (pos 0) (pos 1) (pos 4) (pos 3) (pos 1)) (blocks.Feed (pos 4) (pos 1) (negsuc 2) (pos 40)) → ⊥ }
{}

#[test]
fn definitions_are_worked_out() {
    counts_and_taken_bytes();
    ranges();
    kinds_and_places();
}
