//! The law of slices of a file.

ghost use Rattle.std.specs.Prelude.{ℕ, List, ◌++◌};
ghost use Rattle.p21_parse.specs.Tree.{InstanceTree, ExchangeTree};
ghost use Rattle.p21_parse.specs.Front.{IsFront, with_items};
ghost use Rattle.p21_slices.specs.Slices.{IsWhole};

/// Where the front of a file was read, and behind it a slice of whole instances, both together are the front of a file. It does nothing.
pub fn slice_laws()
    ensures { (front slice : List ℕ) (x : ExchangeTree) (items : List InstanceTree) → IsFront front x → IsWhole slice items → IsFront (front ++ slice) (with_items x items) }
{}
