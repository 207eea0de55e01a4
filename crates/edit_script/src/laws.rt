//! What texts hold, whatever reads them.

ghost use Rattle.std.specs.Prelude.{◌≡◌, ℕ, List};
ghost use Rattle.edit_script.specs.declared.error.ScriptErr.{ScriptErr};
ghost use Rattle.edit_script.specs.Edits.{EditModel};
ghost use Rattle.edit_script.specs.Reads.{Holds, Refuses};

use p21_lex::reading_laws;

/// A text holds one script at most, and none where it is refused, and it is refused for one reason at most. It does nothing.
pub fn script_laws()
    ensures one { (bytes : List ℕ) (p q : List EditModel) → Holds bytes p → Holds bytes q → p ≡ q }
    ensures apart { (bytes : List ℕ) (p : List EditModel) (e : ScriptErr) → Holds bytes p → Refuses bytes e → ⊥ }
    ensures single { (bytes : List ℕ) (e f : ScriptErr) → Refuses bytes e → Refuses bytes f → e ≡ f }
{
    reading_laws();
}
