//! What bytes hold, whatever reads them.

ghost use Rattle.std.specs.Prelude.{◌≡◌, ℕ, List};
ghost use Rattle.project_read.specs.declared.reason.ProjectReason.{ProjectReason};
ghost use Rattle.project_read.specs.Holds.{Project, Holds};
ghost use Rattle.project_read.specs.Refuses.{Refuses};

use p21_parse::text_laws;

/// Bytes hold one project at most, and none where they are refused, and they are refused for one reason at most. It does nothing.
pub fn project_laws()
    ensures one { (bytes : List ℕ) (p q : Project) → Holds bytes p → Holds bytes q → p ≡ q }
    ensures apart { (bytes : List ℕ) (p : Project) (reason : ProjectReason) → Holds bytes p → Refuses bytes reason → ⊥ }
    ensures single { (bytes : List ℕ) (r s : ProjectReason) → Refuses bytes r → Refuses bytes s → r ≡ s }
{
    text_laws();
}
