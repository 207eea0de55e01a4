//! What words mean, and that they have one answer, whatever reads them.

ghost use Rattle.std.specs.Prelude.{◌≡◌, ℕ, List, Option};
ghost use Rattle.controller.specs.declared.status.Status.{Status};
ghost use Rattle.controller.specs.Meaning.{Meaning, Mean};
ghost use Rattle.controller.specs.Asked.{IsRight};
ghost use Rattle.controller.specs.Told.{IsTold};

use edit_script::script_laws;
use log_check::a_log_has_one_answer;
use log_read::log_laws;
use project_read::project_laws;

/// Words mean one command with what it names, or are bad at one place: one of these, and never two. It does nothing.
pub fn word_laws()
    // all words mean something
    ensures some { (words : List (List ℕ)) → (meaning : Meaning) × Mean words meaning }
    // and one thing only
    ensures one { (words : List (List ℕ)) (m n : Meaning) → Mean words m → Mean words n → m ≡ n }
{}

/// The words, and what the files hold that they name, have one answer: the status and the text that are right for them are the only ones. Of words
/// that name a file this says something where it is told what the file holds. It does nothing.
pub fn answer_laws()
    ensures { (words : List (List ℕ)) (holds : List ℕ → Option (List ℕ)) (s t : Status) (x y : List ℕ)
        → IsTold words holds → IsRight words holds s x → IsRight words holds t y → (s ≡ t) × (x ≡ y) }
{
    word_laws();
    project_laws();
    script_laws();
    log_laws();
    a_log_has_one_answer();
}
