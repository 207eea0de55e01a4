//! Laws of log texts. Each function's contract is the law, and its body is empty.

ghost use Rattle.std.specs.Prelude.{◌≡◌, ℕ, true, List};
ghost use Rattle.std.specs.List.{list_all};
ghost use Rattle.run_log.specs.declared.entry.Entry.{Entry};
ghost use Rattle.run_log.specs.declared.entry.Ending.{Ending};
ghost use Rattle.run_log.specs.LogText.{text_of};
ghost use Rattle.log_read.specs.declared.error.LogErr.{LogErr};
ghost use Rattle.log_read.specs.Apart.{AreApart};
ghost use Rattle.log_read.specs.Format.{Format, Front, Leaves};
ghost use Rattle.log_read.specs.LogReads.{log_format, IsTextOf, IsRefused};
ghost use Rattle.log_read.specs.Range.{is_in_range};

/// A text is of one log and one ending, however long the log is, where each number is in its range.
pub fn one_log_for_one_text()
    ensures { (t u : List Entry) (d e : Ending) → list_all is_in_range t ≡ true → list_all is_in_range u ≡ true → text_of t d ≡ text_of u e → (t ≡ u) × (d ≡ e) }
{}

/// The lines of a log are told apart by their bytes.
pub fn log_lines_are_apart()
    ensures { AreApart log_format }
{}

/// Where lines can be told apart, a text has one place at which it leaves their format: the lines up to there, and the rest.
pub fn a_text_leaves_its_format_once()
    ensures { (f : Format Entry Ending) (bytes : List ℕ) (a b : Front Entry Ending) (r s : List ℕ)
        → AreApart f → Leaves f bytes a r → Leaves f bytes b s → (a ≡ b) × (r ≡ s) }
{}

/// A text is of one log and one ending at most, of none where it is refused, and it is refused for one reason at most.
pub fn log_laws()
    ensures one { (bytes : List ℕ) (t u : List Entry) (d e : Ending) → IsTextOf bytes t d → IsTextOf bytes u e → (t ≡ u) × (d ≡ e) }
    ensures apart { (bytes : List ℕ) (t : List Entry) (d : Ending) (e : LogErr) → IsTextOf bytes t d → IsRefused bytes e → ⊥ }
    ensures single { (bytes : List ℕ) (e f : LogErr) → IsRefused bytes e → IsRefused bytes f → e ≡ f }
{}
