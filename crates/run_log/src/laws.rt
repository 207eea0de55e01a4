//! Laws of log texts. Each function's contract is the law, and its body is empty.

ghost use Rattle.std.specs.Prelude.{◌≡◌, ℕ, List, [], ◌++◌, length};
ghost use Rattle.run_log.specs.declared.entry.Entry.{Entry};
ghost use Rattle.run_log.specs.declared.entry.Ending.{Ending};
ghost use Rattle.run_log.specs.LinesFrom.{AreLines, text_from};
ghost use Rattle.run_log.specs.LogText.{first_line, line_after, last_line, text_of};

/// A text in lines is of one list of entries and one ending, where each line tells its entry to whoever knows those before it.
pub fn texts_are_apart()
    ensures { (line : List Entry → Entry → List ℕ) (last : List Entry → Ending → List ℕ) (t u : List Entry) (d e : Ending)
        → AreLines line last → text_from line last [] t d ≡ text_from line last [] u e → (t ≡ u) × (d ≡ e) }
{}

/// A log's text is its first line and such a text: the last line is told with all entries, of which it has the number.
pub fn log_is_in_lines()
    ensures { (t : List Entry) (e : Ending) → text_of t e ≡ first_line ++ text_from line_after (λ before ending. last_line ending (length before)) [] t e }
{}
