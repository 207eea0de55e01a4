//! Laws of what is found of a log. Each function's contract is the law.

ghost use Rattle.std.specs.Prelude.{◌≡◌, List};
ghost use Rattle.run_log.specs.declared.entry.Entry.{Entry};
ghost use Rattle.run_log.specs.declared.entry.Ending.{Ending};
ghost use Rattle.run_law.specs.Rules.{Rules};
ghost use Rattle.log_check.specs.Checked.{IsAnswer};
ghost use Rattle.log_check.specs.declared.answer.Answer.{Answer};

use run_law::laws::legal_runs;

/// A log with the ending that it names has one answer.
pub fn a_log_has_one_answer()
    ensures { (r : Rules) (t : List Entry) (ending : Ending) (a b : Answer) → IsAnswer r t ending a → IsAnswer r t ending b → a ≡ b }
{
    legal_runs();
}
