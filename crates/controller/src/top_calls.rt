//! The top calls: all that the program does.

ghost use Rattle.std.specs.Prelude.{◌≡◌, ℕ, ◌≤◌, List};
ghost use Rattle.controller.specs.Answered.{Serves};
ghost use Rattle.controller.specs.Outside.{outside};
ghost use Rattle.controller.specs.Told.{IsComplete};
ghost use Rattle.controller.specs.Calls.{AnswersOrStops, IsPut};
ghost use Rattle.controller.specs.Words.{NameNoFile};

use crate::answer::{Answer, Stop};
use crate::checking::check_files;
use crate::command::{Command, command_of};
use crate::large_case::count_case;
use crate::laws::word_laws;
use crate::replaying::replay_files;
use crate::showing::show_file;
use crate::status::Status;
use edit_script::script_laws;
use log_check::a_log_has_one_answer;
use log_read::log_laws;
use nc_base::NcText;
use nc_outside::{Files, Gate, Sink};
use project_read::project_laws;
use std::alloc::Global;

/// The answer to the words.
fn answer_to<F: Files>(alloc: Global, words: &[NcText], files: &mut F) -> Result<Answer, Stop>
    ensures kept { (n : List ℕ) → F.holds files.new n ≡ F.holds files.old n }
    ensures counted { (n : List ℕ) → F.faults files.old n ≤ F.faults files.new n }
    ensures untouched { NameNoFile words.now → files.new ≡ files.old }
    ensures answer { AnswersOrStops words.now (F.holds files.old) (F.faults files.old) (F.faults files.new) result }
{
    match command_of(words) {
        Ok(
            Command::Replay {
                project,
                script,
                schedule,
                limit,
            },
        ) => replay_files(alloc, project, script, schedule, limit, files),
        Ok(Command::Path { project, step }) => show_file(alloc, project, step, files),
        Ok(Command::Big { steps, start }) => count_case(alloc, steps, start),
        Ok(
            Command::Check {
                project,
                script,
                log,
            },
        ) => check_files(alloc, project, script, log, files),
        Ok(Command::Help) => Ok(Answer::Help),
        Ok(Command::Version) => Ok(Answer::Version),
        Err(place) => Ok(Answer::BadWords(place)),
    }
}

/// Writes an answer, and says its status.
fn say<S: Sink>(answer: &Answer, sink: &mut S) -> Status
    ensures counted { S.faults sink.old ≤ S.faults sink.new }
    ensures said { IsPut (S.taken sink.old) (S.taken sink.new) (S.faults sink.old) (S.faults sink.new) answer.now result }
{
    if answer.write(sink).is_err() {
        return Status::WriteFault;
    }
    answer.status()
}

/// Does what the words ask for.
fn serve<F: Files, S: Sink>(alloc: Global, words: &[NcText], files: &mut F, sink: &mut S) -> Status
    ensures { Serves words.now (outside F.holds F.faults S.taken S.faults files.old sink.old) (outside F.holds F.faults S.taken S.faults files.new sink.new) result }
{
    match answer_to(alloc, words, files) {
        Ok(answer) => say(&answer, sink),
        Err(Stop::ReadFault) => Status::ReadFault,
        Err(Stop::NoMemory) => Status::NoMemory,
    }
}

/// Does what the words ask for: it needs neither threads nor a wait, and always returns. What it answers and has written is right for the
/// words and the files: of a project and a script of edits the log of their run under the schedule, which is a legal run, and of a log whether it is one. Where the words and the files that they
/// name are good, and neither they nor the sink failed, a replay is written whole, and its status says how the run ends, unless memory ran out.
pub fn quick<F: Files, S: Sink>(
    alloc: Global,
    words: &[NcText],
    files: &mut F,
    sink: &mut S,
) -> Status
    ensures serves { Serves words.now (outside F.holds F.faults S.taken S.faults files.old sink.old) (outside F.holds F.faults S.taken S.faults files.new sink.new) result }
    ensures complete { IsComplete words.now (outside F.holds F.faults S.taken S.faults files.old sink.old) (outside F.holds F.faults S.taken S.faults files.new sink.new) result }
{
    word_laws();
    project_laws();
    script_laws();
    log_laws();
    a_log_has_one_answer();
    serve(alloc, words, files, sink)
}

/// All that the program does. No command needs threads yet, so `quick` serves each, and the gate is never passed.
pub fn top<R: AllocGlobal, F: Files, S: Sink, G: Gate>(
    rt: &R,
    words: &[NcText],
    files: &mut F,
    sink: &mut S,
    _gate: &G,
) -> Status
    ensures serves { Serves words.now (outside F.holds F.faults S.taken S.faults files.old sink.old) (outside F.holds F.faults S.taken S.faults files.new sink.new) result }
    ensures complete { IsComplete words.now (outside F.holds F.faults S.taken S.faults files.old sink.old) (outside F.holds F.faults S.taken S.faults files.new sink.new) result }
{
    quick(rt.alloc(), words, files, sink)
}
