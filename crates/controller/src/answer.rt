//! What the program answers to words, and how it says so.

ghost use Rattle.std.specs.Prelude.{◌≡◌, ◌+◌, ◌≤◌, ◌<◌, ◌^◌, ◌++◌, OnOk, OnErr};
ghost use Rattle.nc_outside.specs.Outside.{Rose, Appends, AppendsFront};
ghost use Rattle.path_blocks.specs.Path.{path_of};
ghost use Rattle.run_log.specs.BlocksText.{blocks_text};
ghost use Rattle.run_log.specs.LogText.{text_of};
ghost use Rattle.controller.specs.Texts.{bad_words_line, legal_line, illegal_line};
ghost use Rattle.controller.specs.Answer.{answer_text, answer_status};

use crate::counting::{Counts, counts_line};
use crate::refusal::{log_line, refusal_line, script_line};
use crate::status::{LogReason, ScriptReason, Status};
use nc_base::{Line, put, put_number};
use nc_outside::{Failed, Sink, put_all};
use path_blocks::Plan;
use project_read::ProjectReason;
use run_log::{Ending, Log};

/// What the program answers, before it is written.
#[derive(Drop)]
pub enum Answer {
    /// The words are bad at this place.
    BadWords(u32),
    /// Which commands there are.
    Help,
    /// Which program this is.
    Version,
    /// The project is refused.
    Refused(ProjectReason),
    /// The script or the schedule is refused.
    ScriptRefused(ScriptReason),
    /// The project ran so.
    Ran(Log, Ending),
    /// The workingstep has this path.
    Shown(Plan),
    /// The large case of so many workingsteps, drawn from this start on, ran so.
    Counted {
        steps: u32,
        start: u32,
        ending: Ending,
        counts: Counts,
    },
    /// The log is legal with this ending.
    Legal(Ending),
    /// The log is illegal at this place.
    Illegal(u32),
    /// The file of the log holds none.
    LogRefused(LogReason),
}

/// Why there is no answer.
#[derive(Clone, Copy, Debug, PartialEq, Eq)]
pub enum Stop {
    /// A file that the words name could not be read.
    ReadFault,
    /// Memory ran out.
    NoMemory,
}

/// Which commands there are.
const HELP: &[u8] = b"stepnc runs a STEP-NC project and writes its run log.\n\
    \n  \
    stepnc replay PROJECT SCRIPT SCHEDULE LIMIT\n      \
    runs the project in the file PROJECT, up to LIMIT entries (1 to 2000000);\n      \
    SCRIPT is a file of edits that are judged on the way, or -;\n      \
    SCHEDULE is a file that says which channel has the next turn, or -\n  \
    stepnc path PROJECT STEP\n      \
    writes the path of workingstep STEP, one block a line\n  \
    stepnc big STEPS START\n      \
    makes a project of STEPS workingsteps (1 to 1000) and a script of edits, drawn\n      \
    from START (0 to 9999999) on, runs them, and writes what their log counts\n  \
    stepnc check PROJECT SCRIPT LOG\n      \
    says whether the file LOG holds a legal run of the project and the script\n  \
    stepnc --help\n      \
    writes this text\n  \
    stepnc --version\n      \
    writes the version\n\
    \n\
    For example: stepnc replay examples/drilled_hole.stp - - 100\n\
    \n\
    Exit status: 0 done or written, 1 blocked, 2 stopped at the limit, 3 bad words,\n\
    4 project refused, 5 script or schedule refused, 6 log illegal or refused,\n\
    7 file not read, 8 output not taken, 9 out of memory.\n";

/// Which program this is.
const VERSION: &[u8] = b"stepnc 0.1.0\n";

/// The line of words that are bad at a place.
fn bad_words(place: u32) -> Line
    ensures { result.items ≡ bad_words_line place }
{
    let mut line = Line::new();
    put(&mut line, b"refused BadWords");
    put_number(&mut line, place);
    put(&mut line, b"\n");
    line
}

/// The line of a log that is legal with this ending.
fn legal_line(ending: Ending) -> &'static [u8]
    ensures { result.now ≡ legal_line ending }
{
    match ending {
        Ending::Done => b"legal done\n".as_slice(),
        Ending::Blocked => b"legal blocked\n",
        Ending::Limit => b"legal limit\n".as_slice(),
    }
}

/// The line of a log that is illegal at a place.
fn illegal_line(place: u32) -> Line
    ensures { result.items ≡ illegal_line place }
{
    let mut line = Line::new();
    put(&mut line, b"illegal");
    put_number(&mut line, place);
    put(&mut line, b"\n");
    line
}

/// Writes a log.
fn put_log<S: Sink>(log: &Log, ending: Ending, sink: &mut S) -> Result<(), Failed>
    ensures counted { S.faults sink.old ≤ S.faults sink.new }
    ensures ok { OnOk result (Appends (S.taken sink.old) (S.taken sink.new) (text_of log.now ending)) }
    ensures failed { OnErr result (Rose (S.faults sink.old) (S.faults sink.new)) }
    ensures failed_takes_front { OnErr result (AppendsFront (S.taken sink.old) (S.taken sink.new) (text_of log.now ending)) }
{
    run_log::write(log, ending, sink).map_err(|_| Failed)
}

/// Writes the blocks of a path.
fn put_path<S: Sink>(plan: &Plan, sink: &mut S) -> Result<(), Failed>
    ensures counted { S.faults sink.old ≤ S.faults sink.new }
    ensures ok { OnOk result (Appends (S.taken sink.old) (S.taken sink.new) (blocks_text (path_of plan.now))) }
    ensures failed { OnErr result (Rose (S.faults sink.old) (S.faults sink.new)) }
    ensures failed_takes_front { OnErr result (AppendsFront (S.taken sink.old) (S.taken sink.new) (blocks_text (path_of plan.now))) }
{
    run_log::write_blocks(plan.blocks(), sink).map_err(|_| Failed)
}

impl Answer {
    /// The status of the answer, once it is written.
    pub fn status(&self) -> Status
        ensures { result ≡ answer_status self.now }
    {
        match self {
            Answer::BadWords(place) => Status::BadWords(*place),
            Answer::Help
            | Answer::Version
            | Answer::Shown(_)
            | Answer::Counted { .. }
            | Answer::Legal(_) => Status::Written,
            Answer::Refused(reason) => Status::ProjectRefused(*reason),
            Answer::ScriptRefused(reason) => Status::ScriptRefused(*reason),
            Answer::Ran(_, Ending::Done) => Status::Done,
            Answer::Ran(_, Ending::Blocked) => Status::Blocked,
            Answer::Ran(_, Ending::Limit) => Status::RunLimit,
            Answer::Illegal(place) => Status::Illegal(*place),
            Answer::LogRefused(reason) => Status::LogRefused(*reason),
        }
    }

    /// Writes the answer. It takes no memory.
    pub fn write<S: Sink>(&self, sink: &mut S) -> Result<(), Failed>
        ensures counted { S.faults sink.old ≤ S.faults sink.new }
        ensures ok { OnOk result (Appends (S.taken sink.old) (S.taken sink.new) (answer_text self.now)) }
        ensures failed { OnErr result (Rose (S.faults sink.old) (S.faults sink.new)) }
        ensures failed_takes_front { OnErr result (AppendsFront (S.taken sink.old) (S.taken sink.new) (answer_text self.now)) }
    {
        match self {
            Answer::BadWords(place) => put_all(sink, bad_words(*place).as_slice()),
            Answer::Help => put_all(sink, HELP),
            Answer::Version => put_all(sink, VERSION),
            Answer::Refused(reason) => put_all(sink, refusal_line(*reason).as_slice()),
            Answer::ScriptRefused(reason) => put_all(sink, script_line(*reason).as_slice()),
            Answer::Ran(log, ending) => put_log(log, *ending, sink),
            Answer::Shown(plan) => put_path(plan, sink),
            Answer::Counted {
                steps,
                start,
                ending,
                counts,
            } => put_all(
                sink,
                counts_line(*steps, *start, *ending, *counts).as_slice(),
            ),
            Answer::Legal(ending) => put_all(sink, legal_line(*ending)),
            Answer::Illegal(place) => put_all(sink, illegal_line(*place).as_slice()),
            Answer::LogRefused(reason) => put_all(sink, log_line(*reason).as_slice()),
        }
    }
}
