//! How a command ended.

ghost use Rattle.std.specs.Prelude.{◌≡◌};
ghost use Rattle.controller.specs.Codes.{code_of};

use edit_script::ScriptErr;
use project_read::ProjectReason;

/// Why a script or a schedule is refused.
#[derive(Clone, Copy, Debug, PartialEq, Eq)]
pub enum ScriptReason {
    /// The script or the schedule has more than 16,777,216 bytes.
    TooLong,
    /// The script's text holds no script, for this reason. Want of memory is none of the reasons.
    Script(ScriptErr),
    /// The place of the first byte that a schedule may not hold: a byte offset from 0.
    Schedule(u32),
}

/// Why a file that a check names holds no log.
#[derive(Clone, Copy, Debug, PartialEq, Eq)]
pub enum LogReason {
    /// It has more than 268,435,456 bytes.
    TooLong,
    /// The first line, counted from 1, that isn't in its place.
    BadLine(u32),
    /// Every line is in its place, and none is the last one.
    NoEnd,
}

/// How a command ended.
#[derive(Clone, Copy, Debug, PartialEq, Eq)]
pub enum Status {
    /// The whole project ran, and its log is written.
    Done,
    /// Wherever the run could go on, it waits for a mark that isn't set, and its log is written.
    Blocked,
    /// The log has as many entries as the words let it have, the run could go on, and the log is written.
    RunLimit,
    /// What the words asked for is written.
    Written,
    /// The words aren't a line of the table: with them up to this place, counted from 0, none begins.
    BadWords(u32),
    /// The project is refused.
    ProjectRefused(ProjectReason),
    /// The script or the schedule is refused.
    ScriptRefused(ScriptReason),
    /// The log is no legal run with the ending that it names: the place, counted from 0, of the first entry that doesn't fit those before it, or
    /// the number of the entries where only the ending is wrong.
    Illegal(u32),
    /// The file of the log holds none.
    LogRefused(LogReason),
    /// A file that the words name could not be read. Nothing is written.
    ReadFault,
    /// The sink failed. It has a front of what was to be written.
    WriteFault,
    /// Memory ran out. Nothing is written.
    NoMemory,
}

impl Status {
    /// The exit status of the program, 0 to 9.
    pub fn code(&self) -> u8
        ensures { result ≡ code_of self.now }
    {
        match self {
            Status::Done | Status::Written => 0,
            Status::Blocked => 1,
            Status::RunLimit => 2,
            Status::BadWords(_) => 3,
            Status::ProjectRefused(_) => 4,
            Status::ScriptRefused(_) => 5,
            Status::Illegal(_) | Status::LogRefused(_) => 6,
            Status::ReadFault => 7,
            Status::WriteFault => 8,
            Status::NoMemory => 9,
        }
    }
}
