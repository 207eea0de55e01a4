//! Why files gave no answer of their own.

ghost use Rattle.std.specs.Prelude.{◌≡◌};
ghost use Rattle.controller.specs.Calls.{answer_without};

use crate::answer::{Answer, Stop};
use crate::status::{LogReason, ScriptReason};
use project_read::ProjectReason;

/// Why a file gave nothing.
#[derive(Clone, Copy, Debug, PartialEq, Eq)]
pub enum Unheld {
    /// It holds no project.
    Refused(ProjectReason),
    /// It is no script, or no schedule.
    ScriptRefused(ScriptReason),
    /// It holds no log.
    LogRefused(LogReason),
    /// What it holds isn't known: it could not be read, or memory ran out.
    Stopped(Stop),
}

impl Unheld {
    /// The answer where a file gave nothing, or why there is no answer.
    pub fn answer(self) -> Result<Answer, Stop>
        ensures { result ≡ answer_without self }
    {
        match self {
            Unheld::Refused(reason) => Ok(Answer::Refused(reason)),
            Unheld::ScriptRefused(reason) => Ok(Answer::ScriptRefused(reason)),
            Unheld::LogRefused(reason) => Ok(Answer::LogRefused(reason)),
            Unheld::Stopped(stop) => Err(stop),
        }
    }
}
