//! A machine controller that runs STEP-NC programs.
#![tactic(auto)]

mod counted_files;

use controller::{Status, top};
use counted_files::CountedFiles;
use nc_base::{NcText, NoMemory};
use nc_outside::{FreeGate, HostFiles, HostSink};
use std::process::ExitCode;
use std::{env, io, str};

/// The words after the program's name. Where one isn't UTF-8 there are none.
fn words_of(rt: HostRuntime) -> Result<Vec<NcText>, NoMemory> {
    let alloc = rt.alloc();
    let mut words = Vec::new(alloc);
    let arguments = match env::args(&rt) {
        Ok(arguments) => arguments,
        Err(e) if e.kind() == io::ErrorKind::OutOfMemory => return Err(NoMemory),
        Err(_) => return Ok(words),
    };
    for argument in arguments.skip(1) {
        words.push(NcText::of(alloc, argument.as_bytes())?)?;
    }
    Ok(words)
}

/// What a person calls the fourth word of a command that names a file by it: the log of a check, and else a schedule.
fn last_kind(words: &[NcText]) -> &'static str {
    match words {
        [command, ..] if command.bytes() == b"check".as_slice() => "log",
        _ => "schedule",
    }
}

/// What a person calls the file of a command that was the last of so many to be asked for, and its name: the project is the second word of
/// each command that reads one, its script, which is read behind it unless the word is a hyphen, the third, and its schedule or its log, which is
/// read last, the fourth.
fn file_asked(words: &[NcText], asked: u8) -> (&str, &str) {
    let (kind, name) = match (words, asked) {
        ([_, _, script, ..], 2) if script.bytes() != b"-".as_slice() => ("script", script),
        ([_, _, _, last, ..], 2 | 3) => (last_kind(words), last),
        ([_, project, ..], _) => ("project", project),
        _ => return ("project", "?"),
    };
    (kind, str::from_utf8(name.bytes()).unwrap_or("?"))
}

/// Says in one line on standard error what a person has to know beside the status and the refusal line, with what the host said of a file
/// that it could not read, the last of so many that were asked for. Whether that line can be written changes nothing.
fn tell(rt: HostRuntime, words: &[NcText], status: Status, asked: u8, said: Option<&io::Error>) {
    let _ = match status {
        Status::BadWords(_) => eprintln!(rt; "stepnc: `stepnc --help` shows the commands"),
        Status::ReadFault => {
            let (kind, name) = file_asked(words, asked);
            match said {
                Some(error) => {
                    eprintln!(rt; "stepnc: the {kind} file {name} could not be read: {error}")
                }
                None => eprintln!(rt; "stepnc: the {kind} file {name} could not be read"),
            }
        }
        Status::WriteFault => {
            eprintln!(rt; "stepnc: standard output could not take all that was to be written")
        }
        Status::NoMemory => eprintln!(rt; "stepnc: out of memory"),
        Status::Done
        | Status::Blocked
        | Status::RunLimit
        | Status::Written
        | Status::ProjectRefused(_)
        | Status::Illegal(_)
        | Status::LogRefused(_)
        | Status::ScriptRefused(_) => Ok(()),
    };
}

/// Does what the words ask for, with the host's files and standard output.
fn serve(rt: HostRuntime, words: &[NcText]) -> Result<Status, NoMemory> {
    let mut files = CountedFiles {
        files: HostFiles::new(&rt),
        asked: 0,
    };
    let mut sink = HostSink::new(rt.alloc(), io::writer(&rt))?;
    let mut status = top(&rt, words, &mut files, &mut sink, &FreeGate);
    if status != Status::WriteFault && sink.flush().is_err() {
        status = Status::WriteFault;
    }
    tell(rt, words, status, files.asked, files.files.said());
    Ok(status)
}

/// The status of the command in the program's words.
fn answer(rt: HostRuntime) -> Result<Status, NoMemory> {
    let words = words_of(rt)?;
    serve(rt, words.as_slice())
}

fn main(rt: HostRuntime) -> ExitCode {
    let status = match answer(rt) {
        Ok(status) => status,
        Err(NoMemory) => {
            tell(rt, &[], Status::NoMemory, 0, None);
            Status::NoMemory
        }
    };
    ExitCode::from(status.code())
}
