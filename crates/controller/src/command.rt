//! The commands, as the words of a command line give them.

ghost use Rattle.std.specs.Prelude.{◌≡◌, ◌<◌, ◌≤◌, ℕ, List, length, slice_get, true, false, codes, MatchResult, option_map, Ok};
ghost use Rattle.std.specs.Str.{bytes_eq};
ghost use Rattle.controller.specs.Numerals.{value_of};
ghost use Rattle.controller.specs.Words.{is_limit, is_step, is_steps, is_start, is_name};
ghost use Rattle.controller.specs.Commands.{HasWord, has_word, Ask};

use crate::numerals::{count_of, number_of};
use big_case::MAX_STEPS;
use nc_base::{MAX_NUMBER, NcText, Number};
use run_log::MAX_ENTRIES;

/// How many digits a limit of entries has at most.
pub const LIMIT_DIGITS: usize = 7;

/// How many digits the number of an instance has at most.
pub const NUMBER_DIGITS: usize = 10;

/// How many digits each of the two numbers of a large case has at most.
pub const CASE_DIGITS: usize = 7;

/// The largest number from which on a large case is drawn (this profile).
pub const MAX_START: u32 = 9_999_999;

/// What the words of a command ask for.
#[derive(Clone, Copy)]
pub enum Command<'a> {
    /// To run the project in this file and the script that a word names under the schedule that another names, up to so many entries of the log.
    Replay {
        project: &'a NcText,
        script: &'a NcText,
        schedule: &'a NcText,
        limit: u32,
    },
    /// To show the path of this workingstep of the project in this file.
    Path {
        project: &'a NcText,
        step: Number,
    },
    /// To run the large case of so many workingsteps, drawn from this start on, and count its log.
    Big {
        steps: u32,
        start: u32,
    },
    /// To judge the log in one file by the project in another and the script that a word names.
    Check {
        project: &'a NcText,
        script: &'a NcText,
        log: &'a NcText,
    },
    /// To say which commands there are.
    Help,
    /// To say which program this is.
    Version,
}

/// The word at a place, counted from 0.
fn word_at(words: &[NcText], place: u32) -> Option<&NcText>
    ensures { option_map (λ word. word.now) result ≡ slice_get words.now place }
{
    let place = place as usize;
    if place < words.len() {
        Some(&words[place])
    } else {
        None
    }
}

/// Whether this word stands at a place.
fn is_at(words: &[NcText], place: u32, word: &[u8]) -> bool
    ensures { result ≡ has_word words.now place (bytes_eq word.now) }
{
    match word_at(words, place) {
        Some(found) => word == found.bytes(),
        None => false,
    }
}

/// The file name at a place, which has at least one byte.
///
/// # Errors
/// The place, where no file name stands there.
fn name_at(words: &[NcText], place: u32) -> Result<&NcText, u32>
    ensures { MatchResult result (λ name. HasWord words.now place is_name name.now) (λ bad. (bad ≡ place) × (has_word words.now place is_name ≡ false)) }
{
    match word_at(words, place) {
        Some(name) if !name.is_empty() => Ok(name),
        _ => Err(place),
    }
}

/// The limit of entries at a place: 1 to `MAX_ENTRIES`.
///
/// # Errors
/// The place, where no limit stands there.
fn limit_at(words: &[NcText], place: u32) -> Result<u32, u32>
    ensures { MatchResult result (λ limit. (w : List ℕ) × HasWord words.now place is_limit w × (limit ≡ value_of w)) (λ bad. (bad ≡ place) × (has_word words.now place is_limit ≡ false)) }
{
    match word_at(words, place) {
        Some(word) => count_of(word.bytes(), LIMIT_DIGITS, MAX_ENTRIES).ok_or(place),
        None => Err(place),
    }
}

/// The number of an instance at a place: 1 to `MAX_NUMBER`.
///
/// # Errors
/// The place, where no such number stands there.
fn step_at(words: &[NcText], place: u32) -> Result<Number, u32>
    ensures { MatchResult result (λ step. (w : List ℕ) × HasWord words.now place is_step w × (step ≡ value_of w)) (λ bad. (bad ≡ place) × (has_word words.now place is_step ≡ false)) }
{
    match word_at(words, place) {
        Some(word) => count_of(word.bytes(), NUMBER_DIGITS, MAX_NUMBER).ok_or(place),
        None => Err(place),
    }
}

/// How many workingsteps a large case has, at a place: 1 to `MAX_STEPS`.
///
/// # Errors
/// The place, where no such number stands there.
fn steps_at(words: &[NcText], place: u32) -> Result<u32, u32>
    ensures { MatchResult result (λ steps. (w : List ℕ) × HasWord words.now place is_steps w × (steps ≡ value_of w)) (λ bad. (bad ≡ place) × (has_word words.now place is_steps ≡ false)) }
{
    match word_at(words, place) {
        Some(word) => count_of(word.bytes(), CASE_DIGITS, MAX_STEPS).ok_or(place),
        None => Err(place),
    }
}

/// The number from which on a large case is drawn, at a place: 0 to `MAX_START`.
///
/// # Errors
/// The place, where no such number stands there.
fn start_at(words: &[NcText], place: u32) -> Result<u32, u32>
    ensures { MatchResult result (λ start. (w : List ℕ) × HasWord words.now place is_start w × (start ≡ value_of w)) (λ bad. (bad ≡ place) × (has_word words.now place is_start ≡ false)) }
{
    match word_at(words, place) {
        Some(word) => number_of(word.bytes(), CASE_DIGITS, MAX_START).ok_or(place),
        None => Err(place),
    }
}

/// Sees that the words end before a place.
///
/// # Errors
/// The place, where a word stands there.
fn end_at(words: &[NcText], place: u32) -> Result<(), u32>
    ensures { MatchResult result (λ _. length words.now ≤ place) (λ bad. (bad ≡ place) × (place < length words.now)) }
{
    if words.len() <= place as usize {
        Ok(())
    } else {
        Err(place)
    }
}

/// What words ask for whose first is `replay`.
fn replay_of(words: &[NcText]) -> Result<Command<'_>, u32>
    requires { has_word words.now 0 (bytes_eq (codes "replay")) ≡ true }
    ensures { Ask words.now result }
{
    let project = name_at(words, 1)?;
    let script = name_at(words, 2)?;
    let schedule = name_at(words, 3)?;
    let limit = limit_at(words, 4)?;
    end_at(words, 5)?;
    Ok(Command::Replay {
        project,
        script,
        schedule,
        limit,
    })
}

/// What words ask for whose first is `path`.
fn path_of(words: &[NcText]) -> Result<Command<'_>, u32>
    requires { has_word words.now 0 (bytes_eq (codes "path")) ≡ true }
    ensures { Ask words.now result }
{
    let project = name_at(words, 1)?;
    let step = step_at(words, 2)?;
    end_at(words, 3)?;
    Ok(Command::Path { project, step })
}

/// What words ask for whose first is `big`.
fn big_of(words: &[NcText]) -> Result<Command<'_>, u32>
    requires { has_word words.now 0 (bytes_eq (codes "big")) ≡ true }
    ensures { Ask words.now result }
{
    let steps = steps_at(words, 1)?;
    let start = start_at(words, 2)?;
    end_at(words, 3)?;
    Ok(Command::Big { steps, start })
}

/// What words ask for whose first is `check`.
fn check_of(words: &[NcText]) -> Result<Command<'_>, u32>
    requires { has_word words.now 0 (bytes_eq (codes "check")) ≡ true }
    ensures { Ask words.now result }
{
    let project = name_at(words, 1)?;
    let script = name_at(words, 2)?;
    let log = name_at(words, 3)?;
    end_at(words, 4)?;
    Ok(Command::Check {
        project,
        script,
        log,
    })
}

/// What words ask for whose first is `--help`.
fn help_of(words: &[NcText]) -> Result<Command<'_>, u32>
    requires { has_word words.now 0 (bytes_eq (codes "--help")) ≡ true }
    ensures { Ask words.now result }
{
    end_at(words, 1)?;
    Ok(Command::Help)
}

/// What words ask for whose first is `--version`.
fn version_of(words: &[NcText]) -> Result<Command<'_>, u32>
    requires { has_word words.now 0 (bytes_eq (codes "--version")) ≡ true }
    ensures { Ask words.now result }
{
    end_at(words, 1)?;
    Ok(Command::Version)
}

/// What the words ask for.
///
/// # Errors
/// The place at which they are bad: the least place up to which, that place included, they begin no line of the table of commands;
/// where they end too early, it is their number.
pub fn command_of(words: &[NcText]) -> Result<Command<'_>, u32>
    ensures { Ask words.now result }
{
    if is_at(words, 0, b"replay") {
        replay_of(words)
    } else if is_at(words, 0, b"path") {
        path_of(words)
    } else if is_at(words, 0, b"big") {
        big_of(words)
    } else if is_at(words, 0, b"check") {
        check_of(words)
    } else if is_at(words, 0, b"--help") {
        help_of(words)
    } else if is_at(words, 0, b"--version") {
        version_of(words)
    } else {
        Err(0)
    }
}
