//! Tests of the controller: what it answers to words and files, how it reads and writes, what it finds of logs, and a long run compared whole.
#![tactic(auto)]

#[cfg(test)]
mod answers;
#[cfg(test)]
mod asked;
#[cfg(test)]
mod checks;
#[cfg(test)]
mod counted;
#[cfg(test)]
mod large_case;
#[cfg(test)]
mod long_run;
#[cfg(test)]
mod projects;
#[cfg(test)]
mod schedules;
#[cfg(test)]
mod scripts;
