//! The entries of some nodes, and what a node's own entries tell.

ghost use Rattle.std.specs.Prelude.{◌≡◌, ◌+◌, ◌<◌, ◌^◌, ◌-◌, [], None, true, IfOk, IfSome};
ghost use Rattle.std.specs.Option.{option_or};
ghost use Rattle.exec_tree.specs.Exec.{has};
ghost use Rattle.trace_law.specs.Of.{number_of, is_of, only};
ghost use Rattle.trace_law.specs.Own.{pick_of, test_of, picks};
ghost use Rattle.trace_law.specs.State.{stage_step, stage};
ghost use Rattle.trace_law.specs.Last.{is_end, goes_on_from, answer_from, body_from, last_from};

use nc_base::Number;
use run_log::Entry;
use std::alloc::{AllocError, Global};

/// The number of the entry's node, or none for an edit.
pub fn entry_number(x: &Entry) -> Option<Number>
    ensures { result ≡ number_of x.now }
{
    match *x {
        Entry::Dispatch { n, .. }
        | Entry::Block { n, .. }
        | Entry::End { n }
        | Entry::Pick { n, .. }
        | Entry::Test { n, .. }
        | Entry::Assign { n, .. }
        | Entry::Set { n }
        | Entry::Pass { n }
        | Entry::Note { n } => Some(n),
        Entry::Edit { .. } => None,
    }
}

/// Whether the number is one of these.
pub fn has_number(numbers: &[Number], n: Number) -> bool
    ensures { result ≡ has numbers.now n }
{
    numbers.iter().any(|m| *m == n)
}

/// Whether the entry is of one of the nodes with these numbers.
fn is_entry_of(numbers: &[Number], x: &Entry) -> bool
    ensures { result ≡ is_of numbers.now x.now }
{
    match entry_number(x) {
        None => false,
        Some(n) => has_number(numbers, n),
    }
}

/// The entries of the nodes with these numbers.
pub fn entries_of(alloc: Global, numbers: &[Number], t: &[Entry]) -> Result<Vec<Entry>, AllocError>
    ensures { IfOk result (λ v. v.items ≡ only numbers.now t.now) }
{
    let mut kept = Vec::new(alloc);
    for x in t {
        if is_entry_of(numbers, x) {
            kept.push(*x)?;
        }
    }
    Ok(kept)
}

/// The index, where the entry is a pick of `n`.
pub fn pick_of(n: Number, x: &Entry) -> Option<u32>
    ensures { result ≡ pick_of n x.now }
{
    match *x {
        Entry::Pick { n: m, k } => if m == n { Some(k) } else { None },
        _ => None,
    }
}

/// The answer, where the entry is a test of `n`.
pub fn test_of(n: Number, x: &Entry) -> Option<bool>
    ensures { result ≡ test_of n x.now }
{
    match *x {
        Entry::Test { n: m, yes } => if m == n { Some(yes) } else { None },
        _ => None,
    }
}

/// The picks of `n`.
pub fn picks(alloc: Global, n: Number, t: &[Entry]) -> Result<Vec<u32>, AllocError>
    ensures { IfOk result (λ v. v.items ≡ picks n t.now) }
{
    let mut ks = Vec::new(alloc);
    for x in t {
        if let Some(k) = pick_of(n, x) {
            ks.push(k)?;
        }
    }
    Ok(ks)
}

/// The last of the numbers.
pub fn last_number(ks: &[u32]) -> Option<u32>
    ensures { result ≡ last_from None ks.now }
{
    let mut last = None;
    for k in ks {
        last = Some(*k);
    }
    last
}

/// Whether the entry ends a workingstep.
fn is_end(x: &Entry) -> bool
    ensures { result ≡ is_end x.now }
{
    match *x {
        Entry::End { n: _ } => true,
        _ => false,
    }
}

/// Whether the last entry ends no workingstep.
pub fn goes_on(t: &[Entry]) -> bool
    ensures { result ≡ goes_on_from true t.now }
{
    let mut going = true;
    for x in t {
        going = !is_end(x);
    }
    going
}

/// The first answer where there is one, else the second.
fn first_some(first: Option<bool>, second: Option<bool>) -> Option<bool>
    ensures { result ≡ option_or first second }
{
    match first {
        Some(answer) => Some(answer),
        None => second,
    }
}

/// The answer of the last test of `n`.
pub fn answer_of(n: Number, t: &[Entry]) -> Option<bool>
    ensures { result ≡ answer_from n None t.now }
{
    let mut answer = None;
    for x in t {
        answer = first_some(test_of(n, x), answer);
    }
    answer
}

/// What follows the last test of `n`.
pub fn body_of(n: Number, t: &[Entry]) -> &[Entry]
    ensures { result.now ≡ body_from n [] t.now }
{
    let mut from = t.len();
    for i in 0..t.len() {
        if test_of(n, &t[i]).is_some() {
            from = i + 1;
        }
    }
    &t[from..]
}

/// How many blocks workingstep `n` has since its last dispatch, where it is open, after one more entry.
fn stage_step(n: Number, so_far: Option<usize>, entry: &Entry) -> Option<usize>
    requires { IfSome so_far (λ k. k < 2 ^ 64 - 1) }
    ensures { result ≡ stage_step n so_far entry.now }
{
    match *entry {
        Entry::Dispatch { n: m, v: _ } => if m == n { Some(0) } else { so_far },
        Entry::Block { n: m, k: _, b: _ } => if m == n {
            so_far.map(
                |j|
                    requires { j < 2 ^ 64 - 1 }
                { j + 1 },
            )
        } else {
            so_far
        },
        Entry::End { n: m } => if m == n { None } else { so_far },
        _ => so_far,
    }
}

/// How many blocks workingstep `n` has since its last dispatch, where it is open.
pub fn stage(t: &[Entry], n: Number) -> Option<usize>
    ensures { result ≡ stage n t.now }
{
    let mut so_far = None;
    for entry in t {
        so_far = stage_step(n, so_far, entry);
    }
    so_far
}
