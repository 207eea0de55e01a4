//! The front of a file, and the slices behind it.

ghost use Rattle.std.specs.Prelude.{◌≡◌, ◌≤◌, ◌<◌, ◌+◌, ◌++◌, All, Ok, length, map, take, IfOk, IfSome};
ghost use Rattle.std.specs.List.{AllByRecursion};
ghost use Rattle.p21_lex.specs.Reading.{IsToken};
ghost use Rattle.p21_lex.specs.Tokens.{tokens_of};
ghost use Rattle.p21_parse.specs.View.{instance_of, exchange_of};
ghost use Rattle.p21_parse.specs.Front.{IsFront};
ghost use Rattle.p21_slices.specs.Slices.{IsWhole};

use nc_base::NoMemory;
use p21_join::{ends_in_semicolon, last_is_semicolon};
use p21_lex::{LexErr, MAX_TEXT, Token, TokenKind, slice_tokens, tokens};
use p21_parse::{Exchange, InstanceList, MAX_INSTANCES, ReadErr, instances, read};
use std::alloc::Global;

/// The most bytes of a file that is read slice by slice: with an end put behind it, it is a text still.
pub const MAX_FILE: usize = MAX_TEXT as usize - END_BYTES;

/// How many bytes a slice has at least, where the text has so many: enough that a slice's own costs don't matter, and few enough that its tokens
/// and trees stay in a processor's cache.
const LEAST: u32 = 65_536;

/// The word before the instances.
const DATA: &[u8] = b"DATA";

/// What ends a file.
const END: &[u8] = b"ENDSEC;END-ISO-10303-21;";

/// How many bytes that has.
const END_BYTES: usize = 24;

/// How many tokens end a file.
const END_TOKENS: usize = 4;

/// The front of a file: its header, as an exchange without instances, and how many bytes it has, up to and with `DATA;`.
#[derive(Drop)]
pub struct Front {
    pub exchange: Exchange,
    pub len: usize,
}

/// The tokens of bytes that have some.
fn listed(alloc: Global, bytes: &[u8]) -> Result<Option<Vec<Token>>, NoMemory>
    requires { length bytes.now ≤ MAX_TEXT }
    ensures exact { IfOk result (λ r. IfSome r (λ v. tokens_of bytes.now ≡ Ok v.items)) }
    ensures inside { IfOk result (λ r. IfSome r (λ v. AllByRecursion (IsToken bytes.now) v.items)) }
{
    match tokens(alloc, bytes) {
        Ok(found) => Ok(Some(found)),
        Err(LexErr::NoMemory) => Err(NoMemory),
        Err(_) => Ok(None),
    }
}

/// The instances of a slice with these tokens, if it is made of whole ones.
fn whole(alloc: Global, slice: &[u8], found: &[Token]) -> Result<Option<InstanceList>, NoMemory>
    requires short { length slice.now ≤ MAX_TEXT }
    requires exact { tokens_of slice.now ≡ Ok found.now }
    requires inside { AllByRecursion (IsToken slice.now) found.now }
    ensures { IfOk result (λ r. IfSome r (λ items. IsWhole slice.now (map instance_of items))) }
{
    if !ends_in_semicolon(slice) || !last_is_semicolon(found) {
        return Ok(None);
    }
    match instances(alloc, slice, found, 0, MAX_INSTANCES as u32) {
        Ok((items, next)) => {
            if next as usize != found.len() {
                return Ok(None);
            }
            Ok(Some(items))
        }
        Err(ReadErr::NoMemory) => Err(NoMemory),
        Err(_) => Ok(None),
    }
}

/// The instances of a slice, if it is made of whole ones.
fn slice_of(alloc: Global, slice: &[u8]) -> Result<Option<InstanceList>, NoMemory>
    requires { length slice.now ≤ MAX_TEXT }
    ensures { IfOk result (λ r. IfSome r (λ items. IsWhole slice.now (map instance_of items))) }
{
    match listed(alloc, slice)? {
        Some(found) => whole(alloc, slice, found.as_slice()),
        None => Ok(None),
    }
}

/// The tokens of a text's first slice and how many bytes it has, if it has tokens.
fn sliced(alloc: Global, bytes: &[u8]) -> Result<Option<(Vec<Token>, usize)>, NoMemory>
    requires { length bytes.now ≤ MAX_TEXT }
    ensures exact { IfOk result (λ r. IfSome r (λ slice. tokens_of (take slice.1 bytes.now) ≡ Ok slice.0.items)) }
    ensures inside { IfOk result (λ r. IfSome r (λ slice. All (IsToken (take slice.1 bytes.now)) slice.0.items)) }
    ensures within { IfOk result (λ r. IfSome r (λ slice. slice.1 ≤ length bytes.now)) }
    ensures filled { 0 < length bytes.now → IfOk result (λ r. IfSome r (λ slice. 0 < slice.1)) }
{
    match slice_tokens(alloc, bytes, LEAST) {
        Ok((found, len)) => Ok(Some((found, len as usize))),
        Err(LexErr::NoMemory) => Err(NoMemory),
        Err(_) => Ok(None),
    }
}

/// Where the instances among these tokens end: behind a semicolon that a word follows, as an instance begins with a name. Nothing rests on
/// it: what stands before and behind is read.
fn instances_end(found: &[Token]) -> Option<u32> {
    for pair in found.windows(2) {
        if pair[0].kind == TokenKind::Semicolon && pair[1].kind == TokenKind::Word {
            return Some(pair[0].end);
        }
    }
    None
}

/// Whole instances at the front of a text that goes on from there, and how many bytes they have: a slice, or what stands before the end of
/// the file in it.
pub fn next_slice(alloc: Global, bytes: &[u8]) -> Result<Option<(InstanceList, usize)>, NoMemory>
    requires { length bytes.now ≤ MAX_TEXT }
    ensures whole { IfOk result (λ r. IfSome r (λ slice. IsWhole (take slice.1 bytes.now) (map instance_of slice.0))) }
    ensures within { IfOk result (λ r. IfSome r (λ slice. slice.1 ≤ length bytes.now)) }
    ensures filled { IfOk result (λ r. IfSome r (λ slice. 0 < slice.1)) }
{
    let Some((found, len)) = sliced(alloc, bytes)? else {
        return Ok(None);
    };
    if let Some(end) = instances_end(found.as_slice()) {
        let len = len.min(end as usize);
        return match slice_of(alloc, &bytes[..len])? {
            Some(items) => Ok(Some((items, len))),
            None => Ok(None),
        };
    }
    match whole(alloc, &bytes[..len], found.as_slice())? {
        Some(items) => Ok(Some((items, len))),
        None => Ok(None),
    }
}

/// Where the front among these tokens ends: behind the word `DATA` and a semicolon. Nothing rests on it either.
fn data_end(slice: &[u8], found: &[Token]) -> Option<u32> {
    for pair in found.windows(2) {
        if pair[1].kind == TokenKind::Semicolon
            && slice.get(pair[0].start as usize..pair[0].end as usize) == Some(DATA)
        {
            return Some(pair[1].end);
        }
    }
    None
}

/// How many bytes the front of a text has, up to and with `DATA;`.
fn front_len(alloc: Global, bytes: &[u8]) -> Result<Option<usize>, NoMemory>
    requires { length bytes.now ≤ MAX_TEXT }
    ensures { IfOk result (λ r. IfSome r (λ len. len ≤ length bytes.now)) }
{
    let mut at = 0;
    while at < bytes.len() {
        let Some((found, len)) = sliced(alloc, &bytes[at..])? else {
            return Ok(None);
        };
        let end = at + len;
        if let Some(data) = data_end(&bytes[at..end], found.as_slice()) {
            return Ok(Some(end.min(at + data as usize)));
        }
        at = end;
    }
    Ok(None)
}

/// The exchange of the front and the end of a file, if they are so.
fn begin(alloc: Global, front: &[u8], end: &[u8]) -> Result<Option<Exchange>, NoMemory>
    requires { length front.now + length end.now ≤ MAX_TEXT }
    ensures front { IfOk result (λ r. IfSome r (λ x. IsFront front.now (exchange_of x))) }
    ensures few { IfOk result (λ r. IfSome r (λ x. length (exchange_of x).items ≤ MAX_INSTANCES)) }
{
    let Some(first) = listed(alloc, front)? else {
        return Ok(None);
    };
    if !ends_in_semicolon(front) || !last_is_semicolon(first.as_slice()) {
        return Ok(None);
    }
    let Some(last) = listed(alloc, end)? else {
        return Ok(None);
    };
    if last.len() != END_TOKENS {
        return Ok(None);
    }
    let mut text = Vec::from_slice(alloc, front)?;
    text.extend_from_slice(end)?;
    match read(alloc, text.as_slice()) {
        Ok(exchange) => Ok(Some(exchange)),
        Err(ReadErr::NoMemory) => Err(NoMemory),
        Err(_) => Ok(None),
    }
}

/// The front of a file, if the text begins with one. It is read with an end put behind it, as a file without instances.
pub fn front_of(alloc: Global, bytes: &[u8]) -> Result<Option<Front>, NoMemory>
    requires { length bytes.now ≤ MAX_FILE }
    ensures front { IfOk result (λ r. IfSome r (λ front. IsFront (take front.len bytes.now) (exchange_of front.exchange))) }
    ensures few { IfOk result (λ r. IfSome r (λ front. length (exchange_of front.exchange).items ≤ MAX_INSTANCES)) }
    ensures within { IfOk result (λ r. IfSome r (λ front. front.len ≤ length bytes.now)) }
{
    let Some(len) = front_len(alloc, bytes)? else {
        return Ok(None);
    };
    match begin(alloc, &bytes[..len], END)? {
        Some(exchange) => Ok(Some(Front { exchange, len })),
        None => Ok(None),
    }
}
