//! The channels of a schedule's text.

ghost use Rattle.std.specs.Prelude.{◌≡◌, ◌≤◌, ◌<◌, ◌⊎◌, ℕ, length, None, Some, All, IfOk, IfErr, IfSome};
ghost use Rattle.run_schedule.specs.Schedule.{channel_of, is_allowed, channels_in, first_bad};
ghost use Rattle.run_schedule.specs.declared.error.ScheduleErr.{ScheduleErr};

use crate::error::ScheduleErr;
use nc_base::NoMemory;
use std::alloc::Global;

/// How many bytes a schedule has at most, 16 MiB (this profile).
pub const MAX_SCHEDULE_BYTES: usize = 16_777_216;

/// The channel whose digit a byte is, if it is one.
fn channel_of(byte: u8) -> Option<u8>
    ensures { result ≡ channel_of byte }
{
    match byte {
        b'0'..=b'7' => Some(byte - b'0'),
        _ => None,
    }
}

/// Whether a schedule may hold a byte: a channel's digit, or a space, a tab, a carriage return or a line feed.
fn is_allowed(byte: u8) -> bool
    ensures { result ≡ is_allowed byte }
{
    matches!(byte, b'0'..=b'7' | b' ' | b'\t' | b'\r' | b'\n')
}

/// The place of the first byte that a schedule may not hold.
fn first_bad(bytes: &[u8]) -> Option<usize>
    ensures first { result ≡ first_bad bytes.now }
    ensures within { IfSome result (λ place. place < length bytes.now) }
{
    bytes.iter().position(|byte| !is_allowed(*byte))
}

/// The channels that have a turn each, in their order.
fn channels_in(alloc: Global, bytes: &[u8]) -> Result<Vec<u8>, NoMemory>
    ensures channels { IfOk result (λ channels. channels.items ≡ channels_in bytes.now) }
{
    Ok(
        bytes
            .iter()
            .filter_map(|byte| channel_of(*byte))
            .collect(alloc)?,
    )
}

/// The channels of a schedule's text, of at most `MAX_SCHEDULE_BYTES`, in their order: each digit gives its channel, 0 to 7, one turn, and blanks
/// (space, tab, carriage return, line feed) may stand anywhere (this profile).
///
/// # Errors
/// `BadByte` with the place of the first byte that is neither. Or `NoMemory`, where memory runs out.
pub fn read(alloc: Global, bytes: &[u8]) -> Result<Vec<u8>, ScheduleErr>
    requires { length bytes.now ≤ MAX_SCHEDULE_BYTES }
    ensures read { IfOk result (λ channels. (first_bad bytes.now ≡ None) × (channels.items ≡ channels_in bytes.now)) }
    ensures refused { IfErr result (λ e. (e ≡ ScheduleErr.NoMemory) ⊎ ((place : ℕ) × (first_bad bytes.now ≡ Some place) × (e ≡ ScheduleErr.BadByte place))) }
    ensures channels { IfOk result (λ channels. All (λ channel. channel < 8) channels.items) }
{
    if let Some(place) = first_bad(bytes) {
        return Err(ScheduleErr::BadByte(place as u32));
    }
    Ok(channels_in(alloc, bytes)?)
}
