//! The limits of the steps ahead, which are this profile's own.

/// How many channels have windows: those from 0 on below this.
pub const WINDOW_CHANNELS: u8 = 8;

/// The most steps that one channel has ahead.
pub const MAX_WINDOW: u32 = 4;

/// The most tickets: as many for each channel as it has steps ahead.
pub const MAX_TICKETS: usize = WINDOW_CHANNELS as usize * MAX_WINDOW as usize;
