//! Channels that have nothing to do.

ghost use Rattle.std.specs.Prelude.{◌≡◌, ◌⊎◌, ℕ, true, false};
ghost use Rattle.run_state.specs.State.{flag_at};

use std::marker::Model;

/// A flag for each of 8 channels: whether its last turn made nothing, and no entry was made since.
#[derive(Drop)]
pub struct IdleChannels {
    flags: [bool; 8],
}

impl Model for IdleChannels {
    ghost use Rattle.std.specs.Prelude.{List, Bool};

    ghost Value = { List Bool };

    ghost view = { λ i. i.flags };
}

impl IdleChannels {
    /// No channel has its flag.
    pub fn new() -> IdleChannels
        ensures { (c : ℕ) → flag_at result c ≡ false }
    {
        IdleChannels { flags: [false; 8] }
    }

    /// Whether a channel has its flag.
    pub fn has(&self, channel: u8) -> bool
        ensures { result ≡ flag_at self.now channel }
    {
        match self.flags.get(channel as usize) {
            Some(flag) => *flag,
            None => false,
        }
    }

    /// Gives a channel its flag, where it is one of the 8.
    pub fn put(&mut self, channel: u8)
        ensures { (c : ℕ) → flag_at self.new c ≡ true → (flag_at self.old c ≡ true) ⊎ (c ≡ channel) }
    {
        if channel < 8 {
            self.flags[channel as usize] = true;
        }
    }

    /// Takes all flags away.
    pub fn clear(&mut self)
        ensures { (c : ℕ) → flag_at self.new c ≡ false }
    {
        self.flags = [false; 8];
    }
}
