//! The open step of each channel.

ghost use Rattle.std.specs.Prelude.{◌≡◌, ◌==◌, ◌<◌, ℕ, None, if◌then◌else◌, is_none, option_copied, IfOk};
ghost use Rattle.exec_tree.specs.declared.limits.TheConstants.{MAX_CHANNELS};
ghost use Rattle.run_state.specs.State.{slot_at, slot_after};

use exec_tree::MAX_CHANNELS;
use nc_base::{NoMemory, Number};
use path_blocks::Def;
use path_gen::Gen;
use run_log::Entry;
use std::alloc::Global;
use std::marker::Model;

/// A step that was dispatched and hasn't ended, and the path that it was dispatched with.
#[derive(Drop)]
pub struct OpenStep {
    pub step: Number,
    pub blocks: Gen,
}

/// The open step of each channel, where it has one.
#[derive(Drop)]
pub struct OpenSteps {
    slots: Vec<Option<OpenStep>>,
}

impl Model for OpenSteps {
    ghost use Rattle.std.specs.Prelude.{◌≡◌, length, List, Option};
    ghost use Rattle.exec_tree.specs.declared.limits.TheConstants.{MAX_CHANNELS};
    ghost use Rattle.run_state.specs.declared.open_steps.OpenStep.{OpenStep as OpenStepSeen};

    ghost Value = { List (Option OpenStepSeen) };

    ghost view = { λ o. o.slots.items };

    ghost invariant = { λ o. length o.slots.items ≡ MAX_CHANNELS };
}

/// The open step after an entry of its channel.
fn slot_after(def: Option<Def>, entry: &Entry, slot: Option<OpenStep>) -> Option<OpenStep>
    ensures { result ≡ slot_after def entry.now slot }
{
    match *entry {
        Entry::Dispatch { n, .. } => match def {
            Some(def) => Some(OpenStep {
                step: n,
                blocks: Gen::new(&def),
            }),
            None => None,
        },
        Entry::End { .. } => None,
        _ => slot,
    }
}

impl OpenSteps {
    /// No channel has an open step.
    pub fn new(alloc: Global) -> Result<OpenSteps, NoMemory>
        ensures { IfOk result (λ steps. (channel : ℕ) → slot_at steps channel ≡ None) }
    {
        let mut slots = Vec::with_capacity(alloc, MAX_CHANNELS as usize)?;
        for channel in 0..MAX_CHANNELS {
            slots.push(None)?;
        }
        Ok(OpenSteps { slots })
    }

    /// The open step of a channel.
    pub fn at(&self, channel: u8) -> Option<&OpenStep>
        ensures { option_copied result ≡ slot_at self.now channel }
    {
        match self.slots.get(channel as usize) {
            Some(slot) => slot.as_ref(),
            None => None,
        }
    }

    /// Whether a channel has no open step.
    pub fn is_idle(&self, channel: u8) -> bool
        ensures { result ≡ is_none (slot_at self.now channel) }
    {
        self.at(channel).is_none()
    }

    /// Goes on with an entry of a channel, in which a step is dispatched with this definition.
    pub fn follow(&mut self, channel: u8, entry: &Entry, def: Option<Def>)
        requires { channel < MAX_CHANNELS }
        ensures { (c : ℕ) → slot_at self.new c ≡ (if c == channel then slot_after def entry.now (slot_at self.old c) else slot_at self.old c) }
    {
        let slot = self.slots[channel as usize].take();
        self.slots[channel as usize] = slot_after(def, entry, slot);
    }
}
