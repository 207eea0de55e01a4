//! Files of which it is known how many were asked for.

ghost use Rattle.std.specs.Prelude.{◌≡◌};

use nc_base::NcText;
use nc_outside::{FileErr, Files};

/// Files, and how many of them were asked for so far: up to 255.
#[derive(Drop)]
pub struct CountedFiles<F: Files + Drop> {
    pub files: F,
    pub asked: u8,
}

impl<F: Files + Drop> Files for CountedFiles<F> {
    ghost holds = { λ c n. F.holds c.files n };

    ghost faults = { λ c n. F.faults c.files n };

    fn read(&mut self, name: &NcText, room: &mut Vec<u8>, most: u32) -> Result<(), FileErr> {
        self.asked = self.asked.saturating_add(1);
        self.files.read(name, room, most)
    }
}
