//! Draws of a linear congruential generator, which are the same on every machine.

ghost use Rattle.std.specs.Prelude.{◌≡◌, ◌+◌, ◌≤◌, ◌/◌, ◌%◌};
ghost use Rattle.big_case.specs.Draws.{next_state, state_after, draw, step_from, revision_from};

use crate::step::{Kind, Revision, Step};

/// The state of the generator between two draws.
#[derive(Drop)]
pub struct Draws {
    pub state: u32,
}

impl Draws {
    /// Draws on: the next state, without its low bits.
    fn draw(&mut self) -> u32
        ensures state { self.new.state ≡ next_state self.old.state }
        ensures value { result ≡ self.new.state / 65536 }
    {
        let next = u64::from(self.state) * 1_103_515_245 + 12_345;
        self.state = (next % 2_147_483_648) as u32;
        self.state / 65_536
    }

    /// The next depth, 1 to 50.
    fn depth(&mut self) -> u32
        ensures state { self.new.state ≡ next_state self.old.state }
        ensures value { result ≡ 1 + draw self.old.state 0 % 50 }
    {
        1 + self.draw() % 50
    }

    /// The next workingstep.
    pub fn step(&mut self) -> Step
        ensures state { self.new.state ≡ state_after self.old.state 4 }
        ensures step { result ≡ step_from self.old.state }
    {
        let kind = match self.draw() % 3 {
            0 => Kind::Hole,
            1 => Kind::Pocket,
            _ => Kind::Face,
        };
        let x = self.draw() % 1_000;
        let y = self.draw() % 1_000;
        let depth = self.depth();
        Step { kind, x, y, depth }
    }

    /// The next revision of one of so many workingsteps.
    pub fn revision(&mut self, steps: u32) -> Revision
        requires { 1 ≤ steps }
        ensures state { self.new.state ≡ state_after self.old.state 2 }
        ensures revision { result ≡ revision_from steps self.old.state }
    {
        let step = self.draw() % steps;
        let depth = self.depth();
        Revision { step, depth }
    }
}
