//! Draws of a linear congruential generator.
ghost use Rattle.std.specs.Prelude.{◌≡◌, ◌<◌};
ghost use Rattle.option_model.specs.Generator.{draw, state_at};

use std::marker::Model;

// The multiplier and the increment of the generator, and the number of its states.
const MULTIPLIER: u64 = 1664525;

const INCREMENT: u64 = 1013904223;

const STATES: u64 = 4294967296;

// A generator of draws. Its model is its state.
#[derive(Drop)]
pub(crate) struct Draws {
    state: u32,
}

impl Model for Draws {
    ghost use Rattle.std.specs.Prelude.{ℕ};

    ghost Value = { ℕ };

    ghost view = { λ d. d.state };
}

impl Draws {
    // Returns the generator with this seed.
    pub(crate) fn new(seed: u32) -> Draws
        ensures { result ≡ seed }
    {
        Draws { state: seed }
    }

    // Returns the next draw: the upper 16 bits of the next state.
    pub(crate) fn draw(&mut self) -> u32
        ensures drawn { result ≡ draw self.old 0 }
        ensures state { self.new ≡ state_at self.old 1 }
        ensures short { result < 65536 }
    {
        let next = (MULTIPLIER * u64::from(self.state) + INCREMENT) % STATES;
        self.state = next as u32;
        self.state / 65536
    }
}
