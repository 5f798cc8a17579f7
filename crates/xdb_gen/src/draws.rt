ghost use Rattle.std.specs.Prelude.{◌≡◌, ◌<◌, ℕ};
ghost use Rattle.xdb_gen.specs.Draws.{next_state, drawn};

use std::marker::Model;

const MULTIPLIER: u64 = 1_664_525;

const INCREMENT: u64 = 1_013_904_223;

/// A linear congruential generator modulo 2^32, seen as its state.
#[derive(Debug, Drop)]
pub struct Draws {
    state: u32,
}

impl Model for Draws {
    ghost Value = { ℕ };

    ghost view = { λ d. d.state };
}

impl Draws {
    pub fn new(seed: u32) -> Self
        ensures { result ≡ seed }
    {
        Draws { state: seed }
    }

    /// A number below `most`, of the upper 16 bits of the next state.
    pub fn draw(&mut self, most: u32) -> u32
        requires { 0 < most }
        ensures state { self.new ≡ next_state self.old }
        ensures drawn { result ≡ drawn most self.new }
        ensures below { result < most }
    {
        self.state = next_state(self.state);
        self.state / 65_536 % most
    }
}

fn next_state(state: u32) -> u32
    ensures { result ≡ next_state state }
{
    let next = (u64::from(state) * MULTIPLIER + INCREMENT) % (1 << 32);
    next as u32
}
