//! The generator of a load's numbers.

ghost use Rattle.std.specs.Prelude.{◌≡◌, ◌/◌, ◌^◌};
ghost use Rattle.load_calls.specs.Draws.{next_state, state_behind};

use std::marker::Model;

/// What a state is multiplied with (profile).
const FACTOR: u64 = 6_364_136_223_846_793_005;

/// What is added to it then (profile).
const STEP: u64 = 1_442_695_040_888_963_407;

/// A row of numbers that a seed begins, seen as its state.
#[derive(Drop)]
pub struct Draws {
    state: u64,
}

impl Model for Draws {
    ghost use Rattle.std.specs.Prelude.{ℕ};

    ghost Value = { ℕ };

    ghost view = { λ d. d.state };
}

impl Draws {
    /// The row that the seed begins, with so many numbers of it drawn.
    #[tactic(auto, using(crate::proofs::Rows::state_none, crate::proofs::Rows::state_more))]
    pub fn behind(seed: u32, count: u32) -> Draws
        ensures { result ≡ state_behind seed count }
    {
        let mut draws = Draws { state: seed as u64 };
        for _ in 0..count {
            draws.next();
        }
        draws
    }

    /// The next number, which is below 2^31.
    pub fn next(&mut self) -> u32
        ensures state { self.new ≡ next_state self.old }
        ensures number { result ≡ self.new / 2 ^ 33 }
    {
        self.state = self.state.wrapping_mul(FACTOR).wrapping_add(STEP);
        (self.state >> 33) as u32
    }
}
