//! The generator of a workload's numbers, a linear congruential one.

ghost use Rattle.std.specs.Prelude.{◌≡◌, ◌/◌};
ghost use Rattle.workload.specs.Draws.{next_state, state_after, drawn};

use crate::drawn::Drawn;

/// A generator, by its state, any number of 32 bits.
#[derive(Debug, Drop)]
pub struct Draws {
    state: u32,
}

impl Draws {
    /// Makes the generator of a workload's number.
    pub fn new(number: u32) -> Draws
        ensures { result.state ≡ number }
    {
        Draws { state: number }
    }

    /// Draws a number from 0 to 65535.
    pub fn draw(&mut self) -> u32
        ensures state { self.new.state ≡ next_state self.old.state }
        ensures upper { result ≡ self.new.state / 65536 }
    {
        self.state = self
            .state
            .wrapping_mul(1_664_525)
            .wrapping_add(1_013_904_223);
        self.state / 65_536
    }

    /// Draws the seven numbers of a load. They are those of the first load of the workload whose number is the state.
    #[tactic(auto, unfolding(soc_base::specs::Steps::after_steps))]
    pub fn load(&mut self) -> Drawn
        ensures drawn { result ≡ drawn self.old.state 1 1 }
        ensures state { self.new.state ≡ state_after self.old.state 7 }
    {
        let tile = self.draw() % 16;
        let hops = 1 + self.draw() % 3;
        let slot = self.draw() % 4;
        let there = self.draw() % 8;
        let back = self.draw() % 8;
        let words = 4 + self.draw() % 60;
        let offset = self.draw() % 4096;
        Drawn {
            tile: tile as u8,
            hops: hops as u8,
            slot: slot as u8,
            there: there as u8,
            back: back as u8,
            words: words as u8,
            offset: offset as u16,
        }
    }
}
