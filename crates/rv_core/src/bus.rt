//! What a hart reads from and writes to.

use soc_base::{Cause, Width};

/// What a bus answers to a load or a store.
#[derive(Clone, Copy, Debug, PartialEq, Eq)]
pub enum Answer {
    /// The access is done. A load's value stands here without extension; after a store it is 0.
    Done(u32),
    /// The access can't be done now. It may be tried again.
    Stall,
    /// The access can't be done at all.
    Fault(Cause),
}

/// What a hart reads from and writes to. An impl says by `answers` what its answers are, as functions of
/// its state; contracts of the code that runs on a bus speak of those.
pub trait Bus {
    ghost use Rattle.std.specs.Prelude.{IfSome, ◌≡◌, ◌<◌, ◌^◌};
    ghost use Rattle.rv_core.specs.Access.{BusMeaning, IsLoaded, IsStored, IsKeptUnlessDone};

    /// What the bus holds, as contracts see it.
    ghost State: { Type 0 };

    ghost state: { Self → State };

    /// What no access changes: the places that the bus borrows from, and whatever else it holds that
    /// no access reaches. An impl without either takes `Unit {0}`.
    ghost Kept: { Type 0 };

    ghost kept: { Self → Kept };

    ghost answers: { BusMeaning State };

    /// Answers the instruction word at `pc`, if there is one. Changes nothing.
    fn fetch(&self, pc: u32) -> Option<u32>
        ensures word { result ≡ answers.fetch (state self.now) pc }
        ensures bound { IfSome result (λ word. word < 2 ^ 32) };

    /// Loads from an address, which needs not be a multiple of the width.
    fn load(&mut self, addr: u32, width: Width) -> Answer
        ensures answer { result ≡ (answers.load (state self.old) addr width).0 }
        ensures state { state self.new ≡ (answers.load (state self.old) addr width).1 }
        ensures bound { IsLoaded width result }
        ensures refused { IsKeptUnlessDone result (state self.old) (state self.new) }
        ensures kept { kept self.new ≡ kept self.old };

    /// Stores the low bytes of a value at an address, which needs not be a multiple of the width.
    fn store(&mut self, addr: u32, width: Width, value: u32) -> Answer
        ensures answer { result ≡ (answers.store (state self.old) addr width value).0 }
        ensures state { state self.new ≡ (answers.store (state self.old) addr width value).1 }
        ensures bound { IsStored result }
        ensures refused { IsKeptUnlessDone result (state self.old) (state self.new) }
        ensures kept { kept self.new ≡ kept self.old };
}
