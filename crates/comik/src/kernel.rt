//! The microkernel: the parts that are installed, and what is kept of them.

ghost use Rattle.std.specs.Prelude.{ℕ, ◌≡◌, ◌<◌, ◌^◌, ◌↔◌, IsTrue, IfOk};
ghost use Rattle.std.specs.Borrow.{sem};
ghost use Rattle.soc_base.specs.Frame.{IsFrame};
ghost use Rattle.comik.specs.Context.{word_at, fresh_context};
ghost use Rattle.comik.specs.Kernel.{fresh_kernel, frame_at, least_slot, IsInstalled, AreFree, IsBelow, IsKernel};
ghost use Rattle.comik.specs.Parts.{prepared, cleared};
ghost use Rattle.comik.specs.Switching.{context_of, LeavesOthers, StaysInStep};
ghost use Rattle.comik.specs.Lending.{LendsFile};

/// What the microkernel does at the offsets of an instance.
mod rows;

use crate::context::Context;
use crate::owner::{claim, free, is_free, without};
use crate::place::sizes;
use soc_base::{Frame, NoMemory};
use std::alloc::Global;
use std::marker::Model;

/// The microkernel of a tile: a register file, a frame for each part's words, the owners of the
/// partition slots, the part that is held (whose words are in the register file) and the next one.
/// The number of a part is the least of its partition slots.
#[derive(Drop)]
pub struct Kernel {
    times: Frame,
    file: Context,
    frames: Vec<Context>,
    owners: Vec<Option<u8>>,
    held: Option<u8>,
    next: Option<u8>,
}

impl Model for Kernel {
    ghost use Rattle.comik.specs.Kernel.{KernelState, IsKernel};

    ghost Value = { KernelState };

    ghost view = { λ k. record {
      times = k.times;
      file = k.file;
      frames = k.frames.items;
      owners = k.owners.items;
      held = k.held;
      next = k.next;
    } };

    ghost invariant = { λ k. IsKernel (record {
      times = k.times;
      file = k.file;
      frames = k.frames.items;
      owners = k.owners.items;
      held = k.held;
      next = k.next;
    }) };
}

impl Kernel {
    /// Makes a kernel in which no part is installed and every word is 0. It takes a frame of 33 words
    /// for each partition slot; `NoMemory` where there is none for them.
    pub fn new(alloc: Global, frame: Frame) -> Result<Kernel, NoMemory>
        ensures { IfOk result (λ k. k ≡ fresh_kernel frame) }
    {
        let slots = usize::from(frame.slots);
        let frames = Vec::from_elem(alloc, Context::new(0), slots)?;
        let owners = Vec::from_elem(alloc, None, slots)?;
        Ok(Kernel {
            times: frame,
            file: Context::new(0),
            frames,
            owners,
            held: None,
            next: None,
        })
    }

    // Installs a part.
    fn install(&mut self, slots: u16, entry: u32) -> u8
        requires some { 0 < slots }
        requires below { slots < 2 ^ self.old.times.slots }
        requires free { AreFree self.old slots }
        ensures part { result ≡ least_slot slots }
        ensures prepared { self.new ≡ prepared self.old slots entry }
        ensures valid { IsKernel self.old }
    {
        let part = slots.trailing_zeros() as u8;
        claim(self.owners.as_mut_slice(), slots, part);
        self.frames[usize::from(part)] = Context::new(entry);
        part
    }

    // Takes a part out.
    fn remove(&mut self, part: u8)
        requires { IsInstalled self.old part }
        ensures { self.new ≡ cleared self.old part }
    {
        free(self.owners.as_mut_slice(), part);
        self.frames[usize::from(part)] = Context::new(0);
        self.next = without(part, self.next);
        let was_held = self.held == Some(part);
        self.held = without(part, self.held);
        if was_held {
            self.file = Context::new(0);
        }
    }

    /// Installs a part with a set of partition slots, of which bit k is slot k, and answers its number,
    /// the least of them. The set has a slot, lies below the number of slots, and none of it is owned
    /// (`is_free`). The part's frame has pc at the entry and every other word 0.
    pub fn prepare(&mut self, slots: u16, entry: u32) -> u8
        requires some { 0 < slots }
        requires below { slots < 2 ^ self.old.times.slots }
        requires free { AreFree self.old slots }
        ensures part { result ≡ least_slot slots }
        ensures prepared { self.new ≡ prepared self.old slots entry }

        // the words of this part and of the others, before the cycle at any offset
        ensures own { (offset : ℕ) → context_of self.new offset result ≡ fresh_context entry }
        ensures others { LeavesOthers self.old result self.new }
        ensures step { StaysInStep self.old self.new }
    {
        self.install(slots, entry)
    }

    /// Takes an installed part out: it owns no slot any longer, its frame is zeroed, it isn't next, and
    /// where it was held the register file is zeroed and no part is held.
    pub fn clear(&mut self, part: u8)
        requires { IsInstalled self.old part }
        ensures cleared { self.new ≡ cleared self.old part }

        // the words of the other parts, before the cycle at any offset
        ensures others { LeavesOthers self.old part self.new }
        ensures step { StaysInStep self.old self.new }
    {
        self.remove(part);
    }

    /// Answers whether no partition slot of a set, of which bit k is slot k, is owned.
    pub fn is_free(&self, slots: u16) -> bool
        ensures { IsTrue result ↔ AreFree self.now slots }
    {
        let (_length, _slots) = sizes(&self.times);
        is_free(self.owners.as_slice(), slots)
    }

    /// Answers whether a part is installed.
    pub fn is_installed(&self, part: u8) -> bool
        ensures { IsTrue result ↔ IsInstalled self.now part }
    {
        let part = usize::from(part);
        part < self.owners.len() && self.owners[part] == Some(part as u8)
    }

    /// Answers the frame's times.
    pub fn frame(&self) -> Frame
        ensures times { result ≡ self.now.times }
        ensures valid { IsFrame result }
    {
        let (_length, _slots) = sizes(&self.times);
        self.times
    }

    /// Answers the part whose words are in the register file, if one is held.
    pub fn held(&self) -> Option<u8>
        ensures held { result ≡ self.now.held }
        ensures below { IsBelow self.now.times.slots result }
        ensures valid { IsKernel self.now }
    {
        self.held
    }

    /// Answers the latched part, which is held from the next swap on.
    pub fn latched(&self) -> Option<u8>
        ensures latched { result ≡ self.now.next }
        ensures below { IsBelow self.now.times.slots result }
    {
        self.next
    }

    /// Lends the register file. A part's cycle writes it, at offsets past the microkernel's.
    pub fn context(&mut self) -> &mut Context
        ensures lent { result.now ≡ self.old.file }
        ensures* written { sem 𝓛 (LendsFile self.entry result) }
    {
        &mut self.file
    }

    /// Answers word n of the register file, from 0 to 32.
    pub fn file_word(&self, n: u8) -> u32
        requires { n < 33 }
        ensures { result ≡ word_at self.now.file n }
    {
        self.file.word(n)
    }

    /// Answers word n, from 0 to 32, of frame k, from 0 to `slots - 1`.
    pub fn frame_word(&self, k: u8, n: u8) -> u32
        requires frame { k < self.now.times.slots }
        requires word { n < 33 }
        ensures { result ≡ word_at (frame_at self.now k) n }
    {
        self.frames[usize::from(k)].word(n)
    }
}
