//! What the microkernel does at the offsets of an instance: the latch at 0, the words saved at 0 to 32,
//! the swap at 33, the words restored at 33 to 65, and nothing from 66 on.

ghost use Rattle.std.specs.Prelude.{◌≡◌, ◌<◌, ◌≤◌, ◌+◌, ◌-◌, ◌==◌, if◌then◌else◌, IfSome};
ghost use Rattle.soc_base.specs.Frame.{IsFrame};
ghost use Rattle.comik.specs.Context.{IsContext};
ghost use Rattle.comik.specs.Kernel.{IsBelow, frame_at};
ghost use Rattle.comik.specs.Table.{saved, restored, latched, swapped, saved_words, restored_words};
ghost use Rattle.comik.specs.Table.{kernel_row, kernel_rows, kernel_cycle};
ghost use Rattle.comik.specs.Switching.{HasWords, KeepsOver};

use crate::kernel::Kernel;
use soc_base::instance_of;

/// Word n of a context is copied at offset n where it is saved, and at offset `SWAP + n` where it is
/// restored.
const SWAP: u32 = 33;
/// The offset from which on the microkernel does nothing.
const STILL: u32 = 66;

impl Kernel {
    // Writes word n of the register file to the frame of the part that is held.
    fn save(&mut self, n: u8)
        requires { n < 33 }
        ensures { self.new ≡ saved self.old n }
    {
        if let Some(part) = self.held {
            self.frames[usize::from(part)].copy_word(&self.file, n);
        }
    }

    // Reads word n of the register file from the frame of the part that is held.
    fn restore(&mut self, n: u8)
        requires { n < 33 }
        ensures { self.new ≡ restored self.old n }
    {
        if let Some(part) = self.held {
            self.file.copy_word(&self.frames[usize::from(part)], n);
        }
    }

    // Makes the part that owns a partition slot the next, at offset 0.
    fn latch(&mut self, served: u8, offset: u32)
        requires { served < self.old.times.slots }
        ensures { self.new ≡ (if offset == 0 then latched self.old served else self.old) }
    {
        if offset == 0 {
            self.next = self.owners[usize::from(served)];
        }
    }

    // Holds the next part, at offset 33.
    fn swap(&mut self, offset: u32)
        ensures { self.new ≡ (if offset == 33 then swapped self.old else self.old) }
    {
        if offset == SWAP {
            self.held = self.next;
        }
    }

    /// Does what the table says for an offset, in cycles, of an instance that serves a partition slot,
    /// from 0 to `slots - 1`.
    #[tactic(auto, unfolding(crate::specs::Table::kernel_row))]
    pub fn row(&mut self, served: u8, offset: u32)
        requires { served < self.old.times.slots }
        ensures { self.new ≡ kernel_row self.old served offset }
    {
        if offset < SWAP {
            self.latch(served, offset);
            self.save(offset as u8);
        } else if offset < STILL {
            self.swap(offset);
            self.restore((offset - SWAP) as u8);
        }
    }

    // Writes the words `first` to `end - 1` of the register file to the frame of the part that is held.
    #[tactic(auto, using(crate::proofs::Stretches::words_saved, crate::proofs::Stretches::none_saved))]
    fn save_words(&mut self, first: u8, end: u8)
        requires order { first ≤ end }
        requires within { end ≤ 33 }
        ensures { self.new ≡ saved_words self.old first (end - first) }
    {
        if let Some(part) = self.held {
            self.frames[usize::from(part)].copy_words(&self.file, first, end);
        }
    }

    // Reads the words `first` to `end - 1` of the register file from the frame of the part that is held.
    #[tactic(auto, using(crate::proofs::Stretches::words_restored, crate::proofs::Stretches::none_restored))]
    fn restore_words(&mut self, first: u8, end: u8)
        requires order { first ≤ end }
        requires within { end ≤ 33 }
        ensures { self.new ≡ restored_words self.old first (end - first) }
    {
        if let Some(part) = self.held {
            self.file
                .copy_words(&self.frames[usize::from(part)], first, end);
        }
    }

    // Does the rows for `count` offsets below 33.
    fn save_rows(&mut self, served: u8, offset: u32, count: u32)
        requires served { served < self.old.times.slots }
        requires within { 0 < count → offset + count ≤ 33 }
        ensures { self.new ≡ kernel_rows self.old served offset count }
    {
        if count == 0 {
            return;
        }
        self.latch(served, offset);
        self.save_words(offset as u8, (offset + count) as u8);
    }

    // Does the rows for `count` offsets from 33 to 65.
    fn restore_rows(&mut self, served: u8, offset: u32, count: u32)
        requires past { 0 < count → 33 ≤ offset }
        requires within { 0 < count → offset + count ≤ 66 }
        ensures { self.new ≡ kernel_rows self.old served offset count }
    {
        if count == 0 {
            return;
        }
        self.swap(offset);
        let first = offset - SWAP;
        self.restore_words(first as u8, (first + count) as u8);
    }

    /// Does what the table says for `count` successive offsets, in cycles, of an instance that serves a
    /// partition slot, from 0 to `slots - 1`: the same as so many calls of `row`, in one.
    pub fn rows(&mut self, served: u8, offset: u32, count: u32)
        requires { served < self.old.times.slots }
        ensures { self.new ≡ kernel_rows self.old served offset count }
    {
        let saves = count.min(SWAP.saturating_sub(offset));
        self.save_rows(served, offset, saves);
        let restores = (count - saves).min(STILL.saturating_sub(offset + saves));
        self.restore_rows(served, offset + saves, restores);
    }

    // Does the row for a cycle.
    fn advance(&mut self, cycle: u64)
        ensures row { self.new ≡ kernel_cycle self.old cycle }
        ensures valid { IsFrame self.old.times }
    {
        let (instance, offset) = instance_of(&self.times, cycle);
        let served = instance % u64::from(self.times.slots);
        self.row(served as u8, offset as u32);
    }

    // What the type says of the words of a place's part.
    fn frame_is(&self, place: Option<u8>)
        requires { IsBelow self.now.times.slots place }
        ensures { IfSome place (λ part. IsContext (frame_at self.now part)) }
    {
        if let Some(part) = place {
            let _zero = self.frames[usize::from(part)].regs.read(0);
        }
    }

    // What the type says of the words that a row copies.
    fn words(&self)
        ensures { HasWords self.now }
    {
        let _zero = self.file.regs.read(0);
        self.frame_is(self.held);
        self.frame_is(self.next);
    }

    /// Does the table's row for a cycle. For a kernel that is in step it leaves every part's words as
    /// they were, and the kernel in step for the next cycle.
    pub fn cycle(&mut self, cycle: u64)
        ensures row { self.new ≡ kernel_cycle self.old cycle }
        ensures keeps { KeepsOver self.old cycle self.new }
    {
        self.words();
        self.advance(cycle);
    }
}
