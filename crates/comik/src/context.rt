//! The words of a part.

ghost use Rattle.std.specs.Prelude.{◌≡◌, ◌<◌, ◌≤◌, ◌-◌};
ghost use Rattle.comik.specs.Context.{fresh_context, word_at, copied, copied_words};

use rv_core::Regs;

/// What a core needs to go on with a part: 33 words, of which word 0 is pc, words 1 to 31 are x1 to x31
/// and word 32 is `left`.
#[derive(Clone, Copy)]
pub struct Context {
    /// The registers.
    pub regs: Regs,
    /// The cycles that the instruction under way needs still, 0 where there is none.
    pub left: u8,
}

impl Context {
    /// Makes a context with pc at an address and every other word 0.
    pub fn new(pc: u32) -> Context
        ensures { result ≡ fresh_context pc }
    {
        Context {
            regs: Regs::new(pc),
            left: 0,
        }
    }

    /// Answers word n, from 0 to 32.
    pub fn word(&self, n: u8) -> u32
        requires { n < 33 }
        ensures { result ≡ word_at self.now n }
    {
        if n == 0 {
            self.regs.pc
        } else if n < 32 {
            self.regs.read(n)
        } else {
            u32::from(self.left)
        }
    }

    /// Copies word n, from 0 to 32, of another context into this one.
    pub fn copy_word(&mut self, from: &Context, n: u8)
        requires { n < 33 }
        ensures { self.new ≡ copied self.old from.now n }
    {
        if n == 0 {
            self.regs.pc = from.regs.pc;
        } else if n < 32 {
            self.regs.write(n, from.regs.read(n));
        } else {
            self.left = from.left;
        }
    }

    /// Copies the words `first` to `end - 1`, within 0 to 32, of another context into this one.
    #[tactic(auto, using(soc_base::proofs::Laws::steps_none, soc_base::proofs::Laws::steps_more))]
    pub fn copy_words(&mut self, from: &Context, first: u8, end: u8)
        requires order { first ≤ end }
        requires within { end ≤ 33 }
        ensures { self.new ≡ copied_words self.old from.now first (end - first) }
    {
        for n in first..end {
            self.copy_word(from, n);
        }
    }
}
