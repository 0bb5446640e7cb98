//! The words of a tile's register file and of its context frames.

ghost use Rattle.std.specs.Prelude.{◌≡◌, ◌<◌};
ghost use Rattle.comik.specs.Kernel.{frame_at};
ghost use Rattle.report_text.specs.State.{context_words};

use comik::Kernel;

/// Answers the words of the register file: pc, x1 to x31, and `left`.
pub fn file_words(kernel: &Kernel) -> [u32; 33]
    ensures { result ≡ context_words kernel.now.file }
{
    let mut words = [0; 33];
    for n in 0..33u8 {
        words[usize::from(n)] = kernel.file_word(n);
    }
    words
}

/// Answers the words of a context frame, counted from 0.
pub fn frame_words(kernel: &Kernel, frame: u8) -> [u32; 33]
    requires { frame < kernel.now.times.slots }
    ensures { result ≡ context_words (frame_at kernel.now frame) }
{
    let mut words = [0; 33];
    for n in 0..33u8 {
        words[usize::from(n)] = kernel.frame_word(frame, n);
    }
    words
}
