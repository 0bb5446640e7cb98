//! The words of a command line.

ghost use Rattle.std.specs.Prelude.{◌≡◌, [], ◌∷◌, ◌++◌, ◌<◌, length, slice_get, Some, OnOk, OnErr};

use crate::memory::NoMemory;
use std::alloc::Global;
use std::marker::Model;

/// A register of words, which contracts see as the list of their texts. It keeps the allocator
/// that it was made with.
#[derive(Debug, Drop)]
pub struct Words {
    alloc: Global,
    texts: Vec<String>,
}

impl Model for Words {
    ghost use Rattle.std.specs.Prelude.{List, ℕ, map, string_bytes};

    ghost Value = { List (List ℕ) };

    ghost view = { λ w. map string_bytes w.texts.items };
}

impl Words {
    /// Makes a register with no word. Takes no memory.
    pub fn new(alloc: Global) -> Words
        ensures { result ≡ [] }
    {
        Words {
            alloc,
            texts: Vec::new(alloc),
        }
    }

    /// Appends a word. After want of memory the register is as it was.
    pub fn add(&mut self, word: &str) -> Result<(), NoMemory>
        ensures ok { OnOk result (self.new ≡ self.old ++ word.now ∷ []) }
        ensures err { OnErr result (self.new ≡ self.old) }
    {
        let text = String::from_str(self.alloc, word)?;
        self.texts.push(text)?;
        Ok(())
    }

    /// Answers the number of words.
    pub fn len(&self) -> usize
        ensures { result ≡ length self.now }
    {
        self.texts.len()
    }

    /// Answers the n-th word, counted from 0.
    pub fn word(&self, n: usize) -> &str
        requires { n < length self.now }
        ensures { slice_get self.now n ≡ Some result.now }
    {
        self.texts[n].as_str()
    }
}

#[cfg(test)]
mod tests {
    use super::*;
    use std::test::Fail;

    #[test]
    fn keeps_words_in_order(rt: HostRuntime) -> Result<(), Fail> {
        let mut words = Words::new(rt.alloc());
        assert_eq!(rt; words.len(), 0);
        words.add("alone")?;
        words.add("")?;
        words.add("a.hex")?;
        assert_eq!(rt; words.len(), 3);
        for (n, word) in [(0, "alone"), (1, ""), (2, "a.hex")] {
            assert_eq!(rt; words.word(n), word);
        }
        Ok(())
    }
}
