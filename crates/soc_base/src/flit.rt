//! What a link carries in one slot.

use std::marker::Model;

/// What one link carries in one slot: an optional word and a count of credits (CompSOC's dAElite
/// sends end-to-end credits beside the words). The idle flit has neither.
#[derive(Clone, Copy)]
pub struct Flit {
    /// The word, if there is one.
    pub word: Option<u32>,
    /// The number of credits, from 0 to 63.
    pub credits: u8,
}

impl Model for Flit {
    ghost use Rattle.std.specs.Prelude.{◌≤◌};
    ghost use Rattle.soc_base.specs.Port.{WordAndCredits};

    ghost Value = { WordAndCredits };

    ghost view = { λ f. record { word = f.word; credits = f.credits } };

    ghost invariant = { λ f. f.credits ≤ 63 };

    ghost inverse = { λ v. record { word = v.word; credits = v.credits } };
}
