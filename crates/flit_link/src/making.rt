//! Links.

ghost use Rattle.std.specs.Prelude.{IfOk};
ghost use Rattle.flit_link.specs.Link.{AreEnds, IsNewOut, IsNewIn, TakenComeFirst};

use crate::ends::{LinkIn, LinkOut, Packed};
use rtrb::RingBuffer;
use soc_base::{Flit, NoMemory};
use std::alloc::Global;

/// Makes the two ends of an empty link with 64 places. The idle flit of slot 0 waits to be taken.
pub fn link(alloc: Global) -> Result<(LinkOut, LinkIn), NoMemory>
    ensures ends { IfOk result (λ ends. AreEnds ends.0 ends.1) }
    ensures out { IfOk result (λ ends. IsNewOut ends.0) }
    ensures into { IfOk result (λ ends. IsNewIn ends.1) }
{
    let (producer, consumer) = RingBuffer::with_protocol::<Global, Packed>(alloc, 64)?;
    let out = LinkOut {
        ring: producer,
        latch: None,
    };
    let into = LinkIn {
        ring: consumer,
        latch: Some(Flit {
            word: None,
            credits: 0,
        }),
    };
    Ok((out, into))
}

/// A law: of ends that are in line, the flits taken are the first of the idle flit and those set.
#[tactic(auto, using(crate::proofs::Prefixes::prefix_in_line))]
pub fn taken_first()
    ensures { TakenComeFirst }
{}
