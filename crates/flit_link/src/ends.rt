//! The two ends of a link.

ghost use Rattle.std.specs.Prelude.{◌≡◌, ◌++◌};
ghost use Rattle.rtrb.specs.Ring.{producer_capacity, consumer_capacity};
ghost use Rattle.flit_link.specs.Flits.{latched, but_latched, arrived};

use crate::packing::{pack, unpack_known};
use rtrb::{Consumer, Producer, Protocol};
use soc_base::Flit;
use std::alloc::Global;

/// What goes through a ring: packed flits.
#[derive(Clone, Copy)]
pub struct Packed;

impl Protocol<u64> for Packed {
    ghost use Rattle.flit_link.specs.Packing.{IsPacked};

    ghost allows = { λ _ bits. IsPacked bits };
}

/// The end of a link into which a tile puts its flits.
#[derive(Drop)]
pub struct LinkOut {
    pub(crate) ring: Producer<u64, Global, Packed>,
    pub(crate) latch: Option<Flit>,
    /// The ring has 64 places.
    ghost places: { producer_capacity ring ≡ 64 },
}

/// The end of a link from which a tile takes its flits.
#[derive(Drop)]
pub struct LinkIn {
    pub(crate) ring: Consumer<u64, Global, Packed>,
    pub(crate) latch: Option<Flit>,
    /// The ring has 64 places.
    ghost places: { consumer_capacity ring ≡ 64 },
    /// A flit in the latch is the last one that came.
    ghost last: { but_latched latch (arrived ring) ++ latched latch ≡ arrived ring },
}

impl LinkOut {
    ghost use Rattle.std.specs.Prelude.{◌∷◌, [], ◌+◌, ◌<◌, ◌≤◌, Some, None, IsTrue, IsFalse, IsSome};
    ghost use Rattle.flit_link.specs.Link.{flits_set, sending, places_known, name_of_out, AreInLine};
    ghost use Rattle.flit_link.specs.declared.ends.LinkIn.{LinkIn};

    /// Sets the flit of the next slot. It waits until it is pushed.
    pub fn set(&mut self, flit: Flit)
        requires nothing_waits { sending self.old ≡ None }
        ensures link { name_of_out self.new ≡ name_of_out self.old }
        ensures waits { sending self.new ≡ Some flit }
        ensures set { flits_set self.new ≡ flits_set self.old ++ flit ∷ [] }
        ensures line { (into : LinkIn) → AreInLine self.old into → AreInLine self.new into }
    {
        self.latch = Some(flit);
    }

    /// Tries once to push the flit that waits. Answers whether none waits afterwards.
    pub fn offer(&mut self) -> bool
        ensures link { name_of_out self.new ≡ name_of_out self.old }
        ensures set { flits_set self.new ≡ flits_set self.old }
        ensures pushed { IsTrue result → sending self.new ≡ None }
        ensures back { IsFalse result → (sending self.new ≡ sending self.old) × IsSome (sending self.old) }
        ensures nothing { sending self.old ≡ None → self.new ≡ self.old }
        ensures room { 0 < places_known self.old → IsTrue result }
        ensures full { IsFalse result → places_known self.new ≡ 0 }
        ensures spent { places_known self.old ≤ places_known self.new + 1 }
    {
        let Some(flit) = self.latch else {
            return true;
        };
        if self.ring.push(pack(flit)).is_err() {
            return false;
        }
        self.latch = None;
        true
    }
}

impl LinkIn {
    ghost use Rattle.std.specs.Prelude.{◌∷◌, [], ◌<◌, length, Some, None, IsTrue, IsFalse, IsSome};
    ghost use mathlib.Core.List.{IsPrefix};
    ghost use Rattle.flit_link.specs.Link.{flits_set, flits_taken, flits_known, receiving, sending, name_of_in};
    ghost use Rattle.flit_link.specs.Link.{AreEnds, AreInLine, KeepNames, ComesInTurn, CarriesKnown, CarriesWaiting};
    ghost use Rattle.flit_link.specs.declared.ends.LinkOut.{LinkOut};

    /// Tries once to pop a flit, where none waits to be taken. Answers whether one waits afterwards.
    pub fn poll(&mut self) -> bool
        ensures link { name_of_in self.new ≡ name_of_in self.old }
        ensures taken { flits_taken self.new ≡ flits_taken self.old }
        ensures waits { IsTrue result → IsSome (receiving self.new) }
        ensures nothing { IsFalse result → (receiving self.old ≡ None) × (receiving self.new ≡ None) }
        ensures full { IsSome (receiving self.old) → self.new ≡ self.old }
        ensures comes { 0 < length (flits_known self.old) → IsTrue result }
        ensures none_known { IsFalse result → flits_known self.new ≡ [] }
        ensures oldest { ComesInTurn self.old self.new }
    {
        if self.latch.is_none() {
            let Ok(bits) = self.ring.pop() else {
                return false;
            };
            self.latch = Some(unpack_known(bits));
        }
        true
    }

    /// Takes the flit that waits.
    pub fn take(&mut self) -> Flit
        requires waits { IsSome (receiving self.old) }
        ensures link { name_of_in self.new ≡ name_of_in self.old }
        ensures flit { receiving self.old ≡ Some result }
        ensures empty { receiving self.new ≡ None }
        ensures taken { flits_taken self.new ≡ flits_taken self.old ++ result ∷ [] }
        ensures known { flits_known self.new ≡ flits_known self.old }
        ensures line { (out : LinkOut) → AreInLine out self.old → AreInLine out self.new }
    {
        self.latch.take().unwrap()
    }

    /// Answers how many flits stand in the ring, on a thread that holds both ends. All of them are known
    /// afterwards.
    #[tactic(auto, using(crate::proofs::Prefixes::prefix_map))]
    pub fn beside(&mut self, out: &mut LinkOut) -> u8
        requires ends { AreEnds out.old self.old }
        ensures link { KeepNames out.old self.old out.new self.new }
        ensures count { result ≡ length (flits_known self.new) }
        ensures known { IsPrefix (flits_known self.old) (flits_known self.new) }
        ensures out { (flits_set out.new ≡ flits_set out.old) × (sending out.new ≡ sending out.old) }
        ensures into { (flits_taken self.new ≡ flits_taken self.old) × (receiving self.new ≡ receiving self.old) }
        ensures line { AreInLine out.new self.new }
    {
        self.ring.slots_beside(&mut out.ring) as u8
    }

    /// Moves the next flit of the link into an empty latch, on a thread that holds both ends: the oldest
    /// in the ring, or else the one that waits to be pushed, if there is one.
    pub fn carry(&mut self, out: &mut LinkOut)
        requires ends { AreEnds out.old self.old }
        requires line { AreInLine out.old self.old }
        ensures link { KeepNames out.old self.old out.new self.new }
        ensures out { flits_set out.new ≡ flits_set out.old }
        ensures into { flits_taken self.new ≡ flits_taken self.old }
        ensures line { AreInLine out.new self.new }
        ensures full { IsSome (receiving self.old) → (self.new ≡ self.old) × (out.new ≡ out.old) }
        ensures oldest { CarriesKnown out.old self.old out.new self.new }
        ensures past { CarriesWaiting out.old self.old out.new self.new }
    {
        if self.latch.is_some() {
            return;
        }
        if self.ring.cached_slots() == 0 {
            let Some(flit) = out.latch else {
                return;
            };
            out.ring.slots_beside(&mut self.ring);
            out.ring.push_reserved(pack(flit));
            out.latch = None;
            self.ring.slots_beside(&mut out.ring);
        }
        self.latch = Some(unpack_known(self.ring.pop_known()));
    }
}
