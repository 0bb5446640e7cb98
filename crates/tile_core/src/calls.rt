//! The calls of all ends of a station.

ghost use Rattle.std.specs.Prelude.{◌≡◌, map, None, All, IsTrue, IsFalse, IsSome, IfSome};
ghost use Rattle.std.specs.Prelude.{is_some, is_none, find, length};
ghost use Rattle.flit_link.specs.Link.{sending, receiving, flits_known, places_known};
ghost use Rattle.tile_core.specs.Wires.{out_seen, in_seen, first_stuck, first_missing, waiting};
ghost use Rattle.tile_core.specs.Wires.{brought, taken_more, set_on};
ghost use Rattle.tile_core.specs.Turns.{StaysInLine, WritesInLine, AreOffered};
ghost use Rattle.tile_core.specs.inner.Calls.{AreRelated};

use crate::wire::Wire;
use flit_link::{LinkIn, LinkOut};
use soc_base::Flit;

// Neither a word nor credits.
pub(crate) const IDLE: Flit = Flit {
    word: None,
    credits: 0,
};

// Offers the flit that waits at a link, and answers whether none waits afterwards.
fn offer_one(wire: &mut Wire<LinkOut>) -> bool
    ensures seen { out_seen wire.new ≡ out_seen wire.old }
    ensures gone { IsTrue result → sending wire.new.end ≡ None }
    ensures stuck { IsFalse result → IsSome (sending wire.new.end) }
    ensures full { IsFalse result → places_known wire.new.end ≡ 0 }
    ensures offered { IsSome (sending wire.new.end) → places_known wire.new.end ≡ 0 }
{
    wire.end.offer()
}

// Polls a link, and answers whether a flit waits afterwards.
fn poll_one(wire: &mut Wire<LinkIn>) -> bool
    ensures seen { in_seen wire.new ≡ in_seen wire.old }
    ensures waits { IsTrue result → IsSome (receiving wire.new.end) }
    ensures missing { IsFalse result → receiving wire.new.end ≡ None }
    ensures none_known { IsFalse result → length (flits_known wire.new.end) ≡ 0 }
{
    wire.end.poll()
}

// Takes the flit that waits at a link.
fn take_one(wire: &mut Wire<LinkIn>) -> Flit
    requires { IsSome (receiving wire.old.end) }
    ensures flit { result ≡ waiting (receiving wire.old.end) }
    ensures seen { in_seen wire.new ≡ taken_more wire.old }
    ensures line { StaysInLine wire.old wire.new }
{
    wire.end.take()
}

// Sets the flit of a link.
fn set_one(wire: &mut Wire<LinkOut>, outputs: &[Flit; 7])
    requires { sending wire.old.end ≡ None }
    ensures seen { out_seen wire.new ≡ set_on outputs.now (out_seen wire.old) }
    ensures line { WritesInLine wire.old wire.new }
{
    wire.end.set(outputs[usize::from(wire.place)]);
}

// Offers the flits that wait, one of each link, up to the first that is handed back.
#[tactic(auto, using(crate::proofs::Finding::same_seen, crate::proofs::Finding::found_at, crate::proofs::Finding::none_more))]
pub(crate) fn offer_all(outs: &mut [Wire<LinkOut>]) -> Option<u8>
    ensures seen { map out_seen outs.new ≡ map out_seen outs.old }
    ensures stuck { result ≡ first_stuck outs.new }
    ensures full { IfSome (find (λ wire. is_some (sending wire.end)) outs.new) (λ wire. places_known wire.end ≡ 0) }
{
    for i in 0..outs.len() {
        let wire = &mut outs[i];
        if !offer_one(wire) {
            return Some(wire.link);
        }
    }
    None
}

// Polls the links at which no flit waits, up to the first that gives none.
#[tactic(auto, using(crate::proofs::Finding::same_seen, crate::proofs::Finding::found_at, crate::proofs::Finding::none_more))]
pub(crate) fn poll_all(ins: &mut [Wire<LinkIn>]) -> Option<u8>
    ensures seen { map in_seen ins.new ≡ map in_seen ins.old }
    ensures missing { result ≡ first_missing ins.new }
    ensures none_known { IfSome (find (λ wire. is_none (receiving wire.end)) ins.new)
        (λ wire. length (flits_known wire.end) ≡ 0) }
{
    for i in 0..ins.len() {
        let wire = &mut ins[i];
        if !poll_one(wire) {
            return Some(wire.link);
        }
    }
    None
}

// Takes the flit that waits at each link, and lays it at its input.
pub(crate) fn take_all(ins: &mut [Wire<LinkIn>]) -> [Flit; 7]
    requires waits { first_missing ins.old ≡ None }
    ensures inputs { result ≡ brought ins.old }
    ensures seen { map in_seen ins.new ≡ map taken_more ins.old }
    ensures lines { AreRelated StaysInLine ins.old ins.new }
{
    let mut inputs = [IDLE; 7];
    for wire in ins.iter_mut() {
        let flit = take_one(wire);
        inputs[usize::from(wire.place)] = flit;
    }
    inputs
}

// Sets the flit of each link, as it stands at the link's output.
pub(crate) fn set_all(outs: &mut [Wire<LinkOut>], outputs: &[Flit; 7])
    requires free { first_stuck outs.old ≡ None }
    ensures seen { map out_seen outs.new ≡ map (set_on outputs.now) (map out_seen outs.old) }
    ensures lines { AreRelated WritesInLine outs.old outs.new }
{
    for wire in outs.iter_mut() {
        set_one(wire, outputs);
    }
}

// Offers the flit that waits at each link once.
pub(crate) fn offer_each(outs: &mut [Wire<LinkOut>])
    ensures seen { map out_seen outs.new ≡ map out_seen outs.old }
    ensures offered { AreOffered outs.new }
{
    for wire in outs.iter_mut() {
        offer_one(wire);
    }
}
