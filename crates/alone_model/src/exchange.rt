//! What the channels of an application do in a slot: which inject, and what arrives.

ghost use Rattle.std.specs.Prelude.{◌≡◌, ◌++◌, [], OnOk, slice_get};
ghost use Rattle.std.specs.List.{cons_option};
ghost use Rattle.bundle_model.specs.Ways.{ways_of, way_of};
ghost use Rattle.alone_model.specs.inner.Exchange.{sender_of, senders_of, arrival_of, arrivals_of};
ghost use Rattle.alone_model.specs.Network.{is_due};

use bundle_model::{Bundle, Channel, End, Pair};
use soc_base::{Flit, NoMemory};
use std::marker::Model;

/// A flit on its way.
#[derive(Clone, Copy)]
pub struct Flight {
    /// The number of its channel, counted from 0.
    pub number: usize,
    /// The slot in which it was injected.
    pub since: u64,
    /// What it carries.
    pub flit: Flit,
}

impl Model for Flight {
    ghost use Rattle.alone_model.specs.Network.{Flying};

    ghost Value = { Flying };

    ghost view = { λ f. record { number = f.number; since = f.since; flit = f.flit } };

    ghost inverse = { λ v. record { number = v.number; since = v.since; flit = v.flit } };
}

/// A channel that injects in a slot.
#[derive(Clone, Copy)]
pub struct Sender {
    /// Its number, counted from 0.
    pub number: usize,
    /// The port that it leaves.
    pub from: End,
}

/// A flit that is due in a slot.
#[derive(Clone, Copy)]
pub struct Arrival {
    /// The port at which it arrives.
    pub to: End,
    /// What it carries.
    pub flit: Flit,
}

// A channel with its ends.
#[derive(Drop)]
struct BundleWay<'b> {
    // The port that it leaves.
    from: End,
    // The port at which it ends.
    to: End,
    // Its path and its slots.
    channel: &'b Channel,
}

impl<'b> Model for BundleWay<'b> {
    ghost use Rattle.bundle_model.specs.Ways.{Way, way_of};

    ghost Value = { Way };

    ghost view = { λ w. way_of w.from w.to w.channel.now };
}

impl<'b> BundleWay<'b> {
    // The channel from the first end of a pair to the second.
    fn there(pair: &'b Pair) -> BundleWay<'b>
        ensures { result ≡ way_of pair.entry.now.a pair.entry.now.b pair.entry.now.there }
    {
        BundleWay {
            from: pair.a,
            to: pair.b,
            channel: &pair.there,
        }
    }

    // The channel from the second end of a pair to the first.
    fn back(pair: &'b Pair) -> BundleWay<'b>
        ensures { result ≡ way_of pair.entry.now.b pair.entry.now.a pair.entry.now.back }
    {
        BundleWay {
            from: pair.b,
            to: pair.a,
            channel: &pair.back,
        }
    }
}

// The channel of a bundle with this number, if there is one.
#[tactic(auto, using(crate::proofs::Channels::way_there, crate::proofs::Channels::way_back, crate::proofs::Channels::no_way))]
fn way_at(bundle: &Bundle, number: usize) -> Option<BundleWay<'_>>
    ensures { result ≡ slice_get (ways_of bundle.entry.now) number }
{
    let pair = bundle.pairs.get(number / 2)?;
    Some(if number % 2 == 0 {
        BundleWay::there(pair)
    } else {
        BundleWay::back(pair)
    })
}

// Appends a channel, where it injects in the slots of a row.
fn add_sender(
    senders: &mut Vec<Sender>,
    row: u8,
    number: usize,
    way: &BundleWay<'_>,
) -> Result<(), NoMemory>
    ensures { OnOk result (senders.new.items ≡ senders.old.items ++ cons_option (sender_of row number way.now) []) }
{
    if way.channel.slots.as_slice().contains(&row) {
        senders.push(Sender {
            number,
            from: way.from,
        })?;
    }
    Ok(())
}

/// Lists the channels of a bundle that inject in the slots of a row of its tables.
pub fn list_senders(senders: &mut Vec<Sender>, bundle: &Bundle, row: u8) -> Result<(), NoMemory>
    ensures { OnOk result (senders.new.items ≡ senders_of row 0 (ways_of bundle.now)) }
{
    senders.clear();
    let mut number = 0;
    for pair in bundle.pairs.as_slice() {
        add_sender(senders, row, number, &BundleWay::there(pair))?;
        add_sender(senders, row, number + 1, &BundleWay::back(pair))?;
        number += 2;
    }
    Ok(())
}

// The arrival of a flit, where it is due in a slot.
fn landing(bundle: &Bundle, slot: u64, flight: &Flight) -> Option<Arrival>
    ensures { result ≡ arrival_of bundle.now slot flight.now }
{
    let way = way_at(bundle, flight.number)?;
    let passed = slot.checked_sub(flight.since)?;
    if passed == way.channel.path.len() as u64 {
        Some(Arrival {
            to: way.to,
            flit: flight.flit,
        })
    } else {
        None
    }
}

/// Answers whether a flit is due in a slot.
#[tactic(auto, using(crate::proofs::Channels::due_arrives))]
pub fn is_due(bundle: &Bundle, slot: u64, flight: &Flight) -> bool
    ensures { result ≡ is_due bundle.now slot flight.now }
{
    landing(bundle, slot, flight).is_some()
}

/// Lists what arrives in a slot of these flits.
pub fn list_arrivals(
    arrivals: &mut Vec<Arrival>,
    bundle: &Bundle,
    slot: u64,
    flying: &[Flight],
) -> Result<(), NoMemory>
    ensures { OnOk result (arrivals.new.items ≡ arrivals_of bundle.now slot flying.now) }
{
    arrivals.clear();
    for flight in flying {
        if let Some(arrival) = landing(bundle, slot, flight) {
            arrivals.push(arrival)?;
        }
    }
    Ok(())
}
