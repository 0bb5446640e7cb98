//! Flits from one station to another, on a thread that holds both ends of every ring.

ghost use Rattle.std.specs.Prelude.{◌≡◌, ◌<◌, length, map, slice_get, Some, IsTrue};
ghost use Rattle.flit_link.specs.declared.ends.LinkOut.{LinkOut};
ghost use Rattle.flit_link.specs.declared.ends.LinkIn.{LinkIn};
ghost use Rattle.flit_link.specs.Link.{AreEnds, AreInLine};
ghost use Rattle.tile_core.specs.Wires.{out_seen, in_seen};
ghost use Rattle.tile_core.specs.declared.wire.Wire.{Wire};
ghost use Rattle.tile_core.specs.declared.station.Station.{Station};
ghost use Rattle.serial_run.specs.inner.Carrying.{CanCarry, IsCarried, Carries, CarriesAt, CanCarryStations, CarriesStations, CanCarryLink, CarriesLink};
ghost use Rattle.serial_run.specs.inner.Hops.{StandInLine, AllAtEnds, AllHaveEnds, all_ends};
ghost use Rattle.tile_core.specs.Station.{station_state};

use crate::hops::Hop;
use flit_link::{LinkIn, LinkOut};
use tile_core::{Station, Wire};

// Brings the ends of a link in line, where they may be out of line, as they are once they come from another
// thread.
fn line_up(sender: &mut Wire<LinkOut>, receiver: &mut Wire<LinkIn>, in_line: bool)
    requires { CanCarry in_line sender.old receiver.old }
    ensures sender { out_seen sender.new ≡ out_seen sender.old }
    ensures receiver { in_seen receiver.new ≡ in_seen receiver.old }
    ensures line { AreInLine sender.new.end receiver.new.end }
{
    if !in_line {
        receiver.end.beside(&mut sender.end);
    }
}

// Carries the next flit of a link, if one is under way and none waits yet.
fn carry(sender: &mut Wire<LinkOut>, receiver: &mut Wire<LinkIn>)
    requires ends { AreEnds sender.old.end receiver.old.end }
    requires line { AreInLine sender.old.end receiver.old.end }
    ensures sender { out_seen sender.new ≡ out_seen sender.old }
    ensures receiver { in_seen receiver.new ≡ in_seen receiver.old }
    ensures carried { IsCarried sender.new receiver.new }
{
    receiver.end.carry(&mut sender.end);
}

// Both.
fn line_and_carry(sender: &mut Wire<LinkOut>, receiver: &mut Wire<LinkIn>, in_line: bool)
    requires { CanCarry in_line sender.old receiver.old }
    ensures { Carries sender.old sender.new receiver.old receiver.new }
{
    line_up(sender, receiver, in_line);
    carry(sender, receiver);
}

// The same of the link whose ends are at these places.
fn carry_at(
    outs: &mut [Wire<LinkOut>],
    out: usize,
    ins: &mut [Wire<LinkIn>],
    input: usize,
    in_line: bool,
)
    requires out { out < length outs.old }
    requires input { input < length ins.old }
    requires can { (s : Wire LinkOut) (r : Wire LinkIn) → slice_get outs.old out ≡ Some s
        → slice_get ins.old input ≡ Some r → CanCarry in_line s r }
    ensures { CarriesAt outs.old outs.new out ins.old ins.new input }
{
    let sender = &mut outs[out];
    let receiver = &mut ins[input];
    line_and_carry(sender, receiver, in_line);
}

// The same between two stations.
fn carry_stations(sender: &mut Station, receiver: &mut Station, hop: Hop, in_line: bool)
    requires { CanCarryStations in_line hop sender.old receiver.old }
    ensures { CarriesStations hop sender.old sender.new receiver.old receiver.new }
{
    carry_at(
        sender.outs.as_mut_slice(),
        hop.out,
        receiver.ins.as_mut_slice(),
        hop.input,
        in_line,
    );
}

/// Carries the next flit of a link, if one is under way and none waits yet. Afterwards the ends of the link
/// are in line, a flit waits to be taken unless the writer is behind, and none waits to be pushed unless the
/// reader is behind.
pub fn carry_link(stations: &mut [Station], hop: Hop, in_line: bool)
    requires { CanCarryLink in_line hop stations.old }
    ensures { CarriesLink hop stations.old stations.new }
{
    let from = hop.from;
    let to = hop.to;
    if from < to {
        let (front, back) = stations.split_at_mut(to);
        carry_stations(&mut front[from], &mut back[0], hop, in_line);
    } else {
        let (front, back) = stations.split_at_mut(from);
        carry_stations(&mut back[0], &mut front[to], hop, in_line);
    }
}

/// The same of each link. `in_line` tells that the ends of all links are in line.
pub fn carry_all(stations: &mut [Station], hops: &[Hop], in_line: bool)
    requires ends { AllHaveEnds (all_ends (map station_state stations.old)) hops.now }
    requires line { IsTrue in_line → AllAtEnds StandInLine stations.old hops.now }
    ensures seen { map station_state stations.new ≡ map station_state stations.old }
    ensures carried { AllAtEnds IsCarried stations.new hops.now }
{
    for number in 0..hops.len() {
        carry_link(stations, hops[number], in_line);
    }
}
