//! Where the two ends of each link are among the stations of a platform.

ghost use Rattle.std.specs.Prelude.{◌≡◌, ◌<◌, ◌≤◌, length, map, position};
ghost use Rattle.soc_base.specs.declared.limits.TheConstants.{MOST_LINKS};
ghost use Rattle.tile_core.specs.Station.{station_state};
ghost use Rattle.serial_run.specs.inner.Hops.{is_out_of, is_in_of, all_ends, AreHops, IsHop, CanFind, CanFindAll};

use flit_link::{LinkIn, LinkOut};
use platform_model::Link;
use soc_base::MOST_LINKS;
use tile_core::{Station, Wire};

/// The places of the two ends of a link.
#[derive(Clone, Copy)]
pub struct Hop {
    /// The tile that the link leaves.
    pub from: usize,
    /// The place of its end among those of the links that leave that tile.
    pub out: usize,
    /// The tile that the link enters.
    pub to: usize,
    /// The place of its end among those of the links that enter that tile.
    pub input: usize,
}

// The place of the end of a link among those of the links that leave a tile, if one is there.
fn place_out(outs: &[Wire<LinkOut>], number: u8) -> Option<usize>
    ensures { result ≡ position (is_out_of number) outs.now }
{
    outs.iter().position(|wire| wire.link == number)
}

// The same among those of the links that enter it.
fn place_in(ins: &[Wire<LinkIn>], number: u8) -> Option<usize>
    ensures { result ≡ position (is_in_of number) ins.now }
{
    ins.iter().position(|wire| wire.link == number)
}

// Finds the two ends of a link.
fn find_hop(stations: &[Station], link: Link, number: u8) -> Hop
    requires { CanFind number link stations.now }
    ensures { IsHop (all_ends (map station_state stations.now)) number link result }
{
    let from = usize::from(link.from);
    let to = usize::from(link.to);
    Hop {
        from,
        out: place_out(stations[from].outs.as_slice(), number).unwrap(),
        to,
        input: place_in(stations[to].ins.as_slice(), number).unwrap(),
    }
}

/// Finds the two ends of each link, in the order of the links.
pub fn find_hops(stations: &[Station], links: &[Link]) -> [Hop; MOST_LINKS]
    requires few { length links.now ≤ MOST_LINKS }
    requires joined { CanFindAll links.now stations.now }
    ensures { AreHops (all_ends (map station_state stations.now)) links.now result }
{
    let none = Hop {
        from: 0,
        out: 0,
        to: 0,
        input: 0,
    };
    let mut hops = [none; MOST_LINKS];
    for number in 0..links.len() {
        hops[number] = find_hop(stations, links[number], number as u8);
    }
    hops
}
