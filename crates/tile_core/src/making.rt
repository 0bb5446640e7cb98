//! The stations of a platform, joined by its links.

ghost use Rattle.std.specs.Prelude.{◌≡◌, ◌<◌, ◌++◌, ◌∷◌, [], List, map, length, All, IfOk};
ghost use Rattle.std.specs.List.{range_with_len};
ghost use Rattle.bundle_model.specs.World.{IsSoundWorld};
ghost use Rattle.bundle_model.specs.declared.world.Grant.{Grant};
ghost use Rattle.flit_link.specs.Link.{IsNewOut, IsNewIn, name_of_out, name_of_in};
ghost use Rattle.tile_core.specs.Tile.{TileState, fresh_tile};
ghost use Rattle.tile_core.specs.Station.{AreFreshStations, HaveRun, IsFreshStation, station_state};
ghost use Rattle.tile_core.specs.inner.Joined.{MadeLink, AreJoined, AreNumbered, IsBetween};
ghost use Rattle.tile_core.specs.inner.Joined.{fresh_end, with_out, with_in};

use crate::station::Station;
use crate::tile::Tile;
use crate::wire::Wire;
use bundle_model::{LoadName, World};
use flit_link::{LinkIn, LinkOut, link};
use platform_model::Link;
use soc_base::NoMemory;
use std::alloc::Global;

// Makes the stations of a world, in the order of their tiles, without the ends of any link.
fn bare_stations(alloc: Global, world: &World, loads: &[LoadName]) -> Result<Vec<Station>, NoMemory>
    requires { IsSoundWorld world.now loads.now }
    ensures { IfOk result (λ stations.
        AreJoined (map (fresh_tile world.now loads.now) (range_with_len 0 world.now.platform.tiles)) []
        stations.items) }
{
    let mut stations = Vec::with_capacity(alloc, usize::from(world.platform.tiles))?;
    for number in 0..world.platform.tiles {
        let tile = Tile::new(alloc, world, loads, number)?;
        stations.push_reserved(Station::bare(alloc, tile)?);
    }
    Ok(stations)
}

// Gives a station the writing end of a link.
fn give_out(station: &mut Station, number: u8, place: u8, end: LinkOut) -> Result<(), NoMemory>
    requires place { place < 7 }
    requires new { IsNewOut end }
    requires fresh { IsFreshStation station.old }
    ensures fresh { IfOk result (λ done. IsFreshStation station.new) }
    ensures given { IfOk result (λ done. station_state station.new ≡ record (station_state station.old) {
      outs = (station_state station.old).outs ++ fresh_end number place (name_of_out end) ∷ [];
    }) }
{
    station.outs.push(Wire {
        link: number,
        place,
        end,
    })?;
    Ok(())
}

// Gives a station the reading end of a link.
fn give_in(station: &mut Station, number: u8, place: u8, end: LinkIn) -> Result<(), NoMemory>
    requires place { place < 7 }
    requires new { IsNewIn end }
    requires fresh { IsFreshStation station.old }
    ensures fresh { IfOk result (λ done. IsFreshStation station.new) }
    ensures given { IfOk result (λ done. station_state station.new ≡ record (station_state station.old) {
      ins = (station_state station.old).ins ++ fresh_end number place (name_of_in end) ∷ [];
    }) }
{
    station.ins.push(Wire {
        link: number,
        place,
        end,
    })?;
    Ok(())
}

// Gives the writing end of a link to the station that it leaves.
fn leave(stations: &mut [Station], number: u8, link: &Link, out: LinkOut) -> Result<(), NoMemory>
    requires between { IsBetween (length stations.old) link.now }
    requires numbered { map (λ station. station.tile.number) stations.old ≡ range_with_len 0 (length stations.old) }
    requires new { IsNewOut out }
    requires fresh { All IsFreshStation stations.old }
    ensures fresh { IfOk result (λ done. All IsFreshStation stations.new) }
    ensures given { IfOk result (λ done. map station_state stations.new
        ≡ map (with_out number (name_of_out out) link.now) (map station_state stations.old)) }
{
    let station = &mut stations[usize::from(link.from)];
    give_out(station, number, link.out, out)?;
    Ok(())
}

// Gives the reading end of a link to the station that it enters.
fn enter(stations: &mut [Station], number: u8, link: &Link, into: LinkIn) -> Result<(), NoMemory>
    requires between { IsBetween (length stations.old) link.now }
    requires numbered { map (λ station. station.tile.number) stations.old ≡ range_with_len 0 (length stations.old) }
    requires new { IsNewIn into }
    requires fresh { All IsFreshStation stations.old }
    ensures fresh { IfOk result (λ done. All IsFreshStation stations.new) }
    ensures given { IfOk result (λ done. map station_state stations.new
        ≡ map (with_in number (name_of_in into) link.now) (map station_state stations.old)) }
{
    let station = &mut stations[usize::from(link.to)];
    give_in(station, number, link.input, into)?;
    Ok(())
}

// Makes a ring for each link, and gives its ends to the stations.
fn join_all(alloc: Global, links: &[Link], stations: &mut [Station]) -> Result<(), NoMemory>
    requires few { length links.now < 256 }
    requires between { All (IsBetween (length stations.old)) links.now }
    requires numbered { AreNumbered (map (λ station. station.tile) stations.old) }
    requires bare { AreJoined (map (λ station. station.tile) stations.old) [] stations.old }
    ensures { IfOk result (λ done. (made : List MadeLink) × (map (λ one. one.link) made ≡ links.now)
        × AreJoined (map (λ station. station.tile) stations.old) made stations.new) }
{
    for number in 0..links.len() {
        let (out, into) = link(alloc)?;
        let one = links[number];
        leave(stations, number as u8, &one, out)?;
        enter(stations, number as u8, &one, into)?;
    }
    Ok(())
}

// Makes the stations of a world, in the order of their tiles, with the ends of all links.
fn joined_stations(
    alloc: Global,
    world: &World,
    loads: &[LoadName],
) -> Result<Vec<Station>, NoMemory>
    requires { IsSoundWorld world.now loads.now }
    ensures { IfOk result (λ stations. (made : List MadeLink)
        × (map (λ one. one.link) made ≡ world.now.platform.links)
        × AreJoined (map (fresh_tile world.now loads.now) (range_with_len 0 world.now.platform.tiles)) made
        stations.items) }
{
    let mut stations = bare_stations(alloc, world, loads)?;
    join_all(
        alloc,
        world.platform.links.as_slice(),
        stations.as_mut_slice(),
    )?;
    Ok(stations)
}

/// Makes the stations of a world before the first slot, in the order of their tiles, with a ring for each link,
/// and takes all their memory. The loads are those of the run.
pub fn build(alloc: Global, world: &World, loads: &[LoadName]) -> Result<Vec<Station>, NoMemory>
    requires { IsSoundWorld world.now loads.now }
    ensures fresh { IfOk result (λ stations. AreFreshStations world.now loads.now stations.items) }
    ensures run { IfOk result (λ stations. (grants : List Grant)
        → HaveRun world.now loads.now grants (map station_state stations.items)) }
{
    joined_stations(alloc, world, loads)
}
