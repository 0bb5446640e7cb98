//! A tile with a port, joined to another: what it puts on its output, and what it has from its input. Cycles
//! and slots were counted by hand.

ghost use Rattle.std.specs.Prelude.{◌≡◌, ◌≤◌, length, IfOk};
ghost use Rattle.bundle_model.specs.World.{IsSoundCatalog};
ghost use Rattle.bundle_model.specs.WellFormed.{IsWellFormed};

use super::fixture::{FIRST, FedTile, SECOND, fed, granted, world_with};
use crate::tile::Tile;
use bundle_model::{Bundle, RawBundle, RawChannel, RawPair, RawPart, World, check};
use platform_model::{Platform, RawLink, RawPlatform};
use soc_base::Items;
use std::alloc::Global;
use std::process::Abort;
use std::test::Fail;

fn items(alloc: Global, list: &[i64]) -> Result<Items<i64>, Fail> {
    let mut items = Items::new(alloc);
    for item in list {
        items.push(*item)?;
    }
    Ok(items)
}

fn channel(alloc: Global, path: i64, slot: i64) -> Result<RawChannel, Fail> {
    Ok(RawChannel {
        path: items(alloc, &[path])?,
        slots: items(alloc, &[slot])?,
    })
}

// A part that sends the word in x6 through its port and ends: its instructions take 1, 4 and 1 cycles.
fn part(alloc: Global, tile: i64) -> Result<RawPart, Fail> {
    let image = vec![in alloc;
        0x8000_0337, // lui x6, 0x80000
        0x1063_2023, // sw x6, 256(x6)
        0x0000_0073, // ecall
    ]?;
    Ok(RawPart {
        tile,
        slots: items(alloc, &[0])?,
        base: 0,
        len: 64,
        image: Some(Items::from_vec(image)),
        entry: 0,
        trace: 16,
        kinds: Items::new(alloc),
        ports: items(alloc, &[1])?,
    })
}

// Two tiles, joined by a link in each direction.
fn platform(alloc: Global) -> Result<Platform, Fail> {
    let mut raw = RawPlatform::plain(alloc);
    raw.tiles = 2;
    raw.links.push(RawLink {
        from: 0,
        out: 0,
        to: 1,
        input: 0,
    })?;
    raw.links.push(RawLink {
        from: 1,
        out: 1,
        to: 0,
        input: 1,
    })?;
    Ok(Platform::check(alloc, &raw)?)
}

// A bundle of two parts with a channel pair between port 1 of the one and port 1 of the other. Of every
// eight slots its channel from tile 0 injects in the seventh, and that from tile 1 in the third.
fn pair(alloc: Global, platform: &Platform) -> Result<Bundle, Fail>
    ensures { IfOk result (IsWellFormed platform.now) }
{
    let pair = RawPair {
        a: items(alloc, &[0, 1])?,
        b: items(alloc, &[1, 1])?,
        there: channel(alloc, 0, 6)?,
        back: channel(alloc, 1, 2)?,
    };
    let raw = RawBundle {
        version: 1,
        parts: Items::from_vec(vec![in alloc; part(alloc, 0)?, part(alloc, 1)?]?),
        pairs: Items::from_vec(vec![in alloc; pair]?),
    };
    Ok(check(alloc, &raw, platform)?)
}

pub(super) fn joined(alloc: Global) -> Result<World, Fail>
    ensures sound { IfOk result IsSoundCatalog }
    ensures two { IfOk result (λ world. length world.catalog ≡ 2) }
{
    let platform = platform(alloc)?;
    let first = pair(alloc, &platform)?;
    world_with(alloc, platform, first)
}

// Checks a port: the oldest word that waits, the oldest received, how many were received, and the credit.
pub(super) fn check_port<A: Abort>(
    rt: &A,
    world: &World,
    tile: &Tile,
    number: u8,
    held: (Option<u32>, Option<u32>, u8, u8),
)
    requires { length tile.now.ports ≡ world.now.platform.ports }
{
    if number >= world.platform.ports {
        panic!(rt; "no such port");
    }
    let port = tile.port(number);
    assert_eq!(rt;
        (
            port.send_word(0),
            port.recv_word(0),
            port.fill(),
            port.credit()
        ),
        held
    );
}

// Follows the tile with words on input 1 from slot 4 on, where the first grant ends as `end` says. Checks its
// port 1 after so many slots, and what it sent by its output 0.
fn check_after<A: Abort>(
    rt: &A,
    alloc: Global,
    world: &World,
    end: Option<u64>,
    slots: u64,
    held: (Option<u32>, Option<u32>, u8, u8),
    sent: Option<(u64, Option<u32>)>,
) -> Result<(), Fail>
    requires sound { IsSoundCatalog world.now }
    requires two { length world.now.catalog ≡ 2 }
    requires bounded { slots ≤ 1000 }
{
    let first = granted(FIRST, 0, end);
    let second = granted(SECOND, 1, None);
    let done = fed(rt, alloc, world, first, second, slots, 4)?;
    check_port(rt, world, &done.tile, 1, held);
    check_port(rt, world, &done.tile, 0, (None, None, 0, 0));
    check_sent(rt, &done, sent);
    Ok(())
}

// Checks the slot and the word that a tile sent by its output 0, with no credits, and that each was counted.
fn check_sent<A: Abort>(rt: &A, done: &FedTile, sent: Option<(u64, Option<u32>)>) {
    let was = done
        .sent
        .map(|(slot, flit)| (slot, flit.word, flit.credits));
    assert_eq!(rt; was, sent.map(|(slot, word)| (slot, word, 0)));
    let carried = u64::from(sent.is_some());
    assert_eq!(rt; (done.tile.carried(0), done.tile.carried(1)), (carried, 0));
}

#[test]
fn sends_and_receives_in_its_slots(rt: HostRuntime) -> Result<(), Fail> {
    let alloc = rt.alloc();
    let world = joined(alloc)?;
    // The word is put in cycle 76, which is in slot 9, and waits for slot 14. From slot 4 on input 1 brings
    // words, of which that of slot 11 is delivered.
    let word = Some(0x8000_0000);
    check_after(&rt, alloc, &world, None, 11, (word, None, 0, 8), None)?;
    check_after(&rt, alloc, &world, None, 14, (word, Some(11), 1, 8), None)?;
    // The flit is put on output 0 in slot 14, for slot 15.
    let held = (None, Some(11), 1, 7);
    check_after(&rt, alloc, &world, None, 15, held, Some((14, word)))?;
    // A part that leaves in slot 14 sends nothing then, and its port has no credit.
    let held = (None, None, 0, 0);
    check_after(&rt, alloc, &world, Some(14), 20, held, None)?;
    Ok(())
}
