//! A tile with two loads, followed over its slots, with cycles that were counted by hand.

ghost use Rattle.std.specs.Prelude.{◌≡◌, ◌≤◌, length, IfSome};
ghost use Rattle.bundle_model.specs.World.{IsSoundCatalog};

/// Two bundles, and a tile that is followed.
mod fixture;
/// Flits of ports, over two tiles.
mod network;
/// Stations that are tried by turns.
mod stations;

use crate::tile::Tile;
use bundle_model::{LoadName, World};
use fixture::{FIRST, SECOND, followed, granted, world};
use soc_base::Label;
use std::alloc::Global;
use std::process::Abort;
use std::test::Fail;
use trace_log::{Kind, PartEnd, TraceRow};

fn row(cycle: u64) -> TraceRow {
    TraceRow {
        cycle,
        value: 7,
        tile: 0,
        kind: Kind::Word,
    }
}

fn halted(cycle: u64) -> PartEnd {
    PartEnd::Halt { code: 0, cycle }
}

// Checks the log of a load's part.
fn check_log<A: Abort>(rt: &A, tile: &Tile, load: LoadName, rows: &[TraceRow], end: PartEnd) {
    let Some(log) = tile.log(load.label) else {
        panic!(rt; "no log");
    };
    assert_eq!(rt; log.rows(), rows);
    assert_eq!(rt; log.end(), end);
    assert_eq!(rt; log.cut(), 0);
}

// Checks the first words of the two regions.
fn check_words<A: Abort>(rt: &A, world: &World, tile: &Tile, first: u32, second: u32)
    requires { length tile.now.memory ≡ world.now.platform.mem_bytes }
{
    if world.platform.mem_bytes < 128 {
        panic!(rt; "a small memory");
    }
    assert_eq!(rt; tile.memory().word(0), first);
    assert_eq!(rt; tile.memory().word(16), second);
    // The byte after an image of four words and the word before the next region are zero.
    assert_eq!(rt; tile.memory().word(4), 0);
    assert_eq!(rt; tile.memory().word(15), 0);
}

// The first word of the image.
const WORD: u32 = 0x0070_0293;

// Checks the log of a load's part: it traced its word in a cycle and halted in the next, or it lives and has
// traced nothing.
fn check_traced<A: Abort>(rt: &A, tile: &Tile, load: LoadName, traced: Option<u32>) {
    match traced {
        Some(cycle) => {
            let cycle = u64::from(cycle);
            check_log(rt, tile, load, &[row(cycle)], halted(cycle + 1));
        }
        None => check_log(rt, tile, load, &[], PartEnd::Live),
    }
}

// Follows a tile over so many slots, with both loads granted from a slot on and to an end. Checks the cycles
// in which the two traced their words, and the first words of their regions.
fn check_run<A: Abort>(
    rt: &A,
    alloc: Global,
    world: &World,
    first: (u64, Option<u64>),
    second: (u64, Option<u64>),
    slots: u64,
    traced: (Option<u32>, Option<u32>),
    words: (u32, u32),
) -> Result<Tile, Fail>
    requires sound { IsSoundCatalog world.now }
    requires two { length world.now.catalog ≡ 2 }
    requires begins { IfSome first.1 (λ end. first.0 ≤ end) }
    requires follows { IfSome second.1 (λ end. second.0 ≤ end) }
    requires bounded { slots ≤ 1000 }
{
    let first = granted(FIRST, first.0, first.1);
    let second = granted(SECOND, second.0, second.1);
    let tile = followed(rt, alloc, world, first, second, slots)?;
    check_traced(rt, &tile, FIRST, traced.0);
    check_traced(rt, &tile, SECOND, traced.1);
    check_words(rt, world, &tile, words.0, words.1);
    Ok(tile)
}

#[test]
fn runs_each_load_in_its_slot(rt: HostRuntime) -> Result<(), Fail> {
    let alloc = rt.alloc();
    let world = world(alloc)?;
    let (first, second) = ((0, None), (1, None));
    check_run(&rt, alloc, &world, first, second, 0, (None, None), (0, 0))?;
    check_run(
        &rt,
        alloc,
        &world,
        first,
        second,
        1,
        (None, None),
        (WORD, 0),
    )?;
    let traced = (Some(77), Some(205));
    let tile = check_run(&rt, alloc, &world, first, second, 26, traced, (WORD, WORD))?;
    let stranger = Label {
        session: 2,
        load: 1,
    };
    assert!(rt; tile.log(stranger).is_none());
    Ok(())
}

// Checks who is installed with each number, and who is held.
fn check_owners<A: Abort>(
    rt: &A,
    tile: &Tile,
    first: Option<Label>,
    second: Option<Label>,
    held: Option<u8>,
) {
    assert_eq!(rt; tile.owner(0), first);
    assert_eq!(rt; tile.owner(1), second);
    assert_eq!(rt; tile.owner(2), None);
    assert_eq!(rt; tile.kernel().held(), held);
}

#[test]
fn holds_each_load_in_its_turn(rt: HostRuntime) -> Result<(), Fail> {
    let alloc = rt.alloc();
    let world = world(alloc)?;
    let first = granted(FIRST, 0, Some(20));
    let second = granted(SECOND, 1, None);
    let (one, two) = (Some(FIRST.label), Some(SECOND.label));
    // Slot 4 has the swap at cycle 33, and slot 20 that at cycle 161. A part that leaves is held no more.
    let slots = [
        (1, one, None, None),
        (4, one, two, None),
        (5, one, two, Some(0)),
        (20, one, two, Some(0)),
        (21, None, two, Some(1)),
        (37, None, two, None),
    ];
    for (slot, first_owner, second_owner, held) in slots {
        let tile = followed(&rt, alloc, &world, first, second, slot)?;
        check_owners(&rt, &tile, first_owner, second_owner, held);
    }
    Ok(())
}

#[test]
fn misses_the_instance_of_its_grant(rt: HostRuntime) -> Result<(), Fail> {
    let alloc = rt.alloc();
    let world = world(alloc)?;
    let traced = (Some(333), None);
    check_run(
        &rt,
        alloc,
        &world,
        (1, None),
        (17, None),
        42,
        traced,
        (WORD, WORD),
    )?;
    Ok(())
}

#[test]
fn misses_the_instance_that_it_is_granted_in(rt: HostRuntime) -> Result<(), Fail> {
    let alloc = rt.alloc();
    let world = world(alloc)?;
    // Slot 37 begins at cycle 296, among the microkernel's cycles of the instance from 256 on.
    let traced = (Some(589), Some(461));
    check_run(
        &rt,
        alloc,
        &world,
        (37, None),
        (37, None),
        80,
        traced,
        (WORD, WORD),
    )?;
    Ok(())
}

#[test]
fn leaves_at_the_end_of_its_grant(rt: HostRuntime) -> Result<(), Fail> {
    let alloc = rt.alloc();
    let world = world(alloc)?;
    // Slot 9 begins at cycle 72, and slot 26 at cycle 208.
    let (first, second) = ((0, Some(9)), (1, Some(26)));
    let traced = (None, Some(205));
    check_run(&rt, alloc, &world, first, second, 42, traced, (WORD, WORD))?;
    // A grant that ends where it begins is never installed.
    let (first, second) = ((3, Some(3)), (1, Some(25)));
    check_run(
        &rt,
        alloc,
        &world,
        first,
        second,
        42,
        (None, None),
        (0, WORD),
    )?;
    Ok(())
}
