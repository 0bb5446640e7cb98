//! Platforms at the limits: every input and output of a router busy in one slot, the longest path, all slots
//! of a link claimed, and an application with a part on each of 32 tiles.

ghost use Rattle.std.specs.Prelude.{IfOk};
ghost use Rattle.vep_manager.specs.Setup.{IsSound};

use crate::checks::{check_log, checked_run, halt, label, row, tile_of};
use crate::meshes::{across_hub, eighth, hub, ninth, ring, round, token};
use crate::setups::{files_of, read, setup_of};
use crate::texts::{Shape, platform, small};
use bundle_model::Resource;
use serial_run::RunEnd;
use soc_io::MemFiles;
use std::alloc::Global;
use std::process::Abort;
use std::test::Fail;
use tile_core::Tile;
use trace_log::Kind;
use vep_manager::{Reply, Setup};

// How many flits other than idle each output carried.
fn outputs(tile: &Tile) -> [u64; 7] {
    let mut counts = [0; 7];
    for out in 0..7u8 {
        counts[usize::from(out)] = tile.carried(out);
    }
    counts
}

// Adds a bundle file that is named by a number, and its load from cycle 0 on.
fn add_load(
    alloc: Global,
    files: &mut MemFiles,
    script: &mut String,
    number: u8,
    text: &str,
) -> Result<(), Fail> {
    let name = format!(in alloc; "{number}.toml")?;
    files.add(name.as_str(), text.as_bytes())?;
    script.push_str(format!(in alloc; "load {number}.toml at 0\n")?.as_str())?;
    Ok(())
}

// Seven applications whose channels cross one hub, up to a cycle.
fn round_a_hub<A: Abort>(rt: &A, alloc: Global, budget: u64) -> Result<Setup, Fail>
    ensures { IfOk result IsSound }
{
    let platform = small(alloc, 8, hub(alloc)?.as_str())?;
    let mut files = files_of(alloc, platform.as_str(), &[])?;
    let mut script = String::new(alloc);
    for tile in 0..7 {
        let text = across_hub(alloc, tile)?;
        add_load(alloc, &mut files, &mut script, tile, text.as_str())?;
    }
    read(rt, alloc, &mut files, &[script.as_str()], budget)
}

// Checks the logs of the application that sends from a tile round the hub to the next one.
fn check_across<A: Abort>(rt: &A, end: &RunEnd, tile: u8) {
    let tile = tile % 7;
    let next = (tile + 1) % 7;
    let load = label(1, u16::from(tile) + 1);
    let value = u32::from(tile) + 1;
    let sent = row(77, tile, Kind::Send, value);
    check_log(rt, tile_of(rt, end, tile), load, &[sent], halt(78));
    let received = row(204, next, Kind::Recv, value);
    check_log(rt, tile_of(rt, end, next), load, &[received], halt(205));
}

#[test]
fn every_way_through_a_router(rt: HostRuntime) -> Result<(), Fail> {
    let alloc = rt.alloc();
    // All words are stored in slot 9 and injected in slot 17, are on their way to the hub in slot 18 and
    // from it in slot 19. They are received in slot 25, and their credits injected in slot 29. Cases: how many
    // slots are done, and how many flits each output of the hub carried then and carries next.
    let cases: [(u8, u64); 5] = [(18, 0), (19, 1), (30, 1), (31, 2), (64, 2)];
    for (slots, each) in cases {
        let setup = round_a_hub(&rt, alloc, u64::from(slots) * 8)?;
        let end = checked_run(&rt, alloc, &setup, 7)?;
        let counts = outputs(tile_of(&rt, &end, 7));
        assert_eq!(rt; counts, [each; 7], "after {slots} slots");
        if slots == 64 {
            for tile in 0..7 {
                check_across(&rt, &end, tile);
            }
        }
    }
    Ok(())
}

#[test]
fn the_longest_path(rt: HostRuntime) -> Result<(), Fail> {
    let alloc = rt.alloc();
    let shape = Shape {
        tiles: 17,
        table_slots: 32,
        partition_slots: 2,
        ports: 1,
    };
    let platform = platform(alloc, shape, ring(alloc, 17)?.as_str())?;
    let text = round(alloc)?;
    let files = [("round.toml", text.as_str())];
    let scripts = ["load round.toml at 0\n"];
    let setup = setup_of(&rt, alloc, platform.as_str(), &files, &scripts, 512)?;
    let end = checked_run(&rt, alloc, &setup, 1)?;
    // Stored in slot 9, injected in slot 35, and there after slot 51, when its part doesn't run.
    let sent = row(76, 0, Kind::Send, 0x8000_0000);
    check_log(&rt, tile_of(&rt, &end, 0), label(1, 1), &[sent], halt(77));
    let received = row(456, 16, Kind::Recv, 0x8000_0000);
    check_log(
        &rt,
        tile_of(&rt, &end, 16),
        label(1, 1),
        &[received],
        halt(457),
    );
    Ok(())
}

// A ring of 32 tiles with slot tables of 64 rows, and nine applications that want one link.
fn whole_link<A: Abort>(rt: &A, alloc: Global) -> Result<Setup, Fail>
    ensures { IfOk result IsSound }
{
    let shape = Shape {
        tiles: 32,
        table_slots: 64,
        partition_slots: 9,
        ports: 9,
    };
    let platform = platform(alloc, shape, ring(alloc, 32)?.as_str())?;
    let mut files = files_of(alloc, platform.as_str(), &[])?;
    let mut script = String::new(alloc);
    for number in 0..8 {
        let text = eighth(alloc, number)?;
        add_load(alloc, &mut files, &mut script, number, text.as_str())?;
    }
    let text = ninth(alloc)?;
    add_load(alloc, &mut files, &mut script, 8, text.as_str())?;
    read(rt, alloc, &mut files, &[script.as_str()], 2688)
}

#[test]
fn all_slots_of_a_link(rt: HostRuntime) -> Result<(), Fail> {
    let alloc = rt.alloc();
    let setup = whole_link(&rt, alloc)?;
    let end = checked_run(&rt, alloc, &setup, 8)?;
    // Four words of each of eight applications. Where the first comes in the instance in which it was sent,
    // which is so for four of them, its credit goes back before the others'.
    assert_eq!(rt; outputs(tile_of(&rt, &end, 0)), [32, 0, 0, 0, 0, 0, 0]);
    assert_eq!(rt; outputs(tile_of(&rt, &end, 1)), [0, 12, 0, 0, 0, 0, 0]);
    let Some(last) = end.history.get(8) else {
        panic!(rt; "no ninth command");
    };
    // Slot 2 of the link is of the channel that injects in slot 1.
    let taken = Reply::Taken {
        resource: Resource::LinkSlot { link: 0, slot: 2 },
        owner: label(1, 2),
        free_from: None,
    };
    assert_eq!(rt; last.reply, taken);
    Ok(())
}

#[test]
fn a_part_on_each_tile(rt: HostRuntime) -> Result<(), Fail> {
    let alloc = rt.alloc();
    let shape = Shape {
        tiles: 32,
        table_slots: 8,
        partition_slots: 1,
        ports: 2,
    };
    let platform = platform(alloc, shape, ring(alloc, 32)?.as_str())?;
    let text = token(alloc)?;
    let files = [("token.toml", text.as_str())];
    let scripts = ["load token.toml at 0\n"];
    let setup = setup_of(&rt, alloc, platform.as_str(), &files, &scripts, 4608)?;
    let end = checked_run(&rt, alloc, &setup, 1)?;
    let Some(log) = tile_of(&rt, &end, 0).log(label(1, 1)) else {
        panic!(rt; "no log");
    };
    // 31 of the 32 tiles added 1.
    let mut values = Vec::new(alloc);
    for row in log.rows() {
        values.push((row.kind, row.value))?;
    }
    let round = [(Kind::Send, 0x8000_0000), (Kind::Recv, 0x8000_001f)];
    assert_eq!(rt; values.as_slice(), round.as_slice());
    Ok(())
}
