//! The sum over the tiles and their state, byte for byte.

ghost use Rattle.std.specs.Prelude.{◌≡◌, [], IfOk};
ghost use Rattle.bundle_model.specs.World.{IsSoundWorld};
ghost use Rattle.report_text.specs.inner.Made.{IsMade};

use crate::state::context_lines::{file_words_line, frame_words_line, owners_line};
use crate::state::memory_lines::row_line;
use crate::state::port_lines::{port_line, queued_line};
use crate::state::table_lines::place_line;
use crate::state::{flits_line, put_tile, sum_line};
use crate::summary::{parts_line, rows_line};
use bundle_model::World;
use ni_port::Port;
use platform_model::Platform;
use soc_base::{Items, Label, Line, NoMemory};
use soc_io::{MemSink, Printer};
use std::alloc::Global;
use std::process::Abort;
use std::test::Fail;
use tdm_network::{Source, TableEntry};
use tile_core::Tile;

const LABEL: Label = Label {
    session: 16,
    load: 256,
};

// Checks lines against their texts.
fn check_lines<A: Abort>(rt: &A, cases: &[(Line, &str)]) {
    for (line, text) in cases {
        assert_eq!(rt; line.as_str(), *text);
    }
}

#[test]
fn writes_lines_of_tiles(rt: HostRuntime) {
    let most = owners_line(31, u64::MAX, Some(LABEL), Some(LABEL));
    let cases = [
        (sum_line(0x80c3_2686), "platform 80c32686\n"),
        (
            owners_line(0, 0, None, None),
            "tile 0 slot 0 held none next none\n",
        ),
        (
            most,
            "tile 31 slot 18446744073709551615 held 16.256 next 16.256\n",
        ),
        (
            row_line(31, 0xf_fff0, &[u32::MAX, 0, 1, u32::MAX]),
            "mem 31 1048560 ffffffff 00000000 00000001 ffffffff\n",
        ),
        (
            row_line(0, 0, &[1, 0, 0, 0]),
            "mem 0 0 00000001 00000000 00000000 00000000\n",
        ),
        (
            flits_line(31, 6, u64::MAX),
            "carried 31 6 18446744073709551615\n",
        ),
        (
            rows_line(33_554_432, 4_722_366_482_869_645_213_664),
            "rows 33554432 cut 4722366482869645213664\n",
        ),
        (parts_line(8192, 1, 0), "parts halt 8192 fault 1 live 0\n"),
    ];
    check_lines(&rt, &cases);
}

// The greatest words of a context.
fn most_words() -> [u32; 33] {
    [u32::MAX; 33]
}

#[test]
fn writes_contexts(rt: HostRuntime) -> Result<(), Fail> {
    let alloc = rt.alloc();
    let most = most_words();
    let mut words = String::new(alloc);
    for _ in 0..33 {
        words.push_str(" ffffffff")?;
    }
    let file = format!(in alloc; "file 31{words}\n")?;
    let frame = format!(in alloc; "frame 31 15{words}\n")?;
    let cases = [
        (file_words_line(31, &most), file.as_str()),
        (frame_words_line(31, 15, &most), frame.as_str()),
    ];
    check_lines(&rt, &cases);
    Ok(())
}

#[test]
fn writes_places(rt: HostRuntime) {
    let out = |source| TableEntry::Out {
        out: 6,
        slot: 63,
        source,
    };
    let inject = TableEntry::Inject { slot: 63, port: 15 };
    let deliver = TableEntry::Deliver {
        slot: 63,
        input: 6,
        port: 15,
    };
    let cases = [
        (place_line(31, LABEL, inject), "inject 31 63 15 16.256\n"),
        (
            place_line(31, LABEL, out(Source::Local)),
            "out 31 6 63 local 16.256\n",
        ),
        (
            place_line(31, LABEL, out(Source::Input(6))),
            "out 31 6 63 in 6 16.256\n",
        ),
        (
            place_line(31, LABEL, deliver),
            "deliver 31 63 6 15 16.256\n",
        ),
    ];
    check_lines(&rt, &cases);
}

// A port with all the credit that it can have and a full send queue.
fn filled_port(alloc: Global) -> Result<Port, NoMemory>
    ensures { IfOk result (λ port. port.queue ≡ 63) }
{
    let mut port = Port::new(alloc, 63)?;
    port.reset(63);
    for word in 0..63u32 {
        let _full = port.put(word);
    }
    Ok(port)
}

// The line of port 15 of tile 31, which has queues of 63 words.
fn last_port_line(port: &Port) -> Line
    requires { port.now.queue ≡ 63 }
{
    port_line(31, 15, port, 63)
}

#[test]
fn writes_ports(rt: HostRuntime) -> Result<(), Fail> {
    let alloc = rt.alloc();
    let empty = Port::new(alloc, 63)?;
    let filled = filled_port(alloc)?;
    let cases = [
        (
            last_port_line(&empty),
            "port 31 15 send 0 recv 0 credit 0 owed 0\n",
        ),
        (
            last_port_line(&filled),
            "port 31 15 send 63 recv 0 credit 63 owed 0\n",
        ),
        (
            queued_line("sendword", 31, 15, u32::MAX),
            "sendword 31 15 ffffffff\n",
        ),
        (
            queued_line("recvword", 0, 0, 0x8000_0000),
            "recvword 0 0 80000000\n",
        ),
    ];
    check_lines(&rt, &cases);
    Ok(())
}

// The plain platform, with no bundle file.
fn plain_world(alloc: Global) -> Result<World, Fail>
    ensures { IfOk result (λ world. IsSoundWorld world []) }
{
    Ok(World {
        platform: Platform::plain(alloc)?,
        catalog: Items::new(alloc),
    })
}

// The first tile of a world, before its first slot.
#[tactic(auto, using(crate::proofs::Fresh::fresh_is_made))]
fn first_tile(alloc: Global, world: &World) -> Result<Tile, NoMemory>
    requires { IsSoundWorld world.now [] }
    ensures { IfOk result (IsMade world.now.platform) }
{
    Tile::new(alloc, world, &[], 0)
}

#[test]
fn writes_a_fresh_tile(rt: HostRuntime) -> Result<(), Fail> {
    let alloc = rt.alloc();
    let mut words = String::new(alloc);
    for _ in 0..33 {
        words.push_str(" 00000000")?;
    }
    let text = format!(in alloc;
        "tile 0 slot 0 held none next none
file 0{words}
frame 0 0{words}
frame 0 1{words}
port 0 0 send 0 recv 0 credit 0 owed 0
port 0 1 send 0 recv 0 credit 0 owed 0
"
    )?;
    let world = plain_world(alloc)?;
    let tile = first_tile(alloc, &world)?;
    let mut sink = MemSink::new(alloc, 2000, Vec::new(alloc))?;
    let mut printer = Printer::new(&mut sink);
    put_tile(&mut printer, &world.platform, &tile);
    assert!(rt; printer.finish().is_ok());
    assert_eq!(rt; sink.written(), text.as_bytes());
    Ok(())
}
