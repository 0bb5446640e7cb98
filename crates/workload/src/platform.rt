//! The platform of every workload: a ring of 16 tiles.

ghost use Rattle.std.specs.Prelude.{◌≡◌, ◌+◌, ◌%◌, ◌++◌, map, IfOk, OnOk, Some};
ghost use Rattle.std.specs.List.{range_with_len};
ghost use Rattle.toml.specs.Data.{table};
ghost use Rattle.toml.specs.Parse.{parse_document};
ghost use Rattle.toml.specs.View.{view, table_view};
ghost use Rattle.workload.specs.Documents.{link_table, platform_document};

use crate::tables::{document_text, put_array, put_number};
use soc_base::{NoMemory, Text};
use std::alloc::Global;
use toml::{Table, Value};

/// The name of the platform file of a workload.
pub const PLATFORM_FILE: &str = "platform.toml";

/// The tiles of the ring.
pub const TILES: u8 = 16;

// A link from an output of a tile to the input of the same number of another tile.
fn link(alloc: Global, from: u8, to: u8, side: u8) -> Result<Value, NoMemory>
    ensures { IfOk result (λ link. view link ≡ table (link_table from to side)) }
{
    let mut link = Table::new(alloc);
    put_number(alloc, &mut link, "from", u32::from(from))?;
    put_number(alloc, &mut link, "out", u32::from(side))?;
    put_number(alloc, &mut link, "to", u32::from(to))?;
    put_number(alloc, &mut link, "input", u32::from(side))?;
    Ok(Value::Table(link))
}

// Appends the links from each tile to the next.
fn push_onward(alloc: Global, links: &mut Vec<Value>) -> Result<(), NoMemory>
    ensures { OnOk result (map view links.new.items ≡ map view links.old.items
        ++ map (λ tile. table (link_table tile ((tile + 1) % 16) 0)) (range_with_len 0 16)) }
{
    for tile in 0..TILES {
        links.push(link(alloc, tile, (tile + 1) % TILES, 0)?)?;
    }
    Ok(())
}

// Appends the links from each tile's next back to it.
fn push_backward(alloc: Global, links: &mut Vec<Value>) -> Result<(), NoMemory>
    ensures { OnOk result (map view links.new.items ≡ map view links.old.items
        ++ map (λ tile. table (link_table ((tile + 1) % 16) tile 1)) (range_with_len 0 16)) }
{
    for tile in 0..TILES {
        links.push(link(alloc, (tile + 1) % TILES, tile, 1)?)?;
    }
    Ok(())
}

// The platform as a document.
#[tactic(auto, unfolding(crate::specs::Documents::platform_document))]
fn platform_table(alloc: Global) -> Result<Table, NoMemory>
    ensures { IfOk result (λ platform. table_view platform ≡ platform_document) }
{
    let mut links = Vec::new(alloc);
    push_onward(alloc, &mut links)?;
    push_backward(alloc, &mut links)?;
    let mut platform = Table::new(alloc);
    put_number(alloc, &mut platform, "tiles", u32::from(TILES))?;
    put_number(alloc, &mut platform, "mem_bytes", 4096)?;
    put_number(alloc, &mut platform, "slot_cycles", 8)?;
    put_number(alloc, &mut platform, "table_slots", 8)?;
    put_number(alloc, &mut platform, "kernel_cycles", 72)?;
    put_number(alloc, &mut platform, "partition_cycles", 56)?;
    put_number(alloc, &mut platform, "partition_slots", 4)?;
    put_number(alloc, &mut platform, "ports", 4)?;
    put_number(alloc, &mut platform, "queue", 4)?;
    put_array(alloc, &mut platform, "link", links)?;
    Ok(platform)
}

/// Makes the text of the platform file.
#[tactic(auto, using(crate::proofs::Depths::platform_depth))]
pub fn platform_text(alloc: Global) -> Result<Text, NoMemory>
    ensures { IfOk result (λ text. parse_document text ≡ Some platform_document) }
{
    let platform = platform_table(alloc)?;
    document_text(alloc, &platform)
}
