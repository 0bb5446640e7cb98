//! The state of the tiles at the end of a run.

ghost use Rattle.std.specs.Prelude.{◌≡◌, ◌<◌, ◌++◌, codes, decimal};
ghost use Rattle.std.specs.List.{flat_map, range_with_len};
ghost use Rattle.serial_run.specs.Run.{tiles_of};
ghost use Rattle.soc_base.specs.Text.{hex_text};
ghost use Rattle.report_text.specs.Commands.{pair_text};
ghost use Rattle.report_text.specs.Rows.{line_end};
ghost use Rattle.report_text.specs.State.{carried_line, file_line, frame_line, is_linked, platform_line, state_text, tile_line, tile_text};
ghost use Rattle.report_text.specs.inner.Made.{AreMade, IsMade};
ghost use Rattle.soc_io.specs.Printing.{PrintsMore};

/// The register file and the context frames of a tile.
pub(crate) mod context_lines;
/// The rows of a tile's memory.
pub(crate) mod memory_lines;
/// The ports of a tile.
pub(crate) mod port_lines;
/// The slot tables of a tile.
pub(crate) mod table_lines;

use crate::commands::push_pair;
use crate::sum::platform_sum;
use context_lines::{file_line, put_frames, tile_line};
use memory_lines::put_memory;
use platform_model::Platform;
use port_lines::put_ports;
use soc_base::{Line, push_hex, push_number};
use soc_io::{Printer, Sink};
use table_lines::put_tables;
use tile_core::{Station, Tile};

/// Makes the line of the sum over all tiles.
pub(crate) fn sum_line(sum: u32) -> Line
    ensures { result.bytes ≡ codes "platform " ++ hex_text sum ++ line_end }
{
    let mut line = Line::new();
    line.push_str("platform ");
    push_hex(&mut line, sum);
    line.push_str("\n");
    line
}

/// Prints the line of the sum over the tiles of a platform.
pub fn put_sum<S: Sink>(printer: &mut Printer<'_, S>, platform: &Platform, stations: &[Station])
    requires { AreMade platform.now stations.now }
    ensures printed { PrintsMore S.written S.faults printer.old printer.new (platform_line (tiles_of stations.now)) }
    ensures same { printer.new.sink.ghost_name ≡ printer.old.sink.ghost_name }
{
    let sum = platform_sum(platform, stations);
    printer.put(sum_line(sum).as_str().as_bytes());
}

// Whether a link leaves an output of a tile.
fn is_linked(platform: &Platform, tile: u8, out: u8) -> bool
    ensures { result ≡ is_linked platform.now tile out }
{
    platform
        .links
        .as_slice()
        .iter()
        .any(|link| link.from == tile && link.out == out)
}

/// Makes the line of how many flits an output carried.
pub(crate) fn flits_line(tile: u8, out: u8, flits: u64) -> Line
    ensures { result.bytes ≡ codes "carried " ++ pair_text tile out ++ codes " " ++ decimal flits ++ line_end }
{
    let mut line = Line::new();
    line.push_str("carried ");
    push_pair(&mut line, u64::from(tile), u64::from(out));
    line.push_str(" ");
    push_number(&mut line, flits);
    line.push_str("\n");
    line
}

// Prints how many flits an output carried, where a link leaves it.
#[tactic(auto, unfolding(crate::specs::State::carried_line), using(crate::proofs::Prints::prints_none))]
fn put_output<S: Sink>(printer: &mut Printer<'_, S>, platform: &Platform, tile: &Tile, out: u8)
    requires { out < 7 }
    ensures printed { PrintsMore S.written S.faults printer.old printer.new (carried_line platform.now tile.now out) }
    ensures same { printer.new.sink.ghost_name ≡ printer.old.sink.ghost_name }
{
    let number = tile.number();
    if is_linked(platform, number, out) {
        printer.put(
            flits_line(number, out, tile.carried(out))
                .as_str()
                .as_bytes(),
        );
    }
}

// Prints how many flits each output carried that a link leaves.
fn put_carried<S: Sink>(printer: &mut Printer<'_, S>, platform: &Platform, tile: &Tile)
    ensures printed { PrintsMore S.written S.faults printer.old printer.new (flat_map (carried_line platform.now tile.now) (range_with_len 0 7)) }
    ensures same { printer.new.sink.ghost_name ≡ printer.old.sink.ghost_name }
{
    for out in 0..7u8 {
        put_output(printer, platform, tile, out);
    }
}

// Prints a tile, its register file and its frames.
fn put_core<S: Sink>(printer: &mut Printer<'_, S>, tile: &Tile)
    ensures printed { PrintsMore S.written S.faults printer.old printer.new (tile_line tile.now ++ file_line tile.now ++ flat_map (frame_line tile.now) (range_with_len 0 tile.now.kernel.times.slots)) }
    ensures same { printer.new.sink.ghost_name ≡ printer.old.sink.ghost_name }
{
    printer.put(tile_line(tile).as_str().as_bytes());
    printer.put(file_line(tile).as_str().as_bytes());
    put_frames(printer, tile);
}

/// Prints the state of a tile.
pub(crate) fn put_tile<S: Sink>(printer: &mut Printer<'_, S>, platform: &Platform, tile: &Tile)
    requires { IsMade platform.now tile.now }
    ensures printed { PrintsMore S.written S.faults printer.old printer.new (tile_text platform.now tile.now) }
    ensures same { printer.new.sink.ghost_name ≡ printer.old.sink.ghost_name }
{
    put_core(printer, tile);
    put_memory(printer, tile, platform.mem_bytes);
    put_tables(printer, tile, platform.table_slots);
    put_ports(printer, platform, tile);
    put_carried(printer, platform, tile);
}

/// Prints the state of the tiles of a platform, in their order. Takes no memory.
pub fn put_state<S: Sink>(printer: &mut Printer<'_, S>, platform: &Platform, stations: &[Station])
    requires { AreMade platform.now stations.now }
    ensures printed { PrintsMore S.written S.faults printer.old printer.new (state_text platform.now (tiles_of stations.now)) }
    ensures same { printer.new.sink.ghost_name ≡ printer.old.sink.ghost_name }
{
    for station in stations {
        put_tile(printer, platform, &station.tile);
    }
}
