//! The slot tables of a tile.

ghost use Rattle.std.specs.Prelude.{◌≡◌, ◌+◌, ◌<◌, ◌≤◌, ◌++◌, length};
ghost use Rattle.std.specs.List.{flat_map, range_with_len};
ghost use Rattle.arrayvec.specs.ArrayString.{array_string_len};
ghost use Rattle.report_text.specs.State.{entry_role_text, place_line, source_text, table_text, tables_text};
ghost use Rattle.report_text.specs.inner.Places.{place_text};
ghost use Rattle.soc_io.specs.Printing.{PrintsMore};

use crate::commands::{push_label, push_pair};
use soc_base::{Label, Line, push_number};
use soc_io::{Printer, Sink};
use tdm_network::{Source, TableEntry};
use tile_core::Tile;

// Appends where an output takes its flit from, at most 23 bytes.
fn push_source(line: &mut Line, source: Source)
    requires { array_string_len line.old + 23 ≤ 512 }
    ensures text { line.new.bytes ≡ line.old.bytes ++ source_text source }
    ensures len { array_string_len line.new ≤ array_string_len line.old + 23 }
{
    match source {
        Source::Local => line.push_str("local"),
        Source::Input(input) => {
            line.push_str("in ");
            push_number(line, u64::from(input));
        }
    }
}

// Appends what an entry of a tile's slot tables says, at most 110 bytes.
fn push_role(line: &mut Line, tile: u8, entry: TableEntry)
    requires { array_string_len line.old + 110 ≤ 512 }
    ensures text { line.new.bytes ≡ line.old.bytes ++ entry_role_text tile entry }
    ensures len { array_string_len line.new ≤ array_string_len line.old + 110 }
{
    let tile = u64::from(tile);
    match entry {
        TableEntry::Inject { slot, port } => {
            line.push_str("inject ");
            push_pair(line, tile, u64::from(slot));
            line.push_str(" ");
            push_number(line, u64::from(port));
        }
        TableEntry::Out { out, slot, source } => {
            line.push_str("out ");
            push_pair(line, tile, u64::from(out));
            line.push_str(" ");
            push_number(line, u64::from(slot));
            line.push_str(" ");
            push_source(line, source);
        }
        TableEntry::Deliver { slot, input, port } => {
            line.push_str("deliver ");
            push_pair(line, tile, u64::from(slot));
            line.push_str(" ");
            push_pair(line, u64::from(input), u64::from(port));
        }
    }
}

/// Makes the line of an occupied place of a tile's slot tables.
#[tactic(auto, unfolding(crate::specs::State::place_line))]
pub fn place_line(tile: u8, label: Label, entry: TableEntry) -> Line
    ensures { result.bytes ≡ place_line tile label entry }
{
    let mut line = Line::new();
    push_role(&mut line, tile, entry);
    line.push_str(" ");
    push_label(&mut line, label);
    line.push_str("\n");
    line
}

// Prints a place of a tile's slot tables, where it is occupied.
#[tactic(auto, using(crate::proofs::Prints::prints_none))]
fn put_place<S: Sink>(printer: &mut Printer<'_, S>, tile: &Tile, table: u8, row: u8, slot: u8)
    requires table { table < 3 }
    requires row { row < 7 }
    requires slot { slot < length tile.now.tables }
    ensures printed { PrintsMore S.written S.faults printer.old printer.new (place_text tile.now table row slot) }
    ensures same { printer.new.sink.ghost_name ≡ printer.old.sink.ghost_name }
{
    if let Some((label, entry)) = tile.tables().place(table, row, slot) {
        printer.put(place_line(tile.number(), label, entry).as_str().as_bytes());
    }
}

// Prints the occupied places of a table, or of one output's row of it, by ascending slots.
fn put_table<S: Sink>(printer: &mut Printer<'_, S>, tile: &Tile, slots: u8, table: u8, row: u8)
    requires table { table < 3 }
    requires row { row < 7 }
    requires slots { length tile.now.tables ≡ slots }
    ensures printed { PrintsMore S.written S.faults printer.old printer.new (table_text tile.now table row) }
    ensures same { printer.new.sink.ghost_name ≡ printer.old.sink.ghost_name }
{
    for slot in 0..slots {
        put_place(printer, tile, table, row, slot);
    }
}

// Prints the occupied places of the outputs.
fn put_outs<S: Sink>(printer: &mut Printer<'_, S>, tile: &Tile, slots: u8)
    requires { length tile.now.tables ≡ slots }
    ensures printed { PrintsMore S.written S.faults printer.old printer.new (flat_map (table_text tile.now 1) (range_with_len 0 7)) }
    ensures same { printer.new.sink.ghost_name ≡ printer.old.sink.ghost_name }
{
    for row in 0..7u8 {
        put_table(printer, tile, slots, 1, row);
    }
}

/// Prints the occupied places of a tile's slot tables, which have so many slots.
pub fn put_tables<S: Sink>(printer: &mut Printer<'_, S>, tile: &Tile, slots: u8)
    requires { length tile.now.tables ≡ slots }
    ensures printed { PrintsMore S.written S.faults printer.old printer.new (tables_text tile.now) }
    ensures same { printer.new.sink.ghost_name ≡ printer.old.sink.ghost_name }
{
    put_table(printer, tile, slots, 0, 0);
    put_outs(printer, tile, slots);
    put_table(printer, tile, slots, 2, 0);
}
