//! The register file and the context frames of a tile.

ghost use Rattle.std.specs.Prelude.{◌≡◌, ◌+◌, ◌*◌, ◌<◌, ◌≤◌, ◌++◌, codes, decimal, length};
ghost use Rattle.std.specs.List.{flat_map, range_with_len};
ghost use Rattle.arrayvec.specs.ArrayString.{array_string_len};
ghost use Rattle.report_text.specs.Commands.{pair_text};
ghost use Rattle.report_text.specs.Rows.{line_end};
ghost use Rattle.report_text.specs.State.{file_line, frame_line, owner_if, owner_text, tile_line, words_text};
ghost use Rattle.soc_io.specs.Printing.{PrintsMore};

use crate::commands::{push_label, push_pair};
use crate::contexts::{file_words, frame_words};
use soc_base::{Label, Line, push_hex, push_number};
use soc_io::{Printer, Sink};
use tile_core::Tile;

/// Appends words, each in eight digits after a space: 9 bytes a word.
pub fn push_words(line: &mut Line, words: &[u32])
    requires { array_string_len line.old + 9 * length words.now ≤ 512 }
    ensures text { line.new.bytes ≡ line.old.bytes ++ words_text words.now }
    ensures len { array_string_len line.new ≤ array_string_len line.old + 9 * length words.now }
{
    for word in words {
        line.push_str(" ");
        push_hex(line, *word);
    }
}

// Appends who owns something, at most 41 bytes.
fn push_owner(line: &mut Line, owner: Option<Label>)
    requires { array_string_len line.old + 41 ≤ 512 }
    ensures text { line.new.bytes ≡ line.old.bytes ++ owner_text owner }
    ensures len { array_string_len line.new ≤ array_string_len line.old + 41 }
{
    match owner {
        Some(label) => push_label(line, label),
        None => line.push_str("none"),
    }
}

// The load of the part with a number, where there is a number.
fn owner_if(tile: &Tile, part: Option<u8>) -> Option<Label>
    ensures { result ≡ owner_if tile.now part }
{
    tile.owner(part?)
}

/// Makes the line of a tile by its number, its next slot, and the loads whose parts are held and latched.
pub fn owners_line(tile: u8, slot: u64, held: Option<Label>, next: Option<Label>) -> Line
    ensures { result.bytes ≡ codes "tile " ++ decimal tile ++ codes " slot " ++ decimal slot ++ codes " held " ++ owner_text held ++ codes " next " ++ owner_text next ++ line_end }
{
    let mut line = Line::new();
    line.push_str("tile ");
    push_number(&mut line, u64::from(tile));
    line.push_str(" slot ");
    push_number(&mut line, slot);
    line.push_str(" held ");
    push_owner(&mut line, held);
    line.push_str(" next ");
    push_owner(&mut line, next);
    line.push_str("\n");
    line
}

/// Makes the line of a tile.
#[tactic(auto, unfolding(crate::specs::State::tile_line))]
pub fn tile_line(tile: &Tile) -> Line
    ensures { result.bytes ≡ tile_line tile.now }
{
    let kernel = tile.kernel();
    let held = owner_if(tile, kernel.held());
    let next = owner_if(tile, kernel.latched());
    owners_line(tile.number(), tile.at(), held, next)
}

/// Makes the line of a register file with these words.
pub fn file_words_line(tile: u8, words: &[u32; 33]) -> Line
    ensures { result.bytes ≡ codes "file " ++ decimal tile ++ words_text words.now ++ line_end }
{
    let mut line = Line::new();
    line.push_str("file ");
    push_number(&mut line, u64::from(tile));
    push_words(&mut line, words);
    line.push_str("\n");
    line
}

/// Makes the line of a tile's register file.
#[tactic(auto, unfolding(crate::specs::State::file_line))]
pub fn file_line(tile: &Tile) -> Line
    ensures { result.bytes ≡ file_line tile.now }
{
    let words = file_words(tile.kernel());
    file_words_line(tile.number(), &words)
}

/// Makes the line of a context frame with these words.
pub fn frame_words_line(tile: u8, frame: u8, words: &[u32; 33]) -> Line
    ensures { result.bytes ≡ codes "frame " ++ pair_text tile frame ++ words_text words.now ++ line_end }
{
    let mut line = Line::new();
    line.push_str("frame ");
    push_pair(&mut line, u64::from(tile), u64::from(frame));
    push_words(&mut line, words);
    line.push_str("\n");
    line
}

// The line of a tile's context frame.
#[tactic(auto, unfolding(crate::specs::State::frame_line))]
fn frame_line(tile: &Tile, frame: u8) -> Line
    requires { frame < tile.now.kernel.times.slots }
    ensures { result.bytes ≡ frame_line tile.now frame }
{
    let words = frame_words(tile.kernel(), frame);
    frame_words_line(tile.number(), frame, &words)
}

// Prints a context frame of a tile.
fn put_frame<S: Sink>(printer: &mut Printer<'_, S>, tile: &Tile, frame: u8)
    requires { frame < tile.now.kernel.times.slots }
    ensures printed { PrintsMore S.written S.faults printer.old printer.new (frame_line tile.now frame) }
    ensures same { printer.new.sink.ghost_name ≡ printer.old.sink.ghost_name }
{
    printer.put(frame_line(tile, frame).as_str().as_bytes());
}

/// Prints the context frames of a tile.
pub fn put_frames<S: Sink>(printer: &mut Printer<'_, S>, tile: &Tile)
    ensures printed { PrintsMore S.written S.faults printer.old printer.new (flat_map (frame_line tile.now) (range_with_len 0 tile.now.kernel.times.slots)) }
    ensures same { printer.new.sink.ghost_name ≡ printer.old.sink.ghost_name }
{
    for frame in 0..tile.kernel().frame().slots {
        put_frame(printer, tile, frame);
    }
}
