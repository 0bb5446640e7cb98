//! The rows of a tile's memory.

ghost use Rattle.std.specs.Prelude.{◌≡◌, ◌+◌, ◌*◌, ◌/◌, ◌^◌, ◌<◌, ◌≤◌, ◌==◌, ◌++◌, codes, length};
ghost use Rattle.std.specs.List.{flat_map, list_all, range_with_len};
ghost use Rattle.report_text.specs.Commands.{pair_text};
ghost use Rattle.report_text.specs.Rows.{line_end};
ghost use Rattle.report_text.specs.State.{memory_line, row_words, words_text};
ghost use Rattle.soc_io.specs.Printing.{PrintsMore};

use crate::commands::push_pair;
use crate::state::context_lines::push_words;
use soc_base::Line;
use soc_io::{Printer, Sink};
use tile_core::Tile;

// The words of a row of 16 bytes.
fn row_words(tile: &Tile, row: u32) -> [u32; 4]
    requires low { row < 2 ^ 28 }
    requires inside { 16 * row + 16 ≤ length tile.now.memory }
    ensures { result ≡ row_words tile.now row }
{
    let memory = tile.memory();
    let first = 4 * row;
    [
        memory.word(first),
        memory.word(first + 1),
        memory.word(first + 2),
        memory.word(first + 3),
    ]
}

/// Makes the line of a row of memory with these words, by the address of its first byte.
pub fn row_line(tile: u8, address: u32, words: &[u32; 4]) -> Line
    ensures { result.bytes ≡ codes "mem " ++ pair_text tile address ++ words_text words.now ++ line_end }
{
    let mut line = Line::new();
    line.push_str("mem ");
    push_pair(&mut line, u64::from(tile), u64::from(address));
    push_words(&mut line, words);
    line.push_str("\n");
    line
}

// Whether all words are zero.
fn are_zero(words: &[u32; 4]) -> bool
    ensures { result ≡ list_all (λ word. word == 0) words.now }
{
    words.iter().all(|word| *word == 0)
}

// Prints a row of memory, where not all of it is zero.
#[tactic(auto, unfolding(crate::specs::State::memory_line), using(crate::proofs::Prints::prints_none))]
fn put_row<S: Sink>(printer: &mut Printer<'_, S>, tile: &Tile, row: u32)
    requires low { row < 2 ^ 28 }
    requires inside { 16 * row + 16 ≤ length tile.now.memory }
    ensures printed { PrintsMore S.written S.faults printer.old printer.new (memory_line tile.now row) }
    ensures same { printer.new.sink.ghost_name ≡ printer.old.sink.ghost_name }
{
    let words = row_words(tile, row);
    if !are_zero(&words) {
        printer.put(
            row_line(tile.number(), 16 * row, &words)
                .as_str()
                .as_bytes(),
        );
    }
}

/// Prints the rows of a tile's memory, which has so many bytes.
pub fn put_memory<S: Sink>(printer: &mut Printer<'_, S>, tile: &Tile, bytes: u32)
    requires { length tile.now.memory ≡ bytes }
    ensures printed { PrintsMore S.written S.faults printer.old printer.new (flat_map (memory_line tile.now) (range_with_len 0 (length tile.now.memory / 16))) }
    ensures same { printer.new.sink.ghost_name ≡ printer.old.sink.ghost_name }
{
    for row in 0..bytes / 16 {
        put_row(printer, tile, row);
    }
}
