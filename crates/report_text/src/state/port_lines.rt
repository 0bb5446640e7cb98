//! The ports of a tile.

ghost use Rattle.std.specs.Prelude.{◌≡◌, ◌+◌, ◌<◌, ◌≤◌, [], ◌++◌, codes, decimal, get_or, length};
ghost use Rattle.std.specs.List.{flat_map, range_with_len};
ghost use Rattle.std.specs.Option.{option_map_or};
ghost use Rattle.arrayvec.specs.ArrayString.{array_string_len};
ghost use Rattle.tile_mmio.specs.Ports.{no_port};
ghost use Rattle.report_text.specs.State.{port_line, port_text, ports_text, queued_line};
ghost use Rattle.report_text.specs.inner.Made.{IsMade};
ghost use Rattle.soc_io.specs.Printing.{PrintsMore};

use crate::commands::push_pair;
use ni_port::Port;
use platform_model::Platform;
use soc_base::{Line, push_hex, push_number};
use soc_io::{Printer, Sink};
use tile_core::Tile;

// Appends a word and a number below 256, at most 40 bytes in all.
fn push_count(line: &mut Line, word: &str, count: u8)
    requires room { array_string_len line.old + 40 ≤ 512 }
    requires short { length word.now ≤ 20 }
    ensures text { line.new.bytes ≡ line.old.bytes ++ word.now ++ decimal count }
    ensures len { array_string_len line.new ≤ array_string_len line.old + 40 }
{
    line.push_str(word);
    push_number(line, u64::from(count));
}

/// Makes the line of a port with queues of `queue` words.
#[tactic(auto, unfolding(crate::specs::State::port_line))]
pub fn port_line(tile: u8, number: u8, port: &Port, queue: u8) -> Line
    requires { port.now.queue ≡ queue }
    ensures { result.bytes ≡ port_line tile number port.now }
{
    let mut line = Line::new();
    line.push_str("port ");
    push_pair(&mut line, u64::from(tile), u64::from(number));
    push_count(&mut line, " send ", queue - port.room());
    push_count(&mut line, " recv ", port.fill());
    push_count(&mut line, " credit ", port.credit());
    push_count(&mut line, " owed ", port.owed());
    line.push_str("\n");
    line
}

/// Makes the line of a word that waits in a queue of a port.
#[tactic(auto, unfolding(crate::specs::State::queued_line))]
pub fn queued_line(queue: &str, tile: u8, number: u8, word: u32) -> Line
    requires { length queue.now ≤ 20 }
    ensures { result.bytes ≡ queued_line queue.now tile number word }
{
    let mut line = Line::new();
    line.push_str(queue);
    line.push_str(" ");
    push_pair(&mut line, u64::from(tile), u64::from(number));
    line.push_str(" ");
    push_hex(&mut line, word);
    line.push_str("\n");
    line
}

// Prints a word that waits in a queue of a port, if there is one.
#[tactic(auto, using(crate::proofs::Prints::prints_none))]
fn put_queued<S: Sink>(
    printer: &mut Printer<'_, S>,
    queue: &str,
    tile: u8,
    number: u8,
    word: Option<u32>,
)
    requires { length queue.now ≤ 20 }
    ensures printed { PrintsMore S.written S.faults printer.old printer.new (option_map_or (queued_line queue.now tile number) word []) }
    ensures same { printer.new.sink.ghost_name ≡ printer.old.sink.ghost_name }
{
    if let Some(word) = word {
        printer.put(queued_line(queue, tile, number, word).as_str().as_bytes());
    }
}

// Prints the words that wait to be sent, the oldest first.
fn put_sent<S: Sink>(printer: &mut Printer<'_, S>, tile: u8, number: u8, port: &Port, queue: u8)
    requires { port.now.queue ≡ queue }
    ensures printed { PrintsMore S.written S.faults printer.old printer.new (flat_map (queued_line (codes "sendword") tile number) port.now.port.send) }
    ensures same { printer.new.sink.ghost_name ≡ printer.old.sink.ghost_name }
{
    for place in 0..queue - port.room() {
        put_queued(printer, "sendword", tile, number, port.send_word(place));
    }
}

// Prints the words that were received, the oldest first.
fn put_received<S: Sink>(printer: &mut Printer<'_, S>, tile: u8, number: u8, port: &Port)
    ensures printed { PrintsMore S.written S.faults printer.old printer.new (flat_map (queued_line (codes "recvword") tile number) port.now.port.recv) }
    ensures same { printer.new.sink.ghost_name ≡ printer.old.sink.ghost_name }
{
    for place in 0..port.fill() {
        put_queued(printer, "recvword", tile, number, port.recv_word(place));
    }
}

// Prints a port of a tile, with queues of `queue` words.
fn put_port<S: Sink>(printer: &mut Printer<'_, S>, tile: u8, number: u8, port: &Port, queue: u8)
    requires { port.now.queue ≡ queue }
    ensures printed { PrintsMore S.written S.faults printer.old printer.new (port_text tile number port.now) }
    ensures same { printer.new.sink.ghost_name ≡ printer.old.sink.ghost_name }
{
    printer.put(port_line(tile, number, port, queue).as_str().as_bytes());
    put_sent(printer, tile, number, port, queue);
    put_received(printer, tile, number, port);
}

// Prints the port of a tile with a number.
#[tactic(auto, using(std::proofs::lemmas::Option::get_or_from_slice_get))]
fn put_numbered<S: Sink>(printer: &mut Printer<'_, S>, platform: &Platform, tile: &Tile, number: u8)
    requires made { IsMade platform.now tile.now }
    requires exists { number < platform.now.ports }
    ensures printed { PrintsMore S.written S.faults printer.old printer.new (port_text tile.now.number number (get_or tile.now.ports number no_port)) }
    ensures same { printer.new.sink.ghost_name ≡ printer.old.sink.ghost_name }
{
    put_port(
        printer,
        tile.number(),
        number,
        tile.port(number),
        platform.queue,
    );
}

/// Prints the ports of a tile.
pub fn put_ports<S: Sink>(printer: &mut Printer<'_, S>, platform: &Platform, tile: &Tile)
    requires { IsMade platform.now tile.now }
    ensures printed { PrintsMore S.written S.faults printer.old printer.new (ports_text tile.now) }
    ensures same { printer.new.sink.ghost_name ≡ printer.old.sink.ghost_name }
{
    for number in 0..platform.ports {
        put_numbered(printer, platform, tile, number);
    }
}
