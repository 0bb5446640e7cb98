//! The links of the core, each with the flits that were put on it and not yet taken.

ghost use Rattle.std.specs.Prelude.{◌≡◌, ◌≤◌, ◌∷◌, [], map, get_or, find, position, not, length, All, OnOk, IfOk};
ghost use Rattle.std.specs.Option.{option_map_or};
ghost use Rattle.soc_base.specs.Port.{idle};
ghost use Rattle.lockstep.specs.Lockstep.{enters};
ghost use Rattle.core_model.specs.Core.{waiting, line_inputs, is_fed, passed, fresh_line};
ghost use Rattle.event_core.specs.Core.{first_waiting};
ghost use Rattle.event_core.specs.inner.Wires.{line_of, HasRoom};

use platform_model::Link;
use soc_base::{Flit, MOST_LINKS, NoMemory};
use std::alloc::Global;
use std::collections::VecDeque;

/// A link, and the flits that were put on it and not yet taken, the oldest first.
#[derive(Drop)]
pub struct Wire {
    /// The link.
    pub link: Link,
    /// The flits.
    pub flits: VecDeque<Flit>,
}

// The flit of a link on which nothing was put.
fn idle_flit() -> Flit
    ensures { result ≡ idle }
{
    Flit {
        word: None,
        credits: 0,
    }
}

// Answers whether a wire holds a flit, if it leads to the tile.
fn is_fed(tile: u8, wire: &Wire) -> bool
    ensures { result ≡ is_fed tile (line_of wire.now) }
{
    wire.link.to != tile || !wire.flits.is_empty()
}

// The flit that the reader of a wire takes next.
fn waiting(wire: &Wire) -> Flit
    ensures { result ≡ waiting idle (line_of wire.now) }
{
    match wire.flits.front() {
        Some(flit) => *flit,
        None => idle_flit(),
    }
}

// Answers whether the wire leads to an input of a tile.
fn enters(tile: u8, input: u8, wire: &Wire) -> bool
    ensures { result ≡ enters tile input (line_of wire.now).link }
{
    wire.link.to == tile && wire.link.input == input
}

// The flit at an input of a tile.
fn input(tile: u8, input: u8, wires: &[Wire]) -> Flit
    ensures { result ≡ option_map_or (waiting idle) (find (λ line. enters tile input line.link) (map line_of wires.now)) idle }
{
    for wire in wires {
        if enters(tile, input, wire) {
            return waiting(wire);
        }
    }
    idle_flit()
}

/// Answers the flits at the inputs 0 to 6 of a tile.
pub fn inputs(tile: u8, wires: &[Wire]) -> [Flit; 7]
    ensures { result ≡ line_inputs idle (map line_of wires.now) tile }
{
    [
        input(tile, 0, wires),
        input(tile, 1, wires),
        input(tile, 2, wires),
        input(tile, 3, wires),
        input(tile, 4, wires),
        input(tile, 5, wires),
        input(tile, 6, wires),
    ]
}

// Makes room for one more flit.
fn room(wire: &mut Wire) -> Result<(), NoMemory>
    ensures same { line_of wire.new ≡ line_of wire.old }
    ensures room { OnOk result (HasRoom wire.new) }
{
    wire.flits.reserve(1)?;
    Ok(())
}

// Takes the wire's oldest flit where the tile reads it, and puts the tile's where it writes it.
fn pass(tile: u8, outputs: &[Flit; 7], wire: &mut Wire)
    requires { HasRoom wire.old }
    ensures { line_of wire.new ≡ passed idle tile outputs.now (line_of wire.old) }
{
    if wire.link.to == tile {
        wire.flits.pop_front();
    }
    if wire.link.from == tile {
        let flit = put(outputs, wire.link.out);
        wire.flits.push_back(flit).unwrap();
    }
}

// The flit of an output.
fn put(outputs: &[Flit; 7], out: u8) -> Flit
    ensures { result ≡ get_or outputs.now out idle }
{
    match outputs.get(usize::from(out)) {
        Some(flit) => *flit,
        None => idle_flit(),
    }
}

/// Makes room for one more flit on each wire.
pub fn make_room(wires: &mut [Wire]) -> Result<(), NoMemory>
    ensures same { map line_of wires.new ≡ map line_of wires.old }
    ensures room { OnOk result (All HasRoom wires.new) }
{
    for wire in wires.iter_mut() {
        room(wire)?;
    }
    Ok(())
}

/// Passes each wire's flits on in a slot of a tile.
pub fn pass_all(tile: u8, outputs: &[Flit; 7], wires: &mut [Wire])
    requires { All HasRoom wires.old }
    ensures { map line_of wires.new ≡ map (passed idle tile outputs.now) (map line_of wires.old) }
{
    for wire in wires.iter_mut() {
        pass(tile, outputs, wire);
    }
}

// A wire before the first slot.
fn fresh_wire(alloc: Global, link: Link) -> Result<Wire, NoMemory>
    ensures { IfOk result (λ wire. line_of wire ≡ fresh_line idle link) }
{
    let mut flits = VecDeque::with_capacity(alloc, 1)?;
    flits.push_back(idle_flit())?;
    Ok(Wire { link, flits })
}

/// Makes the wires of links before the first slot.
pub fn fresh_wires(alloc: Global, links: &[Link]) -> Result<Vec<Wire>, NoMemory>
    ensures { IfOk result (λ wires. map line_of wires.items ≡ map (fresh_line idle) links.now) }
{
    let mut wires = Vec::with_capacity(alloc, links.len())?;
    for link in links {
        wires.push_reserved(fresh_wire(alloc, *link)?);
    }
    Ok(wires)
}

/// Answers the number of the first link, in order, for whose flit a tile waits.
pub fn first_waiting(tile: u8, wires: &[Wire]) -> Option<u8>
    requires { length wires.now ≤ MOST_LINKS }
    ensures { result ≡ first_waiting tile (map line_of wires.now) }
{
    for number in 0..wires.len() {
        if !is_fed(tile, &wires[number]) {
            return Some(number as u8);
        }
    }
    None
}
