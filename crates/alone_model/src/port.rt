//! The ports of a part, which inject and receive in the slots of their channels.

ghost use Rattle.std.specs.Prelude.{◌≡◌, ◌<◌, ◌≤◌, ◌==◌, length, map, find, IfOk};
ghost use Rattle.std.specs.List.{position, range_with_len};
ghost use Rattle.std.specs.Option.{option_copied};
ghost use Rattle.soc_base.specs.Port.{inject};
ghost use Rattle.ni_port.specs.SizedPort.{granted_sized};
ghost use Rattle.alone_model.specs.Network.{each_port, is_end, port_among};
ghost use Rattle.alone_model.specs.inner.Exchange.{leaves, after_leaving, after_arriving};

use crate::exchange::{Arrival, Sender};
use ni_port::Port;
use soc_base::{Flit, NoMemory};
use std::alloc::Global;

// A port when its application is granted.
fn granted(alloc: Global, queue: u8) -> Result<Port, NoMemory>
    requires some { 0 < queue }
    requires most { queue ≤ 63 }
    ensures { IfOk result (λ port. port ≡ granted_sized queue) }
{
    let mut port = Port::new(alloc, queue)?;
    port.reset(queue);
    Ok(port)
}

/// Makes the ports of a part when its application is granted: one for each number.
pub fn granted_ports(alloc: Global, queue: u8, numbers: &[u8]) -> Result<Vec<Port>, NoMemory>
    requires some { 0 < queue }
    requires most { queue ≤ 63 }
    ensures { IfOk result (λ ports. ports.items ≡ map (λ number. granted_sized queue) numbers.now) }
{
    let mut ports = Vec::with_capacity(alloc, numbers.len())?;
    for _number in numbers {
        ports.push_reserved(granted(alloc, queue)?);
    }
    Ok(ports)
}

/// Lists the numbers 0, 1, 2, .. below a count, which is at most 16.
#[tactic(auto, using(crate::proofs::Ports::numbers_more))]
pub fn numbers_below(alloc: Global, count: usize) -> Result<Vec<u8>, NoMemory>
    requires { count ≤ 16 }
    ensures { IfOk result (λ numbers. numbers.items ≡ range_with_len 0 count) }
{
    let mut numbers = Vec::with_capacity(alloc, count)?;
    for number in 0..count as u8 {
        numbers.push_reserved(number);
    }
    Ok(numbers)
}

// The flit that a port injects next.
#[tactic(auto, using(crate::proofs::Ports::injects_none, crate::proofs::Ports::injects_word))]
fn next_of(port: &Port) -> Flit
    ensures { result ≡ (inject port.now.port).0 }
{
    let word = if port.credit() == 0 {
        None
    } else {
        port.send_word(0)
    };
    Flit {
        word,
        credits: port.owed(),
    }
}

// The place of a number in a list.
fn place_of(numbers: &[u8], number: u8) -> Option<usize>
    ensures { result ≡ position (λ own. own == number) numbers.now }
{
    numbers.iter().position(|own| *own == number)
}

/// Answers the flit that the port with a number, among ports with these numbers, injects next; the idle one
/// where there is none.
#[tactic(auto, using(crate::proofs::Ports::among_at, crate::proofs::Ports::among_none))]
pub fn next_flit(numbers: &[u8], ports: &[Port], number: u8) -> Flit
    requires { length ports.now ≡ length numbers.now }
    ensures { result ≡ (inject (port_among numbers.now ports.now number)).0 }
{
    match place_of(numbers, number) {
        Some(place) => next_of(&ports[place]),
        None => Flit {
            word: None,
            credits: 0,
        },
    }
}

// Whether one of the senders leaves a port of a tile.
fn is_left(senders: &[Sender], tile: u8, number: u8) -> bool
    ensures { result ≡ leaves senders.now tile number }
{
    senders.iter().any(|sender| sender.from.tile == tile && sender.from.port == number)
}

// Injects from a port of a tile, where one of the senders leaves it.
fn leave(port: &mut Port, tile: u8, number: u8, senders: &[Sender])
    ensures { port.new ≡ after_leaving senders.now tile number port.old }
{
    if is_left(senders, tile, number) {
        let _flit = port.inject();
    }
}

/// Injects from the ports of a tile with these numbers that the senders leave.
pub fn leave_each(ports: &mut [Port], tile: u8, numbers: &[u8], senders: &[Sender])
    requires { length ports.old ≡ length numbers.now }
    ensures { ports.new ≡ each_port (after_leaving senders.now tile) numbers.now ports.old }
{
    for place in 0..ports.len() {
        leave(&mut ports[place], tile, numbers[place], senders);
    }
}

// The first of the arrivals at a port of a tile.
fn first_at(arrivals: &[Arrival], tile: u8, number: u8) -> Option<&Arrival>
    ensures { option_copied result ≡ find (λ arrival. is_end tile number arrival.to) arrivals.entry.now }
{
    arrivals.iter().find(|arrival| arrival.to.tile == tile && arrival.to.port == number)
}

// Delivers to a port of a tile what arrives at it.
fn arrive(port: &mut Port, tile: u8, number: u8, arrivals: &[Arrival])
    ensures { port.new ≡ after_arriving arrivals.now tile number port.old }
{
    if let Some(arrival) = first_at(arrivals, tile, number) {
        port.deliver(arrival.flit);
    }
}

/// Delivers to the ports of a tile with these numbers what arrives at them.
pub fn arrive_each(ports: &mut [Port], tile: u8, numbers: &[u8], arrivals: &[Arrival])
    requires { length ports.old ≡ length numbers.now }
    ensures { ports.new ≡ each_port (after_arriving arrivals.now tile) numbers.now ports.old }
{
    for place in 0..ports.len() {
        arrive(&mut ports[place], tile, numbers[place], arrivals);
    }
}
