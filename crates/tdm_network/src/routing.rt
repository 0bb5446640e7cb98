//! What a tile does with the flits of a slot.

ghost use Rattle.std.specs.Prelude.{◌≡◌, map, get_or, replicate};
ghost use Rattle.std.specs.Option.{option_map};
ghost use Rattle.soc_base.specs.Port.{idle};
ghost use Rattle.tdm_network.specs.Routing.{out_flit, arriving};

use crate::entries::{Arrival, Entry, Source};
use soc_base::Flit;

/// What a slot leaves: the flits of the seven outputs for the next slot, and what a port receives at the
/// end of this one.
#[derive(Clone, Copy)]
pub struct Outputs {
    /// The flit of each output, idle where its table names none.
    pub links: [Flit; 7],
    /// What is delivered, if anything.
    pub deliver: Option<Delivery>,
}

/// A flit and the port that receives it.
#[derive(Clone, Copy)]
pub struct Delivery {
    /// The port of the tile.
    pub port: u8,
    /// The flit.
    pub flit: Flit,
}

const IDLE: Flit = Flit {
    word: None,
    credits: 0,
};

impl Outputs {
    ghost use Rattle.tdm_network.specs.Routing.{no_outputs};

    // Nothing on the links, and nothing delivered.
    pub(crate) fn idle() -> Outputs
        ensures { result ≡ no_outputs }
    {
        Outputs {
            links: [IDLE; 7],
            deliver: None,
        }
    }
}

// The flit of an input. An input that the router hasn't is idle.
fn input_flit(inputs: &[Flit; 7], input: u8) -> Flit
    ensures { result ≡ get_or inputs.now input idle }
{
    match inputs.get(usize::from(input)) {
        Some(flit) => *flit,
        None => IDLE,
    }
}

// The flit of an output.
fn out_flit(inputs: &[Flit; 7], injected: Flit, place: Option<Entry<Source>>) -> Flit
    ensures { result ≡ out_flit inputs.now injected place }
{
    match place {
        None => IDLE,
        Some(entry) => match entry.what {
            Source::Local => injected,
            Source::Input(input) => input_flit(inputs, input),
        },
    }
}

// Writes the flits of the outputs.
pub(crate) fn out_flits(
    inputs: &[Flit; 7],
    injected: Flit,
    outs: &[Option<Entry<Source>>; 7],
    links: &mut [Flit; 7],
)
    ensures { links.new ≡ map (out_flit inputs.now injected) outs.now }
{
    for out in 0..7usize {
        links[out] = out_flit(inputs, injected, outs[out]);
    }
}

// Writes idle flits.
pub(crate) fn idle_flits(links: &mut [Flit; 7])
    ensures { links.new ≡ replicate 7 idle }
{
    let idle = [IDLE; 7];
    *links = idle;
}

// What is delivered.
pub(crate) fn delivered(inputs: &[Flit; 7], place: Option<Entry<Arrival>>) -> Option<Delivery>
    ensures { result ≡ option_map (arriving inputs.now) place }
{
    let entry = place?;
    Some(Delivery {
        port: entry.what.port,
        flit: input_flit(inputs, entry.what.input),
    })
}
