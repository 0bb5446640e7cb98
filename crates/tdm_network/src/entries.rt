//! What stands in a place of a table.

ghost use Rattle.std.specs.Prelude.{◌≡◌};
ghost use Rattle.soc_base.specs.Label.{same_label};
ghost use Rattle.tdm_network.specs.Rows.{kept};

use soc_base::Label;

/// Where an output takes its flit from.
#[derive(Clone, Copy, Debug, PartialEq, Eq)]
pub enum Source {
    /// From the tile's own network interface: the flit that it injects.
    Local,
    /// From an input of the router, numbered from 0 to 6.
    Input(u8),
}

/// An entry of a tile's slot tables and its place. Slots are below the number of table slots, outputs and
/// inputs below 7, ports below 16.
#[derive(Clone, Copy, Debug, PartialEq, Eq)]
pub enum TableEntry {
    /// In the slot, the port injects.
    Inject {
        /// The slot, by which the entry is found.
        slot: u8,
        /// The port of the tile.
        port: u8,
    },
    /// In the slot, the output carries the flit of the source.
    Out {
        /// The output of the router.
        out: u8,
        /// The slot in which the flit is on the output's link.
        slot: u8,
        /// Where it comes from in the slot before.
        source: Source,
    },
    /// In the slot, the flit on the input is delivered to the port.
    Deliver {
        /// The slot in which the flit is on the input's link.
        slot: u8,
        /// The input of the router.
        input: u8,
        /// The port of the tile.
        port: u8,
    },
}

impl TableEntry {
    ghost use Rattle.tdm_network.specs.Rows.{slot_of};

    /// Answers the slot by which the entry is found.
    pub fn slot(self) -> u8
        ensures { result ≡ slot_of self }
    {
        match self {
            TableEntry::Inject { slot, port: _ } => slot,
            TableEntry::Out {
                out: _,
                slot,
                source: _,
            } => slot,
            TableEntry::Deliver {
                slot,
                input: _,
                port: _,
            } => slot,
        }
    }
}

/// What is delivered where: the flit of an input of the router, to a port of the tile.
#[derive(Clone, Copy, Debug, PartialEq, Eq)]
pub struct Arrival {
    /// The input, from 0 to 6.
    pub input: u8,
    /// The port of the tile.
    pub port: u8,
}

/// What a place of a table holds: the label that holds the place, and what the place is for.
#[derive(Clone, Copy, Debug, PartialEq, Eq)]
pub struct Entry<X> {
    /// The load that holds the place.
    pub label: Label,
    /// What it is for.
    pub what: X,
}

// Whether two labels are one.
fn same_label(one: Label, other: Label) -> bool
    ensures { result ≡ same_label one other }
{
    one.session == other.session && one.load == other.load
}

// A place without what the label has there.
pub(crate) fn kept<X: Copy>(label: Label, place: Option<Entry<X>>) -> Option<Entry<X>>
    ensures { result ≡ kept label place }
{
    let entry = place?;
    if same_label(entry.label, label) {
        None
    } else {
        Some(entry)
    }
}
