//! Links of larger platforms as texts, and bundles over them.

use crate::texts::{PairText, PartText, joined, pair, part};
use std::alloc::{AllocError, Global};

// Appends a link.
fn add_link(
    alloc: Global,
    text: &mut String,
    from: (u8, u8),
    to: (u8, u8),
) -> Result<(), AllocError> {
    let ((from, out), (to, input)) = (from, to);
    let link = format!(in alloc;
        "[[link]]\nfrom = {from}\nout = {out}\nto = {to}\ninput = {input}\n"
    )?;
    text.push_str(link.as_str())
}

/// A ring of so many tiles both ways: link i leads from tile i to the next, and link `tiles + i` back.
pub fn ring(alloc: Global, tiles: u8) -> Result<String, AllocError> {
    let mut text = String::new(alloc);
    for tile in 0..tiles {
        add_link(alloc, &mut text, (tile, 0), ((tile + 1) % tiles, 0))?;
    }
    for tile in 0..tiles {
        add_link(alloc, &mut text, ((tile + 1) % tiles, 1), (tile, 1))?;
    }
    Ok(text)
}

/// Tiles 0 to 6 round tile 7: link 2i leads from tile i to the hub's input i, link 2i + 1 from its output i
/// back.
pub fn hub(alloc: Global) -> Result<String, AllocError> {
    let mut text = String::new(alloc);
    for tile in 0..7 {
        add_link(alloc, &mut text, (tile, 0), (7, tile))?;
        add_link(alloc, &mut text, (7, tile), (tile, 0))?;
    }
    Ok(text)
}

// The image of a part that sends a number from 0 to 9: it stores it in the sixth of its running cycles.
fn sending(alloc: Global, number: u8) -> Result<String, AllocError> {
    format!(in alloc; "9302{number}000370300802320531073000000")
}

/// A word, the number of the tile and 1, from one of the tiles round the hub over the hub to the next one.
/// All these channels inject in one slot.
pub fn across_hub(alloc: Global, tile: u8) -> Result<String, AllocError> {
    let tile = tile % 7;
    let next = (tile + 1) % 7;
    let image = sending(alloc, tile + 1)?;
    let sender = PartText {
        tile,
        slots: "0",
        base: 0,
        kinds: "\"send\"",
        ports: "0",
        image: image.as_str(),
    };
    // It receives at port 1.
    let receiver = PartText {
        tile: next,
        slots: "1",
        base: 64,
        kinds: "\"recv\"",
        ports: "1",
        image: "370300808322431073000000",
    };
    let (to_hub, from_hub) = (2 * tile, 2 * next + 1);
    let there = format!(in alloc; "{to_hub}, {from_hub}")?;
    let (to_hub, from_hub) = (2 * next, 2 * tile + 1);
    let back = format!(in alloc; "{to_hub}, {from_hub}")?;
    let channels = PairText {
        a: (tile, 0),
        b: (next, 1),
        there: (there.as_str(), "1"),
        back: (back.as_str(), "5"),
    };
    joined(alloc, sender, receiver, channels)
}

// The numbers `first`, `first + by` and so on, so many of them, as a list in a file.
fn numbers(alloc: Global, first: u8, by: u8, count: u8) -> Result<String, AllocError> {
    let mut text = format!(in alloc; "{first}")?;
    for n in 1..count {
        let number = u32::from(first) + u32::from(by) * u32::from(n);
        let next = format!(in alloc; ", {number}")?;
        text.push_str(next.as_str())?;
    }
    Ok(text)
}

/// One word round a ring of 17 tiles by its first 16 links, from tile 0 to tile 16, by injection slot 3.
pub fn round(alloc: Global) -> Result<String, AllocError> {
    let sender = PartText {
        tile: 0,
        slots: "0",
        base: 0,
        kinds: "\"send\"",
        ports: "0",
        image: "370300802320631073000000",
    };
    let receiver = PartText {
        tile: 16,
        slots: "0, 1",
        kinds: "\"recv\"",
        image: "370300808322431073000000",
        ..sender
    };
    let path = numbers(alloc, 0, 1, 16)?;
    let channels = PairText {
        a: (0, 0),
        b: (16, 0),
        there: (path.as_str(), "3"),
        back: ("16", "0"),
    };
    joined(alloc, sender, receiver, channels)
}

// The numbers of an application with a partition slot and a port of one number on two tiles, as in a file:
// that number, and where its regions begin.
fn owned(alloc: Global, number: u8) -> Result<(String, u16), AllocError> {
    let own = format!(in alloc; "{number}")?;
    Ok((own, 64 * u16::from(number)))
}

/// Four times a number from 0 to 7 from tile 0 to tile 1 of a ring of 32 tiles, by every eighth of 64
/// slots. Eight of these applications have all slots of the link between the two tiles.
pub fn eighth(alloc: Global, number: u8) -> Result<String, AllocError> {
    let number = number % 8;
    let (own, base) = owned(alloc, number)?;
    let image = format!(in alloc;
        "9302{number}000370300802320531023205310232053102320531073000000"
    )?;
    let sender = PartText {
        tile: 0,
        slots: own.as_str(),
        base,
        kinds: "\"send\"",
        ports: own.as_str(),
        image: image.as_str(),
    };
    let receiver = PartText {
        tile: 1,
        kinds: "\"recv\"",
        image: "370300808322431083224310832243108322431073000000",
        ..sender
    };
    let slots = numbers(alloc, number, 8, 8)?;
    let channels = PairText {
        a: (0, number),
        b: (1, number),
        there: ("0", slots.as_str()),
        back: ("32", own.as_str()),
    };
    joined(alloc, sender, receiver, channels)
}

/// An application in partition slot 8 whose channel from tile 31 to tile 1 wants that link in slot 2.
pub fn ninth(alloc: Global) -> Result<String, AllocError> {
    let sender = PartText {
        tile: 31,
        slots: "8",
        base: 512,
        kinds: "\"send\"",
        ports: "8",
        image: "73000000",
    };
    let receiver = PartText { tile: 1, ..sender };
    let channels = PairText {
        a: (31, 8),
        b: (1, 8),
        there: ("31, 0", "0"),
        back: ("32, 63", "16"),
    };
    joined(alloc, sender, receiver, channels)
}

// The text of the pair from port 0 of a tile of a ring of 32 to port 1 of the next one.
fn to_next(alloc: Global, tile: u8) -> Result<String, AllocError> {
    let (tile, next) = (tile % 32, (tile % 32 + 1) % 32);
    let (there, back) = (format!(in alloc; "{tile}")?, 32 + tile);
    let back = format!(in alloc; "{back}")?;
    let channels = PairText {
        a: (tile, 0),
        b: (next, 1),
        there: (there.as_str(), "1"),
        back: (back.as_str(), "5"),
    };
    pair(alloc, channels)
}

/// An application with a part on each of 32 tiles in a ring, each with a pair to either neighbour: that on
/// tile 0 sends a word, each other adds 1 and sends it on, and tile 0 receives what comes round.
pub fn token(alloc: Global) -> Result<String, AllocError> {
    let first = PartText {
        tile: 0,
        slots: "0",
        base: 0,
        kinds: "\"send\", \"recv\"",
        ports: "0, 1",
        image: "37030080232063108322431173000000",
    };
    let mut text = format!(in alloc; "version = 1\n")?;
    text.push_str(part(alloc, first)?.as_str())?;
    for tile in 1..32 {
        let other = PartText {
            tile,
            image: "3703008083224311938212002320531073000000",
            ..first
        };
        text.push_str(part(alloc, other)?.as_str())?;
    }
    for tile in 0..32 {
        text.push_str(to_next(alloc, tile)?.as_str())?;
    }
    Ok(text)
}
