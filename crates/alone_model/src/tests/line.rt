//! Two parts at the ends of a line of tiles, which pass words on alone, with cycles that were counted by hand.

ghost use Rattle.std.specs.Prelude.{◌≤◌, ◌*◌};

use super::halted;
use crate::{AppTrace, alone};
use bundle_model::{RawBundle, RawChannel, RawPair, RawPart, check};
use platform_model::{Platform, RawLink, RawPlatform};
use soc_base::{Items, LAST_CYCLE, Text};
use std::alloc::Global;
use std::process::Abort;
use std::test::Fail;
use trace_log::{Kind, PartEnd};

// A pair of parts at the two ends of a line of tiles: the first sends words from a port of its own, and the
// second receives them. They have as many pairs as ports.
#[derive(Clone, Copy)]
struct Line {
    hops: u8,
    queue: u8,
    table_slots: u8,
    ports: u8,
    words: u8,
    // The first part's partition slots.
    slots: &'static [i64],
    // The slot before which the run ends.
    end: u16,
    // The rows: cycle and kind.
    sends: &'static [u64],
    receives: &'static [u64],
    // When the parts end; none where they are live.
    ends: [Option<u64>; 2],
}

// A line of tiles with links in both directions: link k goes from tile k, link hops + k comes back to it.
fn line_platform(alloc: Global, line: &Line) -> Result<Platform, Fail> {
    let mut raw = RawPlatform::plain(alloc);
    let hops = i64::from(line.hops);
    raw.tiles = hops + 1;
    raw.queue = i64::from(line.queue);
    raw.ports = i64::from(line.ports);
    raw.table_slots = i64::from(line.table_slots);
    for from in 0..hops {
        raw.links.push(link(from, 0, from + 1, 0))?;
    }
    for to in 0..hops {
        raw.links.push(link(to + 1, 1, to, 1))?;
    }
    Ok(Platform::check(alloc, &raw)?)
}

fn link(from: i64, out: i64, to: i64, input: i64) -> RawLink {
    RawLink {
        from,
        out,
        to,
        input,
    }
}

fn items(alloc: Global, numbers: &[i64]) -> Result<Items<i64>, Fail> {
    let mut list = Vec::new(alloc);
    list.extend_from_slice(numbers)?;
    Ok(Items::from_vec(list))
}

// The channel pair of a port, with slots of its own in both directions.
fn pair(alloc: Global, hops: u8, port: u8) -> Result<RawPair, Fail> {
    let mut there = Items::new(alloc);
    let mut back = Items::new(alloc);
    for hop in 0..hops {
        there.push(i64::from(hop))?;
        back.push(2 * i64::from(hops) - 1 - i64::from(hop))?;
    }
    Ok(RawPair {
        a: items(alloc, &[0, i64::from(port)])?,
        b: items(alloc, &[i64::from(hops), i64::from(port)])?,
        there: RawChannel {
            path: there,
            slots: items(alloc, &[1 + i64::from(port)])?,
        },
        back: RawChannel {
            path: back,
            slots: items(alloc, &[5 + i64::from(port)])?,
        },
    })
}

// A part of a line, which does one instruction over and over.
fn end_of_line(
    alloc: Global,
    tile: i64,
    slots: &[i64],
    ports: u8,
    words: u8,
    instruction: u32,
    kind: &str,
) -> Result<RawPart, Fail> {
    let mut image = vec![in alloc; 0x8000_0337]?; // lui x6, 0x80000
    for _word in 0..words {
        image.push(instruction)?;
    }
    image.push(0x0000_0073)?; // ecall
    let mut names = Items::new(alloc);
    names.push(Text::from_str(alloc, kind)?)?;
    let mut numbers = Items::new(alloc);
    for port in 0..ports {
        numbers.push(i64::from(port))?;
    }
    Ok(RawPart {
        tile,
        slots: items(alloc, slots)?,
        base: 0,
        len: 64,
        image: Some(Items::from_vec(image)),
        entry: 0,
        trace: 16,
        kinds: names,
        ports: numbers,
    })
}

// The line's bundle: the words go through the last of the ports.
fn line_bundle(alloc: Global, line: &Line) -> Result<RawBundle, Fail> {
    let hops = i64::from(line.hops);
    let last = u32::from(line.ports).saturating_sub(1) % 16;
    let send = 0x1063_2023 + last / 2 * 0x0200_0000 + last % 2 * 0x0000_0800; // sw x6, 256 + 16 * last(x6)
    let receive = 0x1043_2283 + last * 0x0100_0000; // lw x5, 260 + 16 * last(x6)
    let first = end_of_line(alloc, 0, line.slots, line.ports, line.words, send, "send")?;
    let second = end_of_line(
        alloc,
        hops,
        &[0, 1],
        line.ports,
        line.words,
        receive,
        "recv",
    )?;
    let mut pairs = Items::new(alloc);
    for port in 0..line.ports {
        pairs.push(pair(alloc, line.hops, port)?)?;
    }
    Ok(RawBundle {
        version: 1,
        parts: Items::from_vec(vec![in alloc; first, second]?),
        pairs,
    })
}

// What a line's trace is.
fn line_trace(alloc: Global, line: &Line) -> Result<AppTrace, Fail> {
    let platform = line_platform(alloc, line)?;
    let raw = line_bundle(alloc, line)?;
    let bundle = check(alloc, &raw, &platform)?;
    Ok(alone(alloc, &platform, &bundle, 0, u64::from(line.end))?)
}

fn ended(end: Option<u64>) -> PartEnd {
    match end {
        Some(cycle) => halted(cycle),
        None => PartEnd::Live,
    }
}

// Checks the trace of a line: the rows of each kind, and how the parts ended.
fn check_line<A: Abort>(rt: &A, line: &Line, trace: &AppTrace) {
    let mut sends = 0;
    let mut receives = 0;
    for row in trace.rows.as_slice() {
        assert_eq!(rt; row.value, 0x8000_0000);
        match row.kind {
            Kind::Send => {
                assert_eq!(rt;
                    (row.tile, line.sends.get(sends).copied()),
                    (0, Some(row.cycle))
                );
                sends += 1;
            }
            _ => {
                assert_eq!(rt;
                    (row.tile, line.receives.get(receives).copied()),
                    (line.hops, Some(row.cycle))
                );
                receives += 1;
            }
        }
    }
    assert_eq!(rt; (sends, receives), (line.sends.len(), line.receives.len()));
    for (part, end) in trace.parts.as_slice().iter().zip(line.ends) {
        assert_eq!(rt; part.end, ended(end));
    }
}

// A word that is put in cycle 76 misses slot 9, in which its channel would inject.
const LINES: [Line; 8] = [
    Line {
        hops: 1,
        queue: 8,
        table_slots: 8,
        ports: 1,
        words: 2,
        slots: &[0],
        end: 32,
        sends: &[76, 80],
        receives: &[200, 216],
        ends: [Some(81), Some(217)],
    },
    // Each word waits for the credit of the one before.
    Line {
        hops: 1,
        queue: 1,
        table_slots: 8,
        ports: 1,
        words: 3,
        slots: &[0, 1],
        end: 64,
        sends: &[76, 200, 328],
        receives: &[200, 328, 456],
        ends: [Some(329), Some(457)],
    },
    Line {
        hops: 1,
        queue: 63,
        table_slots: 8,
        ports: 1,
        words: 2,
        slots: &[0],
        end: 32,
        sends: &[76, 80],
        receives: &[200, 216],
        ends: [Some(81), Some(217)],
    },
    // Both channels pass one tile between their ends.
    Line {
        hops: 2,
        queue: 8,
        table_slots: 8,
        ports: 1,
        words: 2,
        slots: &[0],
        end: 32,
        sends: &[76, 80],
        receives: &[200, 224],
        ends: [Some(81), Some(225)],
    },
    Line {
        hops: 16,
        queue: 8,
        table_slots: 8,
        ports: 1,
        words: 2,
        slots: &[0],
        end: 48,
        sends: &[76, 80],
        receives: &[328, 336],
        ends: [Some(81), Some(337)],
    },
    // The word goes through the last of sixteen ports.
    Line {
        hops: 1,
        queue: 8,
        table_slots: 32,
        ports: 16,
        words: 1,
        slots: &[0],
        end: 32,
        sends: &[76],
        receives: &[200],
        ends: [Some(77), Some(201)],
    },
    // The second word is due in slot 26, the run's last, and after it.
    Line {
        hops: 1,
        queue: 8,
        table_slots: 8,
        ports: 1,
        words: 2,
        slots: &[0],
        end: 27,
        sends: &[76, 80],
        receives: &[200],
        ends: [Some(81), None],
    },
    Line {
        hops: 1,
        queue: 8,
        table_slots: 8,
        ports: 1,
        words: 2,
        slots: &[0],
        end: 26,
        sends: &[76, 80],
        receives: &[200],
        ends: [Some(81), None],
    },
];

#[test]
fn carries_words_over_a_line(rt: HostRuntime) -> Result<(), Fail> {
    for line in LINES.iter() {
        check_line(&rt, line, &line_trace(rt.alloc(), line)?);
    }
    Ok(())
}
