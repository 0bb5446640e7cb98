//! Parts and pairs as rows of tables, for tests.

use crate::{BRule, Bundle, BundleFault, RawBundle, RawChannel, RawPair, RawPart, check};
use platform_model::{Platform, RawLink, RawPlatform};
use soc_base::{Items, Text};
use std::alloc::Global;
use std::test::Fail;

/// The numbers of a part, whose image has so many words where there is one.
#[derive(Clone, Copy)]
pub struct PartRow<'a> {
    pub tile: i64,
    pub base: i64,
    pub len: i64,
    pub entry: i64,
    pub trace: i64,
    pub words: Option<usize>,
    pub slots: &'a [i64],
    pub kinds: &'a [&'a str],
    pub ports: &'a [i64],
}

/// The numbers of a pair.
#[derive(Clone, Copy)]
pub struct PairRow<'a> {
    pub a: &'a [i64],
    pub b: &'a [i64],
    pub there: (&'a [i64], &'a [i64]),
    pub back: (&'a [i64], &'a [i64]),
}

/// A part of tile 0 in 64 bytes from 32 on.
pub const PART: PartRow<'static> = PartRow {
    tile: 0,
    base: 32,
    len: 64,
    entry: 4,
    trace: 16,
    words: Some(2),
    slots: &[0, 3],
    kinds: &["word", "step"],
    ports: &[],
};

/// Three tiles in a row with links there (0, 1) and back (2, 3), and one past the middle (4).
pub const LINKS: [[i64; 4]; 5] = [
    [0, 0, 1, 0],
    [1, 0, 2, 0],
    [2, 0, 1, 1],
    [1, 1, 0, 0],
    [0, 1, 2, 1],
];

/// Channels between the first ports of tiles 0 and 2.
pub const PAIR: PairRow<'static> = PairRow {
    a: &[0, 0],
    b: &[2, 0],
    there: (&[0, 1], &[1]),
    back: (&[2, 3], &[5]),
};

/// Channels between the second ports, that share nothing with those.
pub const SECOND: PairRow<'static> = PairRow {
    a: &[0, 1],
    b: &[2, 1],
    there: (&[4], &[3]),
    back: (&[2, 3], &[0]),
};

fn items<T: Copy + Drop>(alloc: Global, list: &[T]) -> Result<Items<T>, Fail> {
    let mut items = Items::new(alloc);
    for item in list {
        items.push(*item)?;
    }
    Ok(items)
}

fn texts(alloc: Global, list: &[&str]) -> Result<Items<Text>, Fail> {
    let mut items = Items::new(alloc);
    for text in list {
        items.push(Text::from_str(alloc, text)?)?;
    }
    Ok(items)
}

/// Makes a platform of tiles with 256 bytes, 16 partition slots and 2 ports, and these links.
pub fn platform(
    alloc: Global,
    tiles: i64,
    table_slots: i64,
    links: &[[i64; 4]],
) -> Result<Platform, Fail> {
    let mut list = Items::new(alloc);
    for [from, out, to, input] in links {
        list.push(RawLink {
            from: *from,
            out: *out,
            to: *to,
            input: *input,
        })?;
    }
    let raw = RawPlatform {
        tiles,
        mem_bytes: 256,
        table_slots,
        partition_slots: 16,
        links: list,
        ..RawPlatform::plain(alloc)
    };
    Ok(Platform::check(alloc, &raw)?)
}

fn raw_part(alloc: Global, row: &PartRow) -> Result<RawPart, Fail> {
    let image = match row.words {
        Some(count) => Some(Items::from_vec(vec![in alloc; 0x13; count]?)),
        None => None,
    };
    Ok(RawPart {
        tile: row.tile,
        slots: items(alloc, row.slots)?,
        base: row.base,
        len: row.len,
        image,
        entry: row.entry,
        trace: row.trace,
        kinds: texts(alloc, row.kinds)?,
        ports: items(alloc, row.ports)?,
    })
}

fn raw_channel(alloc: Global, row: (&[i64], &[i64])) -> Result<RawChannel, Fail> {
    Ok(RawChannel {
        path: items(alloc, row.0)?,
        slots: items(alloc, row.1)?,
    })
}

fn raw_pair(alloc: Global, row: &PairRow) -> Result<RawPair, Fail> {
    Ok(RawPair {
        a: items(alloc, row.a)?,
        b: items(alloc, row.b)?,
        there: raw_channel(alloc, row.there)?,
        back: raw_channel(alloc, row.back)?,
    })
}

/// Makes the raw bundle of these rows, of version 1.
pub fn raw_bundle(alloc: Global, parts: &[PartRow], pairs: &[PairRow]) -> Result<RawBundle, Fail> {
    let mut raw_parts = Items::new(alloc);
    for part in parts {
        raw_parts.push(raw_part(alloc, part)?)?;
    }
    let mut raw_pairs = Items::new(alloc);
    for pair in pairs {
        raw_pairs.push(raw_pair(alloc, pair)?)?;
    }
    Ok(RawBundle {
        version: 1,
        parts: raw_parts,
        pairs: raw_pairs,
    })
}

/// Makes the bundle of these rows, or answers the rule that they break.
pub fn judged(
    alloc: Global,
    platform: &Platform,
    parts: &[PartRow],
    pairs: &[PairRow],
) -> Result<Result<Bundle, BRule>, Fail> {
    let raw = raw_bundle(alloc, parts, pairs)?;
    match check(alloc, &raw, platform) {
        Ok(bundle) => Ok(Ok(bundle)),
        Err(BundleFault::Rule(rule)) => Ok(Err(rule)),
        Err(BundleFault::NoMemory) => Err(Fail::from(BundleFault::NoMemory)),
    }
}

/// Answers the rule that these rows break, if they break one.
pub fn broken(
    alloc: Global,
    platform: &Platform,
    parts: &[PartRow],
    pairs: &[PairRow],
) -> Result<Option<BRule>, Fail> {
    match judged(alloc, platform, parts, pairs)? {
        Ok(_) => Ok(None),
        Err(rule) => Ok(Some(rule)),
    }
}
