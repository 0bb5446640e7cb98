//! Tests of what bundles hold: the list in order, and how long it may be.

use crate::test_rows::{LINKS, PAIR, PART, PairRow, PartRow, broken, judged, platform};
use crate::{BRule, BundleFault, Resource, resources};
use platform_model::Platform;
use std::alloc::Global;
use std::test::Fail;

// What the bundle of these rows holds.
fn held(
    alloc: Global,
    platform: &Platform,
    parts: &[PartRow],
    pairs: &[PairRow],
) -> Result<Vec<Resource>, Fail> {
    match judged(alloc, platform, parts, pairs)? {
        Ok(bundle) => Ok(resources(alloc, platform, &bundle)?),
        Err(rule) => Err(Fail::from(BundleFault::Rule(rule))),
    }
}

#[test]
fn lists_resources(rt: HostRuntime) -> Result<(), Fail> {
    let alloc = rt.alloc();
    let two = platform(alloc, 2, 8, &[[0, 0, 1, 0], [1, 0, 0, 0]])?;
    let three = platform(alloc, 3, 8, &LINKS)?;
    let part = PartRow {
        base: 0,
        slots: &[0],
        ports: &[0],
        ..PART
    };
    let other = PartRow { tile: 2, ..part };
    let near = PartRow {
        tile: 1,
        slots: &[0, 1],
        ..part
    };
    let pipe = PairRow {
        b: &[1, 0],
        there: (&[0], &[1]),
        back: (&[1], &[5]),
        ..PAIR
    };
    let wrapping = PairRow {
        there: (&[0, 1], &[6, 7]),
        ..PAIR
    };
    let cases: [(&Platform, PartRow, PairRow, &[Resource]); 3] = [
        (
            &two,
            near,
            pipe,
            &[
                Resource::Partition { tile: 0, slot: 0 },
                Resource::Span {
                    tile: 0,
                    base: 0,
                    len: 64,
                },
                Resource::Port { tile: 0, port: 0 },
                Resource::Partition { tile: 1, slot: 0 },
                Resource::Partition { tile: 1, slot: 1 },
                Resource::Span {
                    tile: 1,
                    base: 0,
                    len: 64,
                },
                Resource::Port { tile: 1, port: 0 },
                Resource::Inject { tile: 0, slot: 1 },
                Resource::LinkSlot { link: 0, slot: 2 },
                Resource::Deliver { tile: 1, slot: 2 },
                Resource::Inject { tile: 1, slot: 5 },
                Resource::LinkSlot { link: 1, slot: 6 },
                Resource::Deliver { tile: 0, slot: 6 },
            ],
        ),
        (
            &three,
            other,
            PAIR,
            &[
                Resource::Partition { tile: 0, slot: 0 },
                Resource::Span {
                    tile: 0,
                    base: 0,
                    len: 64,
                },
                Resource::Port { tile: 0, port: 0 },
                Resource::Partition { tile: 2, slot: 0 },
                Resource::Span {
                    tile: 2,
                    base: 0,
                    len: 64,
                },
                Resource::Port { tile: 2, port: 0 },
                Resource::Inject { tile: 0, slot: 1 },
                Resource::LinkSlot { link: 0, slot: 2 },
                Resource::LinkSlot { link: 1, slot: 3 },
                Resource::Deliver { tile: 2, slot: 3 },
                Resource::Inject { tile: 2, slot: 5 },
                Resource::LinkSlot { link: 2, slot: 6 },
                Resource::LinkSlot { link: 3, slot: 7 },
                Resource::Deliver { tile: 0, slot: 7 },
            ],
        ),
        (
            &three,
            other,
            wrapping,
            &[
                Resource::Partition { tile: 0, slot: 0 },
                Resource::Span {
                    tile: 0,
                    base: 0,
                    len: 64,
                },
                Resource::Port { tile: 0, port: 0 },
                Resource::Partition { tile: 2, slot: 0 },
                Resource::Span {
                    tile: 2,
                    base: 0,
                    len: 64,
                },
                Resource::Port { tile: 2, port: 0 },
                Resource::Inject { tile: 0, slot: 6 },
                Resource::LinkSlot { link: 0, slot: 7 },
                Resource::LinkSlot { link: 1, slot: 0 },
                Resource::Deliver { tile: 2, slot: 0 },
                Resource::Inject { tile: 0, slot: 7 },
                Resource::LinkSlot { link: 0, slot: 0 },
                Resource::LinkSlot { link: 1, slot: 1 },
                Resource::Deliver { tile: 2, slot: 1 },
                Resource::Inject { tile: 2, slot: 5 },
                Resource::LinkSlot { link: 2, slot: 6 },
                Resource::LinkSlot { link: 3, slot: 7 },
                Resource::Deliver { tile: 0, slot: 7 },
            ],
        ),
    ];
    for (number, (platform, last, pair, list)) in cases.iter().enumerate() {
        let found = held(alloc, platform, &[part, *last], &[*pair])?;
        assert_eq!(rt; found.as_slice(), *list, "row {number}");
    }
    Ok(())
}

// Paths half round a ring of 32 tiles, upwards by links 0 to 31 and downwards by links 32 to 63.
const UP_FROM_0: [i64; 16] = [0, 1, 2, 3, 4, 5, 6, 7, 8, 9, 10, 11, 12, 13, 14, 15];

const UP_FROM_16: [i64; 16] = [
    16, 17, 18, 19, 20, 21, 22, 23, 24, 25, 26, 27, 28, 29, 30, 31,
];

const DOWN_FROM_1: [i64; 16] = [
    32, 63, 62, 61, 60, 59, 58, 57, 56, 55, 54, 53, 52, 51, 50, 49,
];

const DOWN_FROM_17: [i64; 16] = [
    48, 47, 46, 45, 44, 43, 42, 41, 40, 39, 38, 37, 36, 35, 34, 33,
];

// All slots of a table of 64.
const SLOTS: [i64; 64] = [
    0, 1, 2, 3, 4, 5, 6, 7, 8, 9, 10, 11, 12, 13, 14, 15, 16, 17, 18, 19, 20, 21, 22, 23, 24, 25,
    26, 27, 28, 29, 30, 31, 32, 33, 34, 35, 36, 37, 38, 39, 40, 41, 42, 43, 44, 45, 46, 47, 48, 49,
    50, 51, 52, 53, 54, 55, 56, 57, 58, 59, 60, 61, 62, 63,
];

// A ring of 32 tiles with links in both directions.
fn ring(alloc: Global) -> Result<Platform, Fail> {
    let mut links = Vec::new(alloc);
    for tile in 0..32 {
        links.push([tile, 0, (tile + 1) % 32, 0])?;
    }
    for tile in 0..32 {
        links.push([(tile + 1) % 32, 1, tile, 1])?;
    }
    platform(alloc, 32, 64, links.as_slice())
}

#[test]
fn counts_resources(rt: HostRuntime) -> Result<(), Fail> {
    let alloc = rt.alloc();
    let ring = ring(alloc)?;
    let part = PartRow {
        base: 0,
        len: 16,
        entry: 0,
        words: Some(0),
        slots: &[0],
        ports: &[0],
        ..PART
    };
    // partition slots of two parts and injection slots of one channel of four, beside 192 of the
    // others: 4620, 4096 and 4097 resources
    let cases: [(&[i64], &[i64], &[i64], Option<BRule>); 3] = [
        (&SLOTS[..1], &SLOTS[..1], &SLOTS, Some(BRule::B14)),
        (&SLOTS[..16], &SLOTS[..2], &SLOTS[..34], None),
        (&SLOTS[..16], &SLOTS[..3], &SLOTS[..34], Some(BRule::B14)),
    ];
    for (number, (one, other, slots, rule)) in cases.iter().enumerate() {
        let parts = [
            PartRow { slots: one, ..part },
            PartRow {
                tile: 16,
                slots: other,
                ..part
            },
            PartRow { tile: 1, ..part },
            PartRow { tile: 17, ..part },
        ];
        let pairs = [
            PairRow {
                a: &[0, 0],
                b: &[16, 0],
                there: (&UP_FROM_0, &SLOTS),
                back: (&UP_FROM_16, &SLOTS),
            },
            PairRow {
                a: &[1, 0],
                b: &[17, 0],
                there: (&DOWN_FROM_1, &SLOTS),
                back: (&DOWN_FROM_17, slots),
            },
        ];
        assert_eq!(rt;
            broken(alloc, &ring, &parts, &pairs)?,
            *rule,
            "row {number}"
        );
    }
    Ok(())
}
