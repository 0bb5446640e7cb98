//! Tests of the rules of ports and pairs, and of what the channels of pairs claim.

use crate::BRule;
use crate::test_rows::{LINKS, PAIR, PART, PairRow, PartRow, SECOND, broken, platform};
use platform_model::Platform;
use std::alloc::Global;
use std::test::Fail;

// A path from tile 0 to tile 2 with as many links as there may be, and one with a link more.
const LONGEST: [i64; 16] = [0, 3, 0, 3, 0, 3, 0, 3, 0, 3, 0, 3, 0, 3, 0, 1];

const TOO_LONG: [i64; 17] = [0, 3, 0, 3, 0, 3, 0, 3, 0, 3, 0, 3, 0, 3, 0, 3, 4];

// The rule that is broken by these pairs between parts of tiles 0 and 2 with these ports.
fn between(
    alloc: Global,
    platform: &Platform,
    ports: [&[i64]; 2],
    pairs: &[PairRow],
) -> Result<Option<BRule>, Fail> {
    let one = PartRow {
        ports: ports[0],
        ..PART
    };
    let other = PartRow {
        tile: 2,
        ports: ports[1],
        ..PART
    };
    broken(alloc, platform, &[one, other], pairs)
}

#[test]
fn judges_ends(rt: HostRuntime) -> Result<(), Fail> {
    let alloc = rt.alloc();
    let platform = platform(alloc, 3, 64, &LINKS)?;
    // the ports of the two parts, and the ends of the one pair
    let cases: [([&[i64]; 2], [&[i64]; 2], Option<BRule>); 12] = [
        ([&[0], &[0]], [&[0, 0], &[2, 0]], None),
        ([&[1], &[0]], [&[0, 1], &[2, 0]], None),
        ([&[-1], &[0]], [&[0, -1], &[2, 0]], Some(BRule::B11)),
        ([&[2], &[0]], [&[0, 2], &[2, 0]], Some(BRule::B11)),
        ([&[0, 0], &[0]], [&[0, 0], &[2, 0]], Some(BRule::B11)),
        ([&[0], &[0]], [&[0], &[2, 0]], Some(BRule::B11)),
        ([&[0], &[0]], [&[0, 0, 0], &[2, 0]], Some(BRule::B11)),
        ([&[0], &[0]], [&[1, 0], &[2, 0]], Some(BRule::B11)),
        ([&[0], &[0]], [&[0, 1], &[2, 0]], Some(BRule::B11)),
        ([&[0], &[0]], [&[0, 0], &[2, 1]], Some(BRule::B11)),
        ([&[0, 1], &[]], [&[0, 0], &[0, 1]], Some(BRule::B11)),
        ([&[0, 1], &[0]], [&[0, 0], &[2, 0]], Some(BRule::B11)),
    ];
    for (ports, [a, b], rule) in cases {
        let pair = PairRow { a, b, ..PAIR };
        assert_eq!(rt;
            between(alloc, &platform, ports, &[pair])?,
            rule,
            "{ports:?} {a:?} {b:?}"
        );
    }
    Ok(())
}

#[test]
fn judges_how_many_pairs_end_at_a_port(rt: HostRuntime) -> Result<(), Fail> {
    let alloc = rt.alloc();
    let platform = platform(alloc, 3, 64, &LINKS)?;
    let pairs = [PAIR, PAIR];
    for (count, rule) in [(0, Some(BRule::B11)), (1, None), (2, Some(BRule::B11))] {
        let found = between(alloc, &platform, [&[0], &[0]], &pairs[..count])?;
        assert_eq!(rt; found, rule, "{count} pairs");
    }
    Ok(())
}

#[test]
fn judges_channels(rt: HostRuntime) -> Result<(), Fail> {
    let alloc = rt.alloc();
    let platform = platform(alloc, 3, 64, &LINKS)?;
    // the path and the slots of the channel there
    let cases: [(&[i64], &[i64], Option<BRule>); 18] = [
        (&[0, 1], &[1], None),
        (&[4], &[1], None),
        (&[], &[1], Some(BRule::B12)),
        (&[1], &[1], Some(BRule::B12)),
        (&[0, 2], &[1], Some(BRule::B12)),
        (&[0], &[1], Some(BRule::B12)),
        (&[0, 1, 2], &[1], Some(BRule::B12)),
        (&[5], &[1], Some(BRule::B12)),
        (&[-1], &[1], Some(BRule::B12)),
        (&LONGEST, &[2], None),
        (&TOO_LONG, &[2], Some(BRule::B12)),
        (&[0, 1], &[], Some(BRule::B12)),
        (&[0, 1], &[1, 1], Some(BRule::B12)),
        (&[0, 1], &[2, 1], Some(BRule::B12)),
        (&[0, 1], &[-1], Some(BRule::B12)),
        (&[0, 1], &[64], Some(BRule::B12)),
        (&[0, 1], &[0, 1, 2, 3, 62, 63], None),
        (&[0, 3, 0, 1], &[1, 63], Some(BRule::B13)),
    ];
    for (path, slots, rule) in cases {
        let pair = PairRow {
            there: (path, slots),
            ..PAIR
        };
        let found = between(alloc, &platform, [&[0], &[0]], &[pair])?;
        assert_eq!(rt; found, rule, "{path:?} {slots:?}");
    }
    Ok(())
}

#[test]
fn judges_twins(rt: HostRuntime) -> Result<(), Fail> {
    let alloc = rt.alloc();
    let platform = platform(alloc, 3, 64, &LINKS)?;
    // of a second pair the path and the slots there, and the slots back
    let cases: [(&[i64], &[i64], &[i64], Option<BRule>); 7] = [
        (&[4], &[3], &[0], None),
        // an injection slot, a delivery slot, and a slot of a link
        (&[4], &[1], &[0], Some(BRule::B13)),
        (&[4], &[2], &[0], Some(BRule::B13)),
        (&[0, 3, 0, 3, 4], &[63], &[0], Some(BRule::B13)),
        (&[0, 3, 0, 3, 4], &[61], &[0], None),
        (&[4], &[3], &[5], Some(BRule::B13)),
        (&[4], &[3], &[64], Some(BRule::B12)),
    ];
    for (path, slots, back, rule) in cases {
        let second = PairRow {
            there: (path, slots),
            back: (&[2, 3], back),
            ..SECOND
        };
        let found = between(alloc, &platform, [&[0, 1], &[0, 1]], &[PAIR, second])?;
        assert_eq!(rt; found, rule, "{path:?} {slots:?} {back:?}");
    }
    Ok(())
}
