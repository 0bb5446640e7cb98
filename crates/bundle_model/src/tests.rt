//! Tests of which resources meet, and of schedules.

use crate::{Resource, Schedule, meets};
use std::test::Fail;

#[test]
fn meets_where_a_byte_is_shared(rt: HostRuntime) {
    // base and length of two spans of one tile, and whether they meet
    let cases = [
        ([0, 16, 16, 16], false),
        ([16, 16, 0, 16], false),
        ([0, 17, 16, 16], true),
        ([16, 16, 0, 32], true),
        ([0, 64, 16, 16], true),
        ([u32::MAX, 1, u32::MAX, 1], true),
    ];
    for ([base, len, at, size], met) in cases {
        let one = Resource::Span { tile: 0, base, len };
        let other = Resource::Span {
            tile: 0,
            base: at,
            len: size,
        };
        let elsewhere = Resource::Span {
            tile: 1,
            base: at,
            len: size,
        };
        assert_eq!(rt; meets(&one, &other), met, "at {base} {len} {at} {size}");
        assert!(rt; !meets(&one, &elsewhere));
    }
    let slot = Resource::Inject { tile: 0, slot: 3 };
    assert!(rt; meets(&slot, &Resource::Inject { tile: 0, slot: 3 }));
    assert!(rt; !meets(&slot, &Resource::Inject { tile: 0, slot: 4 }));
    assert!(rt; !meets(&slot, &Resource::Deliver { tile: 0, slot: 3 }));
}

#[test]
fn begins_with_no_grant(rt: HostRuntime) -> Result<(), Fail> {
    let schedule = Schedule::new(rt.alloc(), 256)?;
    assert!(rt; schedule.grants.is_empty());
    assert_eq!(rt; schedule.horizon, 0);
    Ok(())
}
