//! Tests of logs, of rows in order, and of the numbers of the kinds.

use crate::{Kind, PartEnd, PartLog, TraceRow, merge};
use soc_base::Cause;
use std::test::Fail;

const fn row(cycle: u64, tile: u8, kind: Kind, value: u32) -> TraceRow {
    TraceRow {
        cycle,
        value,
        tile,
        kind,
    }
}

#[test]
fn keeps_the_first_rows(rt: HostRuntime) -> Result<(), Fail> {
    let rows = [
        row(7, 0, Kind::Word, 1),
        row(7, 0, Kind::Step, 4),
        row(9, 0, Kind::Step, 8),
    ];
    for (capacity, kept, cut) in [(0, 0, 3), (2, 2, 1), (3, 3, 0), (4, 3, 0)] {
        let mut log = PartLog::new(rt.alloc(), capacity)?;
        assert_eq!(rt; log.end(), PartEnd::Live);
        for row in rows {
            log.push(row);
        }
        log.finish(PartEnd::Halt { code: 5, cycle: 9 });
        assert_eq!(rt; log.rows(), &rows[..kept], "room for {capacity}");
        assert_eq!(rt; log.cut(), cut, "room for {capacity}");
        assert_eq!(rt; log.end(), PartEnd::Halt { code: 5, cycle: 9 });
    }
    Ok(())
}

#[test]
fn merges_in_order(rt: HostRuntime) -> Result<(), Fail> {
    let alloc = rt.alloc();
    let mut first = PartLog::new(alloc, 4)?;
    first.push(row(5, 1, Kind::Step, 0x10));
    first.push(row(5, 1, Kind::Word, 7));
    first.push(row(9, 1, Kind::Recv, 0));
    let mut second = PartLog::new(alloc, 4)?;
    second.push(row(5, 0, Kind::Send, 9));
    second.push(row(5, 0, Kind::Step, 0x20));
    second.push(row(6, 0, Kind::Word, 8));
    let mut merged = Vec::with_capacity(alloc, 6)?;
    for log in [&first, &second] {
        assert!(rt; merged.len() + log.rows().len() <= merged.capacity());
        merge(&mut merged, log);
    }
    let want = [
        row(5, 0, Kind::Send, 9),
        row(5, 0, Kind::Step, 0x20),
        row(5, 1, Kind::Word, 7),
        row(5, 1, Kind::Step, 0x10),
        row(6, 0, Kind::Word, 8),
        row(9, 1, Kind::Recv, 0),
    ];
    assert_eq!(rt; merged.as_slice(), want.as_slice());
    Ok(())
}

#[test]
fn numbers_kinds(rt: HostRuntime) {
    let kinds = [Kind::Word, Kind::Send, Kind::Recv, Kind::Step];
    for (kind, (phase, set)) in kinds.into_iter().zip([(0, 1), (1, 2), (2, 4), (3, 8)]) {
        assert_eq!(rt; kind.phase(), phase, "{kind:?}");
        assert!(rt; kind.is_in(set), "{kind:?}");
        assert!(rt; kind.is_in(255), "{kind:?}");
        assert!(rt; !kind.is_in(15 - set), "{kind:?}");
    }
    let fault = PartEnd::Fault {
        cause: Cause::Align,
        cycle: 3,
    };
    assert!(rt; !PartEnd::Live.has_ended());
    assert!(rt; PartEnd::Halt { code: 0, cycle: 0 }.has_ended());
    assert!(rt; fault.has_ended());
}
