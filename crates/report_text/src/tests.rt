//! The text of a trace, byte for byte.

use crate::write_trace;
use alone_model::{AppTrace, PartTrace};
use platform_model::Platform;
use soc_base::{Cause, Items};
use soc_io::MemSink;
use std::alloc::Global;
use std::test::Fail;
use trace_log::{Kind, PartEnd, TraceRow};

fn row(cycle: u64, tile: u8, kind: Kind, value: u32) -> TraceRow {
    TraceRow {
        cycle,
        value,
        tile,
        kind,
    }
}

fn part(tile: u8, end: PartEnd, cut: u64) -> PartTrace {
    PartTrace { tile, end, cut }
}

fn trace_of(rows: Vec<TraceRow>, parts: Vec<PartTrace>) -> AppTrace {
    AppTrace {
        rows: Items::from_vec(rows),
        parts: Items::from_vec(parts),
    }
}

#[test]
fn writes_each_line_at_once(rt: HostRuntime) -> Result<(), Fail> {
    let alloc = rt.alloc();
    let platform = Platform::plain(alloc)?;
    let halt = PartEnd::Halt {
        code: 0,
        cycle: 334,
    };
    let trace = trace_of(
        vec![in alloc; row(333, 0, Kind::Word, 7)]?,
        vec![in alloc; part(0, halt, 0)]?,
    );
    // The number of the write that fails, if one of them does, and what was written.
    let cases = [
        (
            0,
            "alone a.toml from 8 to 384\n333 0 word 00000007\npart 0 halt 00000000 at 334 cut 0\nend\n",
        ),
        (1, ""),
        (2, "alone a.toml from 8 to 384\n"),
        (3, "alone a.toml from 8 to 384\n333 0 word 00000007\n"),
        (
            4,
            "alone a.toml from 8 to 384\n333 0 word 00000007\npart 0 halt 00000000 at 334 cut 0\n",
        ),
    ];
    for (failing, text) in cases {
        let mut sink = MemSink::new(alloc, 1000, vec![in alloc; failing]?)?;
        let result = write_trace(&platform, "a.toml", &trace, 1, 48, &mut sink);
        assert_eq!(rt; result.is_ok(), failing == 0);
        assert_eq!(rt; sink.written(), text.as_bytes());
    }
    Ok(())
}

// A name of 600 bytes.
pub fn long_name(alloc: Global) -> Result<String, Fail> {
    let mut name = String::new(alloc);
    for _ in 0..60 {
        name.push_str("0123456789")?;
    }
    Ok(name)
}

// Parts that end in each way.
fn ended_parts(alloc: Global) -> Result<Vec<PartTrace>, Fail> {
    let halt = PartEnd::Halt {
        code: 0xdead_beef,
        cycle: 1_000_000_000_062,
    };
    let mut parts = vec![in alloc; part(31, PartEnd::Live, u64::MAX), part(0, halt, 1)]?;
    for cause in [
        Cause::Illegal,
        Cause::Fetch,
        Cause::Target,
        Cause::Align,
        Cause::Access,
        Cause::Break,
    ] {
        parts.push(part(7, PartEnd::Fault { cause, cycle: 10 }, 0))?;
    }
    Ok(parts)
}

#[test]
fn writes_every_form(rt: HostRuntime) -> Result<(), Fail> {
    let alloc = rt.alloc();
    let platform = Platform::plain(alloc)?;
    let rows = vec![in alloc;
        row(5, 0, Kind::Send, 0x89ab_cdef),
        row(5, 31, Kind::Recv, 0xffff_ffff),
        row(1_000_000_000_062, 9, Kind::Step, 0x10),
    ]?;
    let trace = trace_of(rows, ended_parts(alloc)?);
    let name = long_name(alloc)?;
    let text = format!(in alloc;
        "alone {name} from 0 to 125000000000
5 0 send 89abcdef
5 31 recv ffffffff
1000000000062 9 step 00000010
part 31 live cut 18446744073709551615
part 0 halt deadbeef at 1000000000062 cut 1
part 7 fault illegal at 10 cut 0
part 7 fault fetch at 10 cut 0
part 7 fault target at 10 cut 0
part 7 fault align at 10 cut 0
part 7 fault access at 10 cut 0
part 7 fault break at 10 cut 0
end
"
    )?;
    let mut sink = MemSink::new(alloc, 2000, Vec::new(alloc))?;
    let result = write_trace(
        &platform,
        name.as_str(),
        &trace,
        0,
        15_625_000_000,
        &mut sink,
    );
    assert_eq!(rt; result, Ok(()));
    assert_eq!(rt; sink.written(), text.as_bytes());
    Ok(())
}
