//! Cycles of a part, with ends that were worked out by hand.

ghost use Rattle.std.specs.Prelude.{◌≡◌, ◌<◌, length};

use super::{MAP, REGION, TRACES, check_rows, deliver, ports, row, tile};
use crate::run::PartOnTile;
use ni_port::Port;
use part_model::Place;
use platform_model::{Costs, Platform};
use rv_core::Regs;
use std::process::Abort;
use std::test::Fail;
use tile_memory::TileMemory;
use trace_log::{Kind, PartEnd, PartLog};

// Sends a word twice by the part's second port, and halts.
const SENDS: [u32; 4] = [
    0x8000_0337, // lui x6, 0x80000
    0x1063_2823, // sw x6, 0x110(x6)
    0x1063_2823, // sw x6, 0x110(x6)
    0x0000_0073, // ecall
];

// Does cycles of the part on tile 3 that has the region and ports 2 and 5.
#[tactic(auto, using(crate::proofs::TwoPorts::two_own))]
fn run(
    costs: &Costs,
    kinds: u8,
    cycles: (u32, u32),
    regs: &mut Regs,
    left: &mut u8,
    memory: &mut TileMemory,
    ports: &mut [Port],
    log: &mut PartLog,
)
    requires memory { length memory.old ≡ 64 }
    requires ports { 5 < length ports.old }
    ensures { length memory.new ≡ 64 }
{
    let place = Place { tile: 3, kinds };
    let mut part = PartOnTile {
        regs,
        left,
        memory,
        region: REGION,
        ports,
        map: &MAP,
        log,
    };
    part.run(costs, place, u64::from(cycles.0), u64::from(cycles.1));
}

// Checks the cycles that are left and pc after a stretch of cycles.
fn check_after(rt: &impl Abort, stretch: (u32, u32), after: (u8, u32), wanted: (u8, u32)) {
    assert_eq!(rt; after, wanted, "after {} from {}", stretch.1, stretch.0);
}

#[test]
fn runs_a_program(rt: HostRuntime) -> Result<(), Fail> {
    let platform = Platform::plain(rt.alloc())?;
    let mut memory = tile(rt.alloc(), TRACES)?;
    let mut ports = ports(rt.alloc(), 1)?;
    let mut log = PartLog::new(rt.alloc(), 8)?;
    let mut regs = Regs::new(0);
    let mut left = 0;
    // The first cycle of a stretch and how many it has, and the cycles that are left and pc after it: a
    // store to a device register has 4.
    let cases: [(u32, u32, u8, u32); 6] = [
        (100, 1, 0, 4),
        (101, 2, 3, 8),
        (103, 2, 1, 8),
        (105, 1, 0, 12),
        (106, 0, 0, 12),
        (106, 9, 0, 12),
    ];
    for (cycle, count, cycles_left, pc) in cases {
        run(
            &platform.costs,
            0b1001,
            (cycle, count),
            &mut regs,
            &mut left,
            &mut memory,
            &mut ports,
            &mut log,
        );
        check_after(&rt, (cycle, count), (left, regs.pc), (cycles_left, pc));
    }
    let rows = [
        row(100, Kind::Step, 0),
        row(101, Kind::Step, 4),
        row(105, Kind::Word, 7),
        row(105, Kind::Step, 8),
        row(106, Kind::Step, 12),
    ];
    check_rows(&rt, &log, &rows);
    assert_eq!(rt; log.cut(), 0);
    let end = PartEnd::Halt {
        code: 0,
        cycle: 106,
    };
    assert_eq!(rt; log.end(), end);
    Ok(())
}

// A word that finds no place is tried again in each running cycle, without its cost.
#[test]
fn tries_a_full_queue_again(rt: HostRuntime) -> Result<(), Fail> {
    let platform = Platform::plain(rt.alloc())?;
    let mut memory = tile(rt.alloc(), SENDS)?;
    let mut ports = ports(rt.alloc(), 1)?;
    let mut log = PartLog::new(rt.alloc(), 8)?;
    let mut regs = Regs::new(0);
    let mut left = 0;
    // As above, and whether a place gets free before the stretch.
    let cases: [(u32, u32, bool, u8, u32); 6] = [
        (100, 1, false, 0, 4),
        (101, 4, false, 0, 8),
        (105, 4, false, 1, 8),
        (109, 3, false, 1, 8),
        (112, 1, true, 0, 12),
        (113, 9, true, 0, 12),
    ];
    for (cycle, count, frees, cycles_left, pc) in cases {
        if frees {
            deliver(&mut ports[5], None, 1);
            let _ = ports[5].inject();
        }
        run(
            &platform.costs,
            0b1010,
            (cycle, count),
            &mut regs,
            &mut left,
            &mut memory,
            &mut ports,
            &mut log,
        );
        check_after(&rt, (cycle, count), (left, regs.pc), (cycles_left, pc));
    }
    let rows = [
        row(100, Kind::Step, 0),
        row(104, Kind::Send, 0x8000_0000),
        row(104, Kind::Step, 4),
        row(112, Kind::Send, 0x8000_0000),
        row(112, Kind::Step, 8),
        row(113, Kind::Step, 12),
    ];
    check_rows(&rt, &log, &rows);
    Ok(())
}
