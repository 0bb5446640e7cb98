//! Accesses of a part, with answers that were worked out by hand.

ghost use Rattle.std.specs.Prelude.{◌≡◌, ◌<◌, ◌≤◌, length, IfOk};

/// Cycles.
mod cycles;

use crate::part_bus::PartBus;
use ni_port::Port;
use rv_core::{Answer, Bus, Cause};
use soc_base::{Flit, NoMemory};
use std::alloc::Global;
use std::process::Abort;
use std::test::Fail;
use tile_memory::{Region, TileMemory, Width};
use trace_log::{Kind, PartLog, TraceRow};

const ALIGN: Answer = Answer::Fault(Cause::Align);

const ACCESS: Answer = Answer::Fault(Cause::Access);

// A cycle with both of its words.
const LATE: u64 = 0x5_0000_0102;

// The part's region: 32 bytes after the first 16 of its tile's 64.
const REGION: Region = Region { base: 16, len: 32 };

// A region without bytes.
const NOWHERE: Region = Region { base: 0, len: 0 };

// The numbers of the part's ports among the six of its tile.
const MAP: [u8; 2] = [2, 5];

#[derive(Clone, Copy, Debug)]
enum Access {
    Fetch(u32),
    Load(u32, Width),
    Store(u32, Width, u32),
}

fn load(addr: u32, width: Width) -> Access {
    Access::Load(addr, width)
}

fn store(addr: u32, width: Width, value: u32) -> Access {
    Access::Store(addr, width, value)
}

// Fills a tile's memory of 64 bytes.
fn fill(memory: &mut TileMemory, image: &[u32; 16])
    requires { length memory.old ≡ 64 }
    ensures { length memory.new ≡ 64 }
{
    memory.fill(Region { base: 0, len: 64 }, image);
}

// A tile's memory of 64 bytes: a program and zeros in the part's region, and ones around it.
fn tile(alloc: Global, program: [u32; 4]) -> Result<TileMemory, NoMemory>
    ensures { IfOk result (λ memory. length memory ≡ 64) }
{
    let image = [
        0xffff_ffff,
        0xffff_ffff,
        0xffff_ffff,
        0xffff_ffff,
        program[0],
        program[1],
        program[2],
        program[3],
        0,
        0,
        0,
        0,
        0xffff_ffff,
        0xffff_ffff,
        0xffff_ffff,
        0xffff_ffff,
    ];
    let mut memory = TileMemory::new(alloc, 64)?;
    fill(&mut memory, &image);
    Ok(memory)
}

// Stores 7 to TRACE, and halts.
const TRACES: [u32; 4] = [
    0x0070_0293, // addi x5, x0, 7
    0x8000_0337, // lui x6, 0x80000
    0x0053_2023, // sw x5, 0(x6)
    0x0000_0073, // ecall
];

// The ports of a tile, with queues of so many words.
fn ports(alloc: Global, queue: u8) -> Result<[Port; 6], NoMemory>
    requires some { 0 < queue }
    requires most { queue ≤ 63 }
{
    Ok([
        Port::new(alloc, queue)?,
        Port::new(alloc, queue)?,
        Port::new(alloc, queue)?,
        Port::new(alloc, queue)?,
        Port::new(alloc, queue)?,
        Port::new(alloc, queue)?,
    ])
}

// A word and credits reach a port.
fn deliver(port: &mut Port, word: Option<u32>, credits: u8)
    requires { credits ≤ 63 }
{
    port.deliver(Flit { word, credits });
}

// What a bus answers. A fetch answers a stall where there is no word.
fn probe<B: Bus>(bus: &mut B, access: Access) -> Answer
    ensures { B.kept bus.new ≡ B.kept bus.old }
{
    match access {
        Access::Fetch(pc) => match bus.fetch(pc) {
            Some(word) => Answer::Done(word),
            None => Answer::Stall,
        },
        Access::Load(addr, width) => bus.load(addr, width),
        Access::Store(addr, width, value) => bus.store(addr, width, value),
    }
}

// What the bus of the part on tile 3 answers late.
fn answered(memory: &mut TileMemory, log: &mut PartLog, kinds: u8, access: Access) -> Answer
    requires { length memory.old ≡ 64 }
    ensures { length memory.new ≡ 64 }
{
    let mut bus = PartBus::new(memory, REGION, &mut [], &[], log, kinds, 3, LATE);
    probe(&mut bus, access)
}

// What the bus of a part on tile 3 with ports 2 and 5 answers late.
fn port_answered(
    memory: &mut TileMemory,
    ports: &mut [Port],
    log: &mut PartLog,
    kinds: u8,
    access: Access,
) -> Answer
    requires { 5 < length ports.old }
{
    let mut bus = PartBus::new(memory, NOWHERE, ports, &MAP, log, kinds, 3, LATE);
    probe(&mut bus, access)
}

fn row(cycle: u64, kind: Kind, value: u32) -> TraceRow {
    TraceRow {
        cycle,
        value,
        tile: 3,
        kind,
    }
}

// Checks all rows of a log.
fn check_rows(rt: &impl Abort, log: &PartLog, rows: &[TraceRow]) {
    assert_eq!(rt; log.rows(), rows);
}

#[test]
fn answers_accesses(rt: HostRuntime) -> Result<(), Fail> {
    let mut memory = tile(rt.alloc(), TRACES)?;
    let mut log = PartLog::new(rt.alloc(), 4)?;
    // The accesses in order, and what is answered.
    let cases = [
        (Access::Fetch(0), Answer::Done(0x0070_0293)),
        (Access::Fetch(2), Answer::Done(0x0337_0070)),
        (Access::Fetch(28), Answer::Done(0)),
        (Access::Fetch(29), Answer::Stall),
        (Access::Fetch(0x8000_0004), Answer::Stall),
        (load(0, Width::Byte), Answer::Done(0x93)),
        (load(1, Width::Byte), Answer::Done(2)),
        (load(2, Width::Half), Answer::Done(0x70)),
        (load(4, Width::Word), Answer::Done(0x8000_0337)),
        (load(1, Width::Half), ALIGN),
        (load(2, Width::Word), ALIGN),
        (load(31, Width::Byte), Answer::Done(0)),
        (load(32, Width::Byte), ACCESS),
        (load(32, Width::Word), ACCESS),
        (load(33, Width::Half), ALIGN),
        (load(0x7fff_fffc, Width::Word), ACCESS),
        (load(0x7fff_fffe, Width::Word), ALIGN),
        (store(28, Width::Word, 0x4433_2211), Answer::Done(0)),
        (load(28, Width::Byte), Answer::Done(0x11)),
        (load(30, Width::Half), Answer::Done(0x4433)),
        (store(31, Width::Byte, 0xaabb_cc99), Answer::Done(0)),
        (store(0, Width::Half, 0xaabb_ccdd), Answer::Done(0)),
        (store(29, Width::Half, 5), ALIGN),
        (store(32, Width::Word, 5), ACCESS),
        (load(28, Width::Word), Answer::Done(0x9933_2211)),
        (load(0, Width::Word), Answer::Done(0x0070_ccdd)),
        (load(0x8000_0000, Width::Word), ACCESS),
        (load(0x8000_0004, Width::Word), Answer::Done(0x102)),
        (load(0x8000_0008, Width::Word), Answer::Done(5)),
        (load(0x8000_000c, Width::Word), ACCESS),
        (load(0xffff_fffc, Width::Word), ACCESS),
        (load(0x8000_0004, Width::Byte), ACCESS),
        (load(0x8000_0008, Width::Half), ACCESS),
        (load(0x8000_0005, Width::Half), ALIGN),
        (load(0x8000_0006, Width::Word), ALIGN),
        (
            store(0x8000_0000, Width::Word, 0xcafe_f00d),
            Answer::Done(0),
        ),
        (store(0x8000_0000, Width::Byte, 5), ACCESS),
        (store(0x8000_0000, Width::Half, 5), ACCESS),
        (store(0x8000_0001, Width::Half, 5), ALIGN),
        (store(0x8000_0002, Width::Word, 5), ALIGN),
        (store(0x8000_0004, Width::Word, 5), ACCESS),
        (store(0x8000_0008, Width::Word, 5), ACCESS),
    ];
    for (access, wanted) in cases {
        let answer = answered(&mut memory, &mut log, 1, access);
        assert_eq!(rt; answer, wanted, "{access:?}");
    }
    let silent = answered(&mut memory, &mut log, 8, store(0x8000_0000, Width::Word, 6));
    assert_eq!(rt; silent, Answer::Done(0));
    check_rows(&rt, &log, &[row(LATE, Kind::Word, 0xcafe_f00d)]);
    assert_eq!(rt; memory.word(3), 0xffff_ffff);
    assert_eq!(rt; memory.word(12), 0xffff_ffff);
    Ok(())
}

// Checks what the bus of the part with ports 2 and 5 answers to accesses in order.
fn check_answers(
    rt: &impl Abort,
    memory: &mut TileMemory,
    ports: &mut [Port],
    log: &mut PartLog,
    cases: &[(Access, Answer)],
)
    requires { 5 < length ports.old }
{
    for &(access, wanted) in cases {
        let answer = port_answered(memory, ports, log, 0b0110, access);
        assert_eq!(rt; answer, wanted, "{access:?}");
    }
}

// Checks the words that wait in ports 2 and 5, and that the others have none.
fn check_waiting(rt: &impl Abort, ports: &[Port; 6]) {
    assert_eq!(rt;
        [ports[2].send_word(0), ports[2].send_word(1)],
        [Some(7), Some(8)]
    );
    assert_eq!(rt;
        [ports[5].send_word(0), ports[5].recv_word(0)],
        [Some(50), Some(41)]
    );
    for other in [0, 1, 3, 4] {
        assert_eq!(rt; (ports[other].room(), ports[other].fill()), (2, 0));
    }
}

// The registers of a port, loaded and stored in order, and what is answered.
#[test]
fn answers_port_registers(rt: HostRuntime) -> Result<(), Fail> {
    let mut memory = TileMemory::new(rt.alloc(), 64)?;
    let mut ports = ports(rt.alloc(), 2)?;
    let mut log = PartLog::new(rt.alloc(), 8)?;
    deliver(&mut ports[2], Some(30), 0);
    deliver(&mut ports[5], Some(40), 0);
    deliver(&mut ports[5], Some(41), 0);
    let cases = [
        (load(0x8000_00fc, Width::Word), ACCESS),
        (store(0x8000_00fc, Width::Word, 1), ACCESS),
        // the first port is sent to until it is full
        (load(0x8000_0100, Width::Word), ACCESS),
        (load(0x8000_0108, Width::Word), Answer::Done(2)),
        (store(0x8000_0100, Width::Word, 7), Answer::Done(0)),
        (load(0x8000_0108, Width::Word), Answer::Done(1)),
        (store(0x8000_0100, Width::Word, 8), Answer::Done(0)),
        (load(0x8000_0108, Width::Word), Answer::Done(0)),
        (store(0x8000_0100, Width::Word, 9), Answer::Stall),
        (load(0x8000_0108, Width::Word), Answer::Done(0)),
        // and its word is taken
        (load(0x8000_010c, Width::Word), Answer::Done(1)),
        (load(0x8000_0104, Width::Word), Answer::Done(30)),
        (load(0x8000_010c, Width::Word), Answer::Done(0)),
        (load(0x8000_0104, Width::Word), Answer::Stall),
        (store(0x8000_0104, Width::Word, 1), ACCESS),
        (store(0x8000_0108, Width::Word, 1), ACCESS),
        (store(0x8000_010c, Width::Word, 1), ACCESS),
        // the second port is the tile's port 5
        (load(0x8000_0118, Width::Word), Answer::Done(2)),
        (store(0x8000_0110, Width::Word, 50), Answer::Done(0)),
        (load(0x8000_0118, Width::Word), Answer::Done(1)),
        (load(0x8000_011c, Width::Word), Answer::Done(2)),
        (load(0x8000_0114, Width::Word), Answer::Done(40)),
        (load(0x8000_011c, Width::Word), Answer::Done(1)),
        // the part has no third
        (store(0x8000_0120, Width::Word, 1), ACCESS),
        (load(0x8000_0124, Width::Word), ACCESS),
        (load(0x8000_0128, Width::Word), ACCESS),
        (load(0x8000_012c, Width::Word), ACCESS),
        (store(0xffff_fff0, Width::Word, 1), ACCESS),
        (load(0xffff_fff8, Width::Word), ACCESS),
    ];
    check_answers(&rt, &mut memory, &mut ports, &mut log, &cases);
    let rows = [
        row(LATE, Kind::Send, 7),
        row(LATE, Kind::Send, 8),
        row(LATE, Kind::Recv, 30),
        row(LATE, Kind::Send, 50),
        row(LATE, Kind::Recv, 40),
    ];
    check_rows(&rt, &log, &rows);
    check_waiting(&rt, &ports);
    Ok(())
}

// Bytes after a register of a port, a width, and what a load and a store answer there.
const NARROW: [(u32, Width, Answer); 11] = [
    (0, Width::Byte, ACCESS),
    (1, Width::Byte, ACCESS),
    (2, Width::Byte, ACCESS),
    (3, Width::Byte, ACCESS),
    (0, Width::Half, ACCESS),
    (1, Width::Half, ALIGN),
    (2, Width::Half, ACCESS),
    (3, Width::Half, ALIGN),
    (1, Width::Word, ALIGN),
    (2, Width::Word, ALIGN),
    (3, Width::Word, ALIGN),
];

// Checks that a register is loaded and stored as a word alone.
fn check_narrow(
    rt: &impl Abort,
    memory: &mut TileMemory,
    ports: &mut [Port],
    log: &mut PartLog,
    register: u32,
)
    requires { 5 < length ports.old }
{
    for (after, width, wanted) in NARROW {
        let addr = register.wrapping_add(after);
        let loaded = port_answered(memory, ports, log, 15, load(addr, width));
        assert_eq!(rt; loaded, wanted, "a load of {width:?} at {addr}");
        let stored = port_answered(memory, ports, log, 15, store(addr, width, 5));
        assert_eq!(rt; stored, wanted, "a store of {width:?} at {addr}");
    }
}

#[test]
fn a_port_register_is_a_word(rt: HostRuntime) -> Result<(), Fail> {
    let mut memory = TileMemory::new(rt.alloc(), 64)?;
    let mut ports = ports(rt.alloc(), 2)?;
    let mut log = PartLog::new(rt.alloc(), 8)?;
    deliver(&mut ports[2], Some(30), 0);
    deliver(&mut ports[5], Some(40), 0);
    let registers = [
        0x8000_0100,
        0x8000_0104,
        0x8000_0108,
        0x8000_010c,
        0x8000_0114,
    ];
    for register in registers {
        check_narrow(&rt, &mut memory, &mut ports, &mut log, register);
    }
    check_rows(&rt, &log, &[]);
    Ok(())
}
