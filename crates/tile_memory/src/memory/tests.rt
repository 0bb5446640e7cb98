//! Tests of a tile's memory, with the lowest byte of a number at the lowest address (RISC-V
//! Unprivileged ISA, "Load and Store Instructions").

ghost use Rattle.std.specs.Prelude.{◌≡◌, length};

use super::*;
use std::test::Fail;

// Two regions side by side in a memory of 48 bytes, with bytes before and after them.
const LOW: Region = Region { base: 16, len: 16 };

const HIGH: Region = Region { base: 32, len: 12 };

const ALIGN: Result<u32, MemFault> = Err(MemFault::Align);

const OUTSIDE: Result<u32, MemFault> = Err(MemFault::Outside);

// A memory whose low region was filled twice.
fn filled(alloc: Global) -> Result<TileMemory, NoMemory> {
    let mut memory = TileMemory::new(alloc, 48)?;
    memory.fill(LOW, &[0xeeee_eeee; 4]);
    memory.fill(HIGH, &[0xffff_ffff; 3]);
    memory.fill(LOW, &[0x4433_2211, 0x8877_6655]);
    Ok(memory)
}

// The word before the low region, those in it, that after it, and the two last words.
fn words(memory: &TileMemory) -> [u32; 8]
    requires { length memory.now ≡ 48 }
{
    [
        memory.word(3),
        memory.word(4),
        memory.word(5),
        memory.word(6),
        memory.word(7),
        memory.word(8),
        memory.word(10),
        memory.word(11),
    ]
}

#[test]
fn reads_regions(rt: HostRuntime) -> Result<(), Fail> {
    let memory = filled(rt.alloc())?;
    assert_eq!(rt; memory.bytes.len(), 48);
    let loads = [
        (0, Width::Byte, Ok(0x11)),
        (1, Width::Byte, Ok(0x22)),
        (6, Width::Byte, Ok(0x77)),
        (7, Width::Byte, Ok(0x88)),
        (15, Width::Byte, Ok(0)),
        (16, Width::Byte, OUTSIDE),
        (0xffff_ffff, Width::Byte, OUTSIDE),
        (0, Width::Half, Ok(0x2211)),
        (1, Width::Half, ALIGN),
        (2, Width::Half, Ok(0x4433)),
        (6, Width::Half, Ok(0x8877)),
        (14, Width::Half, Ok(0)),
        (15, Width::Half, ALIGN),
        (16, Width::Half, OUTSIDE),
        (17, Width::Half, ALIGN),
        (0, Width::Word, Ok(0x4433_2211)),
        (1, Width::Word, ALIGN),
        (2, Width::Word, ALIGN),
        (3, Width::Word, ALIGN),
        (4, Width::Word, Ok(0x8877_6655)),
        (12, Width::Word, Ok(0)),
        (14, Width::Word, ALIGN),
        (16, Width::Word, OUTSIDE),
        (18, Width::Word, ALIGN),
        (0x8000_0000, Width::Word, OUTSIDE),
        (0xffff_fffc, Width::Word, OUTSIDE),
    ];
    for (addr, width, want) in loads {
        assert_eq!(rt; memory.load(LOW, addr, width), want, "{width:?} at {addr}");
    }
    for (addr, want) in [(0, Ok(0xffff_ffff)), (8, Ok(0xffff_ffff)), (12, OUTSIDE)] {
        assert_eq!(rt;
            memory.load(HIGH, addr, Width::Word),
            want,
            "high at {addr}"
        );
    }
    let fetches = [
        (0, Some(0x4433_2211)),
        (1, Some(0x5544_3322)),
        (2, Some(0x6655_4433)),
        (7, Some(0x88)),
        (12, Some(0)),
        (13, None),
        (16, None),
        (0xffff_ffff, None),
    ];
    for (addr, want) in fetches {
        assert_eq!(rt; memory.fetch(LOW, addr), want, "fetched at {addr}");
    }
    Ok(())
}

#[test]
fn stores_in_regions(rt: HostRuntime) -> Result<(), Fail> {
    let alloc = rt.alloc();
    let cases = [
        (0, Width::Byte, Ok(()), [0x4433_22dd, 0x8877_6655, 0, 0]),
        (3, Width::Byte, Ok(()), [0xdd33_2211, 0x8877_6655, 0, 0]),
        (
            15,
            Width::Byte,
            Ok(()),
            [0x4433_2211, 0x8877_6655, 0, 0xdd00_0000],
        ),
        (4, Width::Half, Ok(()), [0x4433_2211, 0x8877_ccdd, 0, 0]),
        (
            14,
            Width::Half,
            Ok(()),
            [0x4433_2211, 0x8877_6655, 0, 0xccdd_0000],
        ),
        (0, Width::Word, Ok(()), [0xaabb_ccdd, 0x8877_6655, 0, 0]),
        (
            12,
            Width::Word,
            Ok(()),
            [0x4433_2211, 0x8877_6655, 0, 0xaabb_ccdd],
        ),
        (
            1,
            Width::Half,
            Err(MemFault::Align),
            [0x4433_2211, 0x8877_6655, 0, 0],
        ),
        (
            2,
            Width::Word,
            Err(MemFault::Align),
            [0x4433_2211, 0x8877_6655, 0, 0],
        ),
        (
            15,
            Width::Half,
            Err(MemFault::Align),
            [0x4433_2211, 0x8877_6655, 0, 0],
        ),
        (
            16,
            Width::Byte,
            Err(MemFault::Outside),
            [0x4433_2211, 0x8877_6655, 0, 0],
        ),
        (
            16,
            Width::Word,
            Err(MemFault::Outside),
            [0x4433_2211, 0x8877_6655, 0, 0],
        ),
    ];
    for (addr, width, want, [first, second, third, fourth]) in cases {
        let mut memory = filled(alloc)?;
        assert_eq!(rt; memory.bytes.len(), 48);
        assert_eq!(rt;
            memory.store(LOW, addr, width, 0xaabb_ccdd),
            want,
            "{width:?} at {addr}"
        );
        assert_eq!(rt; memory.bytes.len(), 48);
        assert_eq!(rt;
            words(&memory),
            [0, first, second, third, fourth, 0xffff_ffff, 0xffff_ffff, 0],
            "{width:?} at {addr}"
        );
    }
    Ok(())
}
