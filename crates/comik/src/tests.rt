//! The frame words of the table, cycle by cycle, and parts that come and leave at chosen cycles.

ghost use Rattle.std.specs.Prelude.{◌≡◌, ◌<◌, ◌≤◌, ◌^◌};

use crate::{Frame, Kernel};
use std::process::Abort;
use std::test::Fail;

const KERNEL: u16 = 66;

const PARTITION: u32 = 2;

const INSTANCE: u64 = 68;

fn frame(slots: u8) -> Frame
    requires most { slots ≤ 16 }
    requires least { 0 < slots }
{
    Frame {
        kernel: KERNEL,
        partition: PARTITION,
        slots,
    }
}

// The set of one of so many slots.
fn set_of(slot: u8, slots: u8) -> u16
    requires slot { slot < slots }
    requires most { slots ≤ 16 }
    ensures some { 0 < result }
    ensures below { result < 2 ^ slots }
{
    1 << slot
}

// Installs the part that has one slot.
fn prepare(rt: &impl Abort, kernel: &mut Kernel, slot: u8, entry: u32) {
    let frame = kernel.frame();
    assert!(rt; slot < frame.slots);
    let slots = set_of(slot, frame.slots);
    assert!(rt; kernel.is_free(slots));
    let part = kernel.prepare(slots, entry);
    assert_eq!(rt; part, slot);
}

fn frame_word(rt: &impl Abort, kernel: &Kernel, part: u8, n: u8) -> u32
    requires { n < 33 }
{
    assert!(rt; part < kernel.frame().slots);
    kernel.frame_word(part, n)
}

// What the part of an instance leaves in word n.
fn left_behind(instance: u8, n: u8) -> u8
    requires instance { instance < 4 }
    requires word { n < 33 }
{
    40 * instance + n + 1
}

// The part of an instance writes all of its words.
fn write(kernel: &mut Kernel, instance: u8)
    requires { instance < 4 }
{
    let context = kernel.context();
    context.regs.pc = u32::from(left_behind(instance, 0));
    for n in 1..32 {
        context.regs.write(n, u32::from(left_behind(instance, n)));
    }
    context.left = left_behind(instance, 32);
}

// Word n of a part that has one of two slots, as its instance before this one left it: its entry, zero,
// or what it wrote.
fn word_before(instance: u8, n: u8) -> u32
    requires instance { instance < 4 }
    requires word { n < 33 }
{
    if instance >= 2 {
        u32::from(left_behind(instance - 2, n))
    } else if n == 0 {
        4 * (u32::from(instance) + 1)
    } else {
        0
    }
}

// Word n of the frame of a part after the cycle at an offset: in the instance after its own the words up
// to the offset are saved.
fn word_of_table(part: u8, n: u8, instance: u8, offset: u64) -> u32
    requires part { part < 2 }
    requires instance { instance < 4 }
    requires word { n < 33 }
{
    if instance == 0 {
        return word_before(part, n);
    }
    if instance % 2 == part {
        return word_before(instance, n);
    }
    if u64::from(n) <= offset {
        u32::from(left_behind(instance - 1, n))
    } else {
        word_before(instance - 1, n)
    }
}

// Word n of the register file after the kernel's cycle at an offset: from offset 33 on the words of the
// instance's part come in, one a cycle.
fn file_of_table(n: u8, instance: u8, offset: u64) -> u32
    requires instance { instance < 4 }
    requires word { n < 33 }
{
    if u64::from(n) + 33 <= offset {
        word_before(instance, n)
    } else if instance == 0 {
        0
    } else {
        u32::from(left_behind(instance - 1, n))
    }
}

#[test]
fn the_frame_words_are_those_of_the_table(rt: HostRuntime) -> Result<(), Fail> {
    let mut kernel = Kernel::new(rt.alloc(), frame(2))?;
    prepare(&rt, &mut kernel, 0, 4);
    prepare(&rt, &mut kernel, 1, 8);
    for instance in 0..4 {
        for offset in 0..INSTANCE {
            kernel.cycle(u64::from(instance) * INSTANCE + offset);
            if offset >= u64::from(KERNEL) {
                write(&mut kernel, instance);
            }
            for n in 0..33 {
                for part in 0..2 {
                    assert_eq!(rt;
                        frame_word(&rt, &kernel, part, n),
                        word_of_table(part, n, instance, offset),
                        "word {n} of part {part} at offset {offset} of instance {instance}"
                    );
                }
                if offset < u64::from(KERNEL) {
                    assert_eq!(rt;
                        kernel.file_word(n),
                        file_of_table(n, instance, offset),
                        "word {n} of the file at offset {offset} of instance {instance}"
                    );
                }
            }
        }
    }
    Ok(())
}

// A kernel in which the parts 0, 1 and 2 are installed, each with one of three slots, after some cycles.
fn three_parts(rt: &impl Abort, kernel: &mut Kernel, cycles: u64)
    requires { cycles < 1000 }
{
    for slot in 0..3 {
        prepare(rt, kernel, slot, 4 * (u32::from(slot) + 1));
    }
    for cycle in 0..cycles {
        kernel.cycle(cycle);
        if cycle % INSTANCE == u64::from(KERNEL) {
            write(kernel, 1);
        }
    }
}

#[test]
fn a_part_leaves_while_it_is_held_or_next_or_neither(rt: HostRuntime) -> Result<(), Fail> {
    // the part, the cycles before it leaves, the parts that are held and next then, whether the register
    // file is zeroed, and the part that is held 68 cycles later
    let cases = [
        (0, 67, None, None, true, Some(1)),
        (0, 68, None, None, true, Some(1)),
        (0, 69, None, Some(1), true, Some(1)),
        (1, 69, Some(0), None, false, None),
        (1, 101, Some(0), None, false, None),
        (2, 69, Some(0), Some(1), false, Some(1)),
        (1, 102, None, None, true, Some(2)),
        (2, 102, Some(1), Some(1), false, None),
    ];
    for (part, cycles, held, next, zeroed, later) in cases {
        let mut kernel = Kernel::new(rt.alloc(), frame(3))?;
        three_parts(&rt, &mut kernel, cycles);
        assert!(rt; kernel.is_installed(part));
        kernel.clear(part);
        assert!(rt; !kernel.is_installed(part), "{part} at {cycles}");
        assert_eq!(rt; kernel.held(), held, "held: {part} at {cycles}");
        assert_eq!(rt; kernel.latched(), next, "next: {part} at {cycles}");
        assert_eq!(rt;
            kernel.file_word(32) == 0,
            zeroed,
            "the file: {part} at {cycles}"
        );
        for other in 0..3 {
            let word = frame_word(&rt, &kernel, other, 0);
            assert_eq!(rt;
                word == 0,
                other == part,
                "frame {other}: {part} at {cycles}"
            );
        }
        for cycle in cycles..cycles + 68 {
            kernel.cycle(cycle);
        }
        assert_eq!(rt; kernel.held(), later, "later: {part} at {cycles}");
    }
    Ok(())
}

#[test]
fn a_part_that_comes_within_an_instance_misses_it(rt: HostRuntime) -> Result<(), Fail> {
    // the slot, the cycle before which the part comes, and the cycle after which it is held
    let cases = [
        (1, 0, 101),
        (1, 67, 101),
        (1, 68, 101),
        (1, 69, 237),
        (1, 101, 237),
        (1, 135, 237),
        (0, 1, 169),
    ];
    for (slot, comes, first) in cases {
        let mut kernel = Kernel::new(rt.alloc(), frame(2))?;
        for cycle in 0..first + 1 {
            if cycle == comes {
                prepare(&rt, &mut kernel, slot, 4);
            }
            assert_eq!(rt;
                kernel.held(),
                None,
                "slot {slot} at {comes}, held at {cycle}"
            );
            kernel.cycle(cycle);
        }
        assert_eq!(rt; kernel.held(), Some(slot), "slot {slot} at {comes}");
    }
    Ok(())
}
