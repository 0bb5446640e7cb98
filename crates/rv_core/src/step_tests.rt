//! Steps whose results were worked out by the standard's text, from words that LLVM's assembler made.

use crate::bus::{Answer, Bus};
use crate::decoding::decode;
use crate::execution::{Outcome, execute};
use crate::regs::Regs;
use soc_base::{Cause, Width};

const NEXT: Outcome = Outcome::Next;

const STALL: Outcome = Outcome::Stall;

const HALT: Outcome = Outcome::Halt(42);

const TARGET: Outcome = Outcome::Fault(Cause::Target);

const BREAK: Outcome = Outcome::Fault(Cause::Break);

const ACCESS: Outcome = Outcome::Fault(Cause::Access);

// What the bus holds before a step.
const HELD: u32 = 0x8899_aaff;

// A bus that holds one value at each address below 0x1000, stalls below 0x2000, refuses the rest, and
// has no instruction.
#[derive(Drop)]
struct Scratch {
    value: u32,
    asked: u32,
}

impl Bus for Scratch {
    ghost use Rattle.std.specs.Prelude.{ℕ, None, ◌%◌, ◌*◌, ◌^◌, nat_lt, if◌then◌else◌};
    ghost use Rattle.soc_base.specs.Widths.{width_bytes};
    ghost use Rattle.soc_base.specs.declared.cause.Cause.TheVariants.{Access};
    ghost use Rattle.rv_core.specs.declared.bus.Answer.TheVariants.{Done, Stall, Fault};

    ghost State = { ℕ × ℕ };

    ghost state = { λ b. (b.value, b.asked) };

    ghost Kept = { Unit {0} };

    ghost kept = { λ b. tt };

    ghost answers = { record {
      fetch = λ s pc. None;
      load = λ s addr width.
          if nat_lt addr 4096 then (Done (s.0 % 2 ^ (8 * width_bytes width)), (s.0, addr))
          else if nat_lt addr 8192 then (Stall, s)
          else (Fault Access, s);
      store = λ s addr width value.
          if nat_lt addr 4096 then (Done 0, (value, addr))
          else if nat_lt addr 8192 then (Stall, s)
          else (Fault Access, s);
    } };

    fn fetch(&self, _pc: u32) -> Option<u32> {
        None
    }

    fn load(&mut self, addr: u32, width: Width) -> Answer {
        let value = self.value;
        if addr < 0x1000 {
            self.asked = addr;
            return Answer::Done(match width {
                Width::Byte => value % 0x100,
                Width::Half => value % 0x1_0000,
                Width::Word => value,
            });
        }
        if addr < 0x2000 {
            return Answer::Stall;
        }
        Answer::Fault(Cause::Access)
    }

    fn store(&mut self, addr: u32, _width: Width, value: u32) -> Answer {
        if addr < 0x1000 {
            self.asked = addr;
            self.value = value;
            return Answer::Done(0);
        }
        if addr < 0x2000 {
            return Answer::Stall;
        }
        Answer::Fault(Cause::Access)
    }
}

// A step: what the hart and its bus are like after it, and how it ended.
#[derive(Drop)]
struct After {
    outcome: Option<Outcome>,
    regs: Regs,
    bus: Scratch,
}

// Runs a word with pc at 0x100, two values in x1 and x2, and 42 in x10.
fn step(word: u32, first: u32, second: u32) -> After {
    let mut regs = Regs::new(0x100);
    regs.write(1, first);
    regs.write(2, second);
    regs.write(10, 42);
    let mut bus = Scratch {
        value: HELD,
        asked: 0,
    };
    let outcome = match decode(word) {
        Some(instr) => Some(execute(&mut regs, &mut bus, instr)),
        None => None,
    };
    After { outcome, regs, bus }
}

#[test]
fn results(rt: HostRuntime) {
    // The word, x1, x2, and x3 after the step.
    let cases = [
        (0x0220_81b3, 0xffff_ffff, 0xffff_ffff, 1), // mul x3, x1, x2
        (0x0220_91b3, 0x8000_0000, 0x8000_0000, 0x4000_0000), // mulh x3, x1, x2
        (0x0220_91b3, 0xffff_ffff, 0xffff_ffff, 0), // mulh x3, x1, x2
        (0x0220_a1b3, 0xffff_ffff, 0xffff_ffff, 0xffff_ffff), // mulhsu x3, x1, x2
        (0x0220_b1b3, 0xffff_ffff, 0xffff_ffff, 0xffff_fffe), // mulhu x3, x1, x2
        (0x0220_c1b3, 0x8000_0000, 0xffff_ffff, 0x8000_0000), // div x3, x1, x2
        (0x0220_e1b3, 0x8000_0000, 0xffff_ffff, 0), // rem x3, x1, x2
        (0x0220_c1b3, 0xffff_fff9, 2, 0xffff_fffd), // div x3, x1, x2
        (0x0220_e1b3, 0xffff_fff9, 2, 0xffff_ffff), // rem x3, x1, x2
        (0x0220_c1b3, 7, 0, 0xffff_ffff), // div x3, x1, x2
        (0x0220_e1b3, 7, 0, 7), // rem x3, x1, x2
        (0x0220_d1b3, 0x8000_0000, 0xffff_ffff, 0), // divu x3, x1, x2
        (0x0220_f1b3, 0x8000_0000, 0xffff_ffff, 0x8000_0000), // remu x3, x1, x2
        (0x0220_d1b3, 0x8000_0000, 0, 0xffff_ffff), // divu x3, x1, x2
        (0x0220_f1b3, 0x8000_0000, 0, 0x8000_0000), // remu x3, x1, x2
        (0x0020_81b3, 0xffff_ffff, 2, 1), // add x3, x1, x2
        (0x4020_81b3, 1, 3, 0xffff_fffe), // sub x3, x1, x2
        (0x0020_91b3, 0x8000_0001, 0x1f, 0x8000_0000), // sll x3, x1, x2
        (0x0020_91b3, 0x8000_0001, 0x20, 0x8000_0001), // sll x3, x1, x2
        (0x0020_a1b3, 0x8000_0000, 0x7fff_ffff, 1), // slt x3, x1, x2
        (0x0020_a1b3, 0x7fff_ffff, 0x8000_0000, 0), // slt x3, x1, x2
        (0x0020_b1b3, 0x8000_0000, 0x7fff_ffff, 0), // sltu x3, x1, x2
        (0x0020_b1b3, 0x7fff_ffff, 0x8000_0000, 1), // sltu x3, x1, x2
        (0x0020_c1b3, 0xff00_ff00, 0x0ff0_0ff0, 0xf0f0_f0f0), // xor x3, x1, x2
        (0x0020_d1b3, 0x8000_0000, 0x1f, 1), // srl x3, x1, x2
        (0x0020_d1b3, 0x8000_0000, 0x20, 0x8000_0000), // srl x3, x1, x2
        (0x4020_d1b3, 0x8000_0000, 0x1f, 0xffff_ffff), // sra x3, x1, x2
        (0x4020_d1b3, 0xffff_fffb, 1, 0xffff_fffd), // sra x3, x1, x2
        (0x4020_d1b3, 0x7fff_ffff, 0x1e, 1), // sra x3, x1, x2
        (0x0020_e1b3, 0xff00_ff00, 0x0ff0_0ff0, 0xfff0_fff0), // or x3, x1, x2
        (0x0020_f1b3, 0xff00_ff00, 0x0ff0_0ff0, 0x0f00_0f00), // and x3, x1, x2
        (0x0220_91b3, 0x7fff_ffff, 0x8000_0000, 0xc000_0000), // mulh x3, x1, x2
        (0x0220_a1b3, 0x8000_0000, 0xffff_ffff, 0x8000_0000), // mulhsu x3, x1, x2
        (0x0220_a1b3, 0x7fff_ffff, 0xffff_ffff, 0x7fff_fffe), // mulhsu x3, x1, x2
        (0x0220_e1b3, 7, 0xffff_fffe, 1), // rem x3, x1, x2
        (0x0220_c1b3, 7, 0xffff_fffe, 0xffff_fffd), // div x3, x1, x2
        (0x0220_c1b3, 0, 0, 0xffff_ffff), // div x3, x1, x2
        (0x8000_8193, 0x7fff_ffff, 0, 0x7fff_f7ff), // addi x3, x1, -2048
        (0x7ff0_8193, 0xffff_fffe, 0, 0x7fd), // addi x3, x1, 2047
        (0x0000_a193, 0xffff_ffff, 0, 1), // slti x3, x1, 0
        (0xfff0_a193, 0, 0, 0), // slti x3, x1, -1
        (0xfff0_b193, 0, 0, 1), // sltiu x3, x1, -1
        (0x0000_b193, 0xffff_ffff, 0, 0), // sltiu x3, x1, 0
        (0xfff0_c193, 0x1234_5678, 0, 0xedcb_a987), // xori x3, x1, -1
        (0x8000_e193, 0x8000_0000, 0, 0xffff_f800), // ori x3, x1, -2048
        (0xf000_f193, 0x1234_5678, 0, 0x1234_5600), // andi x3, x1, -256
        (0x0000_9193, 0x8000_0001, 0, 0x8000_0001), // slli x3, x1, 0
        (0x01f0_9193, 0x8000_0001, 0, 0x8000_0000), // slli x3, x1, 31
        (0x01f0_d193, 0x8000_0001, 0, 1), // srli x3, x1, 31
        (0x41f0_d193, 0x8000_0000, 0, 0xffff_ffff), // srai x3, x1, 31
        (0x4000_d193, 0x8000_0000, 0, 0x8000_0000), // srai x3, x1, 0
        (0xffff_f1b7, 0, 0, 0xffff_f000), // lui x3, 0xfffff
        (0xffff_f197, 0, 0, 0xffff_f100), // auipc x3, 0xfffff
        (0x0020_8033, 5, 6, 0), // add x0, x1, x2
        (0x0020_01b3, 5, 6, 6), // add x3, x0, x2
        (0x0ff0_000f, 5, 6, 0), // fence
    ];
    for (word, first, second, third) in cases {
        let after = step(word, first, second);
        assert_eq!(rt; after.outcome, Some(NEXT), "{word:08x}");
        assert_eq!(rt; after.regs.pc, 0x104, "pc after {word:08x}");
        assert_eq!(rt;
            after.regs.read(3),
            third,
            "{word:08x} of {first:08x} and {second:08x}"
        );
        assert_eq!(rt; after.regs.read(0), 0, "x0 after {word:08x}");
    }
}

#[test]
fn ways_to_go_on(rt: HostRuntime) {
    // The word, x1, x2, how the step ends, and pc and x3 after it.
    let cases = [
        (0x8020_8063, 5, 5, NEXT, 0xffff_f100, 0), // beq x1, x2, -4096
        (0x8020_8063, 5, 6, NEXT, 0x104, 0), // beq x1, x2, -4096
        (0x7e20_9ee3, 5, 6, NEXT, 0x10fc, 0), // bne x1, x2, 4092
        (0x7e20_9ee3, 5, 5, NEXT, 0x104, 0), // bne x1, x2, 4092
        (0x0020_c463, 0x8000_0000, 0x7fff_ffff, NEXT, 0x108, 0), // blt x1, x2, 8
        (0x0020_c463, 0x7fff_ffff, 0x8000_0000, NEXT, 0x104, 0), // blt x1, x2, 8
        (0x0020_d463, 0x8000_0000, 0x7fff_ffff, NEXT, 0x104, 0), // bge x1, x2, 8
        (0x0020_d463, 7, 7, NEXT, 0x108, 0), // bge x1, x2, 8
        (0x0020_e463, 0x8000_0000, 0x7fff_ffff, NEXT, 0x104, 0), // bltu x1, x2, 8
        (0x0020_e463, 0x7fff_ffff, 0x8000_0000, NEXT, 0x108, 0), // bltu x1, x2, 8
        (0x0020_f463, 0x7fff_ffff, 0x8000_0000, NEXT, 0x104, 0), // bgeu x1, x2, 8
        (0xf020_f0e3, 7, 7, NEXT, 0, 0), // bgeu x1, x2, -256
        (0x7e20_8fe3, 5, 5, TARGET, 0x100, 0), // beq x1, x2, 4094
        (0x7e20_8fe3, 5, 6, NEXT, 0x104, 0), // beq x1, x2, 4094
        (0x7fdf_f1ef, 0, 0, NEXT, 0x0010_00fc, 0x104), // jal x3, 1048572
        (0x8000_01ef, 0, 0, NEXT, 0xfff0_0100, 0x104), // jal x3, -1048576
        (0x0060_01ef, 0, 0, TARGET, 0x100, 0), // jal x3, 6
        (0x0080_006f, 0, 0, NEXT, 0x108, 0), // jal x0, 8
        (0x7ff0_81e7, 0x1000, 0, TARGET, 0x100, 0), // jalr x3, 2047(x1)
        (0x0050_81e7, 0x1000, 0, NEXT, 0x1004, 0x104), // jalr x3, 5(x1)
        (0x8000_81e7, 0, 0, NEXT, 0xffff_f800, 0x104), // jalr x3, -2048(x1)
        (0x0040_80e7, 0x2000, 0, NEXT, 0x2004, 0), // jalr x1, 4(x1)
        (0x0001_81e7, 0, 0, NEXT, 0, 0x104), // jalr x3, 0(x3)
        (0x0000_0073, 0, 0, HALT, 0x100, 0), // ecall
        (0x0010_0073, 0, 0, BREAK, 0x100, 0), // ebreak
    ];
    for (word, first, second, outcome, pc, third) in cases {
        let after = step(word, first, second);
        assert_eq!(rt;
            after.outcome,
            Some(outcome),
            "{word:08x} at {first:08x} and {second:08x}"
        );
        assert_eq!(rt; after.regs.pc, pc, "pc after {word:08x}");
        assert_eq!(rt; after.regs.read(3), third, "x3 after {word:08x}");
    }
}

#[test]
fn loads_and_stores(rt: HostRuntime) {
    // The word, x1, x2, how the step ends, x3, what the bus holds, and where it was asked.
    let cases = [
        (0xfff0_8183, 0x801, 0, NEXT, 0xffff_ffff, HELD, 0x800), // lb x3, -1(x1)
        (0x7ff0_c183, 0, 0, NEXT, 0xff, HELD, 0x7ff), // lbu x3, 2047(x1)
        (0x8000_9183, 0x900, 0, NEXT, 0xffff_aaff, HELD, 0x100), // lh x3, -2048(x1)
        (0x0000_d183, 0x801, 0, NEXT, 0xaaff, HELD, 0x801), // lhu x3, 0(x1)
        (0x0040_a183, 0xffff_fffc, 0, NEXT, HELD, HELD, 0), // lw x3, 4(x1)
        (0x0000_a183, 0x1000, 0, STALL, 0, HELD, 0), // lw x3, 0(x1)
        (0x0000_a183, 0x2000, 0, ACCESS, 0, HELD, 0), // lw x3, 0(x1)
        (0x0000_a003, 0x40, 0, NEXT, 0, HELD, 0x40), // lw x0, 0(x1)
        (0xfe20_8fa3, 1, 0x1234_5678, NEXT, 0, 0x78, 0), // sb x2, -1(x1)
        (0x7e20_9fa3, 1, 0x1234_5678, NEXT, 0, 0x5678, 0x800), // sh x2, 2047(x1)
        (0x8020_a023, 0x900, 0x1234_5678, NEXT, 0, 0x1234_5678, 0x100), // sw x2, -2048(x1)
        (0x0020_a023, 0x1fff, 7, STALL, 0, HELD, 0), // sw x2, 0(x1)
        (0x0020_8023, 0x8000_0000, 7, ACCESS, 0, HELD, 0), // sb x2, 0(x1)
    ];
    for (word, first, second, outcome, third, value, asked) in cases {
        let after = step(word, first, second);
        assert_eq!(rt; after.outcome, Some(outcome), "{word:08x} at {first:08x}");
        assert_eq!(rt; after.regs.read(3), third, "x3 after {word:08x}");
        assert_eq!(rt; after.bus.value, value, "the value after {word:08x}");
        assert_eq!(rt; after.bus.asked, asked, "the address of {word:08x}");
    }
}
