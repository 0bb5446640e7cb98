//! Tests of the table, with words assembled by hand from the standard's formats (RISC-V Unprivileged
//! ISA, "RV32/64G Instruction Set Listings").

use crate::cost;
use platform_model::Costs;
use rv_core::Regs;

// Costs that differ in pairs and from 1.
fn costs() -> Costs {
    Costs {
        integer: 64,
        mul: 3,
        div: 34,
        load: 5,
        store: 6,
        taken: 7,
        untaken: 8,
        jump: 9,
        device: 10,
        system: 11,
    }
}

// x1 is the last word's address below the device registers and x2 the first device register's; x3 and
// x4 hold 5, and x5 holds 6.
fn registers() -> Regs {
    let mut regs = Regs::new(0);
    regs.write(1, 0x7fff_fffc);
    regs.write(2, 0x8000_0000);
    regs.write(3, 5);
    regs.write(4, 5);
    regs.write(5, 6);
    regs
}

#[test]
fn charges_every_row(rt: HostRuntime) {
    let words = [
        (0x0000_10b7, 64, "lui x1, 1"),
        (0x0000_0097, 64, "auipc x1, 0"),
        (0x0070_0293, 64, "addi x5, x0, 7"),
        (0x0012_9293, 64, "slli x5, x5, 1"),
        (0x0020_81b3, 64, "add x3, x1, x2"),
        (0x4020_81b3, 64, "sub x3, x1, x2"),
        (0x4020_d1b3, 64, "sra x3, x1, x2"),
        (0x0220_81b3, 3, "mul x3, x1, x2"),
        (0x0220_91b3, 3, "mulh x3, x1, x2"),
        (0x0220_a1b3, 3, "mulhsu x3, x1, x2"),
        (0x0220_b1b3, 3, "mulhu x3, x1, x2"),
        (0x0220_c1b3, 34, "div x3, x1, x2"),
        (0x0220_d1b3, 34, "divu x3, x1, x2"),
        (0x0220_e1b3, 34, "rem x3, x1, x2"),
        (0x0220_f1b3, 34, "remu x3, x1, x2"),
        (0x0000_4303, 5, "lbu x6, 0(x0)"),
        (0x0000_a303, 5, "lw x6, 0(x1), of 0x7ffffffc"),
        (0x0030_8303, 5, "lb x6, 3(x1), of 0x7fffffff"),
        (0xffc1_2303, 5, "lw x6, -4(x2), of 0x7ffffffc"),
        (0x0040_a303, 10, "lw x6, 4(x1), of 0x80000000"),
        (0x0001_2303, 10, "lw x6, 0(x2), of 0x80000000"),
        (0xffc0_2303, 10, "lw x6, -4(x0), of 0xfffffffc"),
        (0x0050_a023, 6, "sw x5, 0(x1), at 0x7ffffffc"),
        (0x0050_a223, 10, "sw x5, 4(x1), at 0x80000000"),
        (0x0051_0023, 10, "sb x5, 0(x2), at 0x80000000"),
        (0x0041_8463, 7, "beq x3, x4, 8"),
        (0x0051_8463, 8, "beq x3, x5, 8"),
        (0x0041_9463, 8, "bne x3, x4, 8"),
        (0x0051_c463, 7, "blt x3, x5, 8"),
        (0x0051_d463, 8, "bge x3, x5, 8"),
        (0x0031_4463, 7, "blt x2, x3, 8"),
        (0x0031_6463, 8, "bltu x2, x3, 8"),
        (0x0000_0163, 7, "beq x0, x0, 2, whose target is no word's"),
        (0x0080_00ef, 9, "jal x1, 8"),
        (0x0000_8067, 9, "jalr x0, 0(x1)"),
        (0x0ff0_000f, 11, "fence"),
        (0x0000_0073, 11, "ecall"),
        (0x0010_0073, 11, "ebreak"),
        (0x0000_0000, 1, "no instruction"),
        (0xffff_ffff, 1, "no instruction"),
    ];
    let costs = costs();
    let regs = registers();
    for (word, want, name) in words {
        assert_eq!(rt; cost(&costs, &regs, Some(word)), want, "{name}");
    }
    assert_eq!(rt; cost(&costs, &regs, None), 1);
}
