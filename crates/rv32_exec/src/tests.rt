// A worked multiplication and division, run to its stores. The words are the GNU assembler's.

use super::{Program, Ram, Regs, Stepped, step};
use std::test::Fail;

// lui t0, 0x80000; li t1, -1; la t2, 0x100000; div a0, t0, t1; sw a0, 0(t2); rem a1, t0, x0; sw a1, 4(t2);
// divu a2, t0, x0; sw a2, 8(t2); mulhu a3, t1, t1; sw a3, 0(t2); j .
static CODE: [u32; 13] = [
    0x8000_02b7,
    0xfff0_0313,
    0x0010_03b7,
    0x0003_8393,
    0x0262_c533,
    0x00a3_a023,
    0x0202_e5b3,
    0x00b3_a223,
    0x0202_d633,
    0x00c3_a423,
    0x0263_36b3,
    0x00d3_a023,
    0x0000_006f,
];

// The four stores: after how many further instructions, where, and what.
static STORES: [(u32, u32, u32); 4] = [
    (5, 1048576, 2147483648),
    (1, 1048580, 2147483648),
    (1, 1048584, 4294967295),
    (1, 1048576, 4294967294),
];

#[test]
fn multiplies_and_divides(rt: HostRuntime) -> Result<(), Fail> {
    let mut ram = Ram::new(rt.alloc(), &[7, 8])?;
    let mut regs = Regs::new();
    let program = Program::new(rt.alloc(), &CODE)?;
    assert!(rt; program.words() == CODE.as_slice() && program.instruction(2).is_none());
    assert!(rt; ram.word(1048580) == 8 && ram.word(1310716) == 0);
    for (before, addr, value) in STORES.iter() {
        for _ in 0..*before {
            assert!(rt; step(&CODE, &mut regs, &mut ram) == Stepped::Next);
        }
        let stored = Stepped::Stored {
            addr: *addr,
            width: 4,
            value: *value,
        };
        assert!(rt; program.step(&mut regs, &mut ram) == stored);
    }
    assert!(rt; ram.word(1048576) == 4294967294 && ram.word(1048584) == 4294967295);
    assert!(rt; regs.pc() == 48 && regs.get(10) == 2147483648);
    ram.set_word(1310716, 5);
    assert!(rt; ram.word(1310716) == 5);
    regs.set(0, 9);
    regs.set_pc(52);
    assert!(rt; regs.get(0) == 0 && regs.pc() == 52);
    Ok(())
}
