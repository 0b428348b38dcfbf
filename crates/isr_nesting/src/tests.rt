// Interrupts that nest, that wait for their moment, and that go by the order of the list; the marks of a frame.

ghost use Rattle.std.specs.Prelude.{◌≡◌};

use crate::records::Recorded;
use crate::{Frames, marks_after};
use inject_list::Moment;
use rv32_isa::Instr;
use std::test::Fail;

// An interrupt of vector 3 with this moment and level.
fn at(moment: Moment, level: u8) -> Recorded
    ensures { result.level ≡ level }
{
    Recorded {
        moment,
        vector: 3,
        level,
        entry: 16,
        sp: 0x0010_0100,
        words: [7, 8, 9, 10],
    }
}

// The interrupt that is due enters.
fn enters(frames: &mut Frames, quiet: bool, s: u64, t: u32) -> Option<usize> {
    let number = frames.due(false, quiet, s, t)?;
    frames.enter(number);
    Some(number)
}

#[test]
fn the_higher_level_and_then_the_lower_number_enters(rt: HostRuntime) -> Result<(), Fail> {
    let records = vec![in rt.alloc();
        at(Moment::Step(20), 2),
        at(Moment::Step(10), 1),
        at(Moment::Step(20), 2),
        at(Moment::Step(20), 5),
        at(Moment::Step(30), 5),
    ]?;
    let Ok(mut frames) = Frames::of_records(rt.alloc(), records) else {
        return Err(Fail::from("no memory"));
    };
    for (s, number) in [
        (9, None),
        (10, Some(1)),
        (19, None),
        (20, Some(3)),
        (30, None),
    ] {
        assert_eq!(rt; enters(&mut frames, true, s, 0), number);
    }
    Ok(())
}

#[test]
fn moments_in_task_steps_go_by_the_order_of_the_list(rt: HostRuntime) -> Result<(), Fail> {
    let records = vec![in rt.alloc();
        at(Moment::Task(5), 1),
        at(Moment::Task(3), 7),
        at(Moment::Step(90), 1),
    ]?;
    let Ok(mut frames) = Frames::of_records(rt.alloc(), records) else {
        return Err(Fail::from("no memory"));
    };
    for (quiet, s, t, number) in [
        (true, 0, 4, None),
        (false, 0, 5, None),
        (true, 0, 5, Some(0)),
        (true, 0, 5, None),
    ] {
        assert_eq!(rt; enters(&mut frames, quiet, s, t), number);
    }
    assert_eq!(rt; frames.due(true, false, 90, 5), None);
    Ok(())
}

#[test]
fn a_write_of_a0_or_a1_drops_its_mark(rt: HostRuntime) {
    for (rd, marks) in [(10, 2), (11, 1), (12, 3), (0, 3)] {
        let instr = Instr::Addi {
            rd,
            rs1: 10,
            imm: 1,
        };
        assert_eq!(rt; marks_after(3, Some(&instr)), marks);
    }
    assert_eq!(rt; marks_after(3, None), 3);
}

#[test]
fn the_frame_begins_with_its_words_and_reads_its_results(rt: HostRuntime) -> Result<(), Fail> {
    let records = vec![in rt.alloc(); at(Moment::Step(0), 4)]?;
    let Ok(mut frames) = Frames::of_records(rt.alloc(), records) else {
        return Err(Fail::from("no memory"));
    };
    assert!(rt; frames.top().is_none());
    let Some(number) = frames.due(false, false, 0, 0) else {
        return Err(Fail::from("none is due"));
    };
    frames.enter(number);
    let Some(frame) = frames.top() else {
        return Err(Fail::from("no frame"));
    };
    for (register, value) in [
        (1, 0xFFFF_FFF0),
        (2, 0x0010_0100),
        (10, 7),
        (13, 10),
        (14, 0),
    ] {
        assert_eq!(rt; frame.regs.get(register), value);
    }
    assert_eq!(rt; (frame.regs.pc(), frame.level, frame.used), (16, 4, 0));
    Ok(())
}
