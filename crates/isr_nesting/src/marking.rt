// The marks of a frame: the registers that hold what a post answered.

ghost use Rattle.std.specs.Prelude.{◌≡◌, ◌==◌, ◌||◌, ℕ, Bool, false, option_map};
ghost use Rattle.std.specs.List.{list_any};
ghost use Rattle.served.specs.Served.{program_serves};
ghost use Rattle.isr_nesting.specs.FrameView.{mark_list};
ghost use Rattle.rv32_isa.specs.Operands.{reads, writes};
ghost use Rattle.machine_model.specs.Marks.{is_marked, call_reads, instruction_reads, marks_after, reads_of};

use kern_base::Service;
use rv32_exec::Regs;
use rv32_isa::Instr;
use served::is_served;

// The marks of a0 and a1.
const FIRST: u8 = 1;

const SECOND: u8 = 2;

// What a post leaves in a frame's marks: `a0` and `a1` hold its answer.
pub(crate) const POST: u8 = FIRST + SECOND;

// Whether a register is marked.
fn has_mark(marks: u8, register: u8) -> bool
    ensures { result ≡ list_any (λ m. m == register) (mark_list marks) }
{
    match register {
        10 => marks % 2 == 1,
        11 => marks / 2 % 2 == 1,
        _ => false,
    }
}

// Whether the call of a service reads a marked register: the first two arguments of one that is served stand in
// these.
fn call_reads_mark(marks: u8, service: Service) -> bool
    ensures { result ≡ is_marked (mark_list marks) (call_reads program_serves service) }
{
    is_served(service)
        && match service.args() {
            0 => false,
            1 => has_mark(marks, 10),
            _ => has_mark(marks, 10) || has_mark(marks, 11),
        }
}

// Whether an instruction other than ECALL reads a marked register.
fn source_has_mark(marks: u8, instr: &Instr) -> bool
    ensures { result ≡ is_marked (mark_list marks) (reads instr.now) }
{
    let (first, second) = instr.sources();
    has_mark(marks, first) || has_mark(marks, second)
}

// Whether an instruction reads a marked register.
pub(crate) fn reads_mark(marks: u8, regs: &Regs, instr: &Instr) -> bool
    ensures { result ≡ is_marked (mark_list marks) (instruction_reads program_serves regs.now instr.now) }
{
    match instr {
        Instr::Ecall => call_reads_mark(marks, Service::of(regs.get(17))),
        _ => source_has_mark(marks, instr),
    }
}

/// The marks of a frame once an instruction other than ECALL has written its register: bit 0 for `a0`, bit
/// 1 for `a1`. No instruction writes no register.
pub fn marks_after(marks: u8, instr: Option<&Instr>) -> u8
    ensures { mark_list result ≡ marks_after (option_map (λ i. i.now) instr.entry) (mark_list marks) }
{
    let register = match instr {
        Some(instr) => instr.target(),
        None => 0,
    };
    match register {
        10 => marks / 2 * 2,
        11 => marks % 2,
        _ => marks,
    }
}

// Whether the instruction that comes next, if one does, reads a marked register, and the marks once it has
// written its register.
pub(crate) fn marks_at(marks: u8, regs: &Regs, instr: Option<&Instr>) -> (bool, u8)
    ensures reads { result.0 ≡ is_marked (mark_list marks) (reads_of program_serves regs.now (option_map (λ i. i.now) instr.entry)) }
    ensures after { mark_list result.1 ≡ marks_after (option_map (λ i. i.now) instr.entry) (mark_list marks) }
{
    match instr {
        Some(instr) => (
            reads_mark(marks, regs, instr),
            marks_after(marks, Some(instr)),
        ),
        None => (false, marks),
    }
}
