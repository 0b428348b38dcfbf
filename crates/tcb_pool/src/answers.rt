// The answer of a call, in the registers of its task.

ghost use Rattle.std.specs.Prelude.{◌≡◌};
ghost use Rattle.machine_model.specs.Answers.{size_of, with_answer};

use kern_base::{Answer, Service};
use rv32_exec::Regs;

const A0: u8 = 10;

// The size of a message, of the calls that take one message.
pub(crate) fn size_in(service: Service, answer: Answer) -> Option<u32>
    ensures { result ≡ size_of service answer }
{
    match service {
        Service::QPend | Service::TaskQPend => Some(answer.extra),
        _ => None,
    }
}

// Writes an answer: the number of its error, its value, and the size of a message where there is one.
pub(crate) fn write_answer(regs: &mut Regs, service: Service, answer: Answer) -> Option<u32>
    ensures size { result ≡ size_of service answer }
    ensures registers { regs.new ≡ with_answer service answer regs.old }
{
    regs.set(A0, answer.err.number());
    regs.set(A0 + 1, answer.value);
    let size = size_in(service, answer);
    if let Some(size) = size {
        regs.set(A0 + 2, size);
    }
    size
}
