// What passes between a task's registers and the kernel: the request of a call, and its answer.

ghost use Rattle.std.specs.Prelude.{◌≡◌, ◌<◌, ◌≤◌, ℕ, true, List, [], slice_set, slice_index_or};
ghost use Rattle.kern_model.specs.State.{task_at};
ghost use Rattle.kern_model.specs.Valid.{has_result};
ghost use Rattle.kern_model.specs.Finish.{finished};
ghost use Rattle.served.specs.Served.{program_serves};
ghost use Rattle.rv32_exec.specs.Registers.{no_registers, read};
ghost use Rattle.machine_model.specs.Answers.{arguments, with_answer, with_table, returned, size_or_zero};
ghost use Rattle.machine_model.specs.Acts.{request_of, called};
ghost use Rattle.machine_core.specs.AnswerView.{answered_kernel, finished_kernel, finished_line};

use crate::What;
use kern_base::{Answer, Request, Service, TaskId};
use kernel_calls::Kernel;
use links::Links;
use rv32_exec::Regs;

const A0: u8 = 10;

const A7: u8 = 17;

// The request of a call: the number of the service in a7, the arguments in a0 to a3.
pub(crate) fn request_in(regs: &Regs) -> Request
    ensures { (memory : List ℕ) → result ≡ request_of program_serves regs.now memory }
{
    Request {
        service: Service::of(regs.get(A7)),
        args: [
            regs.get(A0),
            regs.get(A0 + 1),
            regs.get(A0 + 2),
            regs.get(A0 + 3),
        ],
        ids: [0; 8],
        n_ids: 0,
        table: false,
    }
}

// The words of the arguments of a service, and 0 in each place that it has no argument for.
pub(crate) fn arguments(service: Service, words: &[u32; 4]) -> [u32; 4]
    ensures { result ≡ arguments service words.now }
{
    let [first, second, third, fourth] = *words;
    match service.args() {
        0 => [0; 4],
        1 => [first, 0, 0, 0],
        2 => [first, second, 0, 0],
        3 => [first, second, third, 0],
        _ => [first, second, third, fourth],
    }
}

// Writes the event of a call, with the arguments of its service.
pub(crate) fn call_line(task: TaskId, request: &Request, line: &mut What)
    ensures { line.new ≡ called task.0 request.now }
{
    *line = What::Call {
        task,
        service: request.service,
        args: arguments(request.service, &request.args),
        n_args: request.service.args() as u8,
    };
}

// Writes the answer of a call into the registers of its task, and its event.
pub(crate) fn answer<L: Links>(
    kernel: &mut Kernel<L>,
    task: TaskId,
    service: Service,
    answer: Answer,
    line: &mut What,
)
    requires { task.0 < 64 }
    ensures kernel { kernel.new ≡ answered_kernel kernel.old task.0 service answer }
    ensures line { line.new ≡ returned task.0 service answer [] }
{
    let size = kernel.answer(task, service, answer);
    *line = What::Ret {
        task,
        service,
        err: answer.err,
        value: answer.value,
        size: size.unwrap_or(0),
        tab: [None; 8],
        n_tab: 0,
    };
}

// A task reads the result that waits for it.
pub(crate) fn finish<L: Links>(kernel: &mut Kernel<L>, task: TaskId, line: &mut What)
    requires inside { task.0 < 64 }
    requires free { kernel.old.hand ≡ None }
    requires waits { has_result (task_at kernel.old.state task.0).answered ≡ true }
    ensures kernel { kernel.new ≡ finished_kernel kernel.old task.0 }
    ensures line { line.new ≡ finished_line kernel.old task.0 }
    ensures no_table { (memory : List ℕ) → with_table (task_at kernel.old.state task.0).answered memory ≡ memory }
{
    let finished = kernel.finish(task);
    answer(kernel, task, finished.service, finished.answer, line);
}
