// What a look tells: the two chains of a list, also in the middle of a whole step.

ghost use Rattle.std.specs.Prelude.{◌≡◌, ◌≤◌, length, reverse};
ghost use Rattle.machine_model.specs.Looks.{chains, places, seen_in};
ghost use Rattle.machine_model.specs.Text.{IsPrintable};
ghost use Rattle.kernel_calls.specs.KernelRecord.{halves_in};
ghost use Rattle.machine_core.specs.LookView.{HasNoHandler, IsList, IsShown, read_of};

use crate::What;
use arrayvec::ArrayVec;
use inject_list::Seen;
use kernel_calls::Kernel;
use links::Links;
use micro_steps::Chains;

// The tasks of a chain.
type Tasks = ArrayVec<u8, 64>;

// 64 places for the tasks of a chain.
fn places(tasks: &[u8]) -> [u8; 64]
    requires { length tasks.now ≤ 64 }
    ensures { result ≡ places tasks.now }
{
    let mut out = [0; 64];
    out[..tasks.len()].copy_from_slice(tasks);
    out
}

// The forward chain of a list, from its head on.
fn forward_tasks<L: Links>(chains: &Chains<L>, seen: Seen) -> Tasks
    requires { IsList seen }
    ensures { result.items ≡ read_of seen chains.now.halves.forward }
{
    let mut tasks = Tasks::new();
    match seen {
        Seen::Obj(object) => chains.pend().forward(object, &mut tasks),
        Seen::Ready(prio) => chains.ready().forward(prio, &mut tasks),
    }
    tasks
}

// The backward chain of a list, from the tail on.
fn back_tasks<L: Links>(chains: &Chains<L>, seen: Seen) -> Tasks
    requires { IsList seen }
    ensures { result.items ≡ reverse (read_of seen chains.now.halves.back) }
{
    let mut tasks = Tasks::new();
    match seen {
        Seen::Obj(object) => chains.pend().backward(object, &mut tasks),
        Seen::Ready(prio) => chains.ready().backward(prio, &mut tasks),
    }
    tasks.as_mut_slice().reverse();
    tasks
}

// What is told of a look at a list, in which the handler does not stand.
pub(crate) fn look_line<L: Links>(kernel: &Kernel<L>, seen: Seen, line: &mut What)
    requires list { IsShown (length kernel.now.state.objects) seen }
    requires no_handler { HasNoHandler (halves_in kernel.now) }
    ensures line { line.new ≡ chains seen (seen_in seen (halves_in kernel.now).forward) (seen_in seen (halves_in kernel.now).back) }
    ensures printable { IsPrintable line.new }
{
    let chains = kernel.chains();
    chains.consistent();
    let forward = forward_tasks(chains, seen);
    let back = back_tasks(chains, seen);
    *line = What::Look {
        seen,
        forward: places(&forward),
        n_forward: forward.len() as u8,
        back: places(&back),
        n_back: back.len() as u8,
    };
}
