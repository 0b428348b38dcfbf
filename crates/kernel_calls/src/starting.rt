// The kernel at the start.

ghost use Rattle.std.specs.Prelude.{◌≡◌, ◌<◌, ◌≤◌, ◌++◌, [], ◌∷◌, All, IfOk, length, replicate};
ghost use Rattle.app_image.specs.Layout.{HasWords};
ghost use Rattle.kern_model.specs.Micro.{whole};
ghost use Rattle.kern_model.specs.Start.{ready_from};
ghost use Rattle.kern_model.specs.Valid.{IsLinked};
ghost use Rattle.links.specs.Nodes.{AreOwn};
ghost use Rattle.micro_steps.specs.Starts.{no_lists};
ghost use Rattle.kernel_calls.specs.KernelRecord.{start_of};
ghost use Rattle.kernel_calls.specs.Stepping.{HasPrios};

use crate::kernels::Kernel;
use crate::making::make;
use crate::planning::no_plan;
use crate::seen::Seen;
use crate::work::Work;
use app_image::{Image, TaskDef};
use kern_base::{NoMemory, Prio, TaskId};
use kernel_records::Records;
use links::Links;
use micro_steps::{Link, Steps};
use std::alloc::Global;

impl<L: Links> Kernel<L> {
    /// The kernel at the start, over fresh nodes: 128 for the ready lists, and 576 for the lists of waiters. Its tasks and objects
    /// are those that the image declares.
    pub fn new(alloc: Global, image: &Image, ready: L, pend: L) -> Result<Kernel<L>, NoMemory>
        requires ready { AreOwn 128 (L.nexts ready) × AreOwn 128 (L.prevs ready) }
        requires pend { AreOwn 576 (L.nexts pend) × AreOwn 576 (L.prevs pend) }
        ensures start { IfOk result (λ k. k ≡ start_of image.now) }
        ensures valid { IfOk result (λ k. IsLinked k.state) }
    {
        are_words(image);
        let tasks = image.tasks();
        let records = Records::new(alloc, image)?;
        let mut steps = Steps::new(ready, pend, &prios_of(&records));
        join_ready(&mut steps, tasks);
        make(&mut steps, Link::Ready(TaskId(62), Prio(63), true));
        Ok(Kernel {
            records,
            steps,
            plan: no_plan(),
            seen: Seen::nothing(),
            work: Work::none(),
            busy: false,
        })
    }
}

// The numbers that an image declares are words, by their type: a law, to be called where the start is to be valid.
fn are_words(image: &Image)
    ensures { HasWords image.now }
{
    let _ = image.code();
}

// The present priorities of all tasks.
fn prios_of(records: &Records) -> [Prio; 64]
    requires { length records.now.state.tasks ≡ 64 }
    ensures { HasPrios records.now.state result }
{
    let mut prios = [Prio(63); 64];
    for task in 0..64u8 {
        prios[task as usize] = records.tcb(TaskId(task)).prio;
    }
    prios
}

// The application tasks are ready, in declared order.
fn join_ready<L: Links>(steps: &mut Steps<L>, tasks: &[TaskDef])
    requires few { length tasks.now ≤ 60 }
    requires small { All (λ d. d.prio < 63) tasks.now }
    requires empty { steps.old.halves ≡ whole no_lists }
    requires found { steps.old.start ≡ no_lists }
    ensures halves { steps.new.halves ≡ whole (record { ready = ready_from tasks.now 0 63 ++ [] ∷ []; pend = replicate 64 [] }) }
    ensures start { steps.new.start ≡ steps.new.halves.forward }
    ensures prios { steps.new.prios ≡ steps.old.prios }
{
    for (index, def) in tasks.iter().enumerate() {
        make(
            steps,
            Link::Ready(TaskId(index as u8), Prio(def.prio as u8), true),
        );
    }
}
