// The queues and the tasks' own objects at the start.

ghost use Rattle.std.specs.Prelude.{◌≡◌, ◌≤◌, ◌-◌, ◌++◌, length, map, replicate, IfOk};
ghost use Rattle.message_store.specs.StoreView.{declared_limit, empty_queue, empty_own};

use app_image::{ObjDef, TaskDef};
use kern_base::{Kind, NoMemory};
use msg_queues::MsgQueue;
use std::alloc::Global;
use task_objects::TaskBox;

// How many tasks there are.
const TASKS: usize = 64;

// How many messages an object may hold, as it was declared.
fn limit_of(def: &ObjDef) -> u32
    ensures { result ≡ declared_limit def.now.kind def.now.f }
{
    match def.kind {
        Kind::Queue => def.f[0],
        _ => 0,
    }
}

// An empty queue for each object.
pub(crate) fn start_queues(alloc: Global, defs: &[ObjDef]) -> Result<Vec<MsgQueue>, NoMemory>
    ensures { IfOk result (λ v. v.items ≡ map (λ d. empty_queue (declared_limit d.kind d.f)) defs.now) }
{
    let mut queues = Vec::new(alloc);
    for def in defs {
        let queue = MsgQueue::new(alloc, limit_of(def))?;
        if queues.push(queue).is_err() {
            return Err(NoMemory);
        }
    }
    Ok(queues)
}

// Empty objects for each declared task.
fn application_boxes(alloc: Global, defs: &[TaskDef]) -> Result<Vec<TaskBox>, NoMemory>
    ensures { IfOk result (λ v. v.items ≡ map (λ d. empty_own d.qsize) defs.now) }
{
    let mut own = Vec::new(alloc);
    for def in defs {
        let task = TaskBox::new(alloc, def.qsize)?;
        if own.push(task).is_err() {
            return Err(NoMemory);
        }
    }
    Ok(own)
}

// Empty objects for each task: those behind the declared tasks hold no message.
pub(crate) fn start_own(alloc: Global, defs: &[TaskDef]) -> Result<Vec<TaskBox>, NoMemory>
    requires { length defs.now ≤ 64 }
    ensures { IfOk result (λ v. v.items ≡ map (λ d. empty_own d.qsize) defs.now ++ replicate (64 - length defs.now) (empty_own 0)) }
{
    let mut own = application_boxes(alloc, defs)?;
    for _ in defs.len()..TASKS {
        let task = TaskBox::new(alloc, 0)?;
        if own.push(task).is_err() {
            return Err(NoMemory);
        }
    }
    Ok(own)
}
