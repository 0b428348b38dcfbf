// The records of the kernel.

ghost use Rattle.std.specs.Prelude.{◌≡◌, ◌<◌, ◌≤◌, true, IfOk, Some, List, length, map, slice_set, slice_index_or};
ghost use Rattle.kern_model.specs.State.{Task, task_at, is_ready, kinds_of, nesting_limit};
ghost use Rattle.kern_model.specs.Valid.{has_result};
ghost use Rattle.kern_model.specs.Finish.{consumed_in, consumed_object, finished, flags_consumed};
ghost use Rattle.machine_model.specs.Answers.{size_of, with_answer};
ghost use Rattle.message_store.specs.Store.{HeldQueue};
ghost use Rattle.kernel_records.specs.ObjectView.{object_seen, objects_in};
ghost use Rattle.kernel_records.specs.TaskChanges.{took_flags};
ghost use Rattle.kern_model.specs.Stop.{stopped};
ghost use Rattle.machine_model.specs.Steps.{some_readied};
ghost use Rattle.tcb_pool.specs.TaskView.{task_of, without_own};
ghost use Rattle.rv32_exec.specs.Exec.{exec};
ghost use Rattle.rv32_exec.specs.Registers.{no_registers};
ghost use Rattle.kernel_records.specs.RecordsRecord.{records_at_start, without_lists};

use crate::changes::{clear_result, stop_task};
use crate::objects::{Content, Object};
use crate::starting::{start_kinds, start_objects};
use app_image::Image;
use kern_base::{Answer, Finished, Kinds, NoMemory, OsErr, Prio, Service, TaskId};
use message_store::MessageStore;
use rv32_exec::{Program, Ram, Stepped};
use std::alloc::Global;
use std::marker::Model;
use tcb_pool::{Tcb, Tcbs};
use tick_timers::{Ticks, Timers};

// What services read of the image.
#[derive(Clone, Copy)]
pub(crate) struct Settings {
    pub tasks: u8,
    pub round_robin: bool,
    pub tmr_div: u32,
    pub pool: u32,
}

/// The records of the kernel: its tasks, its objects, the ticks and who waits for one, the counters and the lock. All its memory is
/// taken by `new`. Contracts see the kernel's state without its lists.
#[derive(Drop)]
pub struct Records {
    pub(crate) tasks: Tcbs,
    pub(crate) objects: Vec<Object>,
    pub(crate) kinds: Kinds,
    pub(crate) ticks: Ticks,
    pub(crate) timers: Timers,
    pub(crate) tick_signals: u64,
    pub(crate) timer_signals: u64,
    pub(crate) tick_calls: u32,
    pub(crate) processing: bool,
    pub(crate) in_callback: bool,
    pub(crate) lock: u8,
    pub(crate) messages: MessageStore,
    pub(crate) settings: Settings,
}

impl Model for Records {
    ghost use Rattle.kernel_records.specs.RecordsRecord.{RecordsRecord};

    ghost Value = { RecordsRecord };

    ghost use Rattle.kernel_records.specs.RecordsView.{records_of, IsSound};

    ghost view = { records_of };

    ghost invariant = { IsSound };
}

impl Records {
    /// The records at the start: the tasks and objects are those that the image declares. Takes all the memory of a run.
    pub fn new(alloc: Global, image: &Image) -> Result<Records, NoMemory>
        ensures { IfOk result (λ r. r ≡ records_at_start image.now) }
    {
        let config = image.config();
        Ok(Records {
            tasks: Tcbs::new(image),
            objects: start_objects(alloc, image.objects())?,
            kinds: start_kinds(image.objects(), image.tasks().len() as u8),
            ticks: Ticks::new(),
            timers: Timers::new(),
            tick_signals: 0,
            timer_signals: 0,
            tick_calls: 0,
            processing: false,
            in_callback: false,
            lock: 0,
            messages: MessageStore::new(alloc, image)?,
            settings: Settings {
                tasks: image.tasks().len() as u8,
                round_robin: config.round_robin == 1,
                tmr_div: config.tmr_div,
                pool: config.pool,
            },
        })
    }

    /// What the static checks of a call look at: the kinds of objects, and how many application tasks there are.
    pub fn kinds(&self) -> &Kinds
        ensures { result.now ≡ kinds_of self.now.state }
    {
        &self.kinds
    }

    /// How often the scheduler is locked, 0 to 250.
    pub fn lock(&self) -> u8
        ensures value { result ≡ self.now.state.lock }
        ensures few { result ≤ nesting_limit }
    {
        self.lock
    }

    /// The records of all tasks, which have no part in their own semaphores and queues.
    pub fn tasks(&self) -> &Tcbs
        ensures tasks { result.now.tasks ≡ map without_own self.now.state.tasks }
        ensures registers { result.now.registers ≡ self.now.registers }
    {
        self.tasks.stand_alone();
        &self.tasks
    }

    /// The record of a task.
    pub fn tcb(&self, task: TaskId) -> &Tcb
        requires { task.0 < 64 }
        ensures task { task_of result.now ≡ without_own (task_at self.now.state task.0) }
        ensures registers { result.now.regs ≡ slice_index_or self.now.registers task.0 no_registers }
    {
        self.tasks.get(task)
    }

    /// Which tasks are ready, by number.
    pub fn ready_tasks(&self) -> [bool; 64]
        ensures { result ≡ map is_ready self.now.state.tasks }
    {
        self.tasks.ready()
    }

    /// Whether a task of this priority is ready that was not: `before` tells which were.
    pub fn has_readied(&self, before: &[bool; 64], prio: Prio) -> bool
        ensures { (tasks : List Task) → before.now ≡ map is_ready tasks → result ≡ some_readied prio.0 tasks self.now.state.tasks }
    {
        self.tasks.has_readied(before, prio)
    }

    /// Runs one instruction on the registers of a task, where they stand. A trap changes nothing.
    #[inline(always)]
    pub fn run_task(&mut self, task: TaskId, program: &Program, ram: &mut Ram) -> Stepped
        requires { task.0 < 64 }
        ensures registers { self.new ≡ record self.old { registers = slice_set self.old.registers task.0 (exec program.now (slice_index_or self.old.registers task.0 no_registers) ram.old).registers } }
        ensures memory { ram.new ≡ (exec program.now (slice_index_or self.old.registers task.0 no_registers) ram.old).memory }
        ensures did { result ≡ (exec program.now (slice_index_or self.old.registers task.0 no_registers) ram.old).did }
    {
        self.tasks.run(task, program, ram)
    }

    /// Writes the answer of a call into the registers of a task, where they stand, and changes nothing else. Gives the size of a
    /// message, of a call that takes one.
    pub fn answer(&mut self, task: TaskId, service: Service, answer: Answer) -> Option<u32>
        requires { task.0 < 64 }
        ensures size { result ≡ size_of service answer }
        ensures registers { self.new ≡ record self.old { registers = slice_set self.old.registers task.0 (with_answer service answer (slice_index_or self.old.registers task.0 no_registers)) } }
    {
        self.tasks.answer(task, service, answer)
    }

    /// What the first action of a task after its wait does: gives the result that waits for it, which is then gone.
    pub fn take_result(&mut self, task: TaskId) -> Finished
        requires task { task.0 < 64 }
        requires waits { has_result (task_at self.old.state task.0).answered ≡ true }
        ensures result { (task_at self.old.state task.0).answered ≡ Some result }
        ensures records { self.new ≡ record self.old { state = finished task.0 self.old.state } }
    {
        let Some(result) = self.tasks.get(task).result else {
            unreachable!();
        };
        self.consume(task, &result);
        clear_result(&mut self.tasks, task);
        result
    }

    // A wait for event flags that succeeded consumes the bits with which it was woken, unless the group is deleted.
    fn consume(&mut self, task: TaskId, res: &Finished)
        requires { task.0 < 64 }
        ensures { self.new ≡ record self.old { state = record self.old.state { objects = flags_consumed res.now.service res.now.answer.err (task_at self.old.state task.0) res.now.answer.value self.old.state.objects } } }
    {
        if !took_flags(res) {
            return;
        }
        let tcb = self.tasks.get(task);
        consume_in(
            &mut self.objects,
            &tcb.ids[..tcb.n_ids as usize],
            res.answer.value,
            tcb.opt,
        );
    }

    /// A trap of a task, which stops for good. The scheduler is then not locked.
    pub fn stop(&mut self, task: TaskId)
        requires { task.0 < 64 }
        ensures { self.new ≡ record self.old { state = without_lists (stopped task.0 self.old.state) } }
    {
        stop_task(&mut self.tasks, task);
        self.lock = 0;
    }
}

// Whether a result is that of a wait for event flags that succeeded.
fn took_flags(res: &Finished) -> bool
    ensures { result ≡ took_flags res.now.service res.now.answer.err }
{
    matches!(res.service, Service::FlagPend) && matches!(res.answer.err, OsErr::NoError)
}

// The ready bits of a wait are consumed, where the first of these is its event flag group.
fn consume_in(objects: &mut [Object], ids: &[u8], ready: u32, option: u32)
    ensures size { length objects.new ≡ length objects.old }
    ensures objects { (qs : List HeldQueue) → objects_in qs objects.new ≡ consumed_in ids.now ready option (objects_in qs objects.old) }
{
    let Some(number) = ids.first() else {
        return;
    };
    let number = *number as usize;
    if number >= objects.len() {
        return;
    }
    consume_bits(&mut objects[number], ready, option);
}

// The same of an object, unless it is deleted.
fn consume_bits(object: &mut Object, ready: u32, option: u32)
    ensures { (q : HeldQueue) → object_seen q object.new ≡ consumed_object ready option (object_seen q object.old) }
{
    if object.deleted {
        return;
    }
    if let Content::Flags(group) = &mut object.content {
        group.consume(ready, option);
    }
}
