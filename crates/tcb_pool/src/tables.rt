// The records of all tasks.

ghost use Rattle.std.specs.Prelude.{◌≡◌, ◌<◌, ◌≤◌, ◌++◌, ◌==◌, ◌&&◌, not, length, map, drop, All, List, slice_set, slice_index_or};
ghost use Rattle.kern_model.specs.State.{Task, no_task, is_ready};
ghost use Rattle.machine_model.specs.Steps.{some_readied};
ghost use Rattle.tcb_pool.specs.TaskView.{task_of, without_own};
ghost use Rattle.rv32_exec.specs.Exec.{exec};
ghost use Rattle.rv32_exec.specs.Registers.{no_registers};
ghost use Rattle.kern_model.specs.Start.{start_tasks, living_task, application_task};
ghost use Rattle.machine_model.specs.Start.{start_registers, entry_registers};
ghost use Rattle.machine_model.specs.Answers.{size_of, with_answer};

use crate::Tcb;
use crate::answers::write_answer;
use app_image::{Image, TaskDef};
use kern_base::{Answer, LEAVE, Prio, Service, TaskId, Waiting};
use rv32_exec::{Program, Ram, Regs, Stepped};
use std::marker::Model;

/// The 64 task records, by task number. Contracts see the tasks of the kernel state and their
/// registers.
#[derive(Drop)]
pub struct Tcbs {
    records: [Tcb; 64],
}

impl Model for Tcbs {
    ghost use Rattle.tcb_pool.specs.TaskTable.{TaskTable};

    ghost Value = { TaskTable };

    ghost use Rattle.tcb_pool.specs.TableView.{table_of};

    ghost view = { table_of };
}

// The record of a number without a task.
fn blank() -> Tcb
    ensures task { task_of result ≡ no_task }
    ensures registers { result.regs ≡ no_registers }
{
    Tcb {
        base: Prio(63),
        prio: Prio(63),
        wait: Waiting::No,
        ids: [0; 8],
        n_ids: 0,
        mask: 0,
        opt: 0,
        table: 0,
        suspended: 0,
        alive: false,
        quantum: 0,
        full: 0,
        regs: Regs::new(),
        result: None,
    }
}

// The record of a living task at the start.
fn living(prio: u8, quantum: u32, wait: Waiting, regs: Regs) -> Tcb
    ensures task { task_of result ≡ living_task prio quantum 0 wait }
    ensures registers { result.regs ≡ regs }
{
    Tcb {
        base: Prio(prio),
        prio: Prio(prio),
        wait,
        ids: [0; 8],
        n_ids: 0,
        mask: 0,
        opt: 0,
        table: 0,
        suspended: 0,
        alive: true,
        quantum,
        full: quantum,
        regs,
        result: None,
    }
}

// The registers of an application task at the start.
fn entry_regs(def: &TaskDef) -> Regs
    ensures { result ≡ entry_registers def.now }
{
    let mut regs = Regs::new();
    regs.set_pc(def.entry);
    regs.set(2, def.sp);
    regs.set(1, LEAVE);
    regs
}

// The record of an application task at the start.
fn application(def: &TaskDef, quanta: u32) -> Tcb
    requires { def.now.prio < 256 }
    ensures task { task_of result ≡ without_own (application_task quanta def.now) }
    ensures registers { result.regs ≡ entry_registers def.now }
{
    let quantum = if def.quanta == 0 { quanta } else { def.quanta };
    living(def.prio as u8, quantum, Waiting::No, entry_regs(def))
}

// Writes the records of the application tasks to the front.
fn place(records: &mut [Tcb], defs: &[TaskDef], quanta: u32)
    requires room { length defs.now ≤ length records.old }
    requires small { All (λ d. d.prio < 256) defs.now }
    ensures tasks { map task_of records.new ≡ map (λ d. without_own (application_task quanta d)) defs.now ++ drop (length defs.now) (map task_of records.old) }
    ensures registers { map (λ t. t.regs) records.new ≡ map entry_registers defs.now ++ drop (length defs.now) (map (λ t. t.regs) records.old) }
{
    for (index, def) in defs.iter().enumerate() {
        records[index] = application(def, quanta);
    }
}

/// Whether a task is alive, waits for nothing and is not suspended.
pub fn is_ready(tcb: &Tcb) -> bool
    ensures { result ≡ is_ready (task_of tcb.now) }
{
    tcb.alive && matches!(tcb.wait, Waiting::No) && tcb.suspended == 0
}

// Writes which of as many records are ready.
fn mark_ready(ready: &mut [bool], records: &[Tcb])
    requires { length records.now ≡ length ready.old }
    ensures { ready.new ≡ map is_ready (map task_of records.now) }
{
    for (index, tcb) in records.iter().enumerate() {
        ready[index] = is_ready(tcb);
    }
}

// Whether a record of this priority is ready, and was not.
fn readied(was_ready: bool, tcb: &Tcb, prio: Prio) -> bool
    ensures { result ≡ (not was_ready && (is_ready (task_of tcb.now) && ((task_of tcb.now).prio == prio.0))) }
{
    !was_ready && is_ready(tcb) && tcb.prio == prio
}

// Whether some record of this priority is ready that was not.
fn some_readied(before: &[bool], records: &[Tcb], prio: Prio) -> bool
    requires { length before.now ≡ length records.now }
    ensures { (tasks : List Task) → before.now ≡ map is_ready tasks → result ≡ some_readied prio.0 tasks (map task_of records.now) }
{
    for (index, tcb) in records.iter().enumerate() {
        if readied(before[index], tcb, prio) {
            return true;
        }
    }
    false
}

impl Tcbs {
    /// The records at the start: the application tasks in declared order, then numbers without a
    /// task, and from 60 on the tick task, the timer task, the idle task and the handler.
    pub fn new(image: &Image) -> Tcbs
        ensures tasks { result.tasks ≡ map without_own (start_tasks image.now) }
        ensures registers { result.registers ≡ start_registers image.now }
    {
        let config = image.config();
        let none = Regs::new();
        let quanta = config.quanta;
        let mut records = [blank(); 64];
        records[60] = living(config.tick_prio as u8, quanta, Waiting::Signal, none);
        records[61] = living(config.tmr_prio as u8, quanta, Waiting::Signal, none);
        records[62] = living(63, quanta, Waiting::No, none);
        place(&mut records, image.tasks(), quanta);
        Tcbs { records }
    }

    /// The record of a task.
    pub fn get(&self, task: TaskId) -> &Tcb
        requires { task.0 < 64 }
        ensures task { task_of result.now ≡ slice_index_or self.now.tasks task.0 no_task }
        ensures registers { result.now.regs ≡ slice_index_or self.now.registers task.0 no_registers }
    {
        &self.records[task.0 as usize]
    }

    /// No record has a part in its task's own semaphore and queue: a law, to be called where it is needed.
    pub fn stand_alone(&self)
        ensures { map without_own self.now.tasks ≡ self.now.tasks }
    {
        let _ = &self.records;
    }

    /// Writes the record of a task.
    pub fn set(&mut self, task: TaskId, tcb: Tcb)
        requires { task.0 < 64 }
        ensures tasks { self.new.tasks ≡ slice_set self.old.tasks task.0 (task_of tcb) }
        ensures registers { self.new.registers ≡ slice_set self.old.registers task.0 tcb.regs }
    {
        self.records[task.0 as usize] = tcb;
    }

    /// Runs one instruction on the registers of a task, where they stand. A trap changes nothing.
    #[inline(always)]
    pub fn run(&mut self, task: TaskId, program: &Program, ram: &mut Ram) -> Stepped
        requires { task.0 < 64 }
        ensures registers { self.new ≡ record self.old { registers = slice_set self.old.registers task.0 (exec program.now (slice_index_or self.old.registers task.0 no_registers) ram.old).registers } }
        ensures memory { ram.new ≡ (exec program.now (slice_index_or self.old.registers task.0 no_registers) ram.old).memory }
        ensures did { result ≡ (exec program.now (slice_index_or self.old.registers task.0 no_registers) ram.old).did }
    {
        let tcb = &mut self.records[task.0 as usize];
        program.step(&mut tcb.regs, ram)
    }

    /// Writes the answer of a call into the registers of a task, where they stand, and changes nothing else: the number of its error
    /// to a0, its value to a1, and to a2 the size of a message, of a call that takes one. Gives that size.
    pub fn answer(&mut self, task: TaskId, service: Service, answer: Answer) -> Option<u32>
        requires { task.0 < 64 }
        ensures size { result ≡ size_of service answer }
        ensures registers { self.new ≡ record self.old { registers = slice_set self.old.registers task.0 (with_answer service answer (slice_index_or self.old.registers task.0 no_registers)) } }
    {
        let caller = &mut self.records[task.0 as usize];
        write_answer(&mut caller.regs, service, answer)
    }

    /// Which tasks are ready, by number.
    pub fn ready(&self) -> [bool; 64]
        ensures { result ≡ map is_ready self.now.tasks }
    {
        let mut ready = [false; 64];
        mark_ready(&mut ready, &self.records);
        ready
    }

    /// Whether a task of this priority is ready that was not: `before` tells which were.
    pub fn has_readied(&self, before: &[bool; 64], prio: Prio) -> bool
        ensures { (tasks : List Task) → before.now ≡ map is_ready tasks → result ≡ some_readied prio.0 tasks self.now.tasks }
    {
        some_readied(before, &self.records, prio)
    }
}
