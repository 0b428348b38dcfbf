// The recorded interrupts that have not entered.

ghost use Rattle.std.specs.Prelude.{◌≡◌, ◌≢◌, ◌<◌, ◌≤◌, ℕ, true, Some, IfOk, All, length, map, is_some, slice_index};
ghost use Rattle.isr_nesting.specs.Nest.{numbered, waiting_at, without_number, IsRising};
ghost use Rattle.isr_nesting.specs.Least.{nothing};
ghost use Rattle.isr_nesting.specs.Keys.{step_key, task_key, key};
ghost use Rattle.isr_nesting.specs.RecordView.{interrupt_in, has_entered, record_at};
ghost use Rattle.inject_list.specs.declared.lists.Moment.TheVariants.{Task};
ghost use Rattle.isr_nesting.specs.Kept.{IsPassed};

use crate::minima::Minima;
use crate::orders::{in_order, keys, moments, places, tasks};
use crate::records::Recorded;
use inject_list::Moment;
use kern_base::NoMemory;
use std::alloc::Global;
use std::marker::Model;

// The key that stands for none.
pub(crate) const NONE: u32 = u32::MAX;

// More than the number of any interrupt of a list.
pub(crate) const NUMBERS: u32 = 16384;

// The key of an interrupt: of several the one that enters next has the least.
pub(crate) fn key(level: u8, number: u32) -> u32
    requires level { level ≤ 7 }
    requires number { number < 16384 }
    ensures { result ≡ key level number }
{
    (7 - u32::from(level)) * NUMBERS + number
}

// The interrupts of a list by number, and which of them have entered. Those whose moment is in raw steps stand
// in the order of their moments, with their keys, where `places` says, and the first `first` of them have
// entered; those whose moment is in task steps in the order of the list, and the first `next` of them have entered.
// None is due before the raw step `next_step` and the task step `next_task`.
#[derive(Drop)]
pub(crate) struct Waiting {
    recorded: Vec<Recorded>,
    entered: Vec<bool>,
    places: Vec<u32>,
    moments: Vec<u64>,
    keys: Minima,
    first: usize,
    tasks: Vec<u32>,
    next: usize,
    next_step: u64,
    next_task: u32,
}

impl Model for Waiting {
    ghost use Rattle.std.specs.Prelude.{ℕ, List};
    ghost use Rattle.machine_model.specs.Frames.{Interrupt};

    ghost Value = { List (ℕ × Interrupt) };

    ghost use Rattle.isr_nesting.specs.RecordView.{waiting_from};
    ghost use Rattle.isr_nesting.specs.Kept.{IsKept};

    ghost view = { λ a. waiting_from a.entered.items 0 a.recorded.items };

    ghost invariant = { IsKept };
}

// The first place from one on whose interrupt has not entered.
fn first_waiting(tasks: &[u32], entered: &[bool], from: usize) -> usize
    requires inside { All (λ n. n < length entered.now) tasks.now }
    requires passed { (j : ℕ) → j < from → has_entered entered.now (slice_index tasks.now j) ≡ true }
    ensures { IsPassed entered.now tasks.now result }
{
    let mut at = from;
    while at < tasks.len() && entered[tasks[at] as usize] {
        at += 1;
    }
    at
}

// The first place from one on at which a key stands.
fn first_key(keys: &Minima, count: usize, from: usize) -> usize
    requires all { count ≡ length keys.now }
    requires gone { (j : ℕ) → j < from → slice_index keys.now j ≡ nothing }
    ensures gone { (j : ℕ) → j < result → slice_index keys.now j ≡ nothing }
    ensures here { result < count → slice_index keys.now result ≢ nothing }
{
    let mut at = from;
    while at < count && keys.get(at) == NONE {
        at += 1;
    }
    at
}

// The moment at a place; past the last the greatest number.
fn step_at(moments: &[u64], at: usize) -> u64
    ensures { at < length moments.now → result ≡ slice_index moments.now at }
{
    match moments.get(at) {
        Some(moment) => *moment,
        None => u64::MAX,
    }
}

// The moment of the interrupt at a place of `tasks`, in task steps; past the last the greatest number.
fn task_at(recorded: &[Recorded], tasks: &[u32], at: usize) -> u32
    ensures { (m : ℕ) → at < length tasks.now → (record_at recorded.now (slice_index tasks.now at)).moment ≡ Task m → result ≤ m }
{
    if at >= tasks.len() {
        return u32::MAX;
    }
    let number = tasks[at] as usize;
    if number >= recorded.len() {
        return 0;
    }
    match recorded[number].moment {
        Moment::Task(moment) => moment,
        Moment::Step(_) => 0,
    }
}

impl Waiting {
    // These interrupts by number, of which none has entered. Takes all the memory.
    pub fn new(alloc: Global, recorded: Vec<Recorded>) -> Result<Waiting, NoMemory>
        requires few { length recorded.items ≤ 16384 }
        requires low { All (λ r. r.level ≤ 7) recorded.items }
        ensures { IfOk result (λ w. w ≡ numbered 0 (map interrupt_in recorded.items)) }
    {
        let order = in_order(alloc, &recorded)?;
        let places = places(alloc, recorded.len(), &order)?;
        let moments = moments(alloc, &order)?;
        let keys = Minima::new(alloc, &keys(alloc, &recorded, &order)?)?;
        let tasks = tasks(alloc, &recorded)?;
        let Ok(entered) = Vec::from_elem(alloc, false, recorded.len()) else {
            return Err(NoMemory);
        };
        let next_step = step_at(&moments, 0);
        let next_task = task_at(&recorded, &tasks, 0);
        Ok(Waiting {
            recorded,
            entered,
            places,
            moments,
            keys,
            first: 0,
            tasks,
            next: 0,
            next_step,
            next_task,
        })
    }

    // What is always true of them; nothing runs.
    pub fn rising(&self)
        ensures { IsRising 0 self.now }
    {
        let _ = &self.next;
    }

    // Whether none has come, as two numbers tell.
    #[inline(always)]
    pub fn is_early(&self, s: u64, t: u32) -> bool
        ensures steps { result ≡ true → step_key s self.now ≡ nothing }
        ensures tasks { result ≡ true → task_key t self.now ≡ nothing }
    {
        s < self.next_step && t < self.next_task
    }

    // The least key of those whose moment in raw steps has come.
    pub fn step_key(&self, s: u64) -> u32
        ensures { result ≡ step_key s self.now }
    {
        if self.first >= self.moments.len() || self.moments[self.first] > s {
            return NONE;
        }
        let come = self.moments.partition_point(|moment| *moment <= s);
        self.keys.least_before(come)
    }

    // The key of the first whose moment is in task steps, where it has come.
    pub fn task_key(&self, t: u32) -> u32
        ensures { result ≡ task_key t self.now }
    {
        if self.next >= self.tasks.len() {
            return NONE;
        }
        let number = self.tasks[self.next];
        let recorded = &self.recorded[number as usize];
        match recorded.moment {
            Moment::Task(moment) if moment <= t => key(recorded.level, number),
            _ => NONE,
        }
    }

    // What is recorded of one that waits.
    pub fn at(&self, number: usize) -> &Recorded
        requires { is_some (waiting_at number self.now) ≡ true }
        ensures value { waiting_at number self.now ≡ Some (interrupt_in result.now) }
        ensures low { result.now.level ≤ 7 }
    {
        &self.recorded[number]
    }

    // One enters.
    pub fn take(&mut self, number: usize)
        requires { is_some (waiting_at number self.old) ≡ true }
        ensures { self.new ≡ without_number number self.old }
    {
        self.entered[number] = true;
        match self.recorded[number].moment {
            Moment::Step(_) => {
                self.keys.set(self.places[number] as usize, NONE);
                self.first = first_key(&self.keys, self.moments.len(), self.first);
                self.next_step = step_at(&self.moments, self.first);
            }
            Moment::Task(_) => {
                self.next = first_waiting(&self.tasks, &self.entered, self.next);
                self.next_task = task_at(&self.recorded, &self.tasks, self.next);
            }
        }
    }
}
