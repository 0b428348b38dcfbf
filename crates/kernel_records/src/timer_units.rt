// The timer task: its units, and the callbacks of timers.

ghost use Rattle.std.specs.Prelude.{◌≡◌, ◌<◌, ◌≤◌, ◌+◌, ◌%◌, ◌^◌, [], false, length, slice_set, true};
ghost use Rattle.kern_model.specs.State.{object_at, timer_task};
ghost use Rattle.kern_model.specs.Stop.{callback_ended};
ghost use Rattle.kern_model.specs.Time.{due};
ghost use Rattle.kern_model.specs.Timers.{timer_counts, timer_ends, timer_unit};
ghost use Rattle.machine_model.specs.Steps.{after_fire, callback_registers};
ghost use Rattle.message_store.specs.Store.{HeldQueue};
ghost use Rattle.kernel_records.specs.ObjectView.{content_seen};
ghost use Rattle.kernel_records.specs.RecordsRecord.{without_lists};
ghost use Rattle.kernel_records.specs.TimerUnits.{timer_rests};

use crate::objects::Content;
use crate::records::Records;
use app_image::Config;
use arrayvec::ArrayVec;
use kern_base::{LEAVE, ObjId, Outcome, TaskId, UnitEnd};
use rv32_exec::Regs;
use tcb_pool::Tcbs;

// The timer task.
const TIMER: TaskId = TaskId(61);

// The registers of a timer's callback at its start.
fn callback_regs(config: &Config, timer: ObjId, address: u32, argument: u32) -> Regs
    ensures { result ≡ callback_registers config.now timer.0 address argument }
{
    let mut regs = Regs::new();
    regs.set_pc(address);
    regs.set(1, LEAVE);
    regs.set(2, config.tmr_sp);
    regs.set(10, u32::from(timer.0));
    regs.set(11, argument);
    regs
}

// The timer task gets these registers.
fn set_registers(tasks: &mut Tcbs, regs: Regs)
    ensures { tasks.new ≡ record tasks.old { registers = slice_set tasks.old.registers timer_task regs } }
{
    let mut tcb = *tasks.get(TIMER);
    tcb.regs = regs;
    tasks.set(TIMER, tcb);
}

// The callback of an object that holds this begins, where it is a timer that has one.
fn enter(tasks: &mut Tcbs, content: &Content, timer: ObjId, config: &Config)
    ensures { (q : HeldQueue) → tasks.new ≡ record tasks.old { registers = after_fire config.now timer.0 (content_seen q content.now) tasks.old.registers } }
{
    let Content::Timed(held) = content else {
        return;
    };
    let Some(address) = held.callback else {
        return;
    };
    set_registers(tasks, callback_regs(config, timer, address, held.argument));
}

impl Records {
    /// The tasks whose wait ends at the next tick, in the order in which they got their match.
    pub fn due_tasks(&self, tasks: &mut ArrayVec<u8, 64>)
        requires empty { tasks.old.items ≡ [] }
        ensures { tasks.new.items ≡ due ((self.now.state.ticks + 1) % 2 ^ 32) self.now.state.matches }
    {
        self.ticks.due_next(tasks);
    }

    /// Whether a callback of a timer runs.
    pub fn in_callback(&self) -> bool
        ensures { result ≡ self.now.state.in_callback }
    {
        self.in_callback
    }

    /// The callback of a timer begins, where it has one: the registers of the timer task are those of its start.
    pub fn enter_callback(&mut self, timer: ObjId, config: &Config)
        ensures { self.new ≡ record self.old { registers = after_fire config.now timer.0 (object_at self.old.state timer.0).content self.old.registers } }
    {
        if let Some(object) = self.objects.get(timer.0 as usize) {
            enter(&mut self.tasks, &object.content, timer, config);
        }
    }

    /// A callback ends: the timer task goes on under its own lock.
    pub fn end_callback(&mut self)
        ensures { self.new ≡ record self.old { state = callback_ended self.old.state } }
    {
        self.in_callback = false;
        self.lock = 1;
    }

    /// Whether the timer task waits for its next signal after its unit.
    pub fn timer_rests(&self) -> bool
        ensures { result ≡ timer_rests self.now.state }
    {
        if !self.processing {
            return false;
        }
        match self.timers.first_due() {
            Some(_) => false,
            None => self.timer_signals == 0,
        }
    }

    /// The last micro-step of the timer task's unit: it takes a signal and counts, or the next due timer fires, or none is due.
    pub fn end_timer_unit(&mut self) -> Outcome
        ensures records { self.new ≡ record self.old { state = without_lists (timer_unit self.old.state).kernel } }
        ensures outcome { result ≡ (timer_unit self.old.state).outcome }
    {
        if !self.processing {
            return self.count_timers();
        }
        match self.timers.first_due() {
            Some(obj) => {
                self.fire_timer(obj);
                Outcome::Quiet(UnitEnd::Fire(obj))
            }
            None => {
                self.end_timers();
                Outcome::Quiet(UnitEnd::TmrEnd)
            }
        }
    }

    // The timer task takes a signal, counts, and locks the scheduler.
    fn count_timers(&mut self) -> Outcome
        ensures records { self.new ≡ record self.old { state = (timer_counts self.old.state).kernel } }
        ensures outcome { result ≡ (timer_counts self.old.state).outcome }
    {
        self.timer_signals = self.timer_signals.saturating_sub(1);
        self.lock = 1;
        self.processing = true;
        Outcome::Quiet(UnitEnd::TmrTick(self.timers.count_up()))
    }

    // No timer is due any more: the lock is 0, and the timer task waits where no signal is left.
    fn end_timers(&mut self)
        ensures { self.new ≡ record self.old { state = without_lists (timer_ends self.old.state).kernel } }
    {
        self.lock = 0;
        self.processing = false;
        if self.timer_signals == 0 {
            self.rest(TIMER);
        }
    }
}
