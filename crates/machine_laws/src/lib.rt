//! The laws of the machine's definitions: each is the contract of a function that does nothing, for every
//! machine. The statements stand in `specs/`.
#![tactic(auto)]

ghost use Rattle.machine_laws.specs.Memory.{CodeNeverChanges, MemoryChangesAsTold, StoresChangeTheirOwnBytes};
ghost use Rattle.machine_laws.specs.Isolation.{TrapChangesNothing, TaskTrapKeepsAll, FrameExitKeepsAll, InterruptCodeIsIsolated, EntryIsIsolated};
ghost use Rattle.machine_laws.specs.RuleTable.{TheChosenRuleApplies};
ghost use Rattle.machine_laws.specs.Counting.{QuietEventsFall, EventsAreCounted, EventsOfARunAreCounted};
ghost use Rattle.machine_laws.specs.Valid.{NextKeepsValid, StartIsValid, TimerTaskIsCurrent};
ghost use Rattle.machine_laws.specs.Ending.{EventsLeftFall, EveryRunEnds, FewFramesStand, DeferredCodeKeepsTheTask};
ghost use Rattle.machine_laws.specs.StepBound.{RawStepsAreBounded, NothingIsAdded, RawStepsAreFew};
ghost use Rattle.machine_laws.specs.Prompt.{EntryIsPrompt};
ghost use Rattle.machine_laws.specs.Whole.{NextKeepsWhole, StartIsWhole};
ghost use Rattle.machine_laws.specs.Machines.{EventsAreOfMachines, MachinesFollow, RunsAreWhole};

/// An instruction that traps leaves all registers and the memory as they were, and its trap names its address.
pub fn a_trap_changes_nothing()
    ensures { TrapChangesNothing }
{}

/// A task that traps leaves the registers of all tasks and the memory as they were.
pub fn a_task_that_traps_keeps_registers_and_memory()
    ensures { TaskTrapKeepsAll }
{}

/// A frame that leaves, also by a trap, changes no memory and nothing of the tasks.
pub fn a_frame_that_leaves_keeps_the_rest()
    ensures { FrameExitKeepsAll }
{}

/// Under the deferred method interrupt code changes nothing of the kernel and of the tasks.
pub fn deferred_interrupt_code_is_isolated()
    ensures { InterruptCodeIsIsolated }
{}

/// Under both methods the entry of an interrupt changes nothing of the kernel and of the tasks.
pub fn an_entry_is_isolated()
    ensures { EntryIsIsolated }
{}

/// The rule that is chosen is the one whose condition holds.
pub fn the_rule_is_chosen_by_its_condition()
    ensures { TheChosenRuleApplies }
{}

/// Each event without a raw step leaves fewer such events to come, and an event with one no more.
pub fn events_without_a_raw_step_fall()
    ensures { QuietEventsFall }
{}

/// From every machine on there are at most so many more events than raw steps.
pub fn events_are_counted()
    ensures { EventsAreCounted }
{}

/// A run has at most one event without a raw step, one more for each look, and two more for each interrupt.
pub fn events_of_a_run_are_counted()
    ensures { EventsOfARunAreCounted }
{}

/// Every event keeps the machine valid.
pub fn every_event_keeps_the_machine_valid()
    ensures { NextKeepsValid }
{}

/// The start of a run is valid, of each valid image with a valid list.
pub fn the_start_is_valid()
    ensures { StartIsValid }
{}

/// Until a run is at its end, every event leaves fewer events to come.
pub fn every_event_leaves_fewer_to_come()
    ensures { EventsLeftFall }
{}

/// Every run goes on to its number of task steps, and then nothing is half done.
pub fn every_run_ends()
    ensures { EveryRunEnds }
{}

/// At most seven frames stand.
pub fn few_frames_stand()
    ensures { FewFramesStand }
{}

/// Under the deferred method interrupt code switches to no other task.
pub fn deferred_interrupt_code_keeps_the_task()
    ensures { DeferredCodeKeepsTheTask }
{}

/// The events of a run are those of its machines, and so are its rules.
pub fn each_event_is_of_its_machine()
    ensures { EventsAreOfMachines }
{}

/// The machines of a run follow one another from its start to its end, with one event between each and the next.
pub fn the_machines_of_a_run_follow_one_another()
    ensures { MachinesFollow }
{}

/// The raw steps of a run are bounded by its task steps, its takes and the instructions of its frames.
pub fn raw_steps_are_bounded()
    ensures { RawStepsAreBounded }
{}

/// The raw steps and the events that are left never rise together.
pub fn raw_steps_and_events_left_never_rise()
    ensures { NothingIsAdded }
{}

/// A run to at most 1,000,000 task steps takes fewer than 2 ^ 41 raw steps.
pub fn raw_steps_are_few()
    ensures { RawStepsAreFew }
{}

/// An interrupt whose moment in raw steps is there enters at once, unless one that goes before it does.
pub fn an_entry_is_prompt()
    ensures { EntryIsPrompt }
{}

/// While the timer task is processing it is the current task.
pub fn the_timer_task_is_current_while_processing()
    ensures { TimerTaskIsCurrent }
{}

/// Every event keeps the machine whole.
pub fn every_event_keeps_the_machine_whole()
    ensures { NextKeepsWhole }
{
    kern_laws::a_call_keeps_the_kernel_valid();
    kern_laws::a_unit_keeps_the_kernel_valid();
    kern_laws::a_finish_keeps_the_kernel_valid();
    kern_laws::a_trap_keeps_the_kernel_valid();
    kern_laws::the_end_of_a_callback_keeps_the_kernel_valid();
}

/// The start of a run is whole, of each valid image with a valid list.
pub fn the_start_is_whole()
    ensures { StartIsWhole }
{}

/// Every machine of a run is valid, and its kernel's state whole.
pub fn every_machine_of_a_run_is_whole()
    ensures { RunsAreWhole }
{
    kern_laws::a_call_keeps_the_kernel_valid();
    kern_laws::a_unit_keeps_the_kernel_valid();
    kern_laws::a_finish_keeps_the_kernel_valid();
    kern_laws::a_trap_keeps_the_kernel_valid();
    kern_laws::the_end_of_a_callback_keeps_the_kernel_valid();
}

/// No event changes the code or the settings.
pub fn no_event_changes_the_code()
    ensures { CodeNeverChanges }
{}

/// The memory changes only as events tell: by a store, or by the table of a call's answer.
pub fn the_memory_changes_as_events_tell()
    ensures { MemoryChangesAsTold }
{}

/// An event that tells a store changes the bytes of its own width, and no other byte.
pub fn a_store_changes_its_own_bytes()
    ensures { StoresChangeTheirOwnBytes }
{}
