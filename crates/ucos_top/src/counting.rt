// What is counted of a run.

ghost use Rattle.std.specs.Prelude.{◌≡◌, ◌≤◌, ◌<◌, ◌+◌, ◌++◌, ◌^◌, List, [], ◌∷◌};
ghost use Rattle.app_image.specs.Image.{ImageRecord};
ghost use Rattle.inject_list.specs.Lists.{ListRecord};
ghost use Rattle.machine_model.specs.declared.events.Event.{Event as SomeEvent};
ghost use Rattle.machine_model.specs.Bound.{events_left};
ghost use Rattle.machine_model.specs.Machine.{start};
ghost use Rattle.machine_model.specs.Text.{in_history};
ghost use Rattle.program_model.specs.Both.{run_of};
ghost use Rattle.program_model.specs.Limits.{most_task_steps};
ghost use Rattle.program_model.specs.Summary.{counts_of, is_call};
ghost use Rattle.ucos_top.specs.Counted.{IsCountOf, IsFew, most_events};

use crate::machines::ProgramMachine;
use machine_core::{Event, What};
use method_premises::Premises;
use std::marker::Model;

/// How many calls and switches a history has so far, and how many lines beside those of switches.
#[derive(Drop)]
pub struct Counts {
    calls: u64,
    switches: u64,
    own: u64,
}

impl Model for Counts {
    ghost use Rattle.program_model.specs.Summary as defined;

    ghost Value = { defined.Counts };

    ghost view = { λ c. record { calls = c.calls; switches = c.switches; own = c.own } };
}

impl Counts {
    /// Nothing is counted.
    pub fn new() -> Counts
        ensures { result ≡ counts_of [] }
    {
        Counts {
            calls: 0,
            switches: 0,
            own: 0,
        }
    }

    /// Counts the next event.
    pub fn add(&mut self, event: &Event)
        requires { IsFew self.old }
        ensures { (events : List SomeEvent) → self.old ≡ counts_of events → self.new ≡ counts_of (events ++ event.now ∷ []) }
    {
        self.calls += u64::from(is_call(&event.what));
        self.switches += u64::from(event.switch.is_some());
        self.own += u64::from(in_history(&event.what));
    }

    /// The calls.
    pub fn calls(&self) -> u64
        ensures { result ≡ self.now.calls }
    {
        self.calls
    }

    /// The switches.
    pub fn switches(&self) -> u64
        ensures { result ≡ self.now.switches }
    {
        self.switches
    }

    /// All lines, with the last one.
    pub fn lines(&self) -> u64
        requires { IsFew self.now }
        ensures { result ≡ self.now.own + self.now.switches + 1 }
    {
        self.own + self.switches + 1
    }
}

// Whether a task calls the kernel.
fn is_call(what: &What) -> bool
    ensures { result ≡ is_call what.now }
{
    matches!(what, What::Call { .. })
}

// Whether histories keep the event's own line.
fn in_history(what: &What) -> bool
    ensures { result ≡ in_history what.now }
{
    !matches!(
        what,
        What::Quiet
            | What::Post { .. }
            | What::ICall { .. }
            | What::Exit { .. }
            | What::Take { .. }
            | What::Look { .. }
    )
}

/// What is counted of a whole run.
#[derive(Drop)]
pub struct Counted {
    /// Its raw steps.
    pub raw_steps: u64,
    /// Its history.
    pub counts: Counts,
    /// The premises, over its events.
    pub premises: Premises,
}

/// Counts the run of a machine at its start with some injections, to so many task steps. It takes no memory.
pub fn count_run(mut machine: ProgramMachine, count: u32) -> Counted
    requires within { machine.state.t ≤ count }
    requires count { count ≤ most_task_steps }
    requires few { events_left count machine.state ≤ most_events }
    ensures counted { (image : ImageRecord) (list : ListRecord) → machine.state ≡ start image list → IsCountOf result (run_of machine.method image list count) }
    ensures few { IsFew result.counts }
{
    let mut event = Event {
        s: 0,
        t: 0,
        what: What::Quiet,
        switch: None,
        marked: false,
    };
    let mut premises = Premises::new();
    let mut counts = Counts::new();
    'running: while machine.task_steps() < count {
        machine.step_into(&mut event);
        premises.watch(&event);
        counts.add(&event);
    }
    Counted {
        raw_steps: machine.raw_steps(),
        counts,
        premises,
    }
}
