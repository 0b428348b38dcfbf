// The handler performs the posts that wait, one after another.

ghost use Rattle.std.specs.Prelude.{ℕ, ◌≡◌, ◌&&◌, ◌+◌, ◌<◌, true, false, None, Some};
ghost use Rattle.kern_model.specs.Services.{cost};
ghost use Rattle.kernel_calls.specs.KernelRecord.{ended, IsOpen};
ghost use Rattle.kernel_calls.specs.Works.{effect_of, stepped, WorkRecord};
ghost use Rattle.kern_base.specs.Services.{argument_count};
ghost use Rattle.machine_model.specs.Answers.{arguments};
ghost use Rattle.machine_model.specs.Interrupts.{answer_in};
ghost use Rattle.machine_model.specs.Rules.{rule, rule_in_hand, may_take};
ghost use Rattle.machine_model.specs.Machine.{TakeOf};
ghost use Rattle.machine_model.specs.Steps.{some_readied};
ghost use Rattle.machine_model.specs.declared.events.What.TheVariants.{Take};
ghost use Rattle.machine_core.specs.Valid.{most_task_steps, change, changed};

use crate::answers::arguments;
use crate::tasks::settle;
use crate::{Machine, What};
use kern_base::{Answer, OsErr, Outcome, Prio, Service};
use kernel_calls::Kernel;
use links::Links;

// The handler's priority.
const HIGHEST: Prio = Prio(0);

impl<L: Links> Machine<L> {
    // The take of the post that waits longest begins.
    pub(crate) fn begin_take(&mut self)
        requires rule { rule self.old.method self.old.state ≡ rule_in_hand self.old.state.in_hand self.old.state }
        requires free { self.old.state.in_hand ≡ None }
        requires may { may_take self.old.state ≡ true }
        requires open_yet { self.old.state.t < most_task_steps }
        ensures line { (change self.old.method self.old.state).what ≡ What.Quiet }
        ensures machine { self.new ≡ changed self.old }
    {
        let (Some(post), Some(saved)) = (self.later.front(), self.later.saved()) else {
            return;
        };
        let compared = if self.config.insert == 1 {
            HIGHEST
        } else {
            saved
        };
        self.kernel.begin_take(post, saved, compared);
    }

    // One micro-step of the take in hand, of a post with these arguments and this saved priority.
    pub(crate) fn advance_take(
        &mut self,
        service: Service,
        args: [u32; 4],
        saved: Prio,
        line: &mut What,
    )
        requires rule { rule self.old.method self.old.state ≡ rule_in_hand self.old.state.in_hand self.old.state }
        requires takes { (done : ℕ) × (self.old.state.in_hand ≡ Some (record { work = TakeOf (record { service = service; args = args; saved = saved.0 }); done = done })) }
        requires open_yet { self.old.state.t < most_task_steps }
        requires blank { line.old ≡ What.Quiet }
        ensures line { line.new ≡ (change self.old.method self.old.state).what }
        ensures machine { self.new ≡ changed self.old }
    {
        let literal = self.config.insert == 1;
        let mut outcome = Outcome::Waits;
        let (last, same) = perform(&mut self.kernel, saved, literal, &mut outcome);
        if last {
            take_line(service, &args, &outcome, same, line);
            self.later.drop_front();
            self.current = settle(&self.kernel, &self.later, self.current);
        }
    }
}

// One micro-step of a take. Tells whether it was the last one, which writes what the post came to over an older outcome, and with
// the literal insertion rule, whether it readied a task of the priority that was saved with the post.
fn perform<L: Links>(
    kernel: &mut Kernel<L>,
    saved: Prio,
    literal: bool,
    outcome: &mut Outcome,
) -> (bool, bool)
    requires busy { (w : WorkRecord) × (kernel.old.hand ≡ Some w) }
    ensures more { (w : WorkRecord) → kernel.old.hand ≡ Some w → w.done + 1 < cost (effect_of w kernel.old.state) kernel.old.state
        → (result.0 ≡ false) × (kernel.new ≡ record kernel.old { hand = Some (stepped w) }) }
    ensures done { (w : WorkRecord) → kernel.old.hand ≡ Some w → w.done + 1 ≡ cost (effect_of w kernel.old.state) kernel.old.state
        → (result.0 ≡ true) × (outcome.new ≡ (effect_of w kernel.old.state).outcome) × (kernel.new ≡ ended kernel.old w) }
    ensures same { result.1 ≡ (literal && some_readied saved.0 kernel.old.state.tasks kernel.new.state.tasks) }
    ensures open_yet { IsOpen kernel.old.hand kernel.old.state }
{
    if !literal {
        return (kernel.advance_into(outcome), false);
    }
    let before = kernel.ready_tasks();
    let last = kernel.advance_into(outcome);
    let same = kernel.has_readied(&before, saved);
    (last, same)
}

// The answer of a post that was performed.
fn answer_in(outcome: &Outcome) -> Answer
    ensures { result ≡ answer_in outcome.now }
{
    match outcome {
        Outcome::Answered(answer, _) => *answer,
        _ => Answer {
            err: OsErr::NoError,
            value: 0,
            extra: 0,
        },
    }
}

// Writes the event of a take at its end.
fn take_line(service: Service, words: &[u32; 4], outcome: &Outcome, same: bool, line: &mut What)
    ensures { let a = answer_in outcome.now in line.new ≡ Take service (arguments service words.now) (argument_count service) a.err a.value same }
{
    let answer = answer_in(outcome);
    *line = What::Take {
        service,
        args: arguments(service, words),
        n_args: service.args() as u8,
        err: answer.err,
        value: answer.value,
        same,
    };
}
