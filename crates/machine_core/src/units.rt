// Units of work of the tick task and the timer task.

ghost use Rattle.std.specs.Prelude.{ℕ, ◌≡◌, ◌<◌, Some};
ghost use Rattle.machine_model.specs.Machine.{UnitOf};
ghost use Rattle.machine_model.specs.Rules.{rule, rule_in_hand};
ghost use Rattle.machine_core.specs.AnswerView.{unit_ended_kernel, unit_ended_line};
ghost use Rattle.machine_core.specs.Valid.{most_task_steps, change, changed};

use crate::tasks::settle;
use crate::{Machine, What};
use app_image::Config;
use kern_base::{Outcome, UnitEnd};
use kernel_calls::Kernel;
use links::Links;

impl<L: Links> Machine<L> {
    // One micro-step of the unit in hand.
    pub(crate) fn advance_unit(&mut self, line: &mut What)
        requires rule { rule self.old.method self.old.state ≡ rule_in_hand self.old.state.in_hand self.old.state }
        requires works { (x : ℕ) × (done : ℕ) × (self.old.state.in_hand ≡ Some (record { work = UnitOf x; done = done })) }
        requires open_yet { self.old.state.t < most_task_steps }
        requires blank { line.old ≡ What.Quiet }
        ensures line { line.new ≡ (change self.old.method self.old.state).what }
        ensures machine { self.new ≡ changed self.old }
    {
        let mut outcome = Outcome::Waits;
        if self.kernel.advance_into(&mut outcome) {
            end_unit(&mut self.kernel, &self.config, &outcome, line);
            self.t += 1;
            self.current = settle(&self.kernel, &self.later, self.current);
        }
    }
}

// The end of a unit: it is told, and where a timer fired, its callback begins.
fn end_unit<L: Links>(kernel: &mut Kernel<L>, config: &Config, outcome: &Outcome, line: &mut What)
    requires { line.old ≡ What.Quiet }
    ensures kernel { kernel.new ≡ unit_ended_kernel config.now outcome.now kernel.old }
    ensures line { line.new ≡ unit_ended_line outcome.now }
{
    let Outcome::Quiet(end) = *outcome else {
        return;
    };
    match end {
        UnitEnd::Tick(count) => *line = What::Tick { count },
        UnitEnd::TmrTick(count) => *line = What::Tmr { count },
        UnitEnd::Fire(timer) => {
            kernel.enter_callback(timer, config);
            *line = What::Fire { obj: timer };
        }
        UnitEnd::TmrEnd => {}
    }
}
