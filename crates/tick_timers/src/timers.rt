// A timer.

ghost use Rattle.std.specs.Prelude.{◌≡◌};
ghost use Rattle.kern_model.specs.Start.{timer_of};
ghost use Rattle.kern_model.specs.Timers.{start_delay, state_number};
ghost use Rattle.tick_timers.specs.TimerSeen.{state_seen, timer_seen};

/// The state of a timer.
#[derive(Clone, Copy, Debug, PartialEq, Eq)]
pub enum TimerState {
    Stopped,
    Running,
    Completed,
}

impl TimerState {
    // Its number, as a program reads it.
    pub(crate) fn number(self) -> u32
        ensures { result ≡ state_number (state_seen self) }
    {
        match self {
            TimerState::Stopped => 1,
            TimerState::Running => 2,
            TimerState::Completed => 3,
        }
    }
}

/// A timer: its state, its declared delay and period in timer counts, and the address of its callback,
/// where it has one, with the callback's argument.
#[derive(Clone, Copy, Debug, PartialEq, Eq)]
pub struct Timer {
    pub periodic: bool,
    pub state: TimerState,
    pub delay: u32,
    pub period: u32,
    pub callback: Option<u32>,
    pub argument: u32,
}

// The number that stands for no callback.
const NO_CALLBACK: u32 = 0xFFFF_FFFF;

impl Timer {
    /// A timer as it was declared. It is stopped.
    pub fn declared(periodic: bool, fields: &[u32; 4]) -> Timer
        ensures { timer_seen result ≡ timer_of periodic fields.now }
    {
        let callback = fields[2];
        Timer {
            periodic,
            state: TimerState::Stopped,
            delay: fields[0],
            period: fields[1],
            callback: if callback == NO_CALLBACK {
                None
            } else {
                Some(callback)
            },
            argument: fields[3],
        }
    }

    // What a start adds to the timer count.
    pub(crate) fn start_delay(&self) -> u32
        ensures { result ≡ start_delay (timer_seen self.now) }
    {
        if self.periodic && self.delay == 0 {
            self.period
        } else {
            self.delay
        }
    }
}
