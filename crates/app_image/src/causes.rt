// Why an image is refused.

ghost use Rattle.std.specs.Prelude.{◌≡◌};
ghost use Rattle.app_image.specs.CauseNumbers.{cause_number};

use thiserror::Error;

/// Why an image is refused. The causes stand in the order of their numbers; of several that hold, the
/// least decides.
#[derive(Clone, Copy, Debug, PartialEq, Eq)]
pub enum ImageCause {
    /// 1: no task.
    NoTask,
    /// 2: a task's priority is outside 1 to 62.
    TaskPriority,
    /// 3: an entry or a callback is not the address of a code word.
    CodeAddress,
    /// 4: a stack pointer is not a multiple of 4 from 0x100000 to 0x140000.
    StackPointer,
    /// 5: a quantum is above 65,535 ticks.
    Quantum,
    /// 6: a task's message queue is above 1,024 messages.
    TaskQueueSize,
    /// 7: a queue's size is outside 1 to 1,024 messages.
    QueueSize,
    /// 8: a vector's number is above 31.
    VectorNumber,
    /// 9: a vector's number is that of an earlier vector.
    VectorTwice,
    /// 10: an interrupt level is outside 1 to 7.
    VectorLevel,
    /// 11: a one-shot timer has delay 0, or a periodic one has period 0.
    TimerTime,
    /// 12: a setting is outside its range.
    SettingRange,
    /// 13: a setting's key is that of an earlier setting.
    SettingTwice,
    /// 14: no code word. It never decides, since a task of such an image has cause 3.
    NoCode,
    /// 15: a name in a binary image is empty, no name, a service's, or used twice; or a kind of object
    /// is unknown.
    BadName,
    /// 16: a binary image has an unknown version, a count above its limit, a field that must be 0 and
    /// is not, or too few bytes.
    Layout,
}

impl ImageCause {
    /// The number of the cause, 1 to 16.
    pub fn number(self) -> u8
        ensures { result ≡ cause_number self }
    {
        match self {
            ImageCause::NoTask => 1,
            ImageCause::TaskPriority => 2,
            ImageCause::CodeAddress => 3,
            ImageCause::StackPointer => 4,
            ImageCause::Quantum => 5,
            ImageCause::TaskQueueSize => 6,
            ImageCause::QueueSize => 7,
            ImageCause::VectorNumber => 8,
            ImageCause::VectorTwice => 9,
            ImageCause::VectorLevel => 10,
            ImageCause::TimerTime => 11,
            ImageCause::SettingRange => 12,
            ImageCause::SettingTwice => 13,
            ImageCause::NoCode => 14,
            ImageCause::BadName => 15,
            ImageCause::Layout => 16,
        }
    }
}

/// The refusal of an image.
#[derive(Clone, Copy, Debug, PartialEq, Eq, Error)]
pub enum ImageError {
    /// Memory was wanted and was not there.
    #[error("no memory for the image")]
    NoMemory,
    /// The line of the record at fault, 0 where no record is, and the cause.
    #[error("line {0}: image cause {number}", number = .1.number())]
    At(u32, ImageCause),
}
