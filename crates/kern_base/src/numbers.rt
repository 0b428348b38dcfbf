// Numbers that must not be mixed.

/// The number of a task: 0 to 59 is an application task in declared order, 60 the tick task, 61 the
/// timer task, 62 the idle task, 63 the handler of deferred posts. Calls take numbers below 64 alone.
#[derive(Clone, Copy, Debug, PartialEq, Eq)]
pub struct TaskId(pub u8);

/// The number of an object in declared order, 0 to 63.
#[derive(Clone, Copy, Debug, PartialEq, Eq)]
pub struct ObjId(pub u8);

/// A priority: 0 is the handler's and the highest, 1 to 62 are those of application, tick and timer
/// tasks, 63 is the idle task's.
#[derive(Clone, Copy, Debug, PartialEq, Eq)]
pub struct Prio(pub u8);

/// Memory was wanted and was not there.
#[derive(Clone, Copy, Debug, PartialEq, Eq)]
pub struct NoMemory;

/// The address to which a task, an interrupt routine and a callback return. No code lies there.
pub const LEAVE: u32 = 0xFFFF_FFF0;
