// What an application declares.

use crate::Name;
use kern_base::Kind;

/// A declared task.
#[derive(Clone, Copy)]
pub struct TaskDef {
    pub name: Name,
    /// The address of its first instruction.
    pub entry: u32,
    /// Its priority, 1 to 62 in a valid image.
    pub prio: u32,
    /// Its quantum in ticks; 0 means the default of the settings.
    pub quanta: u32,
    /// The size of its message queue, in messages.
    pub qsize: u32,
    /// Its stack pointer at the start.
    pub sp: u32,
    /// The line that declares it; 0 in a binary image.
    pub line: u32,
}

/// A symbol of an executable: a name in its bytes, and what the name stands for.
#[derive(Clone, Copy, PartialEq, Eq, Debug)]
pub struct Symbol {
    /// The place of the name's first byte.
    pub start: u32,
    /// How many bytes the name has.
    pub len: u32,
    /// The value, mostly an address.
    pub value: u32,
}

/// A declared object.
#[derive(Clone, Copy)]
pub struct ObjDef {
    pub name: Name,
    pub kind: Kind,
    /// A semaphore's count, a queue's size or a group's flags first; a timer's delay, period, callback
    /// (4,294,967,295 for none) and argument. Fields that the kind does not use are 0.
    pub f: [u32; 4],
    /// The line that declares it; 0 in a binary image.
    pub line: u32,
}

/// A declared interrupt vector.
#[derive(Clone, Copy)]
pub struct VectorDef {
    /// 0 to 31 in a valid image.
    pub number: u32,
    /// 1 to 7 in a valid image.
    pub level: u32,
    /// The address of its first instruction.
    pub entry: u32,
    /// The stack pointer of its frames at their start.
    pub sp: u32,
    /// The line that declares it; 0 in a binary image.
    pub line: u32,
}
