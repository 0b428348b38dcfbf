// The machine of the program. Here alone it is said over which links its kernel runs: by number.

ghost use Rattle.std.specs.Prelude.{◌≡◌, IfOk};
ghost use Rattle.inject_list.specs.Lists.{IsValidList};
ghost use Rattle.served.specs.Served.{program_serves};
ghost use Rattle.machine_model.specs.Machine.{start};
ghost use Rattle.machine_laws.specs.Valid.{IsValidMachine};

use app_image::Image;
use inject_list::InjectList;
use kern_base::{Method, NoMemory};
use links::IndexLinks;
use machine_core::Machine;
use std::alloc::Global;

// A node for each task and each priority.
const READY_NODES: u16 = 128;

// Eight nodes for each task, and one for each object.
const PEND_NODES: u16 = 576;

/// The machine that the program runs.
pub type ProgramMachine = Machine<IndexLinks>;

/// The machine at the start of a run of this application by this method with these interrupts and looks.
pub fn load(
    alloc: Global,
    image: &Image,
    list: &InjectList,
    method: Method,
) -> Result<ProgramMachine, NoMemory>
    requires list { IsValidList image.now list.now }
    ensures method { IfOk result (λ m. m.method ≡ method) }
    ensures start { IfOk result (λ m. m.state ≡ start image.now list.now) }
    ensures valid { IfOk result (λ m. IsValidMachine program_serves m.method m.state) }
{
    let Ok(ready) = IndexLinks::new(alloc, READY_NODES) else {
        return Err(NoMemory);
    };
    let Ok(pend) = IndexLinks::new(alloc, PEND_NODES) else {
        return Err(NoMemory);
    };
    Machine::load(alloc, image, list, method, ready, pend)
}
