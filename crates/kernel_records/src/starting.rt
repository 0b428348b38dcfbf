// The objects at the start.

ghost use Rattle.std.specs.Prelude.{◌≡◌, ◌≤◌, length, map, IfOk};
ghost use Rattle.kern_model.specs.Start.{object_of};
ghost use Rattle.kernel_records.specs.ObjectView.{declared_queue, object_seen, objects_in};

use crate::objects::{Content, Object};
use app_image::{ObjDef, kinds_in};
use event_flags::FlagGroup;
use kern_base::{Kind, Kinds, NoMemory};
use semaphores::Sem;
use std::alloc::Global;
use tick_timers::Timer;

// The objects as they were declared.
pub(crate) fn start_objects(alloc: Global, defs: &[ObjDef]) -> Result<Vec<Object>, NoMemory>
    ensures size { IfOk result (λ v. length v.items ≡ length defs.now) }
    ensures objects { IfOk result (λ v. objects_in (map declared_queue defs.now) v.items ≡ map object_of defs.now) }
{
    let mut objects = Vec::new(alloc);
    for def in defs {
        if objects.push(start_object(def)).is_err() {
            return Err(NoMemory);
        }
    }
    Ok(objects)
}

// The kinds of the declared objects, and how many tasks there are.
pub(crate) fn start_kinds(defs: &[ObjDef], tasks: u8) -> Kinds
    requires { length defs.now ≤ 64 }
    ensures objects { result.objects ≡ map (λ d. d.kind) defs.now }
    ensures tasks { result.tasks ≡ tasks }
{
    Kinds::new(kinds_in(defs), tasks)
}

// An object as it was declared; the messages of a queue stand in the store.
fn start_object(def: &ObjDef) -> Object
    ensures { object_seen (declared_queue def.now) result ≡ object_of def.now }
{
    let first = def.f[0];
    let content = match def.kind {
        Kind::Sem => Content::Semaphore(Sem { count: first }),
        Kind::Queue => Content::Messages,
        Kind::Flags => Content::Flags(FlagGroup { bits: first }),
        Kind::Mutex => Content::Free,
        Kind::OneShot => Content::Timed(Timer::declared(false, &def.f)),
        Kind::Periodic => Content::Timed(Timer::declared(true, &def.f)),
    };
    Object {
        content,
        deleted: false,
    }
}
