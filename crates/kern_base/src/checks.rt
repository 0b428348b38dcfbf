// The static checks of a post.

ghost use Rattle.std.specs.Prelude.{◌≡◌, false, [], ◌∷◌, slice_get};
ghost use Rattle.kern_base.specs.Checks.{static_error, task_error, object_error};

use crate::{Kind, Kinds, OsErr, Post, Service};

/// The error of the first static check that a post from interrupt code fails: an option that the
/// service does not name, then an object number without an object of the service's kind or a task
/// number without an application task. None exactly where the checks pass.
pub fn static_refusal(post: &Post, kinds: &Kinds) -> Option<OsErr>
    ensures { result ≡ static_error post.now.service post.now.args kinds.now false }
{
    let args = &post.args;
    match post.service {
        Service::SemPost if args[1] == 0 || args[1] == 2 => object_refusal(
            args[0],
            Kind::Sem,
            kinds,
        ),
        Service::QPost if args[3] < 4 => object_refusal(args[0], Kind::Queue, kinds),
        Service::FlagPost if args[2] < 2 => object_refusal(args[0], Kind::Flags, kinds),
        Service::TaskSemPost if args[1] == 0 => task_refusal(args[0], kinds),
        Service::TaskQPost if args[3] < 2 => task_refusal(args[0], kinds),
        Service::TimeTick => None,
        _ => Some(OsErr::OptionInvalid),
    }
}

// The refusal of an object number, where an object of this kind is wanted.
fn object_refusal(number: u32, wanted: Kind, kinds: &Kinds) -> Option<OsErr>
    ensures { result ≡ object_error (wanted ∷ []) (slice_get kinds.now.objects number) }
{
    match kinds.object(number) {
        Some(kind) if kind == wanted => None,
        _ => Some(OsErr::ObjectType),
    }
}

// The refusal of a task number from interrupt code.
fn task_refusal(number: u32, kinds: &Kinds) -> Option<OsErr>
    ensures { result ≡ task_error number kinds.now.tasks false }
{
    if number < u32::from(kinds.tasks()) {
        None
    } else {
        Some(OsErr::TaskInvalid)
    }
}
