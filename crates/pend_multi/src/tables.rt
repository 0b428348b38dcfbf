// The table of an `OSPendMulti`.

ghost use Rattle.std.specs.Prelude.{◌≡◌, ◌≤◌, not, length, None};
ghost use Rattle.kern_model.specs.State.{Kernel, count_of, is_zero, kinds_of};
ghost use Rattle.kern_model.specs.Checks.{first_error};
ghost use Rattle.kern_model.specs.Several.{repeats, kinds_error, deleted_error, multi_error, table_objects};
ghost use Rattle.pend_multi.specs.Polls.{AreIds};

use kern_base::{Kind, Kinds, OsErr, Request};

/// The error of an `OSPendMulti` whose common checks have passed, as far as the table and the kinds of
/// its objects tell it: the table is at fault, has more than 8 entries or names an object twice, or
/// names none, or one that is no semaphore and no queue. A deleted object comes after these.
pub fn table_error(request: &Request, kinds: &Kinds) -> Option<OsErr>
    ensures row { (k : Kernel) → kinds_of k ≡ kinds.now → multi_error request.now k ≡ first_error result (deleted_error (table_objects request.now) k) }
    ensures ids { result ≡ None → length kinds.now.objects ≤ 64 → AreIds (table_objects request.now) }
{
    if !request.table || request.n_ids > 8 {
        return Some(OsErr::Table);
    }
    let ids = &request.ids[..request.n_ids as usize];
    if repeats(ids) {
        return Some(OsErr::Table);
    }
    kind_error(ids, kinds)
}

// Whether a number stands twice.
fn repeats(ids: &[u32]) -> bool
    ensures { result ≡ repeats ids.now }
{
    for (index, id) in ids.iter().enumerate() {
        if has(&ids[index + 1..], *id) {
            return true;
        }
    }
    false
}

// Whether a number stands among these.
fn has(ids: &[u32], id: u32) -> bool
    ensures { result ≡ not (is_zero (count_of id ids.now)) }
{
    for other in ids {
        if *other == id {
            return true;
        }
    }
    false
}

// The error of the first object that is no semaphore and no queue.
fn kind_error(ids: &[u32], kinds: &Kinds) -> Option<OsErr>
    ensures { result ≡ kinds_error ids.now kinds.now }
{
    for id in ids {
        if !matches!(kinds.object(*id), Some(Kind::Sem | Kind::Queue)) {
            return Some(OsErr::ObjectType);
        }
    }
    None
}
