// The words of a look at a list.

ghost use Rattle.std.specs.Prelude.{◌≡◌, ◌++◌, ◌+◌, ◌*◌, ◌<◌, ◌≤◌, [], ◌∷◌, length, map, codes, decimal};
ghost use Rattle.arrayvec.specs.ArrayVec.{array_vec_len};
ghost use Rattle.machine_model.specs.Words.{seen_word};
ghost use Rattle.machine_model.specs.Text.{IsChain, spaced};

use crate::pieces::{Line, push_number, push_word};
use crate::words::push_seen;
use app_image::Image;
use inject_list::Seen;

/// Appends the words of a look: the list, and the tasks of its forward and of its backward chain.
pub fn push_look(line: &mut Line, image: &Image, seen: Seen, forward: &[u8], back: &[u8])
    requires forward { IsChain forward.now }
    requires back { IsChain back.now }
    requires room { array_vec_len line.old ≤ 31 }
    ensures items { line.new.items ≡ line.old.items ++ spaced (codes "look" ∷ seen_word image.now seen ∷ codes "fwd" ∷ map decimal forward.now ++ codes "back" ∷ map decimal back.now) }
    ensures len { array_vec_len line.new ≤ 440 }
{
    push_word(line, b"look");
    push_seen(line, image, seen);
    push_word(line, b"fwd");
    push_tasks(line, forward);
    push_word(line, b"back");
    push_tasks(line, back);
}

// Appends the tasks of a chain.
fn push_tasks(line: &mut Line, tasks: &[u8])
    requires chain { IsChain tasks.now }
    requires room { array_vec_len line.old ≤ 251 }
    ensures items { line.new.items ≡ line.old.items ++ spaced (map decimal tasks.now) }
    ensures len { array_vec_len line.new ≤ array_vec_len line.old + 3 * length tasks.now }
{
    for task in tasks {
        push_task(line, *task);
    }
}

// Appends the number of a task.
fn push_task(line: &mut Line, task: u8)
    requires task { task < 64 }
    requires room { array_vec_len line.old ≤ 500 }
    ensures items { line.new.items ≡ line.old.items ++ 32 ∷ decimal task }
    ensures len { array_vec_len line.new ≤ array_vec_len line.old + 3 }
{
    push_number(line, u32::from(task));
}
