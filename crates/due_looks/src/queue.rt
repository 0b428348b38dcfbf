// The looks of a list that are still to come.

ghost use Rattle.std.specs.Prelude.{◌≡◌, ◌+◌, ◌≤◌, false, None, IfOk, All, length, is_some};
ghost use Rattle.machine_model.specs.Looks.{look_at, without_look};
ghost use Rattle.due_looks.specs.Order.{IsOrder, moment_in, timed_from};

use inject_list::{InjectList, Look};
use kern_base::NoMemory;
use std::alloc::Global;
use std::marker::Model;

// The moment of a look, and its number in the order of the lines.
#[derive(Clone, Copy)]
struct Timed {
    moment: u64,
    number: usize,
}

/// The looks of a list that are still to come, in the order of their lines. All memory is taken when it is made.
///
/// `lines` has all looks in the order of their lines, `order` their numbers in the order of their moments, and the
/// first `next` of that order have been taken. `moment` is that of the next one, so that one comparison tells
/// whether it is due.
#[derive(Drop)]
pub struct Looks {
    lines: Vec<Look>,
    order: Vec<Timed>,
    next: usize,
    moment: u64,
}

impl Model for Looks {
    ghost use Rattle.std.specs.Prelude.{List};
    ghost use Rattle.inject_list.specs.declared.lists.Look.{Look};

    ghost Value = { List Look };

    ghost use Rattle.due_looks.specs.Order.{left};
    ghost use Rattle.due_looks.specs.Kept.{IsKept};

    ghost view = { λ a. left a.lines.items a.order.items a.next };

    ghost invariant = { IsKept };
}

// The moments and the numbers of the looks, in the order of their lines.
fn by_line(alloc: Global, looks: &[Look]) -> Result<Vec<Timed>, NoMemory>
    ensures { IfOk result (λ v. v.items ≡ timed_from 0 looks.now) }
{
    let mut timed = Vec::new(alloc);
    for (number, look) in looks.iter().enumerate() {
        let moment = look.at;
        if timed.push(Timed { moment, number }).is_err() {
            return Err(NoMemory);
        }
    }
    Ok(timed)
}

// The same in the order of their moments, those of one moment in the order of their lines.
fn in_order(alloc: Global, looks: &[Look]) -> Result<Vec<Timed>, NoMemory>
    ensures { IfOk result (λ v. IsOrder looks.now v.items) }
{
    let mut order = by_line(alloc, looks)?;
    let Ok(()) = order.sort_by_key(|timed| timed.moment) else {
        return Err(NoMemory);
    };
    Ok(order)
}

// The moment at a place of an order, or the last moment where the order ends before it.
fn moment_at(order: &[Timed], place: usize) -> u64
    ensures { result ≡ moment_in order.now place }
{
    match order.get(place) {
        Some(timed) => timed.moment,
        None => u64::MAX,
    }
}

impl Looks {
    /// The looks of a list, of which none is taken.
    pub fn new(alloc: Global, list: &InjectList) -> Result<Looks, NoMemory>
        ensures { IfOk result (λ l. l ≡ list.now.looks) }
    {
        let order = in_order(alloc, &list.looks)?;
        let Ok(lines) = list.looks.to_vec(alloc) else {
            return Err(NoMemory);
        };
        let moment = moment_at(&order, 0);
        Ok(Looks {
            lines,
            order,
            next: 0,
            moment,
        })
    }

    /// The look that is due when `s` raw steps are done, if there is one, where none of an earlier moment is left.
    pub fn due(&self, s: u64) -> Option<Look>
        requires { All (λ l. s ≤ l.at) self.now }
        ensures due { result ≡ look_at s self.now }
        ensures later { result ≡ None → All (λ l. s + 1 ≤ l.at) self.now }
    {
        match self.order.get(self.next) {
            Some(timed) if timed.moment == s => Some(self.lines[timed.number]),
            _ => None,
        }
    }

    /// Whether a look is due when `s` raw steps are done, where none of an earlier moment is left. It takes one
    /// comparison where none is.
    #[inline]
    pub fn is_due(&self, s: u64) -> bool
        requires { All (λ l. s ≤ l.at) self.now }
        ensures due { result ≡ is_some (look_at s self.now) }
        ensures later { result ≡ false → All (λ l. s + 1 ≤ l.at) self.now }
    {
        s == self.moment && self.next < self.order.len()
    }

    /// Takes the look that is due when `s` raw steps are done, if there is one, where none of an earlier moment is left.
    pub fn take(&mut self, s: u64) -> Option<Look>
        requires { All (λ l. s ≤ l.at) self.old }
        ensures due { result ≡ look_at s self.old }
        ensures rest { self.new ≡ without_look s self.old }
        ensures left { All (λ l. s ≤ l.at) self.new }
        ensures later { result ≡ None → All (λ l. s + 1 ≤ l.at) self.new }
    {
        let look = self.due(s)?;
        self.next += 1;
        self.moment = moment_at(&self.order, self.next);
        Some(look)
    }
}
