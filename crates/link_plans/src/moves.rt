// Tasks that go to other priorities, one after another.

ghost use Rattle.std.specs.Prelude.{◌≡◌, ◌<◌, ◌≤◌, ◌∷◌, ◌++◌, [], drop, length, All, IsSome, MatchOption, slice_get, take};
ghost use Rattle.kern_model.specs.State.{Kernel};
ghost use Rattle.link_plans.specs.Moves.{links_of_moves, move_links, rewait_links};
ghost use Rattle.link_plans.specs.Told.{AreTold, move_told};
ghost use Rattle.link_plans.specs.Renewals.{renewal_moves};

use arrayvec::ArrayVec;
use kern_base::{ObjId, Prio, TaskId};
use micro_steps::Link;
use pend_lists::node_of;
use tcb_pool::{Tcb, Tcbs};

// Application tasks have the numbers below this.
const APPLICATIONS: u8 = 60;

const TIMER: TaskId = TaskId(61);

// The idle task's priority.
const IDLE: Prio = Prio(63);

/// In which lists a task stands.
#[derive(Clone, Copy, Debug, PartialEq, Eq)]
pub enum Standing {
    /// In the ready list of its priority.
    Ready,
    /// Among the waiters of each of its objects, if it has any.
    Waits,
    /// In none: it is suspended, or not alive.
    Nowhere,
}

/// A task that goes from one priority to another.
#[derive(Clone, Copy, Debug, PartialEq, Eq)]
pub struct Move {
    pub task: TaskId,
    pub from: Prio,
    pub to: Prio,
    pub standing: Standing,
}

/// No move: what stands in the free room of a vector of moves.
impl Default for Move {
    fn default() -> Self {
        Move {
            task: TaskId(0),
            from: IDLE,
            to: IDLE,
            standing: Standing::Nowhere,
        }
    }
}

/// Tasks that move, and how far their links are made.
#[derive(Drop)]
pub struct Moves {
    /// The moves, in order.
    pub moves: ArrayVec<Move, 61>,
    /// Whether a ready task joins its new list at the tail, or else at the head.
    pub tail: bool,
    /// How many moves are made.
    pub task: usize,
    /// How many links are made of the move in hand.
    pub made: u8,
}

impl Moves {
    /// Takes the moves by which priorities are renewed: of each living application task, and of the timer task, whose inherited
    /// priority is not its present one, in rising number. `inherited` has the inherited priorities of all tasks after the call,
    /// `standings` where each stands that lives then.
    pub fn renew(
        &mut self,
        tasks: &Tcbs,
        inherited: &[Prio; 64],
        standings: &[Option<Standing>; 64],
        tail: bool,
    )
        ensures moves { (k : Kernel) → AreTold tasks.now.tasks inherited.now standings.now k → self.new.moves.items ≡ renewal_moves k }
        ensures movers { All (λ m. m.task.0 < 64) self.new.moves.items }
        ensures fresh { (self.new.tail ≡ tail) × (self.new.task ≡ 0) × (self.new.made ≡ 0) }
    {
        self.moves.clear();
        self.tail = tail;
        self.task = 0;
        self.made = 0;
        for task in 0..APPLICATIONS {
            self.add(TaskId(task), tasks, inherited, standings);
        }
        self.add(TIMER, tasks, inherited, standings);
    }

    // Takes the move of a task, if it lives and its inherited priority is not its present one.
    fn add(
        &mut self,
        task: TaskId,
        tasks: &Tcbs,
        inherited: &[Prio; 64],
        standings: &[Option<Standing>; 64],
    )
        requires task { task.0 < 64 }
        requires room { length self.old.moves.items < 61 }
        ensures moves { self.new.moves.items ≡ self.old.moves.items ++ move_told tasks.now.tasks inherited.now standings.now task.0 }
        ensures kept { (self.new.tail ≡ self.old.tail) × (self.new.task ≡ self.old.task) × (self.new.made ≡ self.old.made) }
    {
        let Some(standing) = standings[task.0 as usize] else {
            return;
        };
        let from = tasks.get(task).prio;
        let to = inherited[task.0 as usize];
        if to != from {
            self.moves.push(Move {
                task,
                from,
                to,
                standing,
            });
        }
    }

    /// The next link. None exactly where none is left.
    pub fn next_link(&mut self, tasks: &Tcbs) -> Option<Link>
        requires { All (λ m. m.task.0 < 64) self.old.moves.items }
        ensures next { MatchOption result (links_of_moves tasks.now.tasks self.old ≡ []) (λ link. links_of_moves tasks.now.tasks self.old ≡ link ∷ links_of_moves tasks.now.tasks self.new) }
        ensures kept { (self.new.moves ≡ self.old.moves) × (self.new.tail ≡ self.old.tail) }
        ensures none { result ≡ None → links_of_moves tasks.now.tasks self.new ≡ [] }
    {
        while self.task < self.moves.len() {
            let in_hand = self.moves[self.task];
            if let Some(link) = in_hand.link(self.made, self.tail, tasks) {
                self.made += 1;
                return Some(link);
            }
            self.task += 1;
            self.made = 0;
        }
        None
    }
}

impl Move {
    // The link of the move after so many, where there is one.
    fn link(&self, made: u8, tail: bool, tasks: &Tcbs) -> Option<Link>
        requires { self.now.task.0 < 64 }
        ensures link { result ≡ slice_get (move_links tasks.now.tasks tail self.now) made }
        ensures few { IsSome result → made < 16 }
    {
        match (self.standing, made) {
            (Standing::Ready, 0) => Some(Link::Unready(self.task, self.from)),
            (Standing::Ready, 1) => Some(Link::Ready(self.task, self.to, tail)),
            (Standing::Waits, _) => self.wait_link(made, tasks.get(self.task)),
            _ => None,
        }
    }

    // The same of a task that waits: it leaves the waiters of each object, and joins them again.
    fn wait_link(&self, made: u8, tcb: &Tcb) -> Option<Link>
        requires { self.now.task.0 < 64 }
        ensures link { result ≡ slice_get (rewait_links self.now.task.0 self.now.to.0 0 (take tcb.now.n_ids tcb.now.ids)) made }
        ensures few { IsSome result → made < 16 }
    {
        let index = made / 2;
        let ids = &tcb.ids[..tcb.n_ids as usize];
        let object = ObjId(*ids.get(index as usize)?);
        let node = node_of(self.task, index);
        if made % 2 == 0 {
            Some(Link::Leave(node, object))
        } else {
            Some(Link::Wait(node, self.to, object))
        }
    }
}
