// The least of the first leaves of a tree.

ghost use Rattle.std.specs.Prelude.{◌≡◌, ◌<◌, ◌≤◌, ◌++◌, take, length, replicate, slice_index, slice_set, IfOk};
ghost use Rattle.isr_nesting.specs.Least.{least, nothing};

use kern_base::NoMemory;
use std::alloc::Global;
use std::marker::Model;

// Words in a row, of which the least of the first few is found in few steps, however many there are. The
// greatest word stands for nothing.
#[derive(Drop)]
pub(crate) struct Minima {
    count: usize,
    nodes: Vec<u32>,
}

impl Model for Minima {
    ghost use Rattle.std.specs.Prelude.{ℕ, List};

    ghost Value = { List ℕ };

    ghost use Rattle.isr_nesting.specs.Tree.{leaves, IsTree};

    ghost view = { leaves };

    ghost invariant = { IsTree };
}

// The nodes above these words, and the words.
fn grown(alloc: Global, values: &[u32]) -> Result<Vec<u32>, NoMemory>
    ensures { IfOk result (λ v. v.items ≡ replicate (length values.now) nothing ++ values.now) }
{
    let Ok(mut nodes) = Vec::from_elem(alloc, u32::MAX, values.len()) else {
        return Err(NoMemory);
    };
    if nodes.extend_from_slice(values).is_err() {
        return Err(NoMemory);
    }
    Ok(nodes)
}

impl Minima {
    // These words.
    pub fn new(alloc: Global, values: &[u32]) -> Result<Minima, NoMemory>
        ensures { IfOk result (λ m. m ≡ values.now) }
    {
        let count = values.len();
        let mut nodes = grown(alloc, values)?;
        let mut at = count;
        while at > 1 {
            at -= 1;
            nodes[at] = nodes[2 * at].min(nodes[2 * at + 1]);
        }
        Ok(Minima { count, nodes })
    }

    // The least of the first `k` words; the greatest word where `k` is 0.
    pub fn least_before(&self, k: usize) -> u32
        requires { k ≤ length self.now }
        ensures { result ≡ least (take k self.now) }
    {
        let mut best = u32::MAX;
        let mut low = self.count;
        let mut high = self.count + k;
        while low < high {
            if low % 2 == 1 {
                best = best.min(self.nodes[low]);
            }
            if high % 2 == 1 {
                best = best.min(self.nodes[high - 1]);
            }
            low = (low + 1) / 2;
            high /= 2;
        }
        best
    }

    // The word at a place.
    pub fn get(&self, index: usize) -> u32
        requires { index < length self.now }
        ensures { result ≡ slice_index self.now index }
    {
        self.nodes[self.count + index]
    }

    // Writes the word at a place.
    pub fn set(&mut self, index: usize, value: u32)
        requires { index < length self.old }
        ensures { self.new ≡ slice_set self.old index value }
    {
        let mut at = self.count + index;
        self.nodes[at] = value;
        while at > 1 {
            at /= 2;
            self.nodes[at] = self.nodes[2 * at].min(self.nodes[2 * at + 1]);
        }
    }
}
