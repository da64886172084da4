// Numbers in a row, whose least is at hand. The first that is small enough is found in a logarithm of steps.
ghost use Rattle.std.specs.Prelude.{◌≡◌, ◌<◌, ◌≤◌, length, slice_set, IfOk};
ghost use Rattle.run_admission.specs.Least.{IsFirstWithin, IsLeast};

use run_capture::Mem;
use std::alloc::Global;
use std::marker::Model;

/// Stands for the least of no numbers.
pub const NONE: usize = usize::MAX;

/// Numbers in a row. Contracts see them as a list.
#[derive(Drop)]
pub struct MinTree {
    many: usize,
    /// The numbers are the second half. At each place before them, but the first, stands the lesser of the nodes at
    /// twice that place and at the next.
    nodes: Vec<usize>,
}

impl Model for MinTree {
    ghost use Rattle.std.specs.Prelude.{ℕ, List};
    ghost use Rattle.run_admission.specs.Least.{IsTree, leaves};

    ghost Value = { List ℕ };

    ghost view = { λ t. leaves t.many t.nodes.items };

    ghost invariant = { λ t. IsTree t.many t.nodes.items };
}

impl MinTree {
    /// A tree of these numbers.
    pub fn new(alloc: Global, values: &[usize]) -> Mem<MinTree>
        ensures { IfOk result (λ t. t ≡ values.now) }
    {
        let many = values.len();
        let mut nodes = vec![in alloc; 0; many]?;
        nodes.extend_from_slice(values)?;
        let mut place = many;
        while place > 1 {
            place -= 1;
            nodes[place] = nodes[2 * place].min(nodes[2 * place + 1]);
        }
        Ok(MinTree { many, nodes })
    }

    /// Replaces the number at a place.
    pub fn set(&mut self, place: usize, value: usize)
        requires { place < length self.old }
        ensures { self.new ≡ slice_set self.old place value }
    {
        let mut node = self.many + place;
        self.nodes[node] = value;
        while node > 1 {
            node /= 2;
            let least = self.nodes[2 * node].min(self.nodes[2 * node + 1]);
            if self.nodes[node] == least {
                return;
            }
            self.nodes[node] = least;
        }
    }

    /// The least of the numbers, or `NONE`.
    pub fn least(&self) -> usize
        ensures { IsLeast self.now 0 (length self.now) result }
    {
        if self.many == 0 { NONE } else { self.nodes[1] }
    }

    /// The first place whose number is at most so much, or how many numbers there are.
    pub fn first_within(&self, limit: u32) -> usize
        ensures { IsFirstWithin self.now limit result }
    {
        let limit = limit as usize;
        let mut low = self.many;
        let mut high = 2 * self.many;
        // The first node after those from `low` to `high` that has such a number below it, or 0.
        let mut node = 0;
        while low < high {
            if low % 2 == 1 {
                if self.nodes[low] <= limit {
                    node = low;
                    high = low;
                } else {
                    low += 1;
                }
            } else if high % 2 == 1 {
                high -= 1;
                if self.nodes[high] <= limit {
                    node = high;
                }
            } else {
                low /= 2;
                high /= 2;
            }
        }
        if node == 0 {
            return self.many;
        }
        while node < self.many {
            node *= 2;
            if self.nodes[node] > limit {
                node += 1;
            }
        }
        node - self.many
    }
}
