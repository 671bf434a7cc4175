// The depth of a node while a table is gone through: the parts that are open around it.
ghost use Rattle.std.specs.Prelude.{◌≡◌, ℕ, ◌+◌, ◌<◌, ◌≤◌, List, length, MatchResult};
ghost use Rattle.table.specs.declared.kinds.Node.{Node};
ghost use Rattle.table.specs.declared.shape.ShapeFault.TheVariants.{Depth};
ghost use Rattle.table.specs.Shape.{Laid, depth};
ghost use Rattle.table.specs.Open.{Opens};

use super::kinds::Node;
use super::shape::{ShapeFault, end_of};
use arrayvec::ArrayVec;

// A node may lie in this many parts, its own too.
const DEEPEST: usize = 64;

// The ends of the parts that are open at a position, the outermost first.
#[derive(Drop)]
pub struct OpenParts {
    ends: ArrayVec<usize, DEEPEST>,
}

impl OpenParts {
    pub fn new() -> OpenParts
        ensures { (ns : List Node) → Opens ns 0 result.ends.items }
    {
        OpenParts {
            ends: ArrayVec::new(),
        }
    }

    // Goes on to position `at`, and opens its part unless it lies too deep.
    pub fn enter(&mut self, nodes: &[Node], at: usize) -> Result<(), ShapeFault>
        requires within { at < length nodes.now }
        requires laid { (q : ℕ) → q < at + 1 → Laid nodes.now q }
        requires opens { Opens nodes.now at self.old.ends.items }
        ensures { MatchResult result (λ _. (depth nodes.now at ≤ 64) × Opens nodes.now (at + 1) self.new.ends.items) (λ f. (f ≡ Depth at) × (64 < depth nodes.now at)) }
    {
        // the parts that end at `at` or before it are the innermost ones
        while self.ends.last().is_some_and(|end| *end <= at) {
            self.ends.pop();
        }
        self.ends
            .try_push(end_of(nodes, at))
            .map_err(|_| ShapeFault::Depth { at })
    }
}
