ghost use Rattle.std.specs.Prelude.{◌≡◌, ℕ, ◌+◌, ◌<◌, All, List, length, slice_index, IfOk};
ghost use Rattle.sc_model.specs.Sets.{IsConfig, IsCond, DependsFrom};
ghost use Rattle.sc_diagram.specs.Decision.{numbers_of};
ghost use Rattle.sc_diagram.specs.Diagram.{sets_of};
ghost use Rattle.sc_diagram.specs.Grown.{Grows, AddsOnly};

use crate::node::Node;
use crate::table::Table;
use sc_base::OutOfMemory;
use smallvec::SmallVec;

/// The node that has, of each configuration, what the child for its option of the variable has.
pub fn between(table: &mut Table, variable: usize, children: &[Node]) -> Result<usize, OutOfMemory>
    requires variable { variable < length table.old.arities }
    requires wide { length children.now ≡ slice_index table.old.arities variable }
    requires own { All (λ child. IsCond (sets_of table.old) child.0) children.now }
    requires later { All (λ child. DependsFrom (sets_of table.old) child.0 (variable + 1)) children.now }
    ensures own { IfOk result (λ r. r < length table.new.nodes) }
    ensures meaning { IfOk result (λ r. (c : List ℕ) → IsConfig table.old.arities c → (sets_of table.new).has r c
        ≡ (sets_of table.old).has (slice_index (numbers_of children.now) (slice_index c variable)) c) }
    ensures adds { IfOk result (λ r. AddsOnly table.old table.new r) }

    // at every outcome
    ensures grows { Grows table.old table.new }
{
    let _count = table.count();
    let mut numbers: SmallVec<usize, 2> = SmallVec::new(table.allocator());
    for child in children {
        numbers.push(child.0)?;
    }
    let node = table.choice(variable, numbers.as_slice())?;
    Ok(node)
}
