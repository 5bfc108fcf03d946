ghost use Rattle.std.specs.Prelude.{◌≡◌, ℕ, ◌<◌, ◌≤◌, ◌==◌, List, length, slice_index, IfOk};
ghost use Rattle.sc_model.specs.Sets.{IsConfig};
ghost use Rattle.sc_diagram.specs.Diagram.{sets_of};
ghost use Rattle.sc_diagram.specs.Grown.{Grows, AddsOnly};
ghost use Rattle.sc_diagram.specs.Applied.{IsOption};

use crate::table::{ALWAYS, NEVER, Table};
use sc_base::OutOfMemory;
use smallvec::SmallVec;

/// The node of the configurations in which the variable has the option.
pub fn choose(table: &mut Table, variable: usize, option: usize) -> Result<usize, OutOfMemory>
    requires { IsOption table.old.arities variable option }
    ensures own { IfOk result (λ r. r < length table.new.nodes) }
    ensures meaning { IfOk result (λ r. (c : List ℕ) → IsConfig table.old.arities c → (sets_of table.new).has r c ≡ (slice_index c variable == option)) }
    ensures adds { IfOk result (λ r. AddsOnly table.old table.new r) }

    // at every outcome
    ensures grows { Grows table.old table.new }
{
    let _count = table.count();
    let mut children: SmallVec<usize, 2> = SmallVec::new(table.allocator());
    for each in 0..table.arity(variable) {
        children.push(if each == option { ALWAYS } else { NEVER })?;
    }
    let node = table.choice(variable, children.as_slice())?;
    Ok(node)
}
