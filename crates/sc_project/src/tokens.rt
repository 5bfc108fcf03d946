ghost use Rattle.std.specs.Prelude.{◌≡◌, All, IfOk};
ghost use Rattle.sc_guarded.specs.Items.{items_at};
ghost use Rattle.sc_model.specs.Sets.{IsConfig, IsCond};

use sc_base::{OutOfMemory, Token};
use sc_guarded::Guarded;
use sc_presence::Conditions;
use std::alloc::Global;

/// The tokens of one configuration, in order.
pub fn project_tokens<C: Conditions>(
    alloc: Global,
    conds: &C,
    list: &Guarded<Token>,
    config: &[usize],
) -> Result<Vec<Token>, OutOfMemory>
    requires own { All (λ item. IsCond (C.sets conds.now) item.0.0) list.now }
    requires config { IsConfig (C.sets conds.now).arities config.now }
    ensures { IfOk result (λ tokens. tokens.items ≡ items_at (C.sets conds.now) list.now config.now) }
{
    list.project(alloc, conds, config)
}
