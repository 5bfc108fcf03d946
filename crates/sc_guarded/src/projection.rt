ghost use Rattle.std.specs.Prelude.{◌≡◌, All, map, IfOk};
ghost use Rattle.sc_model.specs.Sets.{IsConfig, IsCond};
ghost use Rattle.sc_guarded.specs.Items.{items_at};

use sc_base::{Cond, HasToken, OutOfMemory, Token};
use sc_presence::Conditions;
use std::alloc::Global;

/// The tokens of the items whose condition has the configuration, in order.
pub fn tokens_at<C: Conditions, T: HasToken>(
    alloc: Global,
    conds: &C,
    items: &[(Cond, T)],
    config: &[usize],
) -> Result<Vec<Token>, OutOfMemory>
    requires own { All (λ item. IsCond (C.sets conds.now) item.0.0) items.now }
    requires config { IsConfig (C.sets conds.now).arities config.now }
    ensures { IfOk result (λ tokens. tokens.items ≡ map T.token_of (items_at (C.sets conds.now) items.now config.now)) }
{
    let mut tokens = Vec::new(alloc);
    for item in items {
        if conds.holds(item.0, config) {
            tokens.push(*item.1.token())?;
        }
    }
    Ok(tokens)
}
