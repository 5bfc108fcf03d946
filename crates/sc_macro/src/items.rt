ghost use Rattle.std.specs.Prelude.{◌≡◌, IfOk, map};
ghost use Rattle.sc_macro.specs.Items.{item_of, items_of, without_first_space};

use crate::Item;
use sc_base::{OutOfMemory, Token};
use std::alloc::{AllocError, Global};

/// The replacement list that these tokens are. White space before it is none of it.
pub fn items(alloc: Global, tokens: &[Token]) -> Result<Vec<Item>, OutOfMemory>
    ensures { IfOk result (λ list. list.items ≡ items_of tokens.now) }
{
    let mut items = all_items(alloc, tokens)?;
    drop_first_space(&mut items);
    Ok(items)
}

fn all_items(alloc: Global, tokens: &[Token]) -> Result<Vec<Item>, AllocError>
    ensures { IfOk result (λ list. list.items ≡ map item_of tokens.now) }
{
    tokens.iter().map(item).collect(alloc)
}

fn drop_first_space(items: &mut [Item])
    ensures { items.new ≡ without_first_space items.old }
{
    if let [first, ..] = items {
        first.space = false;
    }
}

fn item(token: &Token) -> Item
    ensures { result ≡ item_of token.now }
{
    Item {
        kind: token.kind,
        name: token.name,
        spelling: token.spelling,
        space: token.space,
    }
}
