ghost use Rattle.std.specs.Prelude.{◌≡◌, ◌<◌, ℕ, [], All, Some, length, slice_get, true, IfOk, IfSome};
ghost use Rattle.sc_base.specs.Seen.{text_at};
ghost use Rattle.sc_model.specs.Bytes.{same_bytes};
ghost use Rattle.sc_subst.specs.Groups.{AreGroups, IsGroup, has_spelling};

use crate::Hidden;
use sc_base::{Name, Names, OutOfMemory, is_same};
use std::alloc::Global;

/// Which parentheses of a list belong together.
#[derive(Drop)]
pub struct Groups {
    pub opening: Name,
    pub closing: Name,
    /// For each token the index of the parenthesis that closes what it opens, or 0.
    pub closes: Vec<usize>,
}

impl Groups {
    /// Nothing is known of a list.
    pub fn unknown(alloc: Global) -> Groups
        ensures { result.closes.items ≡ [] }
    {
        Groups {
            opening: Name(0),
            closing: Name(0),
            closes: Vec::new(alloc),
        }
    }

    /// The parentheses of a list, each of which the names spell.
    pub fn of(alloc: Global, names: &Names, tokens: &[Hidden]) -> Result<Groups, OutOfMemory>
        requires { All (λ h. h.token.spelling.0 < length names.now) tokens.now }
        ensures { IfOk result (AreGroups tokens.now) }
    {
        let Some(opening) = first_spelled(names, tokens, b"(") else {
            return Ok(Groups::unknown(alloc));
        };
        let Some(closing) = first_spelled(names, tokens, b")") else {
            return Ok(Groups::unknown(alloc));
        };
        let closes = closes_of(alloc, tokens, opening, closing)?;
        Ok(Groups {
            opening,
            closing,
            closes,
        })
    }
}

/// The first spelling of a list that is this text.
fn first_spelled(names: &Names, tokens: &[Hidden], text: &[u8]) -> Option<Name>
    requires { All (λ h. h.token.spelling.0 < length names.now) tokens.now }
    ensures { IfSome result (λ name. same_bytes (text_at names.now name.0) text.now ≡ true) }
{
    for token in tokens {
        let spelling = token.token.spelling;
        if is_same(names.text(spelling), text) {
            return Some(spelling);
        }
    }
    None
}

/// For each token of a list the index of the one that closes what it opens, or 0.
fn closes_of(
    alloc: Global,
    tokens: &[Hidden],
    opening: Name,
    closing: Name,
) -> Result<Vec<usize>, OutOfMemory>
    ensures { IfOk result (λ made. (index close : ℕ) → slice_get made.items index ≡ Some close → 0 < close
        → IsGroup (has_spelling opening.0) (has_spelling closing.0) tokens.now index close) }
{
    let mut closes = zeros(alloc, tokens.len())?;
    // the closing ones behind, each of another depth, the next one last
    let mut closing_ones = Vec::new(alloc);
    for index in (0..tokens.len()).rev() {
        let spelling = tokens[index].token.spelling;
        if spelling == opening {
            if let Some(close) = closing_ones.pop() {
                closes[index] = close;
            }
        } else if spelling == closing {
            closing_ones.push(index)?;
        }
    }
    Ok(closes)
}

/// So many zeros.
fn zeros(alloc: Global, count: usize) -> Result<Vec<usize>, OutOfMemory>
    ensures len { IfOk result (λ made. length made.items ≡ count) }
    ensures zeros { IfOk result (λ made. All (λ n. n ≡ 0) made.items) }
{
    let mut made = Vec::new(alloc);
    for _index in 0..count {
        made.push(0)?;
    }
    Ok(made)
}
