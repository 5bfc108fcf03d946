//! Marks that are passed on along the edges of a graph. Each node has a word of 64 marks.
ghost use Rattle.std.specs.Prelude.{◌≡◌, ◌<◌, ◌^◌, ◌↔◌, ℕ, length, IfOk, OnOk, All, vec_len};
ghost use Rattle.std.specs.Int.RustNames.{bit_or};
ghost use Rattle.std.specs.List.{Contains};
ghost use Rattle.sc_items.specs.Reach.{EdgesWithin};
ghost use Rattle.sc_lalr.specs.Marks.{IsPassed, IsSpread};

use sc_base::OutOfMemory;
use std::alloc::Global;

/// Passes the marks of each node on to all that can be reached from it. Row `u` of `edges` has the
/// nodes to which an edge leads from node `u`.
pub fn spread(alloc: Global, edges: &[Vec<usize>], words: &mut Vec<u64>) -> Result<(), OutOfMemory>
    requires edges { EdgesWithin edges.now }
    requires long { length words.old.items ≡ length edges.now }
    ensures { OnOk result (IsSpread edges.now words.old.items words.new.items) }
{
    let mut waiting = all(alloc, edges.len())?;
    while let Some(node) = waiting.pop() {
        let word = words[node];
        pass(words, &mut waiting, &edges[node], word)?;
    }
    Ok(())
}

/// The numbers below this one, from the highest.
fn all(alloc: Global, count: usize) -> Result<Vec<usize>, OutOfMemory>
    ensures { IfOk result (λ numbers. (v : ℕ) → Contains numbers.items v ↔ (v < count)) }
{
    let mut numbers = Vec::with_capacity(alloc, count)?;
    for number in 0..count {
        numbers.push(count - 1 - number)?;
    }
    Ok(numbers)
}

/// Gives the nodes the marks of the word, and puts off those to which one was new.
fn pass(
    words: &mut Vec<u64>,
    waiting: &mut Vec<usize>,
    nodes: &[usize],
    word: u64,
) -> Result<(), OutOfMemory>
    requires { All (λ node. node < vec_len words.old) nodes.now }
    ensures { OnOk result (IsPassed words.old.items words.new.items waiting.old.items waiting.new.items nodes.now word) }
{
    for node in nodes {
        let old = words[*node];
        let joined = joined(old, word);
        if old < joined {
            words[*node] = joined;
            waiting.push(*node)?;
        }
    }
    Ok(())
}

/// The marks of both words.
fn joined(a: u64, b: u64) -> u64
    ensures value { result ≡ bit_or a b }
    ensures small { result < 2 ^ 64 }
{
    a | b
}
