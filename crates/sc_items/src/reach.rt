//! What can be reached along the edges of a graph.
ghost use Rattle.std.specs.Prelude.{◌≡◌, ◌<◌, length, IfOk, OnOk, All, vec_len};
ghost use Rattle.sc_items.specs.Reach.{EdgesWithin, IsReached, Marks};

use sc_base::OutOfMemory;
use std::alloc::Global;

/// Which nodes can be reached from the starts. Row `u` of `edges` has the nodes to which an edge
/// leads from node `u`.
pub fn reachable(
    alloc: Global,
    edges: &[Vec<usize>],
    starts: &[usize],
) -> Result<Vec<bool>, OutOfMemory>
    requires edges { EdgesWithin edges.now }
    requires starts { All (λ node. node < length edges.now) starts.now }
    ensures len { IfOk result (λ reached. vec_len reached ≡ length edges.now) }
    ensures exact { IfOk result (λ reached. IsReached edges.now starts.now reached.items) }
{
    let mut reached = vec![in alloc; false; edges.len()]?;
    let mut pending = Vec::new(alloc);
    reach(&mut reached, &mut pending, starts)?;
    while let Some(node) = pending.pop() {
        reach(&mut reached, &mut pending, &edges[node])?;
    }
    Ok(reached)
}

/// Marks the nodes as reached, and puts off those that were not.
fn reach(
    reached: &mut Vec<bool>,
    pending: &mut Vec<usize>,
    nodes: &[usize],
) -> Result<(), OutOfMemory>
    requires { All (λ node. node < vec_len reached.old) nodes.now }
    ensures { OnOk result (Marks reached.old.items reached.new.items pending.old.items pending.new.items nodes.now) }
{
    for node in nodes {
        if !reached[*node] {
            reached[*node] = true;
            pending.push(*node)?;
        }
    }
    Ok(())
}
