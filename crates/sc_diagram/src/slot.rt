//! Where the result for two nodes is kept.
ghost use Rattle.std.specs.Prelude.{◌<◌, ◌≤◌, IfSome};

/// 2^64 by the golden ratio.
const FACTOR: usize = 0x9E37_79B9_7F4A_7C15;

/// How many nodes there may be for a slot.
const NODES: usize = 4;

/// The fewest slots.
const FEWEST: usize = 256;

/// The most slots: so many stay in a processor's cache, and an operation that is still at work
/// finds there what it made.
const MOST: usize = 32_768;

/// So many slots, or twice as many where the nodes ask for more and there are not the most.
pub fn more_slots(slots: usize, nodes: usize) -> usize
    ensures { slots ≤ result }
{
    if (nodes / NODES <= slots && slots > 0) || slots >= MOST {
        slots
    } else {
        slots.saturating_mul(2).max(FEWEST)
    }
}

/// The slot of a result, by the operation's number and its two nodes, where there is one.
pub fn slot(slots: usize, operation: usize, left: usize, right: usize) -> Option<usize>
    ensures { IfSome result (λ at. at < slots) }
{
    let nodes = left.wrapping_mul(FACTOR).wrapping_add(right);
    let mixed = nodes.wrapping_mul(FACTOR).wrapping_add(operation);
    let last = slots.checked_sub(1)?;
    Some((mixed.wrapping_mul(FACTOR) >> 32) & last)
}
