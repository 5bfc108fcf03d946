ghost use Rattle.std.specs.Prelude.{◌≡◌, ℕ, ◌<◌, ◌↔◌, true, false, length, slice_index, replicate, IfSome, IfNone};
ghost use Rattle.std.specs.Bool.{OnTrue, OnFalse};
ghost use Rattle.sc_model.specs.Sets.{IsConfig, IsNever};
ghost use Rattle.sc_diagram.specs.Diagram.{sets_of};

use crate::table::{ALWAYS, NEVER, Table};

/// Writes a configuration that the node has: one whose steps miss never.
pub fn example(table: &Table, node: usize, into: &mut [usize]) -> bool
    requires own { node < length table.now.nodes }
    requires long { length into.old ≡ length table.now.arities }
    ensures never { (result ≡ false) ↔ IsNever (sets_of table.now) node }
    ensures config { OnTrue result (IsConfig table.now.arities into.new) }
    ensures has { OnTrue result ((sets_of table.now).has node into.new ≡ true) }
    ensures untouched { OnFalse result (into.new ≡ into.old) }
{
    let _count = table.count();
    if node == NEVER {
        return false;
    }
    clear(into);
    let mut at = node;
    while at > ALWAYS {
        let variable = table.variable(at);
        let option = first_left(table.children(at));
        into[variable] = option;
        at = table.cofactor(at, variable, option);
    }
    true
}

/// The first option of each variable.
fn clear(into: &mut [usize])
    ensures { into.new ≡ replicate (length into.old) 0 }
{
    into.fill(0);
}

/// The first child that is not never, or else the first.
fn first_left(children: &[u32]) -> usize
    requires { 0 < length children.now }
    ensures within { result < length children.now }
    ensures left { (k : ℕ) → k < length children.now → slice_index children.now result ≡ 0 → slice_index children.now k ≡ 0 }
{
    for (option, child) in children.iter().enumerate() {
        if *child as usize != NEVER {
            return option;
        }
    }
    0
}
