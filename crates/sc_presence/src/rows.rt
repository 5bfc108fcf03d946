//! Rows: one truth value for each configuration, in the order of their ranks.
ghost use Rattle.std.specs.Prelude.{◌≡◌, ℕ, ◌+◌, ◌*◌, ◌<◌, ◌≤◌, ◌^◌, ◌==◌, ◌&&◌, ◌||◌, not, length, map, replicate, true, false, EachIndex, IfOk, IfSome, IfNone, ◌⊎◌};
ghost use Rattle.std.specs.Bool.{OnTrue, OnFalse};
ghost use Rattle.std.specs.List.{zip, range_with_len};
ghost use Rattle.sc_model.specs.Sets.{Sets, HasOptions, IsNever, IsAlways, IsTop, config_count};
ghost use Rattle.sc_presence.specs.Rank.{digit, moved, strides_of};
ghost use Rattle.sc_presence.specs.Rows.{value_at, Varies, Repeats, IsRowOf};

use crate::ranks::{option_at, with_option};
use std::alloc::{AllocError, Global};

/// A row with this value at each configuration.
pub fn constant(alloc: Global, count: usize, value: bool) -> Result<Vec<bool>, AllocError>
    ensures { IfOk result (λ row. row.items ≡ replicate count value) }
{
    vec![in alloc; value; count]
}

/// The configurations that are in both rows.
pub fn meet(alloc: Global, a: &[bool], b: &[bool]) -> Result<Vec<bool>, AllocError>
    ensures { IfOk result (λ row. row.items ≡ map (λ p. p.0 && p.1) (zip a.now b.now)) }
{
    a.iter().zip(b).map(|(x, y)| *x && *y).collect(alloc)
}

/// The configurations that are in either row.
pub fn join(alloc: Global, a: &[bool], b: &[bool]) -> Result<Vec<bool>, AllocError>
    ensures { IfOk result (λ row. row.items ≡ map (λ p. p.0 || p.1) (zip a.now b.now)) }
{
    a.iter().zip(b).map(|(x, y)| *x || *y).collect(alloc)
}

/// The configurations that are in the first row and not in the second.
pub fn difference(alloc: Global, a: &[bool], b: &[bool]) -> Result<Vec<bool>, AllocError>
    ensures { IfOk result (λ row. row.items ≡ map (λ p. p.0 && not p.1) (zip a.now b.now)) }
{
    a.iter().zip(b).map(|(x, y)| *x && !*y).collect(alloc)
}

/// The configurations that are not in the row.
pub fn complement(alloc: Global, row: &[bool]) -> Result<Vec<bool>, AllocError>
    ensures { IfOk result (λ others. others.items ≡ map not row.now) }
{
    row.iter().map(|x| !*x).collect(alloc)
}

/// The configurations in which a variable has this option.
pub fn choice(
    alloc: Global,
    count: usize,
    stride: usize,
    arity: usize,
    option: usize,
) -> Result<Vec<bool>, AllocError>
    requires stride { 0 < stride }
    requires arity { 0 < arity }
    ensures { IfOk result (λ row. row.items ≡ map (λ i. digit stride arity i == option) (range_with_len 0 count)) }
{
    (0..count)
        .map(|rank| option_at(rank, stride, arity) == option)
        .collect(alloc)
}

/// What remains of the row where a variable has this option.
pub fn part(
    alloc: Global,
    row: &[bool],
    stride: usize,
    arity: usize,
    option: usize,
) -> Result<Vec<bool>, AllocError>
    requires stride { 0 < stride }
    requires arity { 0 < arity }
    requires within { EachIndex row.now (λ i. moved stride arity option i < length row.now) }
    ensures { IfOk result (λ rest. rest.items
        ≡ map (λ i. value_at row.now (moved stride arity option i)) (range_with_len 0 (length row.now))) }
{
    (0..row.len())
        .map(|rank| row[with_option(rank, stride, arity, option)])
        .collect(alloc)
}

/// Whether a block of this length is not like the first.
pub fn varies(row: &[bool], block: usize) -> bool
    requires { 0 < block }
    ensures differs { OnTrue result (Varies block row.now) }
    ensures alike { OnFalse result (Repeats block row.now) }
{
    for place in block..row.len() {
        if row[place] != row[place % block] {
            return true;
        }
    }
    false
}

/// The rank of the first configuration in the row.
pub fn first(row: &[bool]) -> Option<usize>
    ensures some { IfSome result (λ i. (i < length row.now) × (value_at row.now i ≡ true)) }
    ensures none { IfNone result (EachIndex row.now (λ i. value_at row.now i ≡ false)) }
{
    row.iter().position(|x| *x)
}

/// The first variable on which the condition with this row depends.
pub fn first_variable(row: &[bool], strides: &[usize], arities: &[usize]) -> Option<usize>
    requires strides { strides.now ≡ strides_of arities.now }
    requires options { HasOptions arities.now }
    requires long { length row.now ≡ config_count arities.now }
    ensures some { (s : Sets) (a : ℕ) → IsRowOf s a arities.now row.now → IfSome result (IsTop s a) }
    ensures none { (s : Sets) (a : ℕ) → IsRowOf s a arities.now row.now → IfNone result (IsNever s a ⊎ IsAlways s a) }
{
    for (variable, stride) in strides.iter().enumerate() {
        // A row that depends on no variable before this one repeats its first values.
        if varies(&row[..*stride * arities[variable]], *stride) {
            return Some(variable);
        }
    }
    None
}
