//! Sets of names as lists in rising order, so that each set is one list.
ghost use Rattle.std.specs.Prelude.{◌≡◌, ◌||◌, Bool, filter, IfOk};
ghost use Rattle.std.specs.List.{list_any};
ghost use Rattle.sc_base.specs.declared.id.Name as declared;
ghost use Rattle.sc_subst.specs.Rising.{IsRising, has_name, inserted};

use sc_base::{Name, OutOfMemory};
use std::alloc::{AllocError, Global};

pub fn has(set: &[Name], name: Name) -> bool
    ensures { result ≡ has_name set.now name }
{
    set.iter().any(|other| other.0 == name.0)
}

/// The names and this one.
pub fn insert(alloc: Global, set: &[Name], name: Name) -> Result<Vec<Name>, OutOfMemory>
    ensures { IfOk result (λ made. made.items ≡ inserted set.now name) }
{
    let mut made = Vec::new(alloc);
    for (i, other) in set.iter().enumerate() {
        if other.0 == name.0 {
            made.extend_from_slice(&set[i..])?;
            return Ok(made);
        }
        if name.0 < other.0 {
            made.push(name)?;
            made.extend_from_slice(&set[i..])?;
            return Ok(made);
        }
        made.push(*other)?;
    }
    made.push(name)?;
    Ok(made)
}

/// The names that stand in either, in one pass over both.
pub fn union(alloc: Global, one: &[Name], two: &[Name]) -> Result<Vec<Name>, OutOfMemory>
    requires one { IsRising one.now }
    requires two { IsRising two.now }
    ensures rising { IfOk result (λ made. IsRising made.items) }
    ensures exact { IfOk result (λ made. (test : declared.Name → Bool) → list_any test made.items ≡ (list_any test one.now || list_any test two.now)) }
{
    let mut made = Vec::new(alloc);
    let mut next = 0;
    for name in two {
        while next < one.len() && one[next].0 < name.0 {
            made.push(one[next])?;
            next += 1;
        }
        if next < one.len() && one[next].0 == name.0 {
            next += 1;
        }
        made.push(*name)?;
    }
    made.extend_from_slice(&one[next..])?;
    Ok(made)
}

/// The names that stand in both.
pub fn common(alloc: Global, one: &[Name], two: &[Name]) -> Result<Vec<Name>, AllocError>
    ensures { IfOk result (λ made. made.items ≡ filter (has_name two.now) one.now) }
{
    one.iter()
        .copied()
        .filter(|name| has(two, *name))
        .collect(alloc)
}
