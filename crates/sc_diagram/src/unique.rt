//! The branches of a diagram, each kept once.
ghost use Rattle.std.specs.Prelude.{◌≡◌, ◌<◌, ◌≤◌, ◌/◌, ◌^◌, [], ◌∷◌, ◌++◌, ℕ, Contains, List, All, length, map, take, slice_get, slice_index, slice_index_or, Some, true, false, ◌↔◌, IfSome, IfNone, IfOk, OnOk, OnErr};
ghost use Rattle.sc_base.specs.Interns.{Interns};
ghost use Rattle.sc_diagram.specs.Diagram.{branch};
ghost use Rattle.sc_diagram.specs.Unique.{IsRow, branch_at, hash_of};

use crate::chains::Chains;
use sc_base::OutOfMemory;
use std::alloc::Global;
use std::marker::Model;

/// 2^64 by the golden ratio, whose multiples are far from each other.
const FACTOR: usize = 0x9E37_79B9_7F4A_7C15;

/// The children of a branch: two, or where they stand among those of all.
#[derive(Clone, Copy)]
enum Kept {
    Pair([u32; 2]),
    Range(u32, u32),
}

/// A branch: its variable and its children.
#[derive(Clone, Copy)]
struct Row {
    variable: u32,
    kept: Kept,
}

/// Branches, each kept once and found by its hash (the unique table of Brace, Rudell and Bryant
/// 1990).
#[derive(Drop)]
pub struct UniqueTable {
    rows: Vec<Row>,
    children: Vec<u32>,
    chains: Chains,
}

impl Model for UniqueTable {
    ghost use Rattle.std.specs.Prelude.{List};
    ghost use Rattle.sc_diagram.specs.Diagram.{Branch};
    ghost use Rattle.sc_diagram.specs.Unique.{AreRows, branches_of};

    ghost Value = { List Branch };

    ghost view = { λ t. branches_of t.children.items t.rows.items };

    ghost invariant = { λ t. AreRows t.children.items t.rows.items t.chains.hashes };
}

impl UniqueTable {
    pub fn new(alloc: Global) -> UniqueTable
        ensures { result ≡ [] }
    {
        UniqueTable {
            rows: Vec::new(alloc),
            children: Vec::new(alloc),
            chains: Chains::new(alloc),
        }
    }

    pub fn len(&self) -> usize
        ensures { result ≡ length self.now }
    {
        self.rows.len()
    }

    /// The variable of a branch.
    pub fn variable(&self, number: usize) -> usize
        requires { number < length self.now }
        ensures { result ≡ (slice_index_or self.now number (branch 0 [])).variable }
    {
        self.rows[number].variable as usize
    }

    /// The children of a branch.
    pub fn children(&self, number: usize) -> &[u32]
        requires { number < length self.now }
        ensures { result.now ≡ (slice_index_or self.now number (branch 0 [])).children }
    {
        match &self.rows[number].kept {
            Kept::Pair(pair) => &pair[..],
            Kept::Range(first, end) => &self.children[*first as usize..*end as usize],
        }
    }

    /// The number of the branch, which is the next one where it wasn't there.
    pub fn insert(&mut self, variable: usize, children: &[usize]) -> Result<usize, OutOfMemory>
        ensures interns { IfOk result (λ r. Interns self.old self.new (branch variable children.now)) }
        ensures stored { IfOk result (λ r. slice_get self.new r ≡ Some (branch variable children.now)) }
        ensures err { OnErr result (self.new ≡ self.old) }
    {
        let hash = hash_of(variable, children);
        if let Some(number) = self.find(hash, variable, children) {
            return Ok(number);
        }
        let number = self.rows.len();
        let row = put_row(&mut self.children, variable, children)?;
        self.rows.push(row)?;
        match self.chains.push(hash) {
            Ok(()) => Ok(number),
            Err(stop) => {
                self.rows.truncate(number);
                Err(stop)
            }
        }
    }

    /// The number of the branch that has this hash, where it is there.
    fn find(&self, hash: u32, variable: usize, children: &[usize]) -> Option<usize>
        requires { hash ≡ hash_of (branch variable children.now) }
        ensures some { IfSome result (λ r. slice_get self.now r ≡ Some (branch variable children.now)) }
        ensures none { IfNone result (Contains self.now (branch variable children.now) → ⊥) }
    {
        let mut link = self.chains.newest(hash);
        while link > 0 {
            let number = (link - 1) as usize;
            if self.is(number, variable, children) {
                return Some(number);
            }
            link = self.chains.older(number, hash);
        }
        None
    }

    /// Whether the number is that of the branch.
    fn is(&self, number: usize, variable: usize, children: &[usize]) -> bool
        requires { number < length self.now }
        ensures yes { result ≡ true → slice_get self.now number ≡ Some (branch variable children.now) }
        ensures no { result ≡ false → slice_get self.now number ≡ Some (branch variable children.now) → ⊥ }
    {
        self.variable(number) == variable && are_same(self.children(number), children)
    }
}

/// Whether the numbers are the same.
fn are_same(a: &[u32], b: &[usize]) -> bool
    ensures { (result ≡ true) ↔ (a.now ≡ b.now) }
{
    if a.len() != b.len() {
        return false;
    }
    for (i, number) in b.iter().enumerate() {
        if a[i] as usize != *number {
            return false;
        }
    }
    true
}

/// The hash of a branch.
fn hash_of(variable: usize, children: &[usize]) -> u32
    ensures { result ≡ hash_of (branch variable children.now) }
{
    let mut hash = variable;
    for child in children {
        hash = hash.wrapping_mul(FACTOR).wrapping_add(*child);
    }
    (hash.wrapping_mul(FACTOR) >> 32) as u32
}

/// Puts the children of a branch behind those of all, and gives its row.
fn put_row(all: &mut Vec<u32>, variable: usize, children: &[usize]) -> Result<Row, OutOfMemory>
    ensures row { IfOk result (λ r. branch_at all.new.items r ≡ branch variable children.now) }
    ensures within { IfOk result (λ r. IsRow (length all.new.items) r) }

    // at every outcome
    ensures kept { take (length all.old.items) all.new.items ≡ all.old.items }
{
    let variable = number_of(variable)?;
    if let [first, second] = children {
        let kept = Kept::Pair([number_of(*first)?, number_of(*second)?]);
        return Ok(Row { variable, kept });
    }
    let first = number_of(all.len())?;
    for child in children {
        all.push(number_of(*child)?)?;
    }
    let kept = Kept::Range(first, number_of(all.len())?);
    Ok(Row { variable, kept })
}

/// The number in four bytes, where there is room for so many.
fn number_of(n: usize) -> Result<u32, OutOfMemory>
    ensures { IfOk result (λ r. r ≡ n) }
{
    match u32::try_from(n) {
        Ok(number) => Ok(number),
        Err(_) => Err(OutOfMemory),
    }
}
