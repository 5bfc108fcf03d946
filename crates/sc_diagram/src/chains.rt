//! The numbers of what has a hash.
ghost use Rattle.std.specs.Prelude.{◌≡◌, ◌+◌, ◌-◌, ◌<◌, ◌≤◌, [], ◌∷◌, ◌++◌, ℕ, List, length, slice_index, OnOk, OnErr, IfOk};
ghost use Rattle.sc_diagram.specs.Chains.{AreLinked, IsCandidate, links, slot_in};

use sc_base::OutOfMemory;
use std::alloc::Global;
use std::marker::Model;

/// The fewest slots.
const FEWEST: usize = 256;

/// How many slots there are for a number when there are more slots.
const SLOTS: usize = 4;

/// Numbers from 0 on, each with a hash. Those whose hashes name one slot are linked, the newest
/// first. A link is one more than a number, and 0 where there is none.
#[derive(Drop)]
pub struct Chains {
    hashes: Vec<u32>,
    older: Vec<u32>,
    newest: Vec<u32>,
}

impl Model for Chains {
    ghost use Rattle.sc_diagram.specs.Chains.{AreLinked, Links, links};

    ghost Value = { Links };

    ghost view = { λ c. links c.hashes.items c.older.items c.newest.items };

    ghost invariant = { λ c. AreLinked (links c.hashes.items c.older.items c.newest.items) };
}

impl Chains {
    pub fn new(alloc: Global) -> Chains
        ensures { result.hashes ≡ [] }
    {
        Chains {
            hashes: Vec::new(alloc),
            older: Vec::new(alloc),
            newest: Vec::new(alloc),
        }
    }

    /// The link to the newest number whose hash names the slot of this one.
    pub fn newest(&self, hash: u32) -> u32
        ensures { IsCandidate self.now (length self.now.hashes) hash result }
    {
        if self.newest.is_empty() {
            return 0;
        }
        self.newest[slot_in(self.newest.len(), hash)]
    }

    /// The link to the next older number of a number's slot, which is that of the hash.
    pub fn older(&self, number: usize, hash: u32) -> u32
        requires within { number < length self.now.hashes }
        requires slot { slot_in (length self.now.newest) (slice_index self.now.hashes number) ≡ slot_in (length self.now.newest) hash }
        ensures { IsCandidate self.now number hash result }
    {
        let _newest = &self.newest;
        self.older[number]
    }

    /// Gives the next number a hash.
    pub fn push(&mut self, hash: u32) -> Result<(), OutOfMemory>
        ensures ok { OnOk result (self.new.hashes ≡ self.old.hashes ++ hash ∷ []) }
        ensures err { OnErr result (self.new.hashes ≡ self.old.hashes) }
    {
        self.widen()?;
        let number = self.hashes.len();
        self.hashes.push(hash)?;
        if link(&mut self.older, &mut self.newest, number, hash).is_err() {
            self.hashes.truncate(number);
            return Err(OutOfMemory);
        }
        Ok(())
    }

    /// Has more slots than numbers.
    fn widen(&mut self) -> Result<(), OutOfMemory>
        ensures ok { OnOk result (0 < length self.new.newest) }
        ensures same { self.new.hashes ≡ self.old.hashes }
    {
        let count = self.hashes.len();
        if count < self.newest.len() {
            return Ok(());
        }
        let slots = count.saturating_mul(SLOTS).max(FEWEST);
        let (older, newest) = linked(*self.hashes.allocator(), &self.hashes, slots)?;
        self.older = older;
        self.newest = newest;
        Ok(())
    }
}

/// The slot that a hash names.
fn slot_in(slots: usize, hash: u32) -> usize
    requires { 0 < slots }
    ensures slot { result ≡ slot_in slots hash }
    ensures within { result < slots }
{
    hash as usize & (slots - 1)
}

/// Links the next number, which has this hash.
fn link(
    older: &mut Vec<u32>,
    newest: &mut Vec<u32>,
    number: usize,
    hash: u32,
) -> Result<(), OutOfMemory>
    requires { 0 < length newest.old.items }
    ensures linked { OnOk result ((hashes : List ℕ) → length hashes ≡ number → AreLinked (links hashes older.old.items newest.old.items)
        → AreLinked (links (hashes ++ hash ∷ []) older.new.items newest.new.items)) }
    ensures older_err { OnErr result (older.new.items ≡ older.old.items) }
    ensures newest_err { OnErr result (newest.new.items ≡ newest.old.items) }

    // at every outcome
    ensures slots { length newest.new.items ≡ length newest.old.items }
{
    let slot = slot_in(newest.len(), hash);
    let Ok(link) = u32::try_from(number) else {
        return Err(OutOfMemory);
    };
    let Some(link) = link.checked_add(1) else {
        return Err(OutOfMemory);
    };
    older.push(newest[slot])?;
    newest[slot] = link;
    Ok(())
}

/// The links of numbers with these hashes, over so many slots.
fn linked(alloc: Global, hashes: &[u32], slots: usize) -> Result<(Vec<u32>, Vec<u32>), OutOfMemory>
    requires { 0 < slots }
    ensures linked { IfOk result (λ made. AreLinked (links hashes.now made.0.items made.1.items)) }
    ensures slots { IfOk result (λ made. length made.1.items ≡ slots) }
{
    let mut older = Vec::new(alloc);
    let mut newest = Vec::new(alloc);
    newest.resize(slots, 0)?;
    for (number, hash) in hashes.iter().enumerate() {
        link(&mut older, &mut newest, number, *hash)?;
    }
    Ok((older, newest))
}
