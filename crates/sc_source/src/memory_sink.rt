ghost use Rattle.std.specs.Prelude.{◌≡◌, ◌≤◌, [], ◌∷◌, ◌++◌, map, Contains, Some, IfOk, IsErr, OnOk, OnErr};
ghost use Rattle.std.specs.List.{flat_map};
ghost use Rattle.sc_model.specs.Outside.{Rose, Writes, whole_write};
ghost use Rattle.sc_source.specs.MemorySink.{log_of, plan_of, write_of};
ghost use Rattle.sc_source.specs.Plan.{Advances, next};
ghost use Rattle.sc_source.specs.Sink.{WritesCut};

use crate::fault_plan::FaultPlan;
use crate::{Failed, Sink};
use sc_base::OutOfMemory;
use std::alloc::Global;

/// What one call of `write` left.
#[derive(Debug, Drop)]
pub struct Written {
    pub bytes: Vec<u8>,
    /// Whether the bytes are the whole piece.
    pub whole: bool,
}

/// A log of writes in memory. It tells what was written, and writes that are to fail can be named.
///
/// A write that is to fail leaves the first half of its piece. Where no memory is left to note a
/// piece, the write fails and is counted as a fault, and nothing is noted.
#[derive(Drop)]
pub struct MemorySink {
    writes: Vec<Written>,
    plan: FaultPlan,
}

impl MemorySink {
    /// A log without writes, which keeps `alloc` for those that come.
    pub fn new(alloc: Global) -> Self
        ensures log { log_of result ≡ [] }
        ensures plan { plan_of result ≡ record { failing = []; calls = 0; faults = 0 } }
    {
        MemorySink {
            writes: Vec::new(alloc),
            plan: FaultPlan::new(alloc),
        }
    }

    /// Lets one more write fail, by its number. The writes of a sink count from 0.
    pub fn fail_at(&mut self, call: u64) -> Result<(), OutOfMemory>
        ensures ok { OnOk result (plan_of self.new ≡ record (plan_of self.old) { failing = (plan_of self.old).failing ++ call ∷ [] }) }
        ensures err { OnErr result (plan_of self.new ≡ plan_of self.old) }
        ensures log { log_of self.new ≡ log_of self.old }
    {
        self.plan.fail_at(call)
    }

    /// The writes so far.
    pub fn writes(&self) -> &[Written]
        ensures { map write_of result.now ≡ log_of self.now }
    {
        self.writes.as_slice()
    }

    /// The bytes of all writes so far, one after another.
    pub fn bytes(&self, alloc: Global) -> Result<Vec<u8>, OutOfMemory>
        ensures { IfOk result (λ all. all.items ≡ flat_map (λ write. write.bytes) (log_of self.now)) }
    {
        joined(alloc, self.writes.as_slice())
    }
}

fn joined(alloc: Global, writes: &[Written]) -> Result<Vec<u8>, OutOfMemory>
    ensures { IfOk result (λ all. all.items ≡ flat_map (λ write. write.bytes) (map write_of writes.now)) }
{
    let mut all = Vec::new(alloc);
    for written in writes {
        all.extend_from_slice(written.bytes.as_slice())?;
    }
    Ok(all)
}

fn note(writes: &mut Vec<Written>, bytes: &[u8], whole: bool) -> Result<(), OutOfMemory>
    ensures ok { OnOk result (map write_of writes.new.items ≡ map write_of writes.old.items ++ record { bytes = bytes.now; whole = whole } ∷ []) }
    ensures err { OnErr result (map write_of writes.new.items ≡ map write_of writes.old.items) }
{
    let bytes = Vec::from_slice(*writes.allocator(), bytes)?;
    writes.push(Written { bytes, whole })?;
    Ok(())
}

impl Sink for MemorySink {
    ghost log = { λ s. Some (log_of s) };

    ghost faults = { λ s. (plan_of s).faults };

    fn write(&mut self, piece: &[u8]) -> Result<(), Failed>
        ensures ok { OnOk result (Writes (Some (log_of self.old)) (Some (log_of self.new)) (whole_write piece.now ∷ [])) }
        ensures err { OnErr result (WritesCut (Some (log_of self.old)) (Some (log_of self.new)) piece.now) }
        ensures counted { (plan_of self.old).faults ≤ (plan_of self.new).faults }
        ensures failed { OnErr result (Rose (plan_of self.old).faults (plan_of self.new).faults) }
        ensures stays { OnOk result ((plan_of self.new).faults ≡ (plan_of self.old).faults) }
        ensures rises { OnErr result ((plan_of self.new).faults ≡ next (plan_of self.old).faults) }

        // Where none was planned, only want of memory makes it fail, and then nothing is noted.
        ensures planned { Contains (plan_of self.old).failing (plan_of self.old).calls → IsErr result }
        ensures unplanned { (Contains (plan_of self.old).failing (plan_of self.old).calls → ⊥)
            → OnErr result (log_of self.new ≡ log_of self.old) }
        ensures advances { Advances (plan_of self.old) (plan_of self.new) }
    {
        if self.plan.next_call_fails() {
            // With no memory for the front, nothing of the piece is noted.
            let _ = note(&mut self.writes, &piece[..piece.len() / 2], false);
            self.plan.count_fault();
            return Err(Failed);
        }
        if note(&mut self.writes, piece, true).is_err() {
            self.plan.count_fault();
            return Err(Failed);
        }
        Ok(())
    }
}
