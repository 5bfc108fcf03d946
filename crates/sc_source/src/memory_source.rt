ghost use Rattle.std.specs.Prelude.{◌≡◌, ℕ, ◌≤◌, List, [], ◌∷◌, ◌++◌, ◌↔◌, None, Some, Contains, IfOk, IsErrOf, OnOk, OnErr};
ghost use Rattle.std.specs.Option.{option_map};
ghost use Rattle.sc_model.specs.Outside.{Rose};
ghost use Rattle.sc_source.specs.Plan.{Advances, next};

use crate::fault_plan::FaultPlan;
use crate::{Source, SourceStop};
use indexmap::IndexMap;
use sc_base::OutOfMemory;
use std::alloc::Global;

/// Files in memory. It tells what it holds, and reads that are to fail can be named.
#[derive(Drop)]
pub struct MemorySource {
    files: IndexMap<String, Vec<u8>>,
    plan: FaultPlan,
}

impl MemorySource {
    ghost use Rattle.sc_source.specs.MemorySource.{files_of, plan_of, with_file};

    /// A source without files, which keeps `alloc` for those that come.
    pub fn new(alloc: Global) -> Self
        ensures files { (name : List ℕ) → files_of result name ≡ None }
        ensures plan { plan_of result ≡ record { failing = []; calls = 0; faults = 0 } }
    {
        MemorySource {
            files: IndexMap::new(alloc),
            plan: FaultPlan::new(alloc),
        }
    }

    /// Adds a file, in the place of one with the same name.
    pub fn add(&mut self, name: &str, bytes: &[u8]) -> Result<(), OutOfMemory>
        ensures ok { OnOk result (files_of self.new ≡ with_file (files_of self.old) name.now bytes.now) }
        ensures err { OnErr result (files_of self.new ≡ files_of self.old) }
        ensures plan { plan_of self.new ≡ plan_of self.old }
    {
        let alloc = *self.files.allocator();
        let name = String::from_str(alloc, name)?;
        let bytes = Vec::from_slice(alloc, bytes)?;
        self.files.insert(name, bytes)?;
        Ok(())
    }

    /// Lets one more read fail, by its number. The reads of a source count from 0.
    pub fn fail_at(&mut self, call: u64) -> Result<(), OutOfMemory>
        ensures ok { OnOk result (plan_of self.new ≡ record (plan_of self.old) { failing = (plan_of self.old).failing ++ call ∷ [] }) }
        ensures err { OnErr result (plan_of self.new ≡ plan_of self.old) }
        ensures files { files_of self.new ≡ files_of self.old }
    {
        self.plan.fail_at(call)
    }
}

impl Source for MemorySource {
    ghost use Rattle.sc_source.specs.MemorySource.{files_of, plan_of};

    ghost holds = { λ s. Some (files_of s) };

    ghost faults = { λ s. (plan_of s).faults };

    fn read(&mut self, alloc: Global, name: &str) -> Result<Option<Vec<u8>>, SourceStop>
        ensures answer { IfOk result (λ text. option_map (λ bytes. bytes.items) text ≡ files_of self.old name.now) }
        ensures kept { files_of self.new ≡ files_of self.old }
        ensures counted { (plan_of self.old).faults ≤ (plan_of self.new).faults }
        ensures failed { IsErrOf result SourceStop.Failed → Rose (plan_of self.old).faults (plan_of self.new).faults }
        ensures stays { (IsErrOf result SourceStop.Failed → ⊥) → (plan_of self.new).faults ≡ (plan_of self.old).faults }
        ensures rises { IsErrOf result SourceStop.Failed → (plan_of self.new).faults ≡ next (plan_of self.old).faults }
        ensures planned { IsErrOf result SourceStop.Failed ↔ Contains (plan_of self.old).failing (plan_of self.old).calls }
        ensures advances { Advances (plan_of self.old) (plan_of self.new) }
    {
        if self.plan.next_call_fails() {
            self.plan.count_fault();
            return Err(SourceStop::Failed);
        }
        match self.files.get(name) {
            Some(bytes) => Ok(Some(Vec::from_slice(alloc, bytes.as_slice())?)),
            None => Ok(None),
        }
    }
}
