ghost use Rattle.std.specs.Prelude.{◌≡◌, ◌≤◌, [], ◌∷◌, ◌++◌, ◌↔◌, Contains, IsTrue, OnOk, OnErr};
ghost use Rattle.sc_model.specs.Outside.{Rose};
ghost use Rattle.sc_source.specs.Plan.{next};

use sc_base::OutOfMemory;
use std::alloc::Global;
use std::marker::Model;

/// The next number of a count, which stands still at its last one.
pub(crate) fn next_count(count: u64) -> u64
    ensures next { result ≡ next count }
    ensures rises { count ≤ result }
    ensures rose { Rose count result }
{
    count.saturating_add(1)
}

/// Which calls are to fail, by their numbers from 0, and how many calls and faults there were.
#[derive(Drop)]
pub struct FaultPlan {
    failing: Vec<u64>,
    calls: u64,
    faults: u64,
}

impl Model for FaultPlan {
    ghost use Rattle.sc_source.specs.Plan.{Plan};

    ghost Value = { Plan };

    ghost view = { λ p. record { failing = p.failing.items; calls = p.calls; faults = p.faults } };
}

impl FaultPlan {
    /// A plan by which no call fails.
    pub fn new(alloc: Global) -> Self
        ensures { result ≡ record { failing = []; calls = 0; faults = 0 } }
    {
        FaultPlan {
            failing: Vec::new(alloc),
            calls: 0,
            faults: 0,
        }
    }

    /// Lets one more call fail.
    pub fn fail_at(&mut self, call: u64) -> Result<(), OutOfMemory>
        ensures ok { OnOk result (self.new ≡ record self.old { failing = self.old.failing ++ call ∷ [] }) }
        ensures err { OnErr result (self.new ≡ self.old) }
    {
        self.failing.push(call)?;
        Ok(())
    }

    /// Counts one more call, and says whether it is to fail.
    pub fn next_call_fails(&mut self) -> bool
        ensures planned { IsTrue result ↔ Contains self.old.failing self.old.calls }
        ensures counted { self.new ≡ record self.old { calls = next self.old.calls } }
    {
        let fails = self.failing.contains(&self.calls);
        self.calls = next_count(self.calls);
        fails
    }

    /// Counts one more fault.
    pub fn count_fault(&mut self)
        ensures counted { self.new ≡ record self.old { faults = next self.old.faults } }
        ensures rises { self.old.faults ≤ self.new.faults }
        ensures rose { Rose self.old.faults self.new.faults }
    {
        self.faults = next_count(self.faults);
    }
}
