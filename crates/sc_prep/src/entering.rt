//! Entering a file from the lines around its `#include`, and leaving it.
ghost use Rattle.std.specs.Prelude.{◌≡◌, IfOk, OnOk, List, ℕ};
ghost use Rattle.sc_model.specs.Sets.{IsCond, Keeps};
ghost use Rattle.sc_prep.specs.Entering.{Begins, Leaves};

use crate::open_runs::OpenRuns;
use crate::walk::{Section, Walk};
use sc_base::{Cond, OutOfMemory};
use sc_presence::Conditions;
use std::alloc::Global;
use std::mem;

/// Where the walk stands in the file that includes another.
#[derive(Drop)]
pub struct Around {
    pub group: Cond,
    pub sections: Vec<Section>,
    /// The runs of configurations that do not enter the file.
    pub runs: OpenRuns,
}

impl Walk {
    /// These configurations go on before the first line of a file.
    pub fn begin_file<C: Conditions>(
        &mut self,
        alloc: Global,
        conds: &C,
        entering: Cond,
    ) -> Result<Around, OutOfMemory>
        ensures { IfOk result (λ around. Begins (C.sets conds.now) self.old entering self.new around) }
    {
        let runs = mem::replace(&mut self.runs, OpenRuns::new(alloc, conds)?);
        let sections = mem::replace(&mut self.sections, Vec::new(alloc));
        let group = self.group;
        self.group = entering;
        self.acting = entering;
        Ok(Around {
            group,
            sections,
            runs,
        })
    }

    /// The walk goes on where it stood.
    #[tactic(auto, using(sc_model::proofs::SetLemmas::conditions))]
    pub fn end_file<C: Conditions>(
        &mut self,
        conds: &mut C,
        around: Around,
    ) -> Result<(), OutOfMemory>
        requires live { IsCond (C.sets conds.old) self.old.prepared.live.0 }
        requires group { IsCond (C.sets conds.old) around.group.0 }
        ensures leaves { OnOk result (Leaves (C.sets conds.old) self.old around (C.sets conds.new) self.new) }

        // at every outcome
        ensures keeps { Keeps (C.sets conds.old) (C.sets conds.new) }
    {
        let acting = conds.apply_and(around.group, self.prepared.live)?;
        self.group = around.group;
        self.sections = around.sections;
        self.runs = around.runs;
        self.acting = acting;
        Ok(())
    }
}
