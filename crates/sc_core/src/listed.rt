//! The configurations for which a text is told.
ghost use Rattle.std.specs.Prelude.{◌≡◌, IfErr, IfOk};
ghost use Rattle.sc_core.specs.RunError.{space_line};
ghost use Rattle.sc_core.specs.Texts.{FailsToList, TellsStop};
ghost use Rattle.sc_model.specs.Sets.{IsNever, Keeps};
ghost use Rattle.sc_model.specs.Space.{arities_of};
ghost use Rattle.sc_prep.specs.Valid.{IsValidSet};
ghost use Rattle.sc_space.specs.Seen.{seen_fault, seen_space};
ghost use Rattle.sc_space.specs.Sound.{IsSound};

use crate::run_error::RunError;
use crate::space_file::bad_space;
use crate::texts::branches_line;
use sc_base::{Cond, OutOfMemory, Stop};
use sc_prep::{ValidStop, valid_set};
use sc_presence::Conditions;
use sc_space::{Space, SpaceFault};
use std::alloc::Global;

/// The configurations that a space lists. Where there is none, this fault is told.
pub fn listed<C: Conditions>(
    alloc: Global,
    conds: &mut C,
    space: &Space,
    none: SpaceFault,
) -> Result<Cond, RunError>
    requires arities { (C.sets conds.old).arities ≡ arities_of (seen_space space.now) }
    requires sound { IsSound (seen_space space.now) }
    ensures listed { IfOk result (λ live. IsValidSet (C.sets conds.new) (seen_space space.now) live.0) }
    ensures some { IfOk result (λ live. IsNever (C.sets conds.new) live.0 → ⊥) }
    ensures error { IfErr result (FailsToList (seen_space space.now) (seen_fault none)) }

    // at every outcome
    ensures keeps { Keeps (C.sets conds.old) (C.sets conds.new) }
{
    match valid_set(alloc, conds, space, space.limits.branches) {
        Ok(live) => {
            if conds.is_never(live) {
                return Err(bad_space(alloc, &none)?);
            }
            Ok(live)
        }
        Err(ValidStop::Fault(cause)) => Err(bad_space(alloc, &SpaceFault::BadValid(cause))?),
        Err(ValidStop::Stop(stop)) => Err(stopped(alloc, stop)?),
    }
}

/// What is told of a run that stops.
pub fn stopped(alloc: Global, stop: Stop) -> Result<RunError, OutOfMemory>
    ensures { IfOk result (TellsStop stop) }
{
    match stop {
        Stop::ReadFault => Ok(RunError::ReadFault),
        Stop::OutOfMemory => Ok(RunError::OutOfMemory),
        Stop::BranchesFull { count } => Ok(RunError::BranchesFull(branches_line(alloc, count)?)),
    }
}
