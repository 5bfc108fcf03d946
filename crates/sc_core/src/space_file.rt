ghost use Rattle.std.specs.Prelude.{◌≡◌, ◌≤◌, map, string_bytes, Ok, Some, IfOk, IfErr};
ghost use Rattle.sc_core.specs.RunError.{space_line};
ghost use Rattle.sc_core.specs.Texts.{FailsInSpace, FailsToChoose, ReadsSpace, TellsFault, TellsRefusal};
ghost use Rattle.sc_model.specs.Sets.{HasOptions, IsConfig};
ghost use Rattle.sc_model.specs.Space.{arities_of};
ghost use Rattle.sc_space.specs.Config.{read_config};
ghost use Rattle.sc_space.specs.Seen.{seen_space, seen_fault};
ghost use Rattle.sc_space.specs.Sound.{IsSound};

use crate::run_error::RunError;
use sc_base::OutOfMemory;
use sc_source::Source;
use sc_space::{Space, SpaceFault, SpaceStop};
use std::alloc::Global;

/// The space of the file with this name.
pub fn read_space<S: Source>(alloc: Global, src: &mut S, name: &str) -> Result<Space, RunError>
    ensures space { IfOk result (λ space. ReadsSpace (S.holds src.old) name.now (seen_space space)) }
    ensures sound { IfOk result (λ space. IsSound (seen_space space)) }
    ensures error { IfErr result (FailsInSpace (S.holds src.old) (S.faults src.old) (S.faults src.new) name.now) }

    // at every outcome
    ensures kept { S.holds src.new ≡ S.holds src.old }
    ensures counted { S.faults src.old ≤ S.faults src.new }
{
    let Some(bytes) = src.read(alloc, name)? else {
        return Err(RunError::NoSpace);
    };
    match Space::read(alloc, &bytes) {
        Ok(space) => Ok(space),
        Err(stop) => Err(refusal(alloc, stop)?),
    }
}

/// The configuration of the space that words choose.
pub fn chosen_config(
    alloc: Global,
    space: &Space,
    choices: &[String],
) -> Result<Vec<usize>, RunError>
    requires { IsSound (seen_space space.now) }
    ensures config { IfOk result (λ config. read_config (seen_space space.now) (map string_bytes choices.now) ≡ Ok config.items) }
    ensures formed { IfOk result (λ config. IsConfig (arities_of (seen_space space.now)) config.items) }
    ensures error { IfErr result (FailsToChoose (seen_space space.now) (map string_bytes choices.now)) }
{
    match space.config(alloc, choices) {
        Ok(config) => Ok(config),
        Err(stop) => Err(refusal(alloc, stop)?),
    }
}

/// Why there is no space or no configuration.
fn refusal(alloc: Global, stop: SpaceStop) -> Result<RunError, OutOfMemory>
    ensures { IfOk result (TellsRefusal stop) }
{
    match stop {
        SpaceStop::Fault(fault) => bad_space(alloc, &fault),
        SpaceStop::OutOfMemory => Ok(RunError::OutOfMemory),
    }
}

/// What is told of a fault of a space.
pub fn bad_space(alloc: Global, fault: &SpaceFault) -> Result<RunError, OutOfMemory>
    ensures { IfOk result (TellsFault (seen_fault fault.now)) }
{
    Ok(RunError::BadSpace(fault_line(alloc, fault)?))
}

/// What the error output gets for a fault of a space file.
fn fault_line(alloc: Global, fault: &SpaceFault) -> Result<Vec<u8>, OutOfMemory>
    ensures { IfOk result (λ line. line.items ≡ space_line (seen_fault fault.now)) }
{
    let mut line = Vec::from_slice(alloc, b"superc: space: ")?;
    line.extend_from_slice(fault.name().as_bytes())?;
    if let Some(item) = fault.item() {
        line.extend_from_slice(b" ")?;
        line.extend_from_slice(item.as_bytes())?;
    }
    line.extend_from_slice(b"\n")?;
    Ok(line)
}
