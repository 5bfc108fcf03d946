use crate::variables::{MOST_VARIABLES, read_variables};
use crate::{SpaceFault, SpaceStop, VariableOption, read, settings};
use sc_base::Limits;
use sc_model::Standard;
use std::alloc::Global;

/// A configuration variable: the name of a macro, and what it may start as.
#[derive(Debug, Drop)]
pub struct Variable {
    pub name: String,
    pub options: Vec<VariableOption>,
}

/// The configurations of a run, and its settings with the defaults filled in.
#[derive(Debug, Drop)]
pub struct Space {
    /// Ordered by the bytes of their names.
    pub variables: Vec<Variable>,
    /// The folders in which included files are looked for, in order.
    pub include: Vec<String>,
    pub limits: Limits,
    /// What `__DATE__` stands for, 11 bytes.
    pub date: String,
    /// What `__TIME__` stands for, 8 bytes.
    pub time: String,
    /// The standard by which files are read.
    pub standard: Standard,
    /// Which configurations are meant: those for which this holds behind `#if`, all where there is
    /// none.
    pub valid: Option<String>,
}

impl Space {
    ghost use Rattle.std.specs.Prelude.{IfOk};
    ghost use Rattle.sc_space.specs.Seen.{seen_space, Answers};
    ghost use Rattle.sc_space.specs.Sound.{IsSound};
    ghost use Rattle.sc_space.specs.SpaceFile.{read_space};
    ghost use Rattle.sc_space.specs.Texts.{AreTexts, Texts};

    /// Reads a space file, which is TOML 1.1: the table `variables` gives each variable the list of
    /// its options, each the text `undef`, a whole number from 0, or another text, which is the
    /// replacement list of a macro without arguments. The keys `include`, `branches`,
    /// `include_depth`, `date`, `time`, `standard` and `valid` are settings.
    pub fn read(alloc: Global, bytes: &[u8]) -> Result<Space, SpaceStop>
        ensures answer { (texts : Texts) → AreTexts texts → Answers seen_space result (read_space texts bytes.now) }
        ensures sound { IfOk result (λ s. IsSound (seen_space s)) }
    {
        let document = read::read_document(alloc, bytes)?;
        read::check_keys(alloc, &document)?;
        let variables = read_variables(alloc, read::variables_table(&document)?)?;
        if variables.len() > MOST_VARIABLES {
            return Err(SpaceStop::Fault(SpaceFault::TooMany));
        }
        settings::with_settings(alloc, variables, &document)
    }
}
