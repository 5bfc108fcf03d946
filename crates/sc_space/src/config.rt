//! The configuration that words choose.
ghost use Rattle.std.specs.Prelude.{◌≡◌, ◌<◌, List, map, length, string_bytes, unwrap_or, IfOk};
ghost use Rattle.sc_model.specs.Sets.{HasOptions, IsConfig};
ghost use Rattle.sc_model.specs.Space.{arities_of};
ghost use Rattle.sc_space.specs.Config.{Fills, variable_named, option_written, read_parts, read_choice, read_config};
ghost use Rattle.sc_space.specs.declared.config.Choice.{Choice};
ghost use Rattle.sc_space.specs.Seen.{seen_option, seen_space, Answers};

use crate::option::is_written;
use crate::{Space, SpaceFault, SpaceStop, VariableOption};
use sc_base::OutOfMemory;
use std::alloc::Global;

/// The option of one variable, each by its place in the space.
#[derive(Clone, Copy)]
pub(crate) struct Choice {
    pub variable: usize,
    pub option: usize,
}

impl Space {
    /// The configuration that words `NAME=OPTION` choose, as the places of options. A variable that
    /// no word names has its first option.
    pub fn config(&self, alloc: Global, words: &[String]) -> Result<Vec<usize>, SpaceStop>
        ensures answer { Answers (λ config. config.items) result (read_config (seen_space self.now) (map string_bytes words.now)) }
        ensures formed { HasOptions (arities_of (seen_space self.now)) → IfOk result (λ config. IsConfig (arities_of (seen_space self.now)) config.items) }
    {
        let mut chosen = vec![in alloc; None; self.variables.len()]?;
        for word in words {
            let choice = self.read_choice(alloc, &chosen, word.as_str())?;
            chosen[choice.variable] = Some(choice.option);
        }
        Ok(filled(alloc, &chosen)?)
    }

    /// What a word chooses, where these options were chosen before.
    #[tactic(auto, unfolding(crate::specs::Config::read_choice))]
    fn read_choice(
        &self,
        alloc: Global,
        chosen: &[Option<usize>],
        word: &str,
    ) -> Result<Choice, SpaceStop>
        requires { length chosen.now ≡ length self.now.variables.items }
        ensures answer { (before : List Choice) → Fills before chosen.now → Answers (λ choice. choice) result (read_choice (seen_space self.now) before word.now) }
        ensures within { IfOk result (λ choice. choice.variable < length chosen.now) }
    {
        match word.split_once('=') {
            Some((name, option)) => self.read_parts(alloc, chosen, name, option),
            None => {
                let word = String::from_str(alloc, word)?;
                Err(SpaceStop::Fault(SpaceFault::UnknownVariable(word)))
            }
        }
    }

    #[tactic(auto, unfolding(crate::specs::Config::read_parts))]
    fn read_parts(
        &self,
        alloc: Global,
        chosen: &[Option<usize>],
        name: &str,
        option: &str,
    ) -> Result<Choice, SpaceStop>
        requires { length chosen.now ≡ length self.now.variables.items }
        ensures answer { (before : List Choice) → Fills before chosen.now → Answers (λ choice. choice) result (read_parts (seen_space self.now) before (name.now, option.now)) }
        ensures within { IfOk result (λ choice. choice.variable < length chosen.now) }
    {
        let name = String::from_str(alloc, name)?;
        let Some(variable) = self.variable_named(name.as_str()) else {
            return Err(SpaceStop::Fault(SpaceFault::UnknownVariable(name)));
        };
        if chosen[variable].is_some() {
            return Err(SpaceStop::Fault(SpaceFault::RepeatedVariable(name)));
        }
        match option_written(&self.variables[variable].options, option) {
            Some(option) => Ok(Choice { variable, option }),
            None => Err(SpaceStop::Fault(SpaceFault::UnknownOption(name))),
        }
    }

    /// The place of the variable with this name.
    fn variable_named(&self, name: &str) -> Option<usize>
        ensures { result ≡ variable_named (seen_space self.now) name.now }
    {
        self.variables.iter().position(|v| v.name.as_str() == name)
    }
}

/// The place of the option that is written so.
fn option_written(options: &[VariableOption], word: &str) -> Option<usize>
    ensures { result ≡ option_written (map seen_option options.now) word.now }
{
    for (index, option) in options.iter().enumerate() {
        if is_written(index, option, word) {
            return Some(index);
        }
    }
    None
}

/// The options that were chosen, and the first one of each other variable.
fn filled(alloc: Global, chosen: &[Option<usize>]) -> Result<Vec<usize>, OutOfMemory>
    ensures { IfOk result (λ config. config.items ≡ map (λ option. unwrap_or option 0) chosen.now) }
{
    Ok(
        chosen
            .iter()
            .map(|option| option.unwrap_or(0))
            .collect(alloc)?,
    )
}
