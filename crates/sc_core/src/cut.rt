//! A space with one configuration.
ghost use Rattle.std.specs.Prelude.{◌≡◌, ◌∷◌, [], IfOk, length, map};
ghost use Rattle.sc_core.specs.Cut.{cut_space, cut_variables};
ghost use Rattle.sc_model.specs.Sets.{IsConfig};
ghost use Rattle.sc_model.specs.Space.{arities_of};
ghost use Rattle.sc_space.specs.Seen.{seen_item, seen_option, seen_space, seen_variable};

use sc_base::OutOfMemory;
use sc_space::{Space, SpelledItem, Variable, VariableOption};
use std::alloc::Global;

/// The space whose one configuration is this one: each variable has the option alone that it has
/// there.
pub fn cut(alloc: Global, space: Space, config: &[usize]) -> Result<Space, OutOfMemory>
    requires { IsConfig (arities_of (seen_space space)) config.now }
    ensures { IfOk result (λ only. seen_space only ≡ cut_space (seen_space space) config.now) }
{
    let variables = cut_variables(alloc, &space.variables, config)?;
    Ok(Space {
        variables,
        include: space.include,
        limits: space.limits,
        date: space.date,
        time: space.time,
        standard: space.standard,
        valid: space.valid,
    })
}

fn cut_variables(
    alloc: Global,
    variables: &[Variable],
    config: &[usize],
) -> Result<Vec<Variable>, OutOfMemory>
    requires { IsConfig (map (λ variable. length variable.options) (map seen_variable variables.now)) config.now }
    ensures { IfOk result (λ only. map seen_variable only.items ≡ cut_variables (map seen_variable variables.now) config.now) }
{
    let mut only = Vec::new(alloc);
    for (index, variable) in variables.iter().enumerate() {
        let option = &variable.options[config[index]];
        only.push(with_option(alloc, variable.name.as_str(), option)?)?;
    }
    Ok(only)
}

fn with_option(alloc: Global, name: &str, option: &VariableOption) -> Result<Variable, OutOfMemory>
    ensures { IfOk result (λ variable. seen_variable variable ≡ record { name = name.now; options = seen_option option.now ∷ [] }) }
{
    let name = String::from_str(alloc, name)?;
    let option = copied(alloc, option)?;
    let options = vec![in alloc; option]?;
    Ok(Variable { name, options })
}

fn copied(alloc: Global, option: &VariableOption) -> Result<VariableOption, OutOfMemory>
    ensures { IfOk result (λ copy. seen_option copy ≡ seen_option option.now) }
{
    match option {
        VariableOption::Undefined => Ok(VariableOption::Undefined),
        VariableOption::Number(number) => Ok(VariableOption::Number(*number)),
        VariableOption::Text { text, items } => {
            let text = String::from_str(alloc, text.as_str())?;
            let items = copied_items(alloc, items)?;
            Ok(VariableOption::Text { text, items })
        }
    }
}

fn copied_items(alloc: Global, items: &[SpelledItem]) -> Result<Vec<SpelledItem>, OutOfMemory>
    ensures { IfOk result (λ copies. map seen_item copies.items ≡ map seen_item items.now) }
{
    let mut copies = Vec::new(alloc);
    for item in items {
        copies.push(copied_item(alloc, item)?)?;
    }
    Ok(copies)
}

fn copied_item(alloc: Global, item: &SpelledItem) -> Result<SpelledItem, OutOfMemory>
    ensures { IfOk result (λ copy. seen_item copy ≡ seen_item item.now) }
{
    let spelling = Vec::from_slice(alloc, &item.spelling)?;
    Ok(SpelledItem {
        kind: item.kind,
        spelling,
        space: item.space,
    })
}
