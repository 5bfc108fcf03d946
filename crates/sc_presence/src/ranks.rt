//! Configurations and their ranks: how many configurations come before one, by the first variable,
//! then by the second, and so on.
ghost use Rattle.std.specs.Prelude.{◌≡◌, ℕ, ◌+◌, ◌*◌, ◌<◌, ◌≤◌, ◌^◌, length, IfOk};
ghost use Rattle.sc_model.specs.Sets.{HasOptions, config_count};
ghost use Rattle.sc_presence.specs.Rank.{digit, moved, rank, strides_of, config_at};

use std::alloc::{AllocError, Global};

/// How many configurations there are.
pub fn count_configs(arities: &[usize]) -> usize
    requires options { HasOptions arities.now }
    requires fits { config_count arities.now < 2 ^ 64 }
    ensures { result ≡ config_count arities.now }
{
    let mut count = 1;
    for arity in arities {
        count *= *arity;
    }
    count
}

/// For each variable, how many configurations the variables after it have. `count` is how many
/// there are of all.
pub fn strides(alloc: Global, arities: &[usize], count: usize) -> Result<Vec<usize>, AllocError>
    requires options { HasOptions arities.now }
    requires count { count ≡ config_count arities.now }
    ensures { IfOk result (λ strides. strides.items ≡ strides_of arities.now) }
{
    let mut strides = Vec::with_capacity(alloc, arities.len())?;
    let mut rest = count;
    for arity in arities {
        rest /= *arity;
        strides.push(rest)?;
    }
    Ok(strides)
}

/// The option of a variable in the configuration with this rank.
pub fn option_at(rank: usize, stride: usize, arity: usize) -> usize
    requires stride { 0 < stride }
    requires arity { 0 < arity }
    ensures { result ≡ digit stride arity rank }
{
    rank / stride % arity
}

/// The rank of the configuration that has this option of a variable, and else the options of the
/// one with rank `rank`.
pub fn with_option(rank: usize, stride: usize, arity: usize, option: usize) -> usize
    requires stride { 0 < stride }
    requires arity { 0 < arity }
    requires fits { moved stride arity option rank < 2 ^ 64 }
    ensures { result ≡ moved stride arity option rank }
{
    rank - option_at(rank, stride, arity) * stride + option * stride
}

/// The rank of a configuration.
pub fn rank_of(strides: &[usize], config: &[usize]) -> usize
    requires long { length config.now ≡ length strides.now }
    requires fits { rank strides.now config.now < 2 ^ 64 }
    ensures { result ≡ rank strides.now config.now }
{
    let mut sum = 0;
    for (variable, stride) in strides.iter().enumerate() {
        sum += config[variable] * *stride;
    }
    sum
}

/// Writes the configuration with this rank.
pub fn write_config(rank: usize, strides: &[usize], arities: &[usize], into: &mut [usize])
    requires strides { strides.now ≡ strides_of arities.now }
    requires options { HasOptions arities.now }
    requires long { length into.old ≡ length arities.now }
    ensures { into.new ≡ config_at arities.now rank }
{
    for variable in 0..into.len() {
        into[variable] = option_at(rank, strides[variable], arities[variable]);
    }
}
