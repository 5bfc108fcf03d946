//! A large file from a number, and the space in which it is read.
ghost use Rattle.std.specs.Prelude.{◌≡◌, ◌<◌, ◌^◌, ◌∷◌, [], Some, IfOk, map, string_bytes};
ghost use Rattle.sc_space.specs.Seen.{seen_space, seen_variable};
ghost use Rattle.sc_core.specs.Made.{call_text, declaration_text, definition_text, function_text, item_text, made_bytes, made_files, made_space, made_variable, next};

use sc_base::{Limits, OutOfMemory};
use sc_model::Standard;
use sc_source::{Source, SourceStop};
use sc_space::{Space, Variable, VariableOption};
use std::alloc::{AllocError, Global};

/// The name of the file.
pub const MADE_NAME: &str = "make.c";

/// The file alone. No read of it fails but for want of memory.
#[derive(Drop)]
pub struct MadeFile {
    text: String,
}

impl MadeFile {
    ghost use Rattle.sc_core.specs.Made.{holds_of};

    /// The file of so many items.
    pub fn new(alloc: Global, items: u32) -> Result<MadeFile, OutOfMemory>
        ensures { IfOk result (λ file. holds_of file ≡ made_files items) }
    {
        let text = make_file(alloc, items)?;
        Ok(MadeFile { text })
    }
}

impl Source for MadeFile {
    ghost use Rattle.sc_core.specs.Made.{holds_of};

    ghost holds = { λ s. Some (holds_of s) };

    ghost faults = { λ _. 0 };

    fn read(&mut self, alloc: Global, name: &str) -> Result<Option<Vec<u8>>, SourceStop> {
        if name == MADE_NAME {
            return Ok(Some(Vec::from_slice(alloc, self.text.as_bytes())?));
        }
        Ok(None)
    }
}

/// The variables `W0` to `W7`, each undefined or 1, and the settings of a space file that has no
/// others.
pub fn made_space(alloc: Global) -> Result<Space, OutOfMemory>
    ensures { IfOk result (λ space. seen_space space ≡ made_space) }
{
    let mut variables = Vec::new(alloc);
    for name in ["W0", "W1", "W2", "W3", "W4", "W5", "W6", "W7"] {
        variables.push(made_variable(alloc, name)?)?;
    }
    Ok(Space {
        variables,
        include: Vec::new(alloc),
        limits: Limits {
            branches: 4096,
            include_depth: 64,
        },
        date: String::from_str(alloc, "Jan  1 1970")?,
        time: String::from_str(alloc, "00:00:00")?,
        standard: Standard::C11,
        valid: None,
    })
}

fn made_variable(alloc: Global, name: &str) -> Result<Variable, OutOfMemory>
    ensures { IfOk result (λ variable. seen_variable variable ≡ made_variable name.now) }
{
    let name = String::from_str(alloc, name)?;
    let options = vec![in alloc; VariableOption::Undefined, VariableOption::Number(1)]?;
    Ok(Variable { name, options })
}

/// The file of so many items.
pub fn make_file(alloc: Global, items: u32) -> Result<String, OutOfMemory>
    ensures { IfOk result (λ file. string_bytes file ≡ made_bytes items) }
{
    let mut file = String::from_str(alloc, "#define PAIR(p, q) int p = q;\n")?;
    let mut state = u64::from(items);
    for index in 0..items {
        state = next(state);
        let item = item(alloc, index, state / 65_536)?;
        file.push_str(item.as_str())?;
    }
    Ok(file)
}

/// The next number of the generator.
fn next(state: u64) -> u64
    requires { state < 2 ^ 32 }
    ensures { result ≡ next state }
{
    (1_103_515_245 * state + 12_345) % 2_147_483_648
}

/// The item of this index that a number chooses.
fn item(alloc: Global, index: u32, number: u64) -> Result<String, AllocError>
    ensures { IfOk result (λ item. string_bytes item ≡ item_text index number) }
{
    let variable = number % 8;
    match number / 8 % 4 {
        0 => declaration(alloc, index, variable),
        1 => call(alloc, index, variable),
        2 => definition(alloc, index, variable),
        _ => function(alloc, index, variable),
    }
}

/// A declaration with one type or another.
fn declaration(alloc: Global, index: u32, variable: u64) -> Result<String, AllocError>
    ensures { IfOk result (λ item. string_bytes item ≡ declaration_text index variable) }
{
    format!(in alloc; "#ifdef W{variable}\nint a{index};\n#else\nlong a{index};\n#endif\n")
}

/// A call of the macro with one argument or another.
fn call(alloc: Global, index: u32, variable: u64) -> Result<String, AllocError>
    ensures { IfOk result (λ item. string_bytes item ≡ call_text index variable) }
{
    format!(in alloc; "PAIR(a{index},\n#ifdef W{variable}\n1\n#else\n2\n#endif\n)\n")
}

/// The name of a type or of an object, with which a function begins a declaration or an expression.
fn definition(alloc: Global, index: u32, variable: u64) -> Result<String, AllocError>
    ensures { IfOk result (λ item. string_bytes item ≡ definition_text index variable) }
{
    format!(in alloc;
        "#ifdef W{variable}\ntypedef int a{index};\n#else\nint a{index};\n#endif\nvoid u{index}(int p) {{ a{index} * p; }}\n"
    )
}

/// A function with an `if` statement or without one.
fn function(alloc: Global, index: u32, variable: u64) -> Result<String, AllocError>
    ensures { IfOk result (λ item. string_bytes item ≡ function_text index variable) }
{
    format!(in alloc;
        "void a{index}(int p) {{\n#ifdef W{variable}\nif (p) p = 1; else\n#endif\np = 2;\n}}\n"
    )
}
