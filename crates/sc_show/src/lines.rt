//! The lines of a text, each written at its end.
ghost use Rattle.std.specs.Prelude.{◌≡◌, ◌++◌, length, map, codes, string_bytes, OnOk};
ghost use Rattle.sc_model.specs.Space.{option_word, option_words};
ghost use Rattle.sc_space.specs.Seen.{seen_option};
ghost use Rattle.sc_text.specs.Text.{numeral, place_text, choice_text, child_text, branch_text, line_text, condition_line, file_line, token_line, leaf_line, node_line, choice_line, root_line, fault_line, end_line};
ghost use Rattle.sc_show.specs.Prints.{choices_of, printed_place};

use itoa::Buffer;
use sc_base::{Cause, OutOfMemory, Place};
use sc_space::{Variable, VariableOption};

#[tactic(auto, using(sc_text::proofs::Numerals::numeral_is))]
pub fn write_number(text: &mut Vec<u8>, number: usize) -> Result<(), OutOfMemory>
    ensures { OnOk result (text.new.items ≡ text.old.items ++ numeral number) }
{
    text.extend_from_slice(Buffer::new().format(number).as_bytes())?;
    Ok(())
}

/// The word of the option of this index.
fn write_option(
    text: &mut Vec<u8>,
    index: usize,
    option: &VariableOption,
) -> Result<(), OutOfMemory>
    ensures { OnOk result (text.new.items ≡ text.old.items ++ option_word index (seen_option option.now)) }
{
    match option {
        VariableOption::Undefined => text.extend_from_slice(b"undef")?,
        VariableOption::Number(number) => {
            text.extend_from_slice(Buffer::new().format(*number).as_bytes())?
        }
        VariableOption::Text { .. } => {
            text.extend_from_slice(b"t")?;
            text.extend_from_slice(Buffer::new().format(index).as_bytes())?
        }
    }
    Ok(())
}

fn write_place(text: &mut Vec<u8>, file: usize, place: Place) -> Result<(), OutOfMemory>
    ensures { OnOk result (text.new.items ≡ text.old.items ++ place_text (printed_place file place)) }
{
    write_number(text, file)?;
    text.extend_from_slice(b":")?;
    write_number(text, place.line)?;
    text.extend_from_slice(b":")?;
    write_number(text, place.column)
}

fn write_choice(
    text: &mut Vec<u8>,
    index: usize,
    option: &VariableOption,
    child: usize,
) -> Result<(), OutOfMemory>
    ensures { OnOk result (text.new.items ≡ text.old.items ++ choice_text (option_word index (seen_option option.now), child)) }
{
    text.extend_from_slice(b" ")?;
    write_option(text, index, option)?;
    text.extend_from_slice(b":")?;
    write_number(text, child)
}

/// A node of a decision diagram, with what remains for each option of its variable.
pub fn write_condition(
    text: &mut Vec<u8>,
    number: usize,
    variable: &Variable,
    children: &[usize],
) -> Result<(), OutOfMemory>
    requires { length children.now ≡ length variable.now.options.items }
    ensures { OnOk result (text.new.items ≡ text.old.items ++ line_text (condition_line number (string_bytes variable.now.name) (choices_of (option_words (map seen_option variable.now.options.items)) children.now))) }
{
    text.extend_from_slice(b"c ")?;
    write_number(text, number)?;
    text.extend_from_slice(b" ")?;
    text.extend_from_slice(variable.name.as_bytes())?;
    for (index, child) in children.iter().enumerate() {
        write_choice(text, index, &variable.options[index], *child)?;
    }
    text.extend_from_slice(b"\n")?;
    Ok(())
}

pub fn write_file(text: &mut Vec<u8>, number: usize, name: &str) -> Result<(), OutOfMemory>
    ensures { OnOk result (text.new.items ≡ text.old.items ++ line_text (file_line number name.now)) }
{
    text.extend_from_slice(b"s ")?;
    write_number(text, number)?;
    text.extend_from_slice(b" ")?;
    text.extend_from_slice(name.as_bytes())?;
    text.extend_from_slice(b"\n")?;
    Ok(())
}

pub fn write_token(
    text: &mut Vec<u8>,
    condition: usize,
    file: usize,
    place: Place,
    spelling: &[u8],
) -> Result<(), OutOfMemory>
    ensures { OnOk result (text.new.items ≡ text.old.items ++ line_text (token_line condition (printed_place file place) spelling.now)) }
{
    text.extend_from_slice(b"t ")?;
    write_number(text, condition)?;
    text.extend_from_slice(b" ")?;
    write_place(text, file, place)?;
    text.extend_from_slice(b" ")?;
    text.extend_from_slice(spelling)?;
    text.extend_from_slice(b"\n")?;
    Ok(())
}

pub fn write_leaf(
    text: &mut Vec<u8>,
    number: usize,
    file: usize,
    place: Place,
    spelling: &[u8],
) -> Result<(), OutOfMemory>
    ensures { OnOk result (text.new.items ≡ text.old.items ++ line_text (leaf_line number (printed_place file place) spelling.now)) }
{
    text.extend_from_slice(b"l ")?;
    write_number(text, number)?;
    text.extend_from_slice(b" ")?;
    write_place(text, file, place)?;
    text.extend_from_slice(b" ")?;
    text.extend_from_slice(spelling)?;
    text.extend_from_slice(b"\n")?;
    Ok(())
}

fn write_child(text: &mut Vec<u8>, child: usize) -> Result<(), OutOfMemory>
    ensures { OnOk result (text.new.items ≡ text.old.items ++ child_text child) }
{
    text.extend_from_slice(b" ")?;
    write_number(text, child)
}

pub fn write_node(
    text: &mut Vec<u8>,
    number: usize,
    production: usize,
    children: &[usize],
) -> Result<(), OutOfMemory>
    ensures { OnOk result (text.new.items ≡ text.old.items ++ line_text (node_line number production children.now)) }
{
    text.extend_from_slice(b"n ")?;
    write_number(text, number)?;
    text.extend_from_slice(b" ")?;
    write_number(text, production)?;
    for child in children {
        write_child(text, *child)?;
    }
    text.extend_from_slice(b"\n")?;
    Ok(())
}

fn write_branch(text: &mut Vec<u8>, branch: (usize, usize)) -> Result<(), OutOfMemory>
    ensures { OnOk result (text.new.items ≡ text.old.items ++ branch_text branch) }
{
    text.extend_from_slice(b" ")?;
    write_number(text, branch.0)?;
    text.extend_from_slice(b":")?;
    write_number(text, branch.1)
}

/// A choice, each branch as the number of its condition and that of its tree.
pub fn write_branches(
    text: &mut Vec<u8>,
    number: usize,
    branches: &[(usize, usize)],
) -> Result<(), OutOfMemory>
    ensures { OnOk result (text.new.items ≡ text.old.items ++ line_text (choice_line number branches.now)) }
{
    text.extend_from_slice(b"x ")?;
    write_number(text, number)?;
    for branch in branches {
        write_branch(text, *branch)?;
    }
    text.extend_from_slice(b"\n")?;
    Ok(())
}

pub fn write_root(text: &mut Vec<u8>, root: Option<usize>) -> Result<(), OutOfMemory>
    ensures { OnOk result (text.new.items ≡ text.old.items ++ line_text (root_line root)) }
{
    text.extend_from_slice(b"root ")?;
    match root {
        Some(number) => write_number(text, number)?,
        None => text.extend_from_slice(b"-")?,
    }
    text.extend_from_slice(b"\n")?;
    Ok(())
}

pub fn write_fault(
    text: &mut Vec<u8>,
    condition: usize,
    cause: Cause,
    file: usize,
    place: Place,
) -> Result<(), OutOfMemory>
    ensures { OnOk result (text.new.items ≡ text.old.items ++ line_text (fault_line condition cause (printed_place file place))) }
{
    text.extend_from_slice(b"f ")?;
    write_number(text, condition)?;
    text.extend_from_slice(b" ")?;
    write_number(text, cause.code() as usize)?;
    text.extend_from_slice(b" ")?;
    text.extend_from_slice(cause.name().as_bytes())?;
    text.extend_from_slice(b" ")?;
    write_place(text, file, place)?;
    text.extend_from_slice(b"\n")?;
    Ok(())
}

pub fn write_end(text: &mut Vec<u8>) -> Result<(), OutOfMemory>
    ensures { OnOk result (text.new.items ≡ text.old.items ++ line_text end_line) }
{
    text.extend_from_slice(b"end\n")?;
    Ok(())
}
