//! The summary of a file that is made.
ghost use Rattle.std.specs.Prelude.{◌≡◌, ◌++◌, IfOk, OnOk};
ghost use Rattle.std.specs.List.{concat};
ghost use Rattle.sc_show.specs.Pieces.{split_lines_after};
ghost use Rattle.sc_show.specs.Summary.{count_line, size_line, summary_pieces};

use crate::lines::{write_end, write_number};
use sc_base::OutOfMemory;
use sc_project::TreeSize;
use std::alloc::Global;

/// What a file that is made comes to.
#[derive(Clone, Copy, Debug, PartialEq, Eq)]
pub struct Summary {
    /// How many items were made.
    pub items: usize,
    /// The tree where each variable has its first option, where that configuration is not refused.
    pub first: Option<TreeSize>,
    /// The tree where each variable has its last option.
    pub last: Option<TreeSize>,
    /// How many pairs of cause and place the faults have.
    pub faults: usize,
    /// The greatest number of classes of configurations at one place.
    pub classes: usize,
}

/// The text of a summary: six lines.
pub fn show_make(alloc: Global, summary: &Summary) -> Result<Vec<u8>, OutOfMemory>
    ensures text { IfOk result (λ text. text.items ≡ concat (summary_pieces summary.now)) }
    ensures lines { IfOk result (λ text. split_lines_after text.items ≡ summary_pieces summary.now) }
{
    let mut text = Vec::new(alloc);
    write_count(&mut text, "items", summary.items)?;
    write_size(&mut text, "first", summary.first)?;
    write_size(&mut text, "last", summary.last)?;
    write_count(&mut text, "faults", summary.faults)?;
    write_count(&mut text, "classes", summary.classes)?;
    write_end(&mut text)?;
    Ok(text)
}

fn write_count(text: &mut Vec<u8>, word: &str, count: usize) -> Result<(), OutOfMemory>
    ensures { OnOk result (text.new.items ≡ text.old.items ++ count_line word.now count) }
{
    text.extend_from_slice(word.as_bytes())?;
    text.extend_from_slice(b" ")?;
    write_number(text, count)?;
    text.extend_from_slice(b"\n")?;
    Ok(())
}

fn write_size(text: &mut Vec<u8>, word: &str, size: Option<TreeSize>) -> Result<(), OutOfMemory>
    ensures { OnOk result (text.new.items ≡ text.old.items ++ size_line word.now size) }
{
    text.extend_from_slice(word.as_bytes())?;
    text.extend_from_slice(b" ")?;
    match size {
        Some(size) => {
            write_number(text, size.leaves)?;
            text.extend_from_slice(b" ")?;
            write_number(text, size.nodes)?;
        }
        None => text.extend_from_slice(b"- -")?,
    }
    text.extend_from_slice(b"\n")?;
    Ok(())
}
