use anyhow::{Context, Result, bail};

/// A place as a text has it: the number of a file, a line and a column.
#[derive(Clone, Copy)]
pub struct Place {
    pub file: usize,
    pub line: usize,
    pub column: usize,
}

/// A number in decimal digits, without a sign or leading zeros.
pub fn number(text: &str) -> Result<usize> {
    let is_plain = match text.as_bytes() {
        [b'0', _, ..] => false,
        digits => digits.iter().all(|byte| byte.is_ascii_digit()),
    };
    if !is_plain {
        bail!("{text} is no number");
    }
    Ok(text.parse::<usize>()?)
}

pub fn read_place(text: &str) -> Result<Place> {
    let (file, rest) = text.split_once(':').context("no place")?;
    let (line, column) = rest.split_once(':').context("no place")?;
    Ok(Place {
        file: number(file)?,
        line: number(line)?,
        column: number(column)?,
    })
}

/// The first word and what stands behind the blank.
pub fn cut(text: &str) -> Result<(&str, &str)> {
    text.split_once(' ').context("too few words")
}
