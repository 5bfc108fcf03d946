ghost use Rattle.std.specs.Prelude.{◌<◌, IfSome};

use anyhow::{Result, bail};

/// Puts a line of a case behind the bytes, with a newline unless it ends in an empty escape.
///
/// An escape stands between two backquotes and has bytes in hexadecimal digits.
pub fn put_line(bytes: &mut Vec<u8>, line: &str) -> Result<()> {
    put_unescaped(bytes, line)?;
    if !line.ends_with("``") {
        bytes.push(b'\n')?;
    }
    Ok(())
}

/// Puts a text behind the bytes, with the bytes of its escapes.
pub fn put_unescaped(bytes: &mut Vec<u8>, text: &str) -> Result<()> {
    let mut is_escape = false;
    for piece in text.split('`') {
        if is_escape {
            put_escape(bytes, piece)?;
        } else {
            bytes.extend_from_slice(piece.as_bytes())?;
        }
        is_escape = !is_escape;
    }
    // Behind the last piece stands no backquote.
    if !is_escape {
        bail!("a backquote without its partner");
    }
    Ok(())
}

fn put_escape(bytes: &mut Vec<u8>, digits: &str) -> Result<()> {
    for pair in digits.as_bytes().chunks(2) {
        let byte = match pair {
            [high, low] => byte_of(*high, *low),
            _ => None,
        };
        let Some(byte) = byte else {
            bail!("an escape has two digits, 0 to 9 and A to F, for each byte");
        };
        bytes.push(byte)?;
    }
    Ok(())
}

fn byte_of(high: u8, low: u8) -> Option<u8> {
    Some(value_of(high)? * 16 + value_of(low)?)
}

/// What a hexadecimal digit stands for.
fn value_of(digit: u8) -> Option<u8>
    ensures { IfSome result (λ value. value < 16) }
{
    match digit {
        b'0'..=b'9' => Some(digit - b'0'),
        b'A'..=b'F' => Some(digit - b'A' + 10),
        _ => None,
    }
}
