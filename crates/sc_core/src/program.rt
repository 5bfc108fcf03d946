ghost use Rattle.std.specs.Prelude.{◌≡◌, ◌<◌, ◌≤◌, ◌∷◌, map, string_bytes, length, take, drop, OnOk, OnErr};
ghost use Rattle.sc_core.specs.Outcome.{Outcome};
ghost use Rattle.sc_model.specs.Outside.{Writes, WritesPart, Rose, whole_write};
ghost use Rattle.sc_show.specs.Pieces.{split_lines_after};

use crate::Status;
use crate::texts::text_for;
use sc_source::{Failed, Sink, Source};
use std::alloc::Global;

/// One run of the program: what the words ask for is written to `out`, or why there is nothing to
/// `err`. The first word is the program's name.
pub fn run<S: Source, K: Sink, E: Sink>(
    alloc: Global,
    words: &[String],
    src: &mut S,
    out: &mut K,
    err: &mut E,
) -> Status
    ensures outcome { Outcome (record { holds = S.holds src.old; before = S.faults src.old; after = S.faults src.new }) (map string_bytes words.now)
        (record { old = K.log out.old; new = K.log out.new; before = K.faults out.old; after = K.faults out.new })
        (record { old = E.log err.old; new = E.log err.new; before = E.faults err.old; after = E.faults err.new }) result }

    // at every outcome
    ensures kept { S.holds src.new ≡ S.holds src.old }
    ensures counted { S.faults src.old ≤ S.faults src.new }
    ensures counted_out { K.faults out.old ≤ K.faults out.new }
    ensures counted_err { E.faults err.old ≤ E.faults err.new }
{
    let text = match text_for(alloc, words, src) {
        Ok(text) => text,
        Err(error) => {
            let _ = err.write(error.line());
            return error.status();
        }
    };
    if write_lines(out, &text.lines).is_err() {
        let _ = err.write(b"superc: write fault\n");
        return Status::WriteFault;
    }
    if text.is_refused {
        Status::Refused
    } else {
        Status::Accepted
    }
}

/// Writes a text, each line as one piece.
fn write_lines<K: Sink>(out: &mut K, text: &[u8]) -> Result<(), Failed>
    ensures ok { OnOk result (Writes (K.log out.old) (K.log out.new) (map whole_write (split_lines_after text.now))) }
    ensures err { OnErr result (WritesPart (K.log out.old) (K.log out.new) (split_lines_after text.now)) }
    ensures counted { K.faults out.old ≤ K.faults out.new }
    ensures failed { OnErr result (Rose (K.faults out.old) (K.faults out.new)) }
{
    let mut rest = text;
    while !rest.is_empty() {
        let (line, after) = rest.split_at(line_length(rest));
        out.write(line)?;
        rest = after;
    }
    Ok(())
}

/// How many bytes the first line has, with its newline.
fn line_length(text: &[u8]) -> usize
    requires { 0 < length text.now }
    ensures some { 0 < result }
    ensures within { result ≤ length text.now }
    ensures line { split_lines_after text.now ≡ take result text.now ∷ split_lines_after (drop result text.now) }
{
    for (index, byte) in text.iter().enumerate() {
        if *byte == b'\n' {
            return index + 1;
        }
    }
    text.len()
}
