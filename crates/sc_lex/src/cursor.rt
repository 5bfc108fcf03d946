ghost use Rattle.std.specs.Prelude.{◌≡◌, ◌+◌, ◌^◌, ◌<◌, [], ◌∷◌, false, List, length, drop, slice_index, Some, IfOk, IfSome, IfNone};
ghost use Rattle.sc_model.specs.Bytes.{begins_with};
ghost use Rattle.c11_tokens.specs.Lex.{Marked, phase_1, bytes_of, trigraph_end, without_trigraphs};
ghost use Rattle.sc_lex.specs.Cursor.{Takes, KeepsFirst, begins_plainly, newlines_of};

use sc_base::{FileId, OutOfMemory, Place};
use std::alloc::Global;

/// A file from some byte on, as the later phases of translation see it: without an order mark,
/// without a carriage return before a newline, with a newline at its end, trigraph sequences
/// replaced and lines spliced.
#[derive(Clone, Copy)]
pub struct Cursor<'a> {
    rest: &'a [u8],
    line: usize,
    column: usize,
    /// The byte before this one is no newline, so that one is wanted at the end.
    wanted: bool,
    ghost lines: { line + length rest.now < 2 ^ 64 },
    ghost columns: { column + length rest.now < 2 ^ 64 },
}

impl<'a> Cursor<'a> {
    ghost use Rattle.sc_lex.specs.Logical.{stored_of, replaced_of, logical_of};
    ghost use Rattle.sc_base.specs.Seen.{position_of};

    /// A whole file.
    pub fn new(bytes: &'a [u8]) -> Cursor<'a>
        ensures { replaced_of result ≡ phase_1 bytes.now }
    {
        if bytes.starts_with(b"\xef\xbb\xbf") {
            return Cursor {
                rest: &bytes[3..],
                line: 1,
                column: 4,
                wanted: false,
            };
        }
        Cursor {
            rest: bytes,
            line: 1,
            column: 1,
            wanted: false,
        }
    }

    /// Where the next byte stands.
    pub fn place(&mut self, file: FileId) -> Place
        ensures same { logical_of self.new ≡ logical_of self.old }
        ensures in_file { result.file ≡ file }
        ensures first { (m : Marked) (ms : List Marked)
            → logical_of self.old ≡ m ∷ ms → m.position ≡ position_of result }
    {
        self.skip_splices();
        self.skip_return();
        Place {
            file,
            line: self.line,
            column: self.column,
        }
    }

    /// Steps over so many bytes.
    pub fn advance(&mut self, count: usize)
        ensures { logical_of self.new ≡ drop count (logical_of self.old) }
    {
        for _ in 0..count {
            let _ = self.next();
        }
    }

    /// All the bytes.
    pub fn text(mut self, alloc: Global) -> Result<Vec<u8>, OutOfMemory>
        ensures { IfOk result (λ text. text.items ≡ bytes_of (logical_of self.entry)) }
    {
        let mut text = Vec::with_capacity(alloc, self.rest.len() + 1)?;
        while let Some(b) = self.next() {
            text.push(b)?;
        }
        Ok(text)
    }

    /// How many newlines come before lines are spliced.
    pub fn newlines(self) -> usize
        ensures all { result ≡ newlines_of (replaced_of self.entry) }
        ensures few { result + 1 < 2 ^ 64 }
    {
        let mut wanted = self.wanted;
        let mut newlines = 0;
        for b in self.rest {
            wanted = *b != b'\n';
            if !wanted {
                newlines += 1;
            }
        }
        if wanted { newlines + 1 } else { newlines }
    }

    /// Takes the next byte.
    fn next(&mut self) -> Option<u8>
        ensures { Takes (logical_of self.old) result (logical_of self.new) }
    {
        if self.is_plain() {
            return Some(self.take_first());
        }
        self.skip_splices();
        self.next_replaced()
    }

    /// The first byte that is left is one of the text, whatever follows it: most are.
    fn is_plain(&self) -> bool
        ensures { result ≡ begins_plainly self.now.rest.now }
    {
        !self.rest.is_empty() && !matches!(self.rest[0], b'\r' | b'?' | b'\\')
    }

    /// Steps over splices (C11 5.1.1.2p1, phase 2).
    fn skip_splices(&mut self)
        ensures same { logical_of self.new ≡ logical_of self.old }
        ensures first { KeepsFirst (replaced_of self.new) }
    {
        if self.is_plain() {
            return;
        }
        while let Some(next) = self.after_splice() {
            *self = next;
        }
    }

    /// What follows the splice that comes first. The last newline stays.
    fn after_splice(mut self) -> Option<Cursor<'a>>
        ensures same { IfSome result (λ next. logical_of next ≡ logical_of self.entry) }
        ensures shorter { IfSome result (λ next. length (replaced_of next) < length (replaced_of self.entry)) }
        ensures none { IfNone result (KeepsFirst (replaced_of self.entry)) }
    {
        if self.next_replaced() != Some(b'\\') {
            return None;
        }
        let newline = self;
        if self.next_replaced() != Some(b'\n') {
            return None;
        }
        let after = self;
        match self.next_replaced() {
            Some(_) => Some(after),
            None => Some(newline),
        }
    }

    /// Takes the next byte, with lines not yet spliced.
    fn next_replaced(&mut self) -> Option<u8>
        ensures { Takes (replaced_of self.old) result (replaced_of self.new) }
    {
        let first = self.next_stored();
        if first != Some(b'?') {
            return first;
        }
        match self.rest_of_trigraph() {
            Some((byte, rest)) => {
                *self = rest;
                Some(byte)
            }
            None => first,
        }
    }

    /// The byte that a trigraph sequence stands for whose first byte was taken, and what follows
    /// it (C11 5.2.1.1).
    fn rest_of_trigraph(mut self) -> Option<(u8, Cursor<'a>)>
        ensures some { IfSome result (λ r. (m : Marked) → m.byte ≡ 63
            → without_trigraphs (m ∷ stored_of self.entry)
            ≡ record { byte = r.0; position = m.position } ∷ replaced_of r.1) }
        ensures none { IfNone result ((m : Marked)
            → without_trigraphs (m ∷ stored_of self.entry) ≡ m ∷ replaced_of self.entry) }
    {
        if self.next_stored() != Some(b'?') {
            return None;
        }
        let byte = trigraph_end(self.next_stored()?)?;
        Some((byte, self))
    }

    /// Takes the next byte, with trigraph sequences not yet replaced.
    fn next_stored(&mut self) -> Option<u8>
        ensures { Takes (stored_of self.old) result (stored_of self.new) }
    {
        self.skip_return();
        if self.rest.is_empty() {
            let wanted = self.wanted;
            self.wanted = false;
            return wanted.then_some(b'\n');
        }
        Some(self.take_first())
    }

    /// Takes the first byte that is left.
    fn take_first(&mut self) -> u8
        requires some { 0 < length self.now.rest.now }
        requires no_return { begins_with (13 ∷ 10 ∷ []) self.now.rest.now ≡ false }
        ensures first { result ≡ slice_index self.old.rest.now 0 }
        ensures takes { Takes (stored_of self.old) (Some result) (stored_of self.new) }
    {
        let b = self.rest[0];
        self.rest = &self.rest[1..];
        self.wanted = b != b'\n';
        if self.wanted {
            self.column += 1;
        } else {
            self.line += 1;
            self.column = 1;
        }
        b
    }

    /// Steps over a carriage return before a newline.
    fn skip_return(&mut self)
        ensures same { stored_of self.new ≡ stored_of self.old }
        ensures none { begins_with (13 ∷ 10 ∷ []) self.new.rest.now ≡ false }
    {
        if self.rest.starts_with(b"\r\n") {
            self.rest = &self.rest[1..];
            self.column += 1;
            self.wanted = true;
        }
    }
}

/// What `??` and this byte stand for.
fn trigraph_end(byte: u8) -> Option<u8>
    ensures { result ≡ trigraph_end byte }
{
    match byte {
        b'=' => Some(b'#'),
        b'(' => Some(b'['),
        b'/' => Some(b'\\'),
        b')' => Some(b']'),
        b'\'' => Some(b'^'),
        b'<' => Some(b'{'),
        b'!' => Some(b'|'),
        b'>' => Some(b'}'),
        b'-' => Some(b'~'),
        _ => None,
    }
}
