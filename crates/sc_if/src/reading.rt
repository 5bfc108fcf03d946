//! What was read of an expression from left to right.
ghost use Rattle.std.specs.Prelude.{◌≡◌, ◌↔◌, [], IsTrue, IfOk, Some, option_map};
ghost use Rattle.c11_expressions.proofs.Reader.{wanting};
ghost use Rattle.sc_if.specs.Operands.{seen_operand};
ghost use Rattle.sc_if.specs.Readings.{answer_of, read_behind, seen_reading, state_in, verdict_of};
ghost use Rattle.sc_if.specs.Symbols.{seen_symbol};

use crate::IfStop;
use crate::frame::Frame;
use crate::operand::Operand;
use crate::reader::{finish, read};
use crate::symbol::Symbol;
use sc_base::{Cause, OutOfMemory};
use std::alloc::Global;

/// What waits for the rest, and the operand that was read last, unless one is wanted.
#[derive(Drop)]
pub(crate) struct Reading {
    frames: Vec<Frame>,
    last: Option<Operand>,
}

impl Reading {
    /// Nothing was read.
    pub(crate) fn start(alloc: Global) -> Reading
        ensures { state_in result ≡ wanting [] }
    {
        Reading {
            frames: Vec::new(alloc),
            last: None,
        }
    }

    pub(crate) fn copy(&self) -> Result<Reading, OutOfMemory>
        ensures { IfOk result (λ copy. state_in copy ≡ state_in self.now) }
    {
        Ok(Reading {
            frames: Vec::from_slice(*self.frames.allocator(), &self.frames)?,
            last: self.last,
        })
    }

    /// What is read once a token was taken that is this symbol, if it is one. There is nothing
    /// where it can't stand.
    pub(crate) fn after(self, symbol: Option<Symbol>) -> Result<Option<Reading>, OutOfMemory>
        ensures { IfOk result (λ next. seen_reading next ≡ read_behind (option_map seen_symbol symbol) (Some (state_in self))) }
    {
        let Reading { mut frames, last } = self;
        match symbol {
            Some(symbol) => match read(&mut frames, last, symbol) {
                Ok(last) => Ok(Some(Reading { frames, last })),
                Err(IfStop::Fault(_)) => Ok(None),
                Err(IfStop::OutOfMemory) => Err(OutOfMemory),
            },
            None => Ok(None),
        }
    }

    /// How much waits.
    pub(crate) fn depth(&self) -> usize {
        self.frames.len()
    }

    pub(crate) fn is_same(&self, other: &Reading) -> bool
        ensures { IsTrue result ↔ (state_in self.now ≡ state_in other.now) }
    {
        same_last(self.last, other.last) && same_frames(&self.frames, &other.frames)
    }
}

/// Whether the frames are the same. The innermost are compared first, since they differ most.
fn same_frames(a: &[Frame], b: &[Frame]) -> bool
    ensures { IsTrue result ↔ (a.now ≡ b.now) }
{
    if a.len() != b.len() {
        return false;
    }
    let mut count = a.len();
    while count > 0 {
        count -= 1;
        if !same_frame(a[count], b[count]) {
            return false;
        }
    }
    true
}

fn same_frame(a: Frame, b: Frame) -> bool
    ensures { IsTrue result ↔ (a ≡ b) }
{
    match (a, b) {
        (Frame::Parenthesis, Frame::Parenthesis) => true,
        (Frame::Prefix(a), Frame::Prefix(b)) => a == b,
        (Frame::Left(p, a), Frame::Left(q, b)) => p == q && same_operand(a, b),
        (Frame::Condition(a), Frame::Condition(b)) => same_operand(a, b),
        (Frame::Branch(c, a), Frame::Branch(d, b)) => same_operand(c, d) && same_operand(a, b),
        _ => false,
    }
}

fn same_last(a: Option<Operand>, b: Option<Operand>) -> bool
    ensures { IsTrue result ↔ (a ≡ b) }
{
    match (a, b) {
        (Some(a), Some(b)) => same_operand(a, b),
        (None, None) => true,
        _ => false,
    }
}

fn same_operand(a: Operand, b: Operand) -> bool
    ensures { IsTrue result ↔ (a ≡ b) }
{
    match (a, b) {
        (Operand::Value(a), Operand::Value(b)) => a == b,
        (Operand::Fault(a), Operand::Fault(b)) => a == b,
        (Operand::Unevaluated { unsigned: a }, Operand::Unevaluated { unsigned: b }) => a == b,
        _ => false,
    }
}

/// Whether the same was read.
pub(crate) fn is_same_reading(a: &Option<Reading>, b: &Option<Reading>) -> bool
    ensures { IsTrue result ↔ (seen_reading a.now ≡ seen_reading b.now) }
{
    match (a, b) {
        (Some(a), Some(b)) => a.is_same(b),
        (None, None) => true,
        _ => false,
    }
}

/// Whether the group of a line that was read is taken, or why the line is refused.
pub(crate) fn answer_to(reading: Option<Reading>) -> Result<bool, Cause>
    ensures { result ≡ answer_of (seen_reading reading) }
{
    match reading {
        Some(Reading { mut frames, last }) => match finish(&mut frames, last) {
            Some(whole) => verdict(whole),
            None => Err(Cause::BadIf),
        },
        None => Err(Cause::BadIf),
    }
}

fn verdict(whole: Operand) -> Result<bool, Cause>
    ensures { result ≡ verdict_of (seen_operand whole) }
{
    match whole.result() {
        Ok(value) => Ok(!value.is_zero()),
        Err(cause) => Err(cause),
    }
}
