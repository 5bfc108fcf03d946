ghost use Rattle.std.specs.Prelude.{◌≡◌, ◌≤◌, OnErr, OnOk};
ghost use Rattle.std.specs.Io.KnownBytes.{Appends};
ghost use Rattle.sc_model.specs.Outside.{Rose};

use crate::fault_plan::next_count;
use crate::{Failed, Sink};
use std::io;
use std::io::Write;

/// A writer as a sink, as the program's output. What it takes no contract can tell, so it tells
/// nothing.
///
/// Each piece is written and flushed by its call. A writer that takes nothing of a piece that is
/// not empty has failed.
#[derive(Drop)]
pub struct StdSink<W> {
    to: W,
    faults: u64,
}

impl<W: Write> StdSink<W> {
    ghost use Rattle.sc_source.specs.StdSink.{faults_of};

    /// A sink that writes to `to`.
    pub fn new(to: W) -> Self
        ensures { faults_of result ≡ 0 }
    {
        StdSink { to, faults: 0 }
    }
}

impl<W: Write> Sink for StdSink<W> {
    ghost use Rattle.std.specs.Prelude.{None};
    ghost use Rattle.sc_source.specs.StdSink.{faults_of, contents_of};

    ghost log = { λ _. None };

    ghost faults = { faults_of };

    fn write(&mut self, piece: &[u8]) -> Result<(), Failed>
        ensures counted { faults_of self.old ≤ faults_of self.new }
        ensures failed { OnErr result (Rose (faults_of self.old) (faults_of self.new)) }
        ensures stays { OnOk result (faults_of self.new ≡ faults_of self.old) }
        ensures written { OnOk result (Appends (contents_of W.contents self.old) (contents_of W.contents self.new) piece.now) }
    {
        match write_and_flush(&mut self.to, piece) {
            Ok(()) => Ok(()),
            Err(_) => {
                self.faults = next_count(self.faults);
                Err(Failed)
            }
        }
    }
}

fn write_and_flush<W: Write>(to: &mut W, piece: &[u8]) -> io::Result<()>
    ensures { OnOk result (Appends (W.contents to.old) (W.contents to.new) piece.now) }
{
    to.write_all(piece)?;
    to.flush()
}
