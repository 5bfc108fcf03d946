ghost use Rattle.std.specs.Prelude.{◌≡◌, ℕ, ◌≤◌, List, [], ◌∷◌, Option, OnOk, OnErr};
ghost use Rattle.sc_model.specs.Outside.{Write, Writes, Rose, whole_write};
ghost use Rattle.sc_source.specs.Sink.{WritesCut};

use thiserror::Error;

/// A piece was not written whole.
#[derive(Clone, Copy, Debug, PartialEq, Eq, Error)]
#[error("write fault")]
pub struct Failed;

/// Where text is written to, piece by piece.
pub trait Sink {
    // The writes so far, where it tells.
    ghost log: { Self → Option (List Write) };

    // How many writes failed, up to the last value of the count.
    ghost faults: { Self → ℕ };

    /// Writes a piece. After a failure nothing of it, or a prefix of it, is written.
    fn write(&mut self, piece: &[u8]) -> Result<(), Failed>
        ensures ok { OnOk result (Writes (log self.old) (log self.new) (whole_write piece.now ∷ [])) }
        ensures err { OnErr result (WritesCut (log self.old) (log self.new) piece.now) }
        ensures counted { faults self.old ≤ faults self.new }
        ensures failed { OnErr result (Rose (faults self.old) (faults self.new)) }
        ensures stays { OnOk result (faults self.new ≡ faults self.old) };
}
