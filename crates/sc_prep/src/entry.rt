ghost use Rattle.std.specs.Prelude.{◌≡◌, ◌<◌, ◌+◌};

use sc_base::FileId;

/// The file whose lines are walked.
#[derive(Clone, Copy, Debug, PartialEq, Eq)]
pub struct Entry {
    pub file: FileId,
    /// How many files include it, one in the other. The main file has depth 0.
    pub depth: usize,
}

/// How deep a file stands that is included at this depth, which is not the deepest.
pub fn deeper(depth: usize, deepest: usize) -> usize
    requires { depth < deepest }
    ensures { result ≡ depth + 1 }
{
    depth + 1
}
