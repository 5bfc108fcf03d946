ghost use Rattle.std.specs.Prelude.{◌≡◌};

use crate::call::Call;
use crate::work_list::WorkList;
use sc_guarded::Guarded;
use sc_subst::Hidden;

/// A list that is being expanded: the whole list, or an argument of a call.
#[derive(Drop)]
pub struct Frame {
    pub work: WorkList,
    pub out: Guarded<Hidden>,
    /// Calls that have left the work list. No configuration has two.
    pub calls: Vec<Call>,
}

impl Frame {
    /// What is put out. The rest gives its memory back.
    pub fn into_out(self) -> Guarded<Hidden>
        ensures { result ≡ self.out }
    {
        self.out
    }
}

/// A list with a call of which an argument is being expanded.
#[derive(Drop)]
pub struct Enclosing {
    pub frame: Frame,
    pub call: Call,
    pub parameter: usize,
}
