ghost use Rattle.std.specs.Prelude.{◌≡◌};
ghost use Rattle.c11_directives.specs.Lines.{conditional_in};

use c11_directives::{Conditional, Directive};

/// A line of a file: its tokens from `first` up to `end`, without the newline.
#[derive(Clone, Copy, Debug, PartialEq, Eq)]
pub struct Line {
    pub first: usize,
    pub end: usize,
    pub directive: Option<Directive>,
    /// The branch of a section that the line begins.
    pub branch: Option<Branch>,
}

impl Line {
    /// Which conditional directive the line is.
    pub fn conditional(&self) -> Option<Conditional>
        ensures { result ≡ conditional_in self.now.directive }
    {
        match self.directive {
            Some(Directive::Conditional(conditional)) => Some(conditional),
            _ => None,
        }
    }
}

/// Where a branch and its section end, by the numbers of their lines.
#[derive(Clone, Copy, Debug, PartialEq, Eq)]
pub struct Branch {
    /// The next line of the section that begins a branch, or else its `#endif`.
    pub next: usize,
    /// The `#endif` of the section.
    pub close: usize,
}

/// The lines of a file in order, whose conditional directives are nested.
#[derive(Debug, Drop)]
pub struct FileTree {
    pub lines: Vec<Line>,
}
