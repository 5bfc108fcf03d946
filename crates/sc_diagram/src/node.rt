ghost use Rattle.std.specs.Prelude.{◌≡◌, ◌<◌, length, slice_index};

use std::marker::Model;

/// A node of the store that made it.
#[derive(Clone, Copy, Debug, PartialEq, Eq, PartialOrd, Ord, Hash)]
pub struct Node(pub usize);

/// How a node decides: by which variable, and with which node for each of its options. It is lent
/// by the store.
#[derive(Drop)]
pub struct Decision<'a> {
    variable: usize,
    children: &'a [u32],
}

impl<'a> Model for Decision<'a> {
    ghost use Rattle.sc_diagram.specs.Diagram.{Branch, branch};

    ghost Value = { Branch };

    ghost view = { λ d. branch d.variable d.children.now };
}

impl<'a> Decision<'a> {
    pub(crate) fn new(variable: usize, children: &'a [u32]) -> Decision<'a>
        ensures variable { result.variable ≡ variable }
        ensures children { result.children ≡ children.now }
    {
        Decision { variable, children }
    }

    /// The first variable on which the node depends.
    pub fn variable(&self) -> usize
        ensures { result ≡ self.now.variable }
    {
        self.variable
    }

    /// The child for an option of the variable.
    pub fn child(&self, option: usize) -> Node
        requires { option < length self.now.children }
        ensures { result.0 ≡ slice_index self.now.children option }
    {
        let children = self.children;
        Node(children[option] as usize)
    }
}
