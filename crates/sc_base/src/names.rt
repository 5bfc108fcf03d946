ghost use Rattle.std.specs.Prelude.{◌≡◌, ◌<◌, [], Some, length, slice_get, IfOk, OnOk, OnErr};
ghost use Rattle.sc_model.specs.Growth.{Extends, IsOneToOne};
ghost use Rattle.sc_base.specs.Interns.{Interns};

use crate::{Name, OutOfMemory};
use indexmap::IndexSet;
use std::alloc::Global;
use std::marker::Model;

/// The texts of tokens, each kept once, in the order of their names. A text keeps its name for
/// good.
#[derive(Drop)]
pub struct Names {
    texts: IndexSet<Vec<u8>>,
}

impl Model for Names {
    ghost use Rattle.std.specs.Prelude.{List, ℕ, map};
    ghost use Rattle.sc_model.specs.Growth.{IsOneToOne};

    ghost Value = { List (List ℕ) };

    ghost view = { λ n. map (λ t. t.items) n.texts.keys };

    ghost invariant = { λ n. IsOneToOne (map (λ t. t.items) n.texts.keys) };
}

impl Names {
    /// A table without texts, which keeps `alloc` for those that come.
    pub fn new(alloc: Global) -> Result<Self, OutOfMemory>
        ensures { IfOk result (λ names. names ≡ []) }
    {
        Ok(Names {
            texts: IndexSet::new(alloc),
        })
    }

    /// The name of a text: the one that it has, or else a new one.
    pub fn intern(&mut self, bytes: &[u8]) -> Result<Name, OutOfMemory>
        ensures own { IfOk result (λ name. name.0 < length self.new) }
        ensures named { IfOk result (λ name. slice_get self.new name.0 ≡ Some bytes.now) }
        ensures adds { OnOk result (Interns self.old self.new bytes.now) }
        ensures err { OnErr result (self.new ≡ self.old) }

        // at every outcome
        ensures grows { Extends self.old self.new }
        ensures one_to_one { IsOneToOne self.new }
    {
        if let Some(known) = self.texts.get_index_of(bytes) {
            return Ok(Name(known));
        }
        let text = Vec::from_slice(*self.texts.allocator(), bytes)?;
        let (index, _) = self.texts.insert_full(text)?;
        Ok(Name(index))
    }

    /// The text of a name.
    pub fn text(&self, name: Name) -> &[u8]
        requires { name.0 < length self.now }
        ensures { slice_get self.now name.0 ≡ Some result.now }
    {
        self.texts.as_slice()[name.0].as_slice()
    }

    /// No two names have one text. This takes no time: it tells a proof.
    pub fn one_to_one(&self)
        ensures { IsOneToOne self.now }
    {
        let _texts = &self.texts;
    }
}
