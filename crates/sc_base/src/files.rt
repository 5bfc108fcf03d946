ghost use Rattle.std.specs.Prelude.{◌≡◌, ◌<◌, [], Some, length, slice_get, IfOk, OnOk, OnErr};
ghost use Rattle.sc_model.specs.Growth.{Extends, IsOneToOne};
ghost use Rattle.sc_base.specs.Interns.{Interns};

use crate::{FileId, OutOfMemory};
use indexmap::IndexSet;
use std::alloc::Global;
use std::marker::Model;

/// The names of the files that were met, each kept once, in the order of their ids. A name keeps
/// its id for good.
#[derive(Drop)]
pub struct Files {
    names: IndexSet<String>,
}

impl Model for Files {
    ghost use Rattle.std.specs.Prelude.{List, ℕ, map, string_bytes};
    ghost use Rattle.sc_model.specs.Growth.{IsOneToOne};

    ghost Value = { List (List ℕ) };

    ghost view = { λ f. map string_bytes f.names.keys };

    ghost invariant = { λ f. IsOneToOne (map string_bytes f.names.keys) };
}

impl Files {
    /// A table without files, which keeps `alloc` for those that come.
    pub fn new(alloc: Global) -> Result<Self, OutOfMemory>
        ensures { IfOk result (λ files. files ≡ []) }
    {
        Ok(Files {
            names: IndexSet::new(alloc),
        })
    }

    /// The id of a file's name: the one that it has, or else a new one.
    pub fn intern(&mut self, name: &str) -> Result<FileId, OutOfMemory>
        ensures own { IfOk result (λ file. file.0 < length self.new) }
        ensures named { IfOk result (λ file. slice_get self.new file.0 ≡ Some name.now) }
        ensures adds { OnOk result (Interns self.old self.new name.now) }
        ensures err { OnErr result (self.new ≡ self.old) }

        // at every outcome
        ensures grows { Extends self.old self.new }
        ensures one_to_one { IsOneToOne self.new }
    {
        if let Some(known) = self.names.get_index_of(name) {
            return Ok(FileId(known));
        }
        let name = String::from_str(*self.names.allocator(), name)?;
        let (index, _) = self.names.insert_full(name)?;
        Ok(FileId(index))
    }

    /// The name of a file.
    pub fn text(&self, file: FileId) -> &str
        requires { file.0 < length self.now }
        ensures { slice_get self.now file.0 ≡ Some result.now }
    {
        self.names.as_slice()[file.0].as_str()
    }

    /// No two files have one name. This takes no time: it tells a proof.
    pub fn one_to_one(&self)
        ensures { IsOneToOne self.now }
    {
        let _names = &self.names;
    }
}
