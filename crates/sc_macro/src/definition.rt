ghost use Rattle.std.specs.Prelude.{◌≡◌, ◌<◌, codes, length};
ghost use Rattle.sc_model.specs.Bytes.{same_bytes};
ghost use Rattle.c11_macros.specs.Substitution.{is_hash, is_paste};
ghost use Rattle.sc_macro.specs.Seen.{IsHeldItem, seen_item};

use crate::Form;
use sc_base::{Kind, Name, Names, is_same};

/// A macro: its name, its form, and the list that replaces the name.
#[derive(Drop)]
pub struct Definition {
    pub name: Name,
    pub form: Form,
    pub replacement: Replacement,
}

/// A replacement list: that of the definition, or one that the place of the macro's name tells (C11
/// 6.10.8.1).
#[derive(Drop)]
pub enum Replacement {
    Items(Vec<Item>),
    FileName,
    LineNumber,
}

/// A preprocessing token of a replacement list.
#[derive(Clone, Copy, Debug, PartialEq, Eq)]
pub struct Item {
    pub kind: Kind,
    /// What a digraph stands for, and of every other token its spelling.
    pub name: Name,
    pub spelling: Name,
    /// White space stands before it.
    pub space: bool,
}

impl Item {
    /// Whether the item is a `#`.
    pub fn is_hash(&self, names: &Names) -> bool
        requires { IsHeldItem names.now self.now }
        ensures { result ≡ is_hash (seen_item names.now self.now) }
    {
        is_same(names.text(self.name), b"#")
    }

    /// Whether the item is a `##`.
    pub fn is_paste(&self, names: &Names) -> bool
        requires { IsHeldItem names.now self.now }
        ensures { result ≡ is_paste (seen_item names.now self.now) }
    {
        is_same(names.text(self.name), b"##")
    }

    /// Whether the item is spelled `__VA_ARGS__`.
    pub fn is_variable_arguments(&self, names: &Names) -> bool
        requires { IsHeldItem names.now self.now }
        ensures { result ≡ same_bytes (seen_item names.now self.now).spelling (codes "__VA_ARGS__") }
    {
        is_same(names.text(self.spelling), b"__VA_ARGS__")
    }
}
