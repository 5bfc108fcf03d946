//! Laws about what a list is parsed as, each the contract of a function without code.
ghost use Rattle.std.specs.Prelude.{ℕ, ◌<◌, List, All, length};
ghost use Rattle.c11_parsing.specs.Classes.{Input};
ghost use Rattle.sc_base.specs.declared.id.Cond.{Cond};
ghost use Rattle.sc_base.specs.declared.place.Place.{Place};
ghost use Rattle.sc_base.specs.declared.token.Token.{Token};
ghost use Rattle.sc_lalr.specs.declared.tables.Tables as code;
ghost use Rattle.sc_model.specs.declared.standard.Standard.{Standard};
ghost use Rattle.sc_parse.specs.Parses.{IsInputOf};
ghost use Rattle.sc_tree.specs.Reads.{Tables};

/// A list whose tokens stand in files of a table is parsed as some input. So what `parse` says of
/// every input holds: it stops for want of memory or for too many branches, and for nothing else.
pub fn list_has_an_input()
    ensures { (w : Tables) (list : List (Cond × Token)) (tables : code.Tables) (standard : Standard) (end : Place) (live : Cond)
        → All (λ item. item.1.place.file.0 < length w.files) list → (input : Input) × IsInputOf w list tables standard end live input }
{}
