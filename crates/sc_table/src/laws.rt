//! Laws about the definitions, each the contract of a function without code.
ghost use Rattle.std.specs.Prelude.{◌≡◌, ℕ, List};
ghost use Rattle.sc_model.specs.Growth.{Extends};
ghost use Rattle.sc_model.specs.Sets.{IsConfig, Keeps, Sets};
ghost use Rattle.sc_table.specs.declared.table.MacroTable.{MacroTable};
ghost use Rattle.sc_table.specs.Table.{IsTable, macros_at};

/// A table means what it meant while the stores of conditions and of texts grow.
pub fn tables_keep_their_meaning()
    ensures table { (old new : Sets) (names more : List (List ℕ)) (table : MacroTable) → Keeps old new → Extends names more → IsTable old names table
        → IsTable new more table }
    ensures still { (old new : Sets) (names more : List (List ℕ)) (table : MacroTable) → Keeps old new → Extends names more → IsTable old names table
        → (config text : List ℕ) → IsConfig old.arities config → macros_at new more table config text ≡ macros_at old names table config text }
{}
