ghost use Rattle.std.specs.Prelude.{◌≡◌, ◌↔◌, IsTrue, ℕ, ◌<◌, ◌∷◌, ◌++◌, [], true, List, All, Option, Some, map, length, slice_get, slice_index, string_bytes, IfOk, IfSome, OnOk};
ghost use Rattle.std.specs.List.{list_all};
ghost use Rattle.std.specs.Map.{update};
ghost use Rattle.std.specs.Option.{option_and_then, option_map, option_or};
ghost use Rattle.c11_macros.specs.Macros.{Definition as ModelDefinition, Macros, object, items, one_item, definition_of, definition_named, predefined_macros, variable_definition};
ghost use Rattle.sc_macro.specs.Seen.{IsHeldDefinition, IsHeldItem, IsHeldReplacement, seen_definition, seen_item, seen_replacement, text_of};
ghost use Rattle.sc_model.specs.Bytes.{same_bytes};
ghost use Rattle.sc_space.specs.Seen as spelled;
ghost use Rattle.sc_space.specs.Seen.{seen_option, seen_variable};
ghost use Rattle.sc_space.specs.Settings.{is_date_byte};
ghost use Rattle.sc_space.specs.Sound.{IsSoundVariable};
ghost use Rattle.sc_table.specs.Start.{FindsOption, IsEntry, IsStarted, PutsOption};
ghost use Rattle.sc_table.specs.Table.{AreHeldOptions, AreOptionsNamed, definition_at, seen_shared};
ghost use Rattle.sc_model.specs.Growth.{Extends, IsOneToOne};
ghost use Rattle.sc_model.specs.Token.{name_of};

use crate::entry::Entry;
use crate::table::MacroTable;
use itoa::Buffer;
use sc_base::{Kind, Name, Names, OutOfMemory};
use sc_lex::name_of;
use sc_macro::{Definition, Form, Item, Replacement, same_definition};
use sc_space::{SpelledItem, Variable, VariableOption};
use std::alloc::Global;
use std::rc::Rc;

/// The macro without arguments that stands for one token.
#[tactic(auto, using(sc_base::proofs::Growth::growth))]
pub fn one_item_macro(
    alloc: Global,
    names: &mut Names,
    name: Name,
    kind: Kind,
    text: &[u8],
) -> Result<Definition, OutOfMemory>
    requires name { name.0 < length names.old }
    requires plain { name_of text.now ≡ text.now }
    ensures held { IfOk result (λ d. IsHeldDefinition names.new d) }
    ensures seen { IfOk result (λ d. seen_definition names.new d ≡ object (items (one_item kind text.now))) }
    ensures grows { Extends names.old names.new }
{
    let spelling = names.intern(text)?;
    let mut list = Vec::new(alloc);
    list.push(Item {
        kind,
        name: spelling,
        spelling,
        space: false,
    })?;
    Ok(Definition {
        name,
        form: Form::Object,
        replacement: Replacement::Items(list),
    })
}

/// What an option defines the name to be.
#[tactic(auto, using(sc_base::proofs::Growth::growth))]
pub fn option_macro(
    alloc: Global,
    names: &mut Names,
    name: Name,
    option: &VariableOption,
) -> Result<Option<Rc<Definition>>, OutOfMemory>
    requires name { name.0 < length names.old }
    ensures held { IfOk result (λ o. IfSome o (λ shared. IsHeldDefinition names.new shared.value)) }
    ensures seen { IfOk result (λ o. option_map (λ shared. seen_definition names.new shared.value) o ≡ definition_of (seen_option option.now)) }
    ensures grows { Extends names.old names.new }
{
    match option {
        VariableOption::Undefined => Ok(None),
        VariableOption::Number(number) => {
            let mut buffer = Buffer::new();
            let text = buffer.format(*number).as_bytes();
            let definition = one_item_macro(alloc, names, name, Kind::Number, text)?;
            let shared = Rc::new(alloc, definition)?;
            Ok(Some(shared))
        }
        VariableOption::Text { items, .. } => {
            let definition = list_macro(alloc, names, name, items)?;
            let shared = Rc::new(alloc, definition)?;
            Ok(Some(shared))
        }
    }
}

/// The macro without arguments that stands for a list.
#[tactic(auto, using(sc_base::proofs::Growth::growth))]
fn list_macro(
    alloc: Global,
    names: &mut Names,
    name: Name,
    list: &[SpelledItem],
) -> Result<Definition, OutOfMemory>
    requires name { name.0 < length names.old }
    ensures held { IfOk result (λ d. IsHeldDefinition names.new d) }
    ensures seen { IfOk result (λ d. seen_definition names.new d ≡ object (items (map spelled.seen_item list.now))) }
    ensures grows { Extends names.old names.new }
{
    let mut items = Vec::new(alloc);
    for item in list {
        items.push(list_item(names, item)?)?;
    }
    Ok(Definition {
        name,
        form: Form::Object,
        replacement: Replacement::Items(items),
    })
}

#[tactic(auto, using(sc_base::proofs::Growth::growth))]
fn list_item(names: &mut Names, item: &SpelledItem) -> Result<Item, OutOfMemory>
    ensures held { IfOk result (λ i. IsHeldItem names.new i) }
    ensures seen { IfOk result (λ i. seen_item names.new i ≡ spelled.seen_item item.now) }
    ensures grows { Extends names.old names.new }
{
    let name = names.intern(name_of(&item.spelling))?;
    let spelling = names.intern(&item.spelling)?;
    Ok(Item {
        kind: item.kind,
        name,
        spelling,
        space: item.space,
    })
}

/// What the options define the name to be, each definition once, and for each option the place of
/// its definition.
#[tactic(auto, using(sc_base::proofs::Growth::growth))]
pub fn option_macros(
    alloc: Global,
    names: &mut Names,
    name: Name,
    options: &[VariableOption],
) -> Result<(Vec<usize>, Vec<Option<Rc<Definition>>>), OutOfMemory>
    requires name { name.0 < length names.old }
    ensures named { IfOk result (λ r. AreOptionsNamed names.new r.1.items) }
    ensures seen { IfOk result (λ r. map (λ place. option_map (seen_definition names.new) (definition_at r.1.items place)) r.0.items ≡ map definition_of (map seen_option options.now)) }
    ensures grows { Extends names.old names.new }
{
    let mut places = Vec::new(alloc);
    let mut definitions = Vec::new(alloc);
    for option in options {
        let definition = option_macro(alloc, names, name, option)?;
        names.one_to_one();
        places.push(put_definition(&mut definitions, definition)?)?;
    }
    Ok((places, definitions))
}

/// The place of a definition among these, to which it is added where it is new.
fn put_definition(
    definitions: &mut Vec<Option<Rc<Definition>>>,
    definition: Option<Rc<Definition>>,
) -> Result<usize, OutOfMemory>
    ensures { IfOk result (λ place. PutsOption definitions.old.items definitions.new.items definition place) }
{
    if let Some(place) = place_of(definitions, &definition) {
        return Ok(place);
    }
    let place = definitions.len();
    definitions.push(definition)?;
    Ok(place)
}

/// The place of the same definition.
fn place_of(
    definitions: &[Option<Rc<Definition>>],
    definition: &Option<Rc<Definition>>,
) -> Option<usize>
    ensures within { IfSome result (λ place. place < length definitions.now) }
    ensures found { (names : List (List ℕ)) → IsOneToOne names → AreHeldOptions names definitions.now → IfSome definition.now (λ shared. IsHeldDefinition names shared.value)
        → FindsOption names definitions.now definition.now result }
{
    for (place, other) in definitions.iter().enumerate() {
        if are_same(other, definition) {
            return Some(place);
        }
    }
    None
}

fn are_same(a: &Option<Rc<Definition>>, b: &Option<Rc<Definition>>) -> bool
    ensures { (names : List (List ℕ)) → IsOneToOne names → IfSome a.now (λ shared. IsHeldDefinition names shared.value) → IfSome b.now (λ shared. IsHeldDefinition names shared.value)
        → (IsTrue result ↔ (seen_shared names a.now ≡ seen_shared names b.now)) }
{
    match (a, b) {
        (None, None) => true,
        (Some(a), Some(b)) => same_definition(a, b),
        _ => false,
    }
}

/// Gives a name its entry, in the place of the one that it has.
pub fn put_entry(table: &mut MacroTable, name: Name, entry: Entry) -> Result<(), OutOfMemory>
    ensures { OnOk result ((names : List (List ℕ)) (arities : List ℕ) (macros : List ℕ → Macros) (says : List ℕ → Option ModelDefinition)
        → IsOneToOne names → name.0 < length names → IsStarted arities names table.old macros → IsEntry arities names entry says
        → IsStarted arities names table.new (λ config. update same_bytes (macros config) (text_of names name) (says config))) }
{
    table.entries.insert(name, entry)?;
    Ok(())
}

/// The macros that the options of all variables define.
#[tactic(auto, using(sc_base::proofs::Growth::growth))]
pub fn add_variables(
    alloc: Global,
    names: &mut Names,
    table: &mut MacroTable,
    variables: &[Variable],
) -> Result<(), OutOfMemory>
    requires empty { table.old.entries.entries ≡ [] }
    ensures started { OnOk result (IsStarted (map (λ v. length v.options) (map seen_variable variables.now)) names.new table.new (variable_definition (map seen_variable variables.now))) }

    // at every outcome
    ensures grows { Extends names.old names.new }
{
    let mut left = variables.len();
    while left > 0 {
        left -= 1;
        add_variable(alloc, names, table, left, &variables[left])?;
    }
    Ok(())
}

/// The macros that the options of one variable define.
#[tactic(auto, using(sc_base::proofs::Growth::growth))]
fn add_variable(
    alloc: Global,
    names: &mut Names,
    table: &mut MacroTable,
    index: usize,
    variable: &Variable,
) -> Result<(), OutOfMemory>
    ensures added { OnOk result ((arities : List ℕ) (macros : List ℕ → Macros) → IsStarted arities names.old table.old macros → index < length arities
        → slice_index arities index ≡ length variable.now.options.items
        → IsStarted arities names.new table.new (λ config. update same_bytes (macros config) (string_bytes variable.now.name)
        (option_and_then definition_of (slice_get (map seen_option variable.now.options.items) (slice_index config index))))) }

    // at every outcome
    ensures grows { Extends names.old names.new }
{
    let name = names.intern(variable.name.as_bytes())?;
    let (places, definitions) = option_macros(alloc, names, name, variable.options.as_slice())?;
    names.one_to_one();
    let entry = Entry::Options {
        variable: index,
        places,
        definitions,
    };
    put_entry(table, name, entry)
}

/// A macro that stands for one token in every configuration.
#[tactic(auto, using(sc_base::proofs::Growth::growth))]
fn add_item(
    alloc: Global,
    names: &mut Names,
    table: &mut MacroTable,
    text: &[u8],
    kind: Kind,
    spelling: &[u8],
) -> Result<(), OutOfMemory>
    requires plain { name_of spelling.now ≡ spelling.now }
    ensures added { OnOk result ((arities : List ℕ) (macros : List ℕ → Macros) → IsStarted arities names.old table.old macros
        → IsStarted arities names.new table.new (λ config. update same_bytes (macros config) text.now (Some (object (items (one_item kind spelling.now)))))) }

    // at every outcome
    ensures grows { Extends names.old names.new }
{
    let name = names.intern(text)?;
    let definition = one_item_macro(alloc, names, name, kind, spelling)?;
    names.one_to_one();
    put_entry(table, name, Entry::Everywhere(Rc::new(alloc, definition)?))
}

/// A macro whose list the place of its name tells.
#[tactic(auto, using(sc_base::proofs::Growth::growth))]
fn add_placed(
    alloc: Global,
    names: &mut Names,
    table: &mut MacroTable,
    text: &[u8],
    replacement: Replacement,
) -> Result<(), OutOfMemory>
    requires held { (texts : List (List ℕ)) → IsHeldReplacement texts replacement }
    ensures added { OnOk result ((arities : List ℕ) (macros : List ℕ → Macros) → IsStarted arities names.old table.old macros
        → IsStarted arities names.new table.new (λ config. update same_bytes (macros config) text.now (Some (object (seen_replacement names.new replacement))))) }

    // at every outcome
    ensures grows { Extends names.old names.new }
{
    let name = names.intern(text)?;
    names.one_to_one();
    let definition = Definition {
        name,
        form: Form::Object,
        replacement,
    };
    put_entry(table, name, Entry::Everywhere(Rc::new(alloc, definition)?))
}

/// The macros of C11 6.10.8.1.
#[tactic(auto, using(sc_base::proofs::Growth::growth))]
pub fn add_predefined(
    alloc: Global,
    names: &mut Names,
    table: &mut MacroTable,
    date: &str,
    time: &str,
) -> Result<(), OutOfMemory>
    requires date { list_all is_date_byte date.now ≡ true }
    requires time { list_all is_date_byte time.now ≡ true }
    ensures added { OnOk result ((arities : List ℕ) (macros : List ℕ → Macros) → IsStarted arities names.old table.old macros
        → IsStarted arities names.new table.new (λ config text. option_or (definition_named (predefined_macros date.now time.now) text) (macros config text))) }

    // at every outcome
    ensures grows { Extends names.old names.new }
{
    let date = quoted(alloc, date.as_bytes())?;
    let time = quoted(alloc, time.as_bytes())?;
    add_item(alloc, names, table, b"__STDC_HOSTED__", Kind::Number, b"1")?;
    add_item(
        alloc,
        names,
        table,
        b"__STDC_VERSION__",
        Kind::Number,
        b"201112L",
    )?;
    add_item(alloc, names, table, b"__STDC__", Kind::Number, b"1")?;
    add_item(alloc, names, table, b"__TIME__", Kind::Text, &time)?;
    add_item(alloc, names, table, b"__DATE__", Kind::Text, &date)?;
    add_placed(alloc, names, table, b"__LINE__", Replacement::LineNumber)?;
    add_placed(alloc, names, table, b"__FILE__", Replacement::FileName)
}

/// The string literal of a text that needs no escapes.
fn quoted(alloc: Global, text: &[u8]) -> Result<Vec<u8>, OutOfMemory>
    ensures { IfOk result (λ v. v.items ≡ 34 ∷ text.now ++ 34 ∷ []) }
{
    let mut literal = Vec::from_slice(alloc, b"\"")?;
    literal.extend_from_slice(text)?;
    literal.push(b'"')?;
    Ok(literal)
}
