ghost use Rattle.std.specs.Prelude.{◌≡◌, true, All, map, IfOk, OnOk};
ghost use Rattle.sc_model.specs.Sets.{Keeps};
ghost use Rattle.sc_model.specs.Space.{arities_of};
ghost use Rattle.sc_model.specs.Bytes.{has_no_newline};
ghost use Rattle.sc_space.specs.Seen.{seen_space};
ghost use Rattle.sc_show.specs.Prints.{HasWordNames, IsTable};
ghost use Rattle.sc_show.specs.Rules.{list_item, fault_item, LaidOut};
ghost use Rattle.sc_guarded.specs.Printable.{IsShowable, IsShowableFault, AreApart};
ghost use Rattle.sc_show.specs.Shows.{Shows};

use crate::merge::merged;
use crate::printer::Printer;
use sc_base::{Fault, Files, Names, OutOfMemory, Token};
use sc_guarded::Guarded;
use sc_presence::Conditions;
use sc_space::Space;
use std::alloc::Global;

fn print_list<C: Conditions>(
    printer: &mut Printer,
    conds: &mut C,
    space: &Space,
    names: &Names,
    files: &Files,
    list: &Guarded<Token>,
) -> Result<(), OutOfMemory>
    requires arities { (C.sets conds.old).arities ≡ arities_of (seen_space space.now) }
    requires names { HasWordNames (seen_space space.now) }
    requires one_line { All (λ name. has_no_newline name ≡ true) files.now }
    requires list { All (IsShowable (C.sets conds.old) names.now files.now) list.now }
    requires table { IsTable (C.sets conds.old) printer.old.conditions.keys }
    ensures lines { OnOk result (LaidOut (seen_space space.now) (C.sets conds.old) (C.sets conds.new) files.now printer.old printer.new (map (list_item names.now) list.now)) }

    // at every outcome
    ensures keeps { Keeps (C.sets conds.old) (C.sets conds.new) }
{
    for index in 0..list.len() {
        let (cond, token) = list.item(index);
        let spelling = names.text(token.spelling);
        printer.print_token(conds, space, files, cond, token.place, spelling)?;
    }
    Ok(())
}

pub(crate) fn print_faults<C: Conditions>(
    printer: &mut Printer,
    conds: &mut C,
    space: &Space,
    files: &Files,
    faults: &[Fault],
) -> Result<(), OutOfMemory>
    requires arities { (C.sets conds.old).arities ≡ arities_of (seen_space space.now) }
    requires names { HasWordNames (seen_space space.now) }
    requires one_line { All (λ name. has_no_newline name ≡ true) files.now }
    requires faults { All (IsShowableFault (C.sets conds.old) files.now) faults.now }
    requires table { IsTable (C.sets conds.old) printer.old.conditions.keys }
    ensures lines { OnOk result (LaidOut (seen_space space.now) (C.sets conds.old) (C.sets conds.new) files.now printer.old printer.new (map fault_item faults.now)) }

    // at every outcome
    ensures keeps { Keeps (C.sets conds.old) (C.sets conds.new) }
{
    for fault in faults {
        printer.print_fault(conds, space, files, *fault)?;
    }
    Ok(())
}

/// The text of a list of tokens and its faults.
pub fn show_tokens<C: Conditions>(
    alloc: Global,
    conds: &mut C,
    space: &Space,
    names: &Names,
    files: &Files,
    list: &Guarded<Token>,
    faults: &[Fault],
) -> Result<Vec<u8>, OutOfMemory>
    requires space { (C.sets conds.old).arities ≡ arities_of (seen_space space.now) }
    requires sound { HasWordNames (seen_space space.now) }
    requires files { All (λ name. has_no_newline name ≡ true) files.now }
    requires list { All (IsShowable (C.sets conds.old) names.now files.now) list.now }
    requires faults { All (IsShowableFault (C.sets conds.old) files.now) faults.now }
    requires apart { AreApart (C.sets conds.old) faults.now }
    ensures text { IfOk result (λ text. Shows (seen_space space.now) (C.sets conds.new) names.now files.now list.now faults.now text.items) }
    ensures keeps { Keeps (C.sets conds.old) (C.sets conds.new) }
{
    let merged = merged(alloc, conds, files, faults)?;
    let mut printer = Printer::new(alloc, conds)?;
    print_list(&mut printer, conds, space, names, files, list)?;
    print_faults(&mut printer, conds, space, files, &merged)?;
    conds.canonical();
    files.one_to_one();
    printer.one_to_one();
    printer.print_end()?;
    Ok(printer.text)
}
