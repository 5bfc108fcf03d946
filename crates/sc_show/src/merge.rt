ghost use Rattle.std.specs.Prelude.{◌≡◌, ◌<◌, ◌++◌, ◌∷◌, ◌↔◌, [], ℕ, List, All, IsTrue, length, map, IfOk, OnOk};
ghost use Rattle.std.specs.List.{Contains};
ghost use Rattle.std.specs.List.Sorted.{IsPermutation};
ghost use Rattle.sc_guarded.specs.Items.{faults_at, seen_fault};
ghost use Rattle.sc_text.specs.Layout.{fault_order, IsAscending};
ghost use Rattle.sc_model.specs.Sets.{IsConfig, IsCond, Keeps};
ghost use Rattle.sc_model.specs.Fault as shown;
ghost use Rattle.sc_show.specs.FaultCount.{AreFaultsOf};
ghost use Rattle.sc_show.specs.Order.{IsKeyOf, IsInOrder, MayFollow, EndsWith};
ghost use Rattle.sc_guarded.specs.Printable.{IsShowableFault, AreApart};

use sc_base::{Fault, Files, OutOfMemory};
use sc_presence::Conditions;
use std::alloc::Global;
use std::cmp::Ordering;

/// What faults are ordered by: the name of the file, line, column and code.
fn key<'a>(files: &'a Files, fault: &Fault) -> (&'a str, usize, usize, u8)
    requires { fault.now.place.file.0 < length files.now }
    ensures { IsKeyOf (seen_fault files.now fault.now) result }
{
    let place = fault.place;
    (
        files.text(place.file),
        place.line,
        place.column,
        fault.cause.code(),
    )
}

/// The faults in the order in which they are printed.
fn sorted(alloc: Global, files: &Files, faults: &[Fault]) -> Result<Vec<Fault>, OutOfMemory>
    requires { All (λ fault. fault.place.file.0 < length files.now) faults.now }
    ensures faults { IfOk result (λ sorted. IsPermutation faults.now sorted.items) }
    ensures order { IfOk result (λ sorted. IsInOrder (map (seen_fault files.now) sorted.items)) }
{
    let mut keyed = Vec::new(alloc);
    for fault in faults {
        keyed.push((key(files, fault), *fault))?;
    }
    keyed.sort_by_key(|pair| pair.0)?;
    let mut sorted = Vec::new(alloc);
    for (_, fault) in &keyed {
        sorted.push(*fault)?;
    }
    Ok(sorted)
}

fn is_same_pair(files: &Files, a: &Fault, b: &Fault) -> bool
    requires a { a.now.place.file.0 < length files.now }
    requires b { b.now.place.file.0 < length files.now }
    ensures { IsTrue result ↔ (fault_order (seen_fault files.now a.now) (seen_fault files.now b.now) ≡ Ordering.Equal) }
{
    key(files, a).cmp(&key(files, b)).is_eq()
}

/// Adds a fault to those before it: to the last one, where that has the same cause and place.
fn add<C: Conditions>(
    conds: &mut C,
    files: &Files,
    merged: &mut Vec<Fault>,
    fault: Fault,
) -> Result<(), OutOfMemory>
    requires own { All (λ fault. IsCond (C.sets conds.old) fault.cond.0) merged.old.items }
    requires fault { IsCond (C.sets conds.old) fault.cond.0 }
    requires apart { AreApart (C.sets conds.old) (merged.old.items ++ fault ∷ []) }
    requires files { All (λ fault. fault.place.file.0 < length files.now) (merged.old.items ++ fault ∷ []) }
    requires ascending { IsAscending (map (seen_fault files.now) merged.old.items) }
    requires later { MayFollow (map (seen_fault files.now) merged.old.items) (seen_fault files.now fault) }
    ensures own { OnOk result (All (λ fault. IsCond (C.sets conds.new) fault.cond.0) merged.new.items) }
    ensures files { OnOk result (All (λ fault. fault.place.file.0 < length files.now) merged.new.items) }
    ensures ascending { OnOk result (IsAscending (map (seen_fault files.now) merged.new.items)) }
    ensures last { OnOk result (EndsWith (map (seen_fault files.now) merged.new.items) (seen_fault files.now fault)) }
    ensures same { OnOk result ((c : List ℕ) → IsConfig (C.sets conds.old).arities c
        → map (seen_fault files.now) (faults_at (C.sets conds.new) merged.new.items c)
        ≡ map (seen_fault files.now) (faults_at (C.sets conds.old) (merged.old.items ++ fault ∷ []) c)) }

    // at every outcome
    ensures keeps { Keeps (C.sets conds.old) (C.sets conds.new) }
{
    let Some(last) = merged.pop() else {
        merged.push(fault)?;
        return Ok(());
    };
    if !is_same_pair(files, &last, &fault) {
        merged.push(last)?;
        merged.push(fault)?;
        return Ok(());
    }
    let cond = conds.apply_or(last.cond, fault.cond)?;
    merged.push(Fault { cond, ..last })?;
    Ok(())
}

/// The same faults in the order in which they are printed, one for each pair of cause and place.
pub fn merged<C: Conditions>(
    alloc: Global,
    conds: &mut C,
    files: &Files,
    faults: &[Fault],
) -> Result<Vec<Fault>, OutOfMemory>
    requires faults { All (IsShowableFault (C.sets conds.old) files.now) faults.now }
    requires apart { AreApart (C.sets conds.old) faults.now }
    ensures faults { IfOk result (λ merged. All (IsShowableFault (C.sets conds.new) files.now) merged.items) }
    ensures ascending { IfOk result (λ merged. IsAscending (map (seen_fault files.now) merged.items)) }
    ensures same { IfOk result (λ merged. (c : List ℕ) → IsConfig (C.sets conds.old).arities c
        → map (seen_fault files.now) (faults_at (C.sets conds.new) merged.items c) ≡ map (seen_fault files.now) (faults_at (C.sets conds.old) faults.now c)) }
    ensures keeps { Keeps (C.sets conds.old) (C.sets conds.new) }
{
    let sorted = sorted(alloc, files, faults)?;
    let mut merged = Vec::new(alloc);
    for fault in &sorted {
        add(conds, files, &mut merged, *fault)?;
    }
    Ok(merged)
}

/// How many pairs of cause and place the faults of configurations of so many variables have.
pub fn count_faults<C: Conditions>(
    alloc: Global,
    conds: &C,
    variables: usize,
    files: &Files,
    faults: &[Fault],
) -> Result<usize, OutOfMemory>
    requires variables { variables ≡ length (C.sets conds.now).arities }
    requires faults { All (IsShowableFault (C.sets conds.now) files.now) faults.now }
    ensures { IfOk result (λ count. (different : List shown.Fault) × AreFaultsOf (C.sets conds.now) files.now faults.now different × (length different ≡ count)) }
{
    let mut different = Vec::new(alloc);
    for fault in faults {
        let mut config = vec![in alloc; 0; variables]?;
        if conds.example(fault.cond, &mut config) && !has_pair(files, &different, fault) {
            different.push(*fault)?;
        }
    }
    Ok(different.len())
}

/// Whether one of the faults has the same cause and place.
fn has_pair(files: &Files, faults: &[Fault], fault: &Fault) -> bool
    requires faults { All (λ fault. fault.place.file.0 < length files.now) faults.now }
    requires fault { fault.now.place.file.0 < length files.now }
    ensures { IsTrue result ↔ Contains (map (seen_fault files.now) faults.now) (seen_fault files.now fault.now) }
{
    for other in faults {
        if is_same_pair(files, other, fault) {
            return true;
        }
    }
    false
}
