//! The `defined` of a line, replaced under all configurations at once (C11 6.10.1p1, p4).
ghost use Rattle.std.specs.Prelude.{◌≡◌, ◌<◌, ◌⊎◌, ◌++◌, ◌∷◌, [], ℕ, List, true, false, All, AllPairs, map, if◌then◌else◌, IfErr, IfOk, OnOk};
ghost use Rattle.c11_expressions.specs.Lines.{without_defined};
ghost use Rattle.sc_base.specs.declared.stop.Stop.TheVariants as stop;
ghost use Rattle.sc_base.specs.Seen.{IsHeld, position_of, seen};
ghost use Rattle.sc_guarded.specs.Items.{faults_at, items_at};
ghost use Rattle.sc_hoist.specs.Alike.{AreAlike, AreAlikeFaults, IsAlike};
ghost use Rattle.sc_if.specs.Replaced.{Adds, AreDigits, IsHeldList, IsHeldPiece, IsKeptTable, IsPlacedPiece, Stands, as_number, place_of, seen_failure, seen_piece, token_for, unhidden};
ghost use Rattle.sc_model.specs.declared.cause.Cause.TheVariants.{BadIf};
ghost use Rattle.sc_model.specs.Growth.{Extends};
ghost use Rattle.sc_model.specs.Sets.{IsConfig, IsCond, Keeps};
ghost use Rattle.sc_table.specs.Table.{IsStill, IsTable, macros_at};

use crate::piece::{Piece, pieces};
use sc_base::{Cause, Cond, Fault, Kind, Name, Names, OutOfMemory, Place, Stop, Token};
use sc_guarded::{Expanded, Guarded};
use sc_presence::Conditions;
use sc_table::MacroTable;
use std::alloc::Global;

/// The names of the texts of the two numbers.
#[derive(Clone, Copy, Debug, PartialEq, Eq)]
struct Digits {
    one: Name,
    zero: Name,
}

/// The tokens of an `#if` line in the configurations of `live`, each `defined` with its name
/// replaced by 1 where the name is defined and by 0 where it is not. A `defined` without a name
/// refuses the line, at its `#`.
#[tactic(auto, using(sc_model::proofs::SetLemmas::conditions, sc_table::proofs::Growth::tables))]
pub fn replace_defined<C: Conditions>(
    alloc: Global,
    conds: &mut C,
    names: &mut Names,
    table: &mut MacroTable,
    line: &[Token],
    live: Cond,
    hash: Place,
) -> Result<Expanded, Stop>
    requires table { IsTable (C.sets conds.old) names.old table.old }
    requires held { All (IsHeld names.old) line.now }
    requires live_own { IsCond (C.sets conds.old) live.0 }
    ensures replaced { IfOk result (λ e. (c : List ℕ) → IsConfig (C.sets conds.old).arities c → (C.sets conds.old).has live.0 c ≡ true
        → Stands hash (without_defined (macros_at (C.sets conds.old) names.old table.old c) (map (unhidden names.old) line.now))
        (map (unhidden names.new) (items_at (C.sets conds.new) e.list c)) (map seen_failure (faults_at (C.sets conds.new) e.faults.items c))) }
    ensures others { IfOk result (λ e. (c : List ℕ) → IsConfig (C.sets conds.old).arities c → (C.sets conds.old).has live.0 c ≡ false
        → (items_at (C.sets conds.new) e.list c ≡ []) × (faults_at (C.sets conds.new) e.faults.items c ≡ [])) }
    ensures list { IfOk result (λ e. IsHeldList (C.sets conds.new) names.new e.list) }
    ensures placed { IfOk result (λ e. (files : ℕ) → All (λ t. t.place.file.0 < files) line.now → All (λ item. item.1.place.file.0 < files) e.list) }
    ensures faults_own { IfOk result (λ e. All (λ f. IsCond (C.sets conds.new) f.cond.0) e.faults.items) }
    ensures faults_placed { IfOk result (λ e. All (λ f. f.place ≡ hash) e.faults.items) }
    ensures different { IfOk result (λ e. (files : List (List ℕ)) → AllPairs (λ t u. position_of t.place ≡ position_of u.place → ⊥) line.now
        → AllPairs (λ a b. seen names.new files a.1 ≡ seen names.new files b.1 → ⊥) e.list) }
    ensures memory { IfErr result (λ refusal. refusal ≡ stop.OutOfMemory) }
    ensures alike { IfOk result (λ e. (c d : List ℕ) → IsConfig (C.sets conds.old).arities c → IsConfig (C.sets conds.old).arities d → (C.sets conds.old).has live.0 c ≡ true → (C.sets conds.old).has live.0 d ≡ true
        → without_defined (macros_at (C.sets conds.old) names.old table.old c) (map (unhidden names.old) line.now) ≡ without_defined (macros_at (C.sets conds.old) names.old table.old d) (map (unhidden names.old) line.now)
        → AreAlike (C.sets conds.new) c d e.list × AreAlikeFaults (C.sets conds.new) c d e.faults.items) }

    // at every outcome
    ensures table { IsTable (C.sets conds.new) names.new table.new }
    ensures still { IsKeptTable (C.sets conds.old) (C.sets conds.new) names.old names.new table.old table.new }
    ensures keeps { Keeps (C.sets conds.old) (C.sets conds.new) }
    ensures names { Extends names.old names.new }
{
    let digits = intern_digits(names)?;
    match pieces(alloc, names, line)? {
        Some(pieces) => {
            let list = replaced(alloc, conds, names, table, &pieces, live, digits)?;
            Ok(Expanded {
                list,
                faults: Vec::new(alloc),
            })
        }
        None => Ok(refused(alloc, live, hash)?),
    }
}

fn intern_digits(names: &mut Names) -> Result<Digits, OutOfMemory>
    ensures is { IfOk result (λ digits. AreDigits names.new digits.one digits.zero) }

    // at every outcome
    ensures names { Extends names.old names.new }
{
    let one = names.intern(b"1")?;
    let zero = names.intern(b"0")?;
    Ok(Digits { one, zero })
}

/// No tokens, and the fault of a `defined` without a name.
fn refused(alloc: Global, live: Cond, hash: Place) -> Result<Expanded, OutOfMemory>
    ensures list { IfOk result (λ e. e.list ≡ []) }
    ensures faults { IfOk result (λ e. e.faults.items ≡ record { cond = live; cause = BadIf; place = hash } ∷ []) }
{
    let mut faults = Vec::new(alloc);
    faults.push(Fault {
        cond: live,
        cause: Cause::BadIf,
        place: hash,
    })?;
    Ok(Expanded {
        list: Guarded::new(alloc)?,
        faults,
    })
}

/// What the pieces of a line are replaced by, in the configurations of `live`.
#[tactic(auto, using(sc_model::proofs::SetLemmas::conditions, sc_table::proofs::Growth::tables))]
fn replaced<C: Conditions>(
    alloc: Global,
    conds: &mut C,
    names: &Names,
    table: &mut MacroTable,
    pieces: &[Piece],
    live: Cond,
    digits: Digits,
) -> Result<Guarded<Token>, Stop>
    requires table { IsTable (C.sets conds.old) names.now table.old }
    requires held { All (IsHeldPiece names.now) pieces.now }
    requires live_own { IsCond (C.sets conds.old) live.0 }
    requires digits { AreDigits names.now digits.one digits.zero }
    ensures at { IfOk result (λ list. (c : List ℕ) → IsConfig (C.sets conds.old).arities c
        → items_at (C.sets conds.new) list c
        ≡ (if (C.sets conds.old).has live.0 c then map (token_for digits.one digits.zero (macros_at (C.sets conds.old) names.now table.old c) names.now) pieces.now else [])) }
    ensures list { IfOk result (λ list. IsHeldList (C.sets conds.new) names.now list) }
    ensures different { IfOk result (λ list. (files : List (List ℕ)) → AllPairs (λ p q. position_of (place_of p) ≡ position_of (place_of q) → ⊥) pieces.now
        → AllPairs (λ a b. seen names.now files a.1 ≡ seen names.now files b.1 → ⊥) list) }
    ensures placed { IfOk result (λ list. (files : ℕ) → All (IsPlacedPiece files) pieces.now → All (λ item. item.1.place.file.0 < files) list) }
    ensures memory { IfErr result (λ refusal. refusal ≡ stop.OutOfMemory) }
    ensures alike { IfOk result (λ list. (c d : List ℕ) → IsConfig (C.sets conds.old).arities c → IsConfig (C.sets conds.old).arities d → IsAlike (C.sets conds.old) c d live
        → ((C.sets conds.old).has live.0 c ≡ true → All (λ piece. seen_piece (macros_at (C.sets conds.old) names.now table.old c) names.now piece ≡ seen_piece (macros_at (C.sets conds.old) names.now table.old d) names.now piece) pieces.now)
        → AreAlike (C.sets conds.new) c d list) }

    // at every outcome
    ensures table { IsTable (C.sets conds.new) names.now table.new }
    ensures still { IsStill (C.sets conds.old) (C.sets conds.new) names.now table.old table.new }
    ensures keeps { Keeps (C.sets conds.old) (C.sets conds.new) }
{
    let mut list = Guarded::new(alloc)?;
    for piece in pieces {
        put(conds, names, table, &mut list, *piece, live, digits)?;
    }
    Ok(list)
}

/// Adds what a piece is replaced by, in the configurations of `live`.
#[tactic(auto, using(sc_model::proofs::SetLemmas::conditions, sc_table::proofs::Growth::tables))]
fn put<C: Conditions>(
    conds: &mut C,
    names: &Names,
    table: &mut MacroTable,
    list: &mut Guarded<Token>,
    piece: Piece,
    live: Cond,
    digits: Digits,
) -> Result<(), Stop>
    requires table { IsTable (C.sets conds.old) names.now table.old }
    requires held { IsHeldPiece names.now piece }
    requires live_own { IsCond (C.sets conds.old) live.0 }
    requires digits { AreDigits names.now digits.one digits.zero }
    requires list { IsHeldList (C.sets conds.old) names.now list.old }
    ensures at { OnOk result ((c : List ℕ) → IsConfig (C.sets conds.old).arities c
        → items_at (C.sets conds.new) list.new c ≡ items_at (C.sets conds.old) list.old c
        ++ (if (C.sets conds.old).has live.0 c then token_for digits.one digits.zero (macros_at (C.sets conds.old) names.now table.old c) names.now piece ∷ [] else [])) }
    ensures list { OnOk result (IsHeldList (C.sets conds.new) names.now list.new) }
    ensures adds { OnOk result (Adds names.now (place_of piece) list.old list.new) }
    ensures placed { OnOk result ((files : ℕ) → IsPlacedPiece files piece → All (λ item. item.1.place.file.0 < files) list.old → All (λ item. item.1.place.file.0 < files) list.new) }
    ensures memory { IfErr result (λ refusal. refusal ≡ stop.OutOfMemory) }
    ensures alike { OnOk result ((c d : List ℕ) → IsConfig (C.sets conds.old).arities c → IsConfig (C.sets conds.old).arities d → IsAlike (C.sets conds.old) c d live
        → ((C.sets conds.old).has live.0 c ≡ true → seen_piece (macros_at (C.sets conds.old) names.now table.old c) names.now piece ≡ seen_piece (macros_at (C.sets conds.old) names.now table.old d) names.now piece)
        → AreAlike (C.sets conds.old) c d list.old → AreAlike (C.sets conds.new) c d list.new) }

    // at every outcome
    ensures table { IsTable (C.sets conds.new) names.now table.new }
    ensures still { IsStill (C.sets conds.old) (C.sets conds.new) names.now table.old table.new }
    ensures keeps { Keeps (C.sets conds.old) (C.sets conds.new) }
{
    match piece {
        Piece::Token(token) => Ok(push(conds, list, live, token)?),
        Piece::Defined(token, name) => {
            let defined = table.defined(conds, names, name.spelling)?;
            Ok(put_number(conds, list, token, live, defined, digits)?)
        }
    }
}

/// Adds a 1 in the configurations of `live` that `defined` has, and a 0 in the others of `live`.
#[tactic(auto, using(sc_model::proofs::SetLemmas::conditions))]
fn put_number<C: Conditions>(
    conds: &mut C,
    list: &mut Guarded<Token>,
    token: Token,
    live: Cond,
    defined: Cond,
    digits: Digits,
) -> Result<(), OutOfMemory>
    requires live_own { IsCond (C.sets conds.old) live.0 }
    requires defined_own { IsCond (C.sets conds.old) defined.0 }
    requires list { All (λ item. IsCond (C.sets conds.old) item.0.0) list.old }
    ensures at { OnOk result ((c : List ℕ) → IsConfig (C.sets conds.old).arities c
        → items_at (C.sets conds.new) list.new c ≡ items_at (C.sets conds.old) list.old c
        ++ (if (C.sets conds.old).has live.0 c then as_number token (if (C.sets conds.old).has defined.0 c then digits.one else digits.zero) ∷ [] else [])) }
    ensures list { OnOk result ((names : List (List ℕ)) → AreDigits names digits.one digits.zero → IsHeldList (C.sets conds.old) names list.old → IsHeldList (C.sets conds.new) names list.new) }
    ensures adds { OnOk result ((names : List (List ℕ)) → AreDigits names digits.one digits.zero → Adds names token.place list.old list.new) }
    ensures placed { OnOk result ((files : ℕ) → token.place.file.0 < files → All (λ item. item.1.place.file.0 < files) list.old → All (λ item. item.1.place.file.0 < files) list.new) }
    ensures alike { OnOk result ((c d : List ℕ) → IsConfig (C.sets conds.old).arities c → IsConfig (C.sets conds.old).arities d → IsAlike (C.sets conds.old) c d live → ((C.sets conds.old).has live.0 c ≡ true → IsAlike (C.sets conds.old) c d defined)
        → AreAlike (C.sets conds.old) c d list.old → AreAlike (C.sets conds.new) c d list.new) }

    // at every outcome
    ensures keeps { Keeps (C.sets conds.old) (C.sets conds.new) }
{
    let with = conds.apply_and(live, defined)?;
    let without = conds.apply_without(live, defined)?;
    push(conds, list, with, number(token, digits.one))?;
    push(conds, list, without, number(token, digits.zero))?;
    Ok(())
}

/// The number that stands where a token stood.
fn number(token: Token, digit: Name) -> Token
    ensures { result ≡ as_number token digit }
{
    Token {
        kind: Kind::Number,
        name: digit,
        spelling: digit,
        space: token.space,
        place: token.place,
    }
}

/// Adds a token, unless no configuration has it.
fn push<C: Conditions>(
    conds: &C,
    list: &mut Guarded<Token>,
    cond: Cond,
    token: Token,
) -> Result<(), OutOfMemory>
    requires { IsCond (C.sets conds.now) cond.0 }
    ensures at { OnOk result ((c : List ℕ) → IsConfig (C.sets conds.now).arities c
        → items_at (C.sets conds.now) list.new c ≡ items_at (C.sets conds.now) list.old c ++ (if (C.sets conds.now).has cond.0 c then token ∷ [] else [])) }
    ensures list { OnOk result ((names : List (List ℕ)) → IsHeld names token → IsHeldList (C.sets conds.now) names list.old → IsHeldList (C.sets conds.now) names list.new) }
    ensures adds { OnOk result ((list.new ≡ list.old) ⊎ (list.new ≡ list.old ++ (cond, token) ∷ [])) }
    ensures placed { OnOk result ((files : ℕ) → token.place.file.0 < files → All (λ item. item.1.place.file.0 < files) list.old → All (λ item. item.1.place.file.0 < files) list.new) }
    ensures alike { OnOk result ((c d : List ℕ) → IsAlike (C.sets conds.now) c d cond → AreAlike (C.sets conds.now) c d list.old → AreAlike (C.sets conds.now) c d list.new) }
{
    if conds.is_never(cond) {
        return Ok(());
    }
    list.push(cond, token)?;
    Ok(())
}
