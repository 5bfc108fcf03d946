ghost use Rattle.std.specs.Prelude.{◌≡◌, ◌<◌, ◌≤◌, length, slice_index, IfOk};
ghost use Rattle.sc_model.specs.Sets.{HasOptions, IsCond, Keeps, config_count};
ghost use Rattle.sc_presence.specs.Plain.{Stores, sets_of, row_of};
ghost use Rattle.sc_presence.specs.Rank.{strides_of};
ghost use Rattle.sc_presence.specs.declared.plain_sets.TheConstants.{MAX_CONFIGS};

use crate::{Conditions, ranks, rows};
use indexmap::IndexSet;
use sc_base::{Cond, OutOfMemory};
use std::alloc::Global;
use std::marker::Model;

/// The most configurations for which a `PlainSets` is made.
pub const MAX_CONFIGS: usize = 4096;

/// Conditions as truth lists: each condition is a row with one truth value for each configuration,
/// and equal rows are kept once.
///
/// An operation takes time in the number of configurations, at most `MAX_CONFIGS`.
#[derive(Drop)]
pub struct PlainSets {
    alloc: Global,
    arities: Vec<usize>,
    strides: Vec<usize>,
    count: usize,
    rows: IndexSet<Vec<bool>>,
}

impl Model for PlainSets {
    ghost use Rattle.std.specs.Prelude.{map};
    ghost use Rattle.sc_presence.specs.Plain.{Plain, IsKept};

    ghost Value = { Plain };

    ghost view = { λ p. record { arities = p.arities.items; rows = map (λ row. row.items) p.rows.keys } };

    ghost invariant = { λ p. IsKept p.strides.items p.count
        (record { arities = p.arities.items; rows = map (λ row. row.items) p.rows.keys }) };
}

impl PlainSets {
    /// The conditions `never` and `always` over variables with these numbers of options. `alloc`
    /// serves all that are made later.
    pub fn new(alloc: Global, arities: &[usize]) -> Result<PlainSets, OutOfMemory>
        requires options { HasOptions arities.now }
        requires small { config_count arities.now ≤ MAX_CONFIGS }
        ensures { IfOk result (λ sets. (sets_of sets).arities ≡ arities.now) }
    {
        let count = ranks::count_configs(arities);
        let strides = ranks::strides(alloc, arities, count)?;
        let mut known = IndexSet::new(alloc);
        known.insert(rows::constant(alloc, count, false)?)?;
        known.insert(rows::constant(alloc, count, true)?)?;
        Ok(PlainSets {
            alloc,
            arities: Vec::from_slice(alloc, arities)?,
            strides,
            count,
            rows: known,
        })
    }

    /// How many options a variable has.
    fn arity(&self, variable: usize) -> usize
        requires { variable < length self.now.arities }
        ensures arity { result ≡ slice_index self.now.arities variable }
        ensures some { 0 < result }
    {
        self.arities[variable]
    }

    /// How many configurations the variables after this one have.
    fn stride(&self, variable: usize) -> usize
        requires { variable < length self.now.arities }
        ensures stride { result ≡ slice_index (strides_of self.now.arities) variable }
        ensures some { 0 < result }
    {
        self.strides[variable]
    }

    /// The row of a condition.
    fn row(&self, a: Cond) -> &[bool]
        requires { IsCond (sets_of self.now) a.0 }
        ensures row { result.now ≡ row_of self.now a.0 }
        ensures long { length result.now ≡ config_count self.now.arities }
    {
        self.rows.as_slice()[a.0].as_slice()
    }

    /// The condition with this row: the one that has it, or else a new one.
    fn intern(&mut self, row: Vec<bool>) -> Result<Cond, OutOfMemory>
        requires { length row.items ≡ config_count self.old.arities }
        ensures own { IfOk result (λ r. IsCond (sets_of self.new) r.0) }
        ensures stores { IfOk result (λ r. Stores self.old self.new r.0 row.items) }

        // at every outcome
        ensures keeps { Keeps (sets_of self.old) (sets_of self.new) }
    {
        let (index, _) = self.rows.insert_full(row)?;
        Ok(Cond(index))
    }
}

// The ids of the first two rows. Where a method has no other use of `rows`, it borrows them for
// what is known of them.
const NEVER: Cond = Cond(0);

const ALWAYS: Cond = Cond(1);

impl Conditions for PlainSets {
    ghost use Rattle.sc_presence.specs.Plain.{sets_of};

    ghost sets = { sets_of };

    fn always(&self) -> Cond {
        let _rows = &self.rows;
        ALWAYS
    }

    fn never(&self) -> Cond {
        let _rows = &self.rows;
        NEVER
    }

    fn choose(&mut self, variable: usize, option: usize) -> Result<Cond, OutOfMemory> {
        let stride = self.stride(variable);
        let arity = self.arity(variable);
        let row = rows::choice(self.alloc, self.count, stride, arity, option)?;
        self.intern(row)
    }

    fn apply_and(&mut self, a: Cond, b: Cond) -> Result<Cond, OutOfMemory> {
        let row = rows::meet(self.alloc, self.row(a), self.row(b))?;
        self.intern(row)
    }

    fn apply_or(&mut self, a: Cond, b: Cond) -> Result<Cond, OutOfMemory> {
        let row = rows::join(self.alloc, self.row(a), self.row(b))?;
        self.intern(row)
    }

    fn apply_without(&mut self, a: Cond, b: Cond) -> Result<Cond, OutOfMemory> {
        let row = rows::difference(self.alloc, self.row(a), self.row(b))?;
        self.intern(row)
    }

    fn negate(&mut self, a: Cond) -> Result<Cond, OutOfMemory> {
        let row = rows::complement(self.alloc, self.row(a))?;
        self.intern(row)
    }

    // a condition is one row, and no other is simpler but always and never
    fn simplify(&mut self, a: Cond, within: Cond) -> Result<Cond, OutOfMemory> {
        let outside = rows::difference(self.alloc, self.row(within), self.row(a))?;
        if rows::first(&outside).is_none() {
            return Ok(ALWAYS);
        }
        let inside = rows::meet(self.alloc, self.row(within), self.row(a))?;
        if rows::first(&inside).is_none() {
            return Ok(NEVER);
        }
        Ok(a)
    }

    fn part(&mut self, a: Cond, variable: usize, option: usize) -> Result<Cond, OutOfMemory> {
        let stride = self.stride(variable);
        let arity = self.arity(variable);
        let row = rows::part(self.alloc, self.row(a), stride, arity, option)?;
        self.intern(row)
    }

    fn top(&self, a: Cond) -> Option<usize> {
        rows::first_variable(self.row(a), &self.strides, &self.arities)
    }

    fn holds(&self, a: Cond, config: &[usize]) -> bool {
        self.row(a)[ranks::rank_of(&self.strides, config)]
    }

    fn example(&self, a: Cond, into: &mut [usize]) -> bool {
        let Some(rank) = rows::first(self.row(a)) else {
            return false;
        };
        ranks::write_config(rank, &self.strides, &self.arities, into);
        true
    }

    fn canonical(&self) {
        let _rows = &self.rows;
    }

    fn has_options(&self) {
        let _rows = &self.rows;
    }
}
