ghost use Rattle.std.specs.Prelude.{◌≡◌, ◌∷◌, []};
ghost use Rattle.sc_fork.specs.Owns.{HasC11Tables};

use crate::parse::{END, TYPE_OR_VARIABLE, c11_tables, list_of};
use sc_base::{Cond, Names, OutOfMemory};
use sc_fork::{Core, CoreStop, Event};
use sc_lalr::Tables;
use sc_model::Standard;
use sc_presence::{Conditions, PlainSets};
use sc_tree::Trees;
use std::alloc::Global;
use std::process::Abort;
use std::test::Fail;

/// A store of conditions that may have no memory left.
#[derive(Drop)]
struct Limited<C> {
    conds: C,
    has_memory: bool,
}

impl<C: Conditions> Conditions for Limited<C> {
    ghost sets = { λ limited. C.sets limited.conds };

    fn always(&self) -> Cond {
        self.conds.always()
    }

    fn never(&self) -> Cond {
        self.conds.never()
    }

    fn choose(&mut self, variable: usize, option: usize) -> Result<Cond, OutOfMemory> {
        if !self.has_memory {
            return Err(OutOfMemory);
        }
        self.conds.choose(variable, option)
    }

    fn apply_and(&mut self, a: Cond, b: Cond) -> Result<Cond, OutOfMemory> {
        if !self.has_memory {
            return Err(OutOfMemory);
        }
        self.conds.apply_and(a, b)
    }

    fn apply_or(&mut self, a: Cond, b: Cond) -> Result<Cond, OutOfMemory> {
        if !self.has_memory {
            return Err(OutOfMemory);
        }
        self.conds.apply_or(a, b)
    }

    fn apply_without(&mut self, a: Cond, b: Cond) -> Result<Cond, OutOfMemory> {
        if !self.has_memory {
            return Err(OutOfMemory);
        }
        self.conds.apply_without(a, b)
    }

    fn negate(&mut self, a: Cond) -> Result<Cond, OutOfMemory> {
        if !self.has_memory {
            return Err(OutOfMemory);
        }
        self.conds.negate(a)
    }

    fn part(&mut self, a: Cond, variable: usize, option: usize) -> Result<Cond, OutOfMemory> {
        if !self.has_memory {
            return Err(OutOfMemory);
        }
        self.conds.part(a, variable, option)
    }

    fn simplify(&mut self, a: Cond, within: Cond) -> Result<Cond, OutOfMemory> {
        if !self.has_memory {
            return Err(OutOfMemory);
        }
        self.conds.simplify(a, within)
    }

    fn top(&self, a: Cond) -> Option<usize> {
        self.conds.top(a)
    }

    fn holds(&self, a: Cond, config: &[usize]) -> bool {
        self.conds.holds(a, config)
    }

    fn example(&self, a: Cond, into: &mut [usize]) -> bool {
        self.conds.example(a, into)
    }

    fn canonical(&self) {
        self.conds.canonical();
    }

    fn has_options(&self) {
        self.conds.has_options();
    }
}

/// A core that found no memory is given up, also where there is memory again.
fn checks_given_up<C: Conditions>(
    rt: &impl Abort,
    alloc: Global,
    conds: &mut Limited<C>,
    tables: &Tables,
) -> Result<(), Fail>
    requires arities { (C.sets conds.old.conds).arities ≡ 2 ∷ (2 ∷ (2 ∷ [])) }
    requires tables { HasC11Tables tables.now }
{
    let mut names = Names::new(alloc)?;
    let list = list_of(alloc, conds, &mut names, TYPE_OR_VARIABLE.texts)?;
    let live = conds.always();
    let mut core = Core::start(
        alloc,
        conds,
        &names,
        &list,
        live,
        END,
        tables,
        Standard::C11,
    )?;
    let mut trees = Trees::new(alloc);
    conds.has_memory = false;
    let first = core.apply(alloc, conds, &mut trees, Event::Split(0));
    assert!(rt; matches!(first, Err(CoreStop::OutOfMemory)));
    conds.has_memory = true;
    let again = core.apply(alloc, conds, &mut trees, Event::Split(0));
    assert!(rt; matches!(again, Err(CoreStop::GivenUp)));
    Ok(())
}

#[test]
fn a_core_that_found_no_memory_is_given_up(rt: HostRuntime) -> Result<(), Fail> {
    let tables = c11_tables(rt.alloc())?;
    let mut conds = Limited {
        conds: PlainSets::new(rt.alloc(), &[2, 2, 2])?,
        has_memory: true,
    };
    checks_given_up(&rt, rt.alloc(), &mut conds, &tables)
}
