ghost use Rattle.std.specs.Prelude.{◌≡◌, ◌∷◌, [], IfOk};
ghost use Rattle.sc_model.specs.Sets.{Keeps};
ghost use Rattle.sc_model.specs.Space.{arities_of};
ghost use Rattle.sc_prep.specs.Printable.{ArePlainPaths, CanBeShown};
ghost use Rattle.sc_space.specs.Seen.{seen_space};
ghost use Rattle.sc_space.specs.Sound.{IsSound};

use sc_base::{Files, Names};
use sc_prep::{Prepared, preprocess};
use sc_presence::{Conditions, Diagrams, PlainSets};
use sc_show::show_tokens;
use sc_source::MemorySource;
use sc_space::Space;
use std::alloc::Global;
use std::test::Fail;

const SPACE: &[u8] = b"[variables]\nA = [\"undef\", 1]\nB = [\"undef\", 1]\n";

/// A file `m.c` and the text of its tokens and faults.
#[derive(Clone, Copy)]
struct Case<'a> {
    main: &'a [u8],
    text: &'a str,
}

const CASES: [Case<'static>; 5] = [
    Case {
        main: b"#ifdef A\nx\n#else\ny\n#endif\n",
        text: "c 2 A undef:0 1:1\ns 0 m.c\nt 2 0:2:1 x\nc 3 A undef:1 1:0\nt 3 0:4:1 y\nend\n",
    },
    Case {
        main: b"#ifdef A\n#ifdef B\nx\n#endif\n#endif\n",
        text: "c 2 B undef:0 1:1\nc 3 A undef:0 1:2\ns 0 m.c\nt 3 0:3:1 x\nend\n",
    },
    Case {
        main: b"#ifdef A\n#define M\n#endif\n#ifdef M\nz\n#endif\n",
        text: "c 2 A undef:0 1:1\ns 0 m.c\nt 2 0:5:1 z\nend\n",
    },
    Case {
        main: b"#ifdef B\n#error\n#endif\n",
        text: "c 2 B undef:0 1:1\ns 0 m.c\nf 2 16 ErrorDirective 0:2:1\nend\n",
    },
    Case {
        main: b"#ifdef A\n#define f(x) x\n#endif\n#ifdef B\nf(1)\n#endif\n",
        text: "c 2 B undef:0 1:1\nc 3 A undef:2 1:0\ns 0 m.c\nt 3 0:5:1 f\nc 4 A undef:0 1:2\nt 4 0:5:3 1\nt 3 0:5:2 (\nt 3 0:5:3 1\nt 3 0:5:4 )\nend\n",
    },
];

/// The space of two variables with two options each.
fn read_space(alloc: Global) -> Result<Space, Fail>
    ensures arities { IfOk result (λ space. arities_of (seen_space space) ≡ 2 ∷ 2 ∷ []) }
    ensures sound { IfOk result (λ space. IsSound (seen_space space)) }
{
    let space = Space::read(alloc, SPACE)?;
    match space.variables.as_slice() {
        [a, b] if a.options.len() == 2 && b.options.len() == 2 => Ok(space),
        _ => Err(Fail::new("not two variables with two options each")),
    }
}

/// What a file becomes over these conditions.
#[tactic(auto, using(sc_model::proofs::SetLemmas::conditions))]
fn prepared<C: Conditions>(
    alloc: Global,
    conds: &mut C,
    space: &Space,
    main: &[u8],
    names: &mut Names,
    files: &mut Files,
) -> Result<Prepared, Fail>
    requires arities { (C.sets conds.old).arities ≡ arities_of (seen_space space.now) }
    requires sound { IsSound (seen_space space.now) }
    requires paths { ArePlainPaths files.old }
    ensures shown { IfOk result (CanBeShown (C.sets conds.new) names.new files.new) }

    // at every outcome
    ensures keeps { Keeps (C.sets conds.old) (C.sets conds.new) }
{
    let mut source = MemorySource::new(alloc);
    source.add("m.c", main)?;
    let live = conds.always();
    Ok(preprocess(alloc, &mut source, "m.c", space, live, conds, names, files)?)
}

/// The text of the tokens and the faults of a file over these conditions.
#[tactic(auto, using(sc_model::proofs::SetLemmas::conditions))]
fn text<C: Conditions>(
    alloc: Global,
    conds: &mut C,
    space: &Space,
    main: &[u8],
) -> Result<Vec<u8>, Fail>
    requires arities { (C.sets conds.old).arities ≡ arities_of (seen_space space.now) }
    requires sound { IsSound (seen_space space.now) }
{
    let mut names = Names::new(alloc)?;
    let mut files = Files::new(alloc)?;
    let prepared = prepared(alloc, conds, space, main, &mut names, &mut files)?;
    Ok(show_tokens(
        alloc,
        conds,
        space,
        &names,
        &files,
        &prepared.list,
        &prepared.faults,
    )?)
}

#[test]
fn same_text(rt: HostRuntime) -> Result<(), Fail> {
    let space = read_space(rt.alloc())?;
    for case in &CASES {
        let mut sets = PlainSets::new(rt.alloc(), &[2, 2])?;
        let over_sets = text(rt.alloc(), &mut sets, &space, case.main)?;
        assert_eq!(rt; over_sets.as_slice(), case.text.as_bytes());

        let mut diagrams = Diagrams::new(rt.alloc(), &[2, 2])?;
        let over_diagrams = text(rt.alloc(), &mut diagrams, &space, case.main)?;
        assert_eq!(rt; over_diagrams.as_slice(), case.text.as_bytes());
    }
    Ok(())
}
