ghost use Rattle.std.specs.Prelude.{◌≡◌, ◌<◌, ◌≤◌, ◌+◌, ℕ, [], ◌∷◌, length, All, IfOk, IfSome};
ghost use Rattle.sc_base.specs.Seen.{IsHeld};
ghost use Rattle.sc_fork.specs.Owns.{HasC11Tables};
ghost use Rattle.sc_model.specs.Sets.{Sets, IsCond, IsConfig, Keeps};
ghost use Rattle.sc_tree.specs.Lines.{OwnsBranches};

use sc_base::{Cond, FileId, Limits, Names, OutOfMemory, Place, Token, TreeId};
use sc_grammar::grammar;
use sc_guarded::Guarded;
use sc_items::states;
use sc_lalr::{Tables, build};
use sc_lex::tokens;
use sc_model::{Kind, Standard};
use sc_parse::{Parsed, parse};
use sc_presence::{Conditions, PlainSets};
use sc_tree::{TreeView, Trees};
use std::alloc::Global;
use std::process::Abort;
use std::test::Fail;

/// The configurations in which a text stands: all, or those of one option of a variable.
#[derive(Clone, Copy)]
pub(crate) enum Under {
    All,
    WithoutA,
    WithA,
}

use Under::{All, WithA, WithoutA};

pub(crate) type Texts<'a> = &'a [(Under, &'a [u8])];

/// A node's production, an index, and the production of its child of this index.
#[derive(Clone, Copy)]
pub(crate) struct Node(usize, usize, usize);

/// A list, and nodes of its tree without A and with it.
#[derive(Clone, Copy)]
pub(crate) struct Case<'a> {
    pub(crate) texts: Texts<'a>,
    pub(crate) nodes: [&'a [Node]; 2],
}

pub(crate) const END: Place = Place {
    file: FileId(0),
    line: 9,
    column: 1,
};

/// `int` with A, `long` without it.
const EITHER_TYPE: Texts<'static> = &[(WithA, b"int"), (WithoutA, b"long"), (All, b"x;")];

const DECLARATION: &[Node] = &[Node(1, 0, 19), Node(19, 1, 288)];

/// A declaration with A, an expression without it.
pub(crate) const TYPE_OR_VARIABLE: Case<'static> = Case {
    texts: &[
        (WithA, b"typedef int T;"),
        (WithoutA, b"int T;"),
        (All, b"void f(void){ T * p; }"),
    ],
    nodes: [
        &[Node(13, 1, 43), Node(43, 0, 245)],
        &[Node(13, 1, 19), Node(19, 0, 287)],
    ],
};

const CASES: [Case<'static>; 7] = [
    Case {
        texts: &[(All, b"int x;")],
        nodes: [DECLARATION, DECLARATION],
    },
    Case {
        texts: EITHER_TYPE,
        nodes: [DECLARATION, DECLARATION],
    },
    Case {
        texts: &[
            (All, b"void f(int p, int i) {"),
            (WithA, b"if (p) i = 1; else"),
            (All, b"i = 2; }"),
        ],
        nodes: [&[Node(13, 1, 43)], &[Node(13, 1, 45)]],
    },
    TYPE_OR_VARIABLE,
    Case {
        texts: &[(All, b"typedef int T; void f(void){ int T; T = 1; } T x;")],
        nodes: [&[Node(43, 0, 206), Node(19, 0, 287)]; 2],
    },
    Case {
        texts: &[(All, b"typedef int T; void g(void){ for (int T;;); T x; }")],
        nodes: [&[Node(19, 0, 287)]; 2],
    },
    Case {
        texts: &[(All, b"typedef int T; void h(int (T));")],
        nodes: [&[Node(68, 1, 186)]; 2],
    },
];

/// The tables of C11.
pub(crate) fn c11_tables(alloc: Global) -> Result<Tables, OutOfMemory>
    ensures { IfOk result HasC11Tables }
{
    let grammar = grammar();
    let states = states(alloc, &grammar)?;
    build(alloc, &grammar, &states)
}

/// Puts the tokens of a text at the end.
pub(crate) fn add_tokens(
    alloc: Global,
    names: &mut Names,
    list: &mut Guarded<Token>,
    cond: Cond,
    text: &[u8],
) -> Result<(), Fail>
    ensures items { IfOk result (λ u. (sets : Sets) → IsCond sets cond.0 → All (λ item. IsCond sets item.0.0) list.old → All (λ item. IsCond sets item.0.0) list.new) }
    ensures held { IfOk result (λ u. All (λ item. IsHeld names.old item.1) list.old → All (λ item. IsHeld names.new item.1) list.new) }
{
    let found = tokens(alloc, FileId(0), text, names)?;
    for token in &found {
        if token.kind != Kind::Newline {
            list.push(cond, *token)?;
        }
    }
    Ok(())
}

/// The configurations in which a text stands.
fn condition_of<C: Conditions>(conds: &mut C, under: Under) -> Result<Cond, OutOfMemory>
    requires { (C.sets conds.old).arities ≡ 2 ∷ (2 ∷ (2 ∷ [])) }
    ensures own { IfOk result (λ cond. IsCond (C.sets conds.new) cond.0) }
    ensures keeps { Keeps (C.sets conds.old) (C.sets conds.new) }
{
    match under {
        All => Ok(conds.always()),
        WithoutA => conds.choose(0, 0),
        WithA => conds.choose(0, 1),
    }
}

/// The list of some texts.
pub(crate) fn list_of<C: Conditions>(
    alloc: Global,
    conds: &mut C,
    names: &mut Names,
    texts: Texts<'_>,
) -> Result<Guarded<Token>, Fail>
    requires { (C.sets conds.old).arities ≡ 2 ∷ (2 ∷ (2 ∷ [])) }
    ensures items { IfOk result (λ list. All (λ item. IsCond (C.sets conds.new) item.0.0) list) }
    ensures held { IfOk result (λ list. All (λ item. IsHeld names.new item.1) list) }
    ensures arities { IfOk result (λ list. (C.sets conds.new).arities ≡ 2 ∷ (2 ∷ (2 ∷ []))) }
{
    let mut list = Guarded::new(alloc)?;
    for (under, text) in texts {
        let cond = condition_of(conds, *under)?;
        add_tokens(alloc, names, &mut list, cond, text)?;
    }
    Ok(list)
}

/// What the texts are, with the trees.
fn parsed<C: Conditions>(
    alloc: Global,
    conds: &mut C,
    tables: &Tables,
    texts: Texts<'_>,
) -> Result<(Trees, Parsed), Fail>
    requires arities { (C.sets conds.old).arities ≡ 2 ∷ (2 ∷ (2 ∷ [])) }
    requires tables { HasC11Tables tables.now }
    ensures arities { IfOk result (λ found. (C.sets conds.new).arities ≡ 2 ∷ (2 ∷ (2 ∷ []))) }
    ensures owns { IfOk result (λ found. OwnsBranches (C.sets conds.new) found.0) }
    ensures root { IfOk result (λ found. IfSome found.1.root (λ root. root.0 < length found.0)) }
{
    let mut names = Names::new(alloc)?;
    let list = list_of(alloc, conds, &mut names, texts)?;
    let live = conds.always();
    let limits = Limits {
        branches: 100,
        include_depth: 15,
    };
    let mut trees = Trees::new(alloc);
    let parsed = parse(
        alloc,
        conds,
        &mut trees,
        &names,
        &list,
        live,
        END,
        tables,
        limits,
        Standard::C11,
    )?;
    Ok((trees, parsed))
}

/// The branch of a choice at a configuration.
fn chosen<C: Conditions>(conds: &C, branches: &[(Cond, TreeId)], config: &[usize]) -> Option<TreeId>
    requires config { IsConfig (C.sets conds.now).arities config.now }
    requires own { All (λ branch. IsCond (C.sets conds.now) branch.0.0) branches.now }
    ensures { IfSome result (λ tree. (bound : ℕ) → All (λ branch. branch.1.0 < bound) branches.now → tree.0 < bound) }
{
    for (cond, tree) in branches {
        if conds.holds(*cond, config) {
            return Some(*tree);
        }
    }
    None
}

/// For each tree up to the root the one that stands for it at a configuration: itself, or a branch.
/// A choice that is only met at other configurations has none.
pub(crate) fn standing<C: Conditions>(
    alloc: Global,
    conds: &C,
    trees: &Trees,
    root: TreeId,
    config: &[usize],
) -> Result<Vec<usize>, Fail>
    requires config { IsConfig (C.sets conds.now).arities config.now }
    requires own { OwnsBranches (C.sets conds.now) trees.now }
    requires root { root.0 < length trees.now }
    ensures long { IfOk result (λ standing. length standing.items ≡ root.0 + 1) }
    ensures within { IfOk result (λ standing. All (λ id. id < root.0 + 1) standing.items) }
{
    trees.children_first();
    let Some(count) = root.0.checked_add(1) else {
        return Err(Fail::new("too many trees"));
    };
    let mut standing: Vec<usize> = Vec::new(alloc);
    for id in 0..count {
        let stands = match trees.read(TreeId(id)) {
            TreeView::Choice(branches) => match chosen(conds, branches, config) {
                Some(tree) => standing[tree.0],
                None => id,
            },
            _ => id,
        };
        standing.push(stands)?;
    }
    Ok(standing)
}

/// Which trees are below the root at a configuration.
pub(crate) fn met(alloc: Global, trees: &Trees, standing: &[usize]) -> Result<Vec<bool>, Fail>
    requires some { 0 < length standing.now }
    requires trees { length standing.now ≤ length trees.now }
    requires within { All (λ id. id < length standing.now) standing.now }
    ensures { IfOk result (λ met. length met.items ≡ length standing.now) }
{
    trees.children_first();
    let mut met = vec![in alloc; false; standing.len()]?;
    met[standing[standing.len() - 1]] = true;
    for id in (0..standing.len()).rev() {
        if !met[id] {
            continue;
        }
        if let TreeView::Node(_, children) = trees.read(TreeId(id)) {
            for child in children {
                met[standing[child.0]] = true;
            }
        }
    }
    Ok(met)
}

/// Whether the node is below the root at a configuration.
fn has_node(trees: &Trees, standing: &[usize], met: &[bool], node: Node) -> bool
    requires long { length met.now ≡ length standing.now }
    requires trees { length standing.now ≤ length trees.now }
    requires within { All (λ id. id < length standing.now) standing.now }
{
    trees.children_first();
    let Node(above, index, below) = node;
    for (id, met) in met.iter().enumerate() {
        if !met {
            continue;
        }
        let TreeView::Node(production, children) = trees.read(TreeId(id)) else {
            continue;
        };
        if production != above || children.len() <= index {
            continue;
        }
        let child = TreeId(standing[children[index].0]);
        if matches!(trees.read(child), TreeView::Node(number, _) if number == below) {
            return true;
        }
    }
    false
}

/// The tree has these nodes at a configuration.
pub(crate) fn checks_nodes<C: Conditions>(
    rt: &impl Abort,
    alloc: Global,
    conds: &C,
    trees: &Trees,
    root: TreeId,
    config: &[usize],
    nodes: &[Node],
) -> Result<(), Fail>
    requires config { IsConfig (C.sets conds.now).arities config.now }
    requires own { OwnsBranches (C.sets conds.now) trees.now }
    requires root { root.0 < length trees.now }
{
    let standing = standing(alloc, conds, trees, root, config)?;
    let met = met(alloc, trees, &standing)?;
    for node in nodes {
        let found = has_node(trees, &standing, &met, *node);
        assert!(rt; found, "{config:?}: {} above {}", node.0, node.2);
    }
    Ok(())
}

/// Without A and with it the tree has the nodes of the case, and nothing is refused.
fn checks_case<C: Conditions>(
    rt: &impl Abort,
    alloc: Global,
    conds: &mut C,
    tables: &Tables,
    case: Case<'_>,
) -> Result<(), Fail>
    requires arities { (C.sets conds.old).arities ≡ 2 ∷ (2 ∷ (2 ∷ [])) }
    requires tables { HasC11Tables tables.now }
{
    let (trees, parsed) = parsed(alloc, conds, tables, case.texts)?;
    assert_eq!(rt; parsed.faults.len(), 0);
    let Some(root) = parsed.root else {
        return Err(Fail::new("no tree"));
    };
    checks_nodes(rt, alloc, conds, &trees, root, &[0, 0, 0], case.nodes[0])?;
    checks_nodes(rt, alloc, conds, &trees, root, &[1, 0, 0], case.nodes[1])
}

#[test]
fn trees_at_each_configuration(rt: HostRuntime) -> Result<(), Fail> {
    let tables = c11_tables(rt.alloc())?;
    for case in CASES {
        let mut conds = PlainSets::new(rt.alloc(), &[2, 2, 2])?;
        checks_case(&rt, rt.alloc(), &mut conds, &tables, case)?;
    }
    Ok(())
}
