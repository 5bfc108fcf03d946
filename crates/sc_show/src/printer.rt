ghost use Rattle.std.specs.Prelude.{◌≡◌, ◌++◌, ◌∷◌, ◌<◌, ◌↔◌, List, ℕ, [], true, All, Option, Some, IsTrue, length, slice_get, IfSome, IfOk, OnOk};
ghost use Rattle.std.specs.List.{Contains};
ghost use Rattle.sc_model.specs.Growth.{IsOneToOne};
ghost use Rattle.sc_model.specs.Sets.{Sets, IsCond, Keeps, DependsFrom};
ghost use Rattle.sc_model.specs.Space as model;
ghost use Rattle.sc_model.specs.Space.{arities_of};
ghost use Rattle.sc_model.specs.Bytes.{has_no_newline};
ghost use Rattle.sc_text.specs.Text.{line_text, root_line, end_line};
ghost use Rattle.sc_space.specs.Seen.{seen_space};
ghost use Rattle.sc_show.specs.Rules.{token_item, fault_item, AreFrom, Introduced, IntroducedFile, LaidOut};
ghost use Rattle.sc_show.specs.Prints.{HasWordNames, IsTable, Prints};
ghost use Rattle.sc_show.specs.TreeRules.{LaidOutTree};
ghost use Rattle.sc_show.specs.TreeShows.{AreNumbersOf, IsRootOf, IsShowableLeaf};
ghost use Rattle.sc_tree.specs.Lines.{leaf, node, choice};

use crate::lines;
use indexmap::IndexSet;
use sc_base::{Cond, Fault, FileId, Files, Name, Names, OutOfMemory, Place, TreeId};
use sc_presence::Conditions;
use sc_space::Space;
use std::alloc::Global;

/// The number under which no configuration is printed.
const NEVER: usize = 0;

/// The lines printed so far, and what they gave a number.
#[derive(Drop)]
pub struct Printer {
    pub text: Vec<u8>,
    /// In the order of their numbers: never, always, and those of the lines.
    conditions: IndexSet<Cond>,
    /// In the order of their numbers.
    files: IndexSet<FileId>,
    /// In the order of their numbers.
    trees: IndexSet<TreeId>,
}

impl Printer {
    pub fn new<C: Conditions>(alloc: Global, conds: &C) -> Result<Printer, OutOfMemory>
        ensures table { IfOk result (λ printer. IsTable (C.sets conds.now) printer.conditions.keys) }
        ensures conditions { IfOk result (λ printer. length printer.conditions.keys ≡ 2) }
        ensures files { IfOk result (λ printer. printer.files.keys ≡ []) }
        ensures trees { IfOk result (λ printer. printer.trees.keys ≡ []) }
        ensures text { IfOk result (λ printer. printer.text.items ≡ []) }
        ensures prints { IfOk result (λ printer. (space : model.Space) (files : List (List ℕ)) → Prints space (C.sets conds.now) files printer []) }
    {
        conds.has_options();
        let mut conditions = IndexSet::new(alloc);
        conditions.insert(conds.never())?;
        conditions.insert(conds.always())?;
        Ok(Printer {
            text: Vec::new(alloc),
            conditions,
            files: IndexSet::new(alloc),
            trees: IndexSet::new(alloc),
        })
    }

    /// The number of a condition that depends on no variable before `from`, after the lines that it
    /// needs.
    fn condition_number<C: Conditions>(
        &mut self,
        conds: &mut C,
        space: &Space,
        cond: Cond,
        from: usize,
    ) -> Result<usize, OutOfMemory>
        requires own { IsCond (C.sets conds.old) cond.0 }
        requires from { DependsFrom (C.sets conds.old) cond.0 from }
        requires arities { (C.sets conds.old).arities ≡ arities_of (seen_space space.now) }
        requires names { HasWordNames (seen_space space.now) }
        requires table { IsTable (C.sets conds.old) self.old.conditions.keys }
        ensures number { IfOk result (λ n. slice_get self.new.conditions.keys n ≡ Some cond) }
        ensures lines { IfOk result (λ n. Introduced (seen_space space.now) (C.sets conds.old) (C.sets conds.new) self.old self.new (n ∷ [])) }
        ensures later { OnOk result (AreFrom (C.sets conds.new) self.old.conditions.keys self.new.conditions.keys from) }

        // at every outcome
        ensures keeps { Keeps (C.sets conds.old) (C.sets conds.new) }
    {
        if let Some(known) = self.conditions.get_index_of(&cond) {
            return Ok(known);
        }
        conds.canonical();
        let Some(variable) = conds.top(cond) else {
            unreachable!()
        };
        let named = &space.variables[variable];
        let mut children = Vec::new(*self.text.allocator());
        for option in 0..named.options.len() {
            let part = conds.part(cond, variable, option)?;
            let child = self.condition_number(conds, space, part, variable + 1)?;
            children.push(child)?;
        }
        let (number, is_new) = self.conditions.insert_full(cond)?;
        if !is_new {
            return Ok(number);
        }
        lines::write_condition(&mut self.text, number, named, &children)?;
        Ok(number)
    }

    /// The number of a file, after the line that it needs.
    fn file_number(&mut self, files: &Files, file: FileId) -> Result<usize, OutOfMemory>
        requires file { file.0 < length files.now }
        requires one_line { All (λ name. has_no_newline name ≡ true) files.now }
        ensures number { IfOk result (λ n. slice_get self.new.files.keys n ≡ Some file) }
        ensures lines { IfOk result (IntroducedFile files.now self.old self.new) }
    {
        let (number, is_new) = self.files.insert_full(file)?;
        if !is_new {
            return Ok(number);
        }
        lines::write_file(&mut self.text, number, files.text(file))?;
        Ok(number)
    }

    pub fn print_token<C: Conditions>(
        &mut self,
        conds: &mut C,
        space: &Space,
        files: &Files,
        cond: Cond,
        place: Place,
        spelling: &[u8],
    ) -> Result<(), OutOfMemory>
        requires own { IsCond (C.sets conds.old) cond.0 }
        requires file { place.file.0 < length files.now }
        requires spelling { has_no_newline spelling.now ≡ true }
        requires arities { (C.sets conds.old).arities ≡ arities_of (seen_space space.now) }
        requires names { HasWordNames (seen_space space.now) }
        requires one_line { All (λ name. has_no_newline name ≡ true) files.now }
        requires table { IsTable (C.sets conds.old) self.old.conditions.keys }
        ensures lines { OnOk result (LaidOut (seen_space space.now) (C.sets conds.old) (C.sets conds.new) files.now self.old self.new (token_item cond place spelling.now ∷ [])) }

        // at every outcome
        ensures keeps { Keeps (C.sets conds.old) (C.sets conds.new) }
    {
        let condition = self.condition_number(conds, space, cond, 0)?;
        if condition == NEVER {
            return Ok(());
        }
        let file = self.file_number(files, place.file)?;
        lines::write_token(&mut self.text, condition, file, place, spelling)?;
        Ok(())
    }

    pub fn print_fault<C: Conditions>(
        &mut self,
        conds: &mut C,
        space: &Space,
        files: &Files,
        fault: Fault,
    ) -> Result<(), OutOfMemory>
        requires own { IsCond (C.sets conds.old) fault.cond.0 }
        requires file { fault.place.file.0 < length files.now }
        requires arities { (C.sets conds.old).arities ≡ arities_of (seen_space space.now) }
        requires names { HasWordNames (seen_space space.now) }
        requires one_line { All (λ name. has_no_newline name ≡ true) files.now }
        requires table { IsTable (C.sets conds.old) self.old.conditions.keys }
        ensures lines { OnOk result (LaidOut (seen_space space.now) (C.sets conds.old) (C.sets conds.new) files.now self.old self.new (fault_item fault ∷ [])) }

        // at every outcome
        ensures keeps { Keeps (C.sets conds.old) (C.sets conds.new) }
    {
        let condition = self.condition_number(conds, space, fault.cond, 0)?;
        if condition == NEVER {
            return Ok(());
        }
        let file = self.file_number(files, fault.place.file)?;
        lines::write_fault(&mut self.text, condition, fault.cause, file, fault.place)?;
        Ok(())
    }

    pub fn is_printed(&self, tree: TreeId) -> bool
        ensures { IsTrue result ↔ Contains self.now.trees.keys tree }
    {
        self.trees.contains(&tree)
    }

    /// The number of a tree that is printed.
    fn printed(&self, tree: TreeId) -> usize
        requires { Contains self.now.trees.keys tree }
        ensures { slice_get self.now.trees.keys result ≡ Some tree }
    {
        match self.trees.get_index_of(&tree) {
            Some(number) => number,
            None => unreachable!(),
        }
    }

    /// The numbers of trees that are printed.
    fn tree_numbers(&self, trees: &[TreeId]) -> Result<Vec<usize>, OutOfMemory>
        requires { All (Contains self.now.trees.keys) trees.now }
        ensures { IfOk result (λ numbers. AreNumbersOf self.now.trees.keys trees.now numbers.items) }
    {
        let mut numbers = Vec::new(*self.text.allocator());
        for tree in trees {
            numbers.push(self.printed(*tree))?;
        }
        Ok(numbers)
    }

    /// Prints a leaf that isn't printed yet.
    pub fn print_leaf(
        &mut self,
        names: &Names,
        files: &Files,
        tree: TreeId,
        place: Place,
        spelling: Name,
    ) -> Result<(), OutOfMemory>
        requires leaf { IsShowableLeaf names.now files.now place spelling }
        requires one_line { All (λ name. has_no_newline name ≡ true) files.now }
        requires fresh { Contains self.old.trees.keys tree → ⊥ }
        ensures lines { OnOk result ((space : model.Space) (s : Sets) → IsTable s self.old.conditions.keys
            → LaidOutTree space s s names.now files.now self.old self.new ((tree, leaf place spelling) ∷ [])) }
    {
        let file = self.file_number(files, place.file)?;
        let (number, _) = self.trees.insert_full(tree)?;
        lines::write_leaf(&mut self.text, number, file, place, names.text(spelling))?;
        Ok(())
    }

    /// Prints a node that isn't printed yet. Its children are.
    pub fn print_node(
        &mut self,
        tree: TreeId,
        production: usize,
        children: &[TreeId],
    ) -> Result<(), OutOfMemory>
        requires below { All (Contains self.old.trees.keys) children.now }
        requires fresh { Contains self.old.trees.keys tree → ⊥ }
        ensures lines { OnOk result ((space : model.Space) (s : Sets) (names files : List (List ℕ)) → IsTable s self.old.conditions.keys
            → LaidOutTree space s s names files self.old self.new ((tree, node production children.now) ∷ [])) }
    {
        let children = self.tree_numbers(children)?;
        let (number, _) = self.trees.insert_full(tree)?;
        lines::write_node(&mut self.text, number, production, &children)?;
        Ok(())
    }

    /// Prints a choice that isn't printed yet. Its trees are.
    pub fn print_choice<C: Conditions>(
        &mut self,
        conds: &mut C,
        space: &Space,
        tree: TreeId,
        branches: &[(Cond, TreeId)],
    ) -> Result<(), OutOfMemory>
        requires own { All (λ branch. IsCond (C.sets conds.old) branch.0.0) branches.now }
        requires below { All (λ branch. Contains self.old.trees.keys branch.1) branches.now }
        requires fresh { Contains self.old.trees.keys tree → ⊥ }
        requires arities { (C.sets conds.old).arities ≡ arities_of (seen_space space.now) }
        requires names { HasWordNames (seen_space space.now) }
        requires table { IsTable (C.sets conds.old) self.old.conditions.keys }
        ensures lines { OnOk result ((names files : List (List ℕ))
            → LaidOutTree (seen_space space.now) (C.sets conds.old) (C.sets conds.new) names files self.old self.new ((tree, choice branches.now) ∷ [])) }

        // at every outcome
        ensures keeps { Keeps (C.sets conds.old) (C.sets conds.new) }
    {
        let mut numbers = Vec::new(*self.text.allocator());
        for branch in branches {
            let condition = self.condition_number(conds, space, branch.0, 0)?;
            numbers.push((condition, self.printed(branch.1)))?;
        }
        let (number, _) = self.trees.insert_full(tree)?;
        lines::write_branches(&mut self.text, number, &numbers)?;
        Ok(())
    }

    /// Prints which of the trees that are printed is the whole one.
    pub fn print_root(&mut self, root: Option<TreeId>) -> Result<(), OutOfMemory>
        requires { IfSome root (Contains self.old.trees.keys) }
        ensures lines { OnOk result ((number : Option ℕ) × (IsRootOf self.old.trees.keys root number × (self.new.text.items ≡ self.old.text.items ++ line_text (root_line number)))) }
        ensures same { OnOk result ((self.new.conditions.keys ≡ self.old.conditions.keys) × ((self.new.files.keys ≡ self.old.files.keys) × (self.new.trees.keys ≡ self.old.trees.keys))) }
    {
        let number = match root {
            Some(tree) => Some(self.printed(tree)),
            None => None,
        };
        lines::write_root(&mut self.text, number)?;
        Ok(())
    }

    /// No condition, file or tree has two numbers. This takes no time: it tells a proof.
    pub fn one_to_one(&self)
        ensures conditions { IsOneToOne self.now.conditions.keys }
        ensures files { IsOneToOne self.now.files.keys }
        ensures trees { IsOneToOne self.now.trees.keys }
    {
        let _conditions = self.conditions.len();
        let _files = self.files.len();
        let _trees = self.trees.len();
    }

    /// Prints the last line.
    pub fn print_end(&mut self) -> Result<(), OutOfMemory>
        ensures { OnOk result (self.new.text.items ≡ self.old.text.items ++ line_text end_line) }
    {
        lines::write_end(&mut self.text)
    }
}
