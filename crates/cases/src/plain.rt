use crate::line::Place;
use crate::text::{Fault, Leaf, Text, Tree};
use anyhow::{Context, Result, bail};
use std::alloc::Global;

/// A text of one configuration, as far as it is written.
#[derive(Drop)]
struct Printer<'a> {
    names: &'a [&'a str],
    text: String,
    /// The numbers that the files had, in the order of those that they get.
    files: Vec<usize>,
}

/// What is left to do of a tree: to lay it out, or to print its node behind its children.
#[derive(Drop)]
enum Task {
    Lay(usize),
    Print(usize),
}

/// The text that the program writes where the configuration is the only one.
pub fn plain(alloc: Global, text: &Text<'_>) -> Result<Vec<u8>> {
    let mut printer = Printer {
        names: &text.files,
        text: String::new(alloc),
        files: Vec::new(alloc),
    };
    match (&text.fault, &text.root) {
        (Some(fault), Some(_)) => {
            printer.text.push_str("root -\n")?;
            printer.fault(fault)?;
        }
        (Some(fault), None) => printer.fault(fault)?,
        (None, Some(Some(root))) => printer.tree(alloc, &text.trees, *root)?,
        (None, Some(None)) => bail!("no tree, and no fault"),
        (None, None) => {
            for token in &text.tokens {
                printer.token(token)?;
            }
        }
    }
    printer.text.push_str("end\n")?;
    Ok(printer.text.into_bytes())
}

impl Printer<'_> {
    /// The number of a file, whose line is written where it wasn't yet.
    fn file(&mut self, file: usize) -> Result<usize> {
        if let Some(number) = self.files.iter().position(|known| *known == file) {
            return Ok(number);
        }
        let number = self.files.len();
        let name = self.names.get(file).context("no such file")?;
        write!(self.text, "s {number} {name}\n")?;
        self.files.push(file)?;
        Ok(number)
    }

    fn fault(&mut self, fault: &Fault<'_>) -> Result<()> {
        let Fault { cause, place } = *fault;
        let Place { file, line, column } = place;
        let file = self.file(file)?;
        write!(self.text, "f 1 {cause} {file}:{line}:{column}\n")?;
        Ok(())
    }

    fn token(&mut self, token: &Leaf<'_>) -> Result<()> {
        let Leaf { place, spelling } = *token;
        let Place { file, line, column } = place;
        let file = self.file(file)?;
        write!(self.text, "t 1 {file}:{line}:{column} {spelling}\n")?;
        Ok(())
    }

    fn leaf(&mut self, id: usize, leaf: &Leaf<'_>) -> Result<()> {
        let Leaf { place, spelling } = *leaf;
        let Place { file, line, column } = place;
        let file = self.file(file)?;
        write!(self.text, "l {id} {file}:{line}:{column} {spelling}\n")?;
        Ok(())
    }

    /// A tree, children first, each once for each place where it stands.
    fn tree(&mut self, alloc: Global, trees: &[Tree<'_>], root: usize) -> Result<()> {
        let mut tasks = Vec::new(alloc);
        let mut made = Vec::new(alloc);
        let mut count = 0usize;
        tasks.push(Task::Lay(root))?;
        for _ in 0..u64::MAX {
            let Some(task) = tasks.pop() else {
                break;
            };
            match task {
                Task::Lay(tree) => match trees.get(tree).context("no such tree")? {
                    Tree::Leaf(leaf) => {
                        self.leaf(count, leaf)?;
                        made.push(count)?;
                        count = count.saturating_add(1);
                    }
                    Tree::Node(_, children) => {
                        tasks.push(Task::Print(tree))?;
                        for child in children.iter().rev() {
                            tasks.push(Task::Lay(*child))?;
                        }
                    }
                    Tree::Same(child) => tasks.push(Task::Lay(*child))?,
                    Tree::Absent => bail!("a choice has no branch there"),
                },
                Task::Print(tree) => {
                    if let Some(Tree::Node(production, children)) = trees.get(tree) {
                        self.node(count, production, &mut made, children.len())?;
                        count = count.saturating_add(1);
                    }
                }
            }
        }
        let root = made.pop().context("no tree")?;
        write!(self.text, "root {root}\n")?;
        Ok(())
    }

    /// A node, whose children are the last of those that were made.
    fn node(
        &mut self,
        id: usize,
        production: &str,
        made: &mut Vec<usize>,
        children: usize,
    ) -> Result<()> {
        write!(self.text, "n {id} {production}")?;
        let first = made.len().saturating_sub(children);
        for child in made.as_slice().get(first..).context("no such children")? {
            write!(self.text, " {child}")?;
        }
        self.text.push_str("\n")?;
        made.truncate(first);
        made.push(id)?;
        Ok(())
    }
}
