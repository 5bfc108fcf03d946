use crate::case::Choice;
use crate::line::{Place, cut, number, read_place};
use anyhow::{Context, Result, bail};
use std::alloc::Global;

/// A text that the program wrote, as it is at one configuration.
#[derive(Drop)]
pub struct Text<'a> {
    choices: &'a [Choice],
    /// For each condition whether it has the configuration.
    conditions: Vec<bool>,
    pub files: Vec<&'a str>,
    pub tokens: Vec<Leaf<'a>>,
    pub trees: Vec<Tree<'a>>,
    /// Where it is a text of a tree, its line `root`.
    pub root: Option<Option<usize>>,
    pub fault: Option<Fault<'a>>,
    has_ended: bool,
}

#[derive(Clone, Copy)]
pub struct Leaf<'a> {
    pub place: Place,
    pub spelling: &'a str,
}

#[derive(Drop)]
pub enum Tree<'a> {
    Leaf(Leaf<'a>),
    Node(&'a str, Vec<usize>),
    /// A choice, of which the configuration has this branch.
    Same(usize),
    /// A choice that has no branch there.
    Absent,
}

#[derive(Clone, Copy)]
pub struct Fault<'a> {
    /// Its code and its name.
    pub cause: &'a str,
    pub place: Place,
}

impl<'a> Text<'a> {
    /// Reads a text from its first line to its last.
    pub fn read(alloc: Global, text: &'a str, choices: &'a [Choice]) -> Result<Text<'a>> {
        let mut read = Text {
            choices,
            conditions: Vec::new(alloc),
            files: Vec::new(alloc),
            tokens: Vec::new(alloc),
            trees: Vec::new(alloc),
            root: None,
            fault: None,
            has_ended: false,
        };
        read.conditions.push(false)?;
        read.conditions.push(true)?;
        for line in text.lines() {
            read.take(alloc, line).context(line)?;
        }
        if !read.has_ended {
            bail!("no line `end`");
        }
        Ok(read)
    }

    fn take(&mut self, alloc: Global, line: &'a str) -> Result<()> {
        if self.has_ended {
            bail!("behind the line `end`");
        }
        if line == "end" {
            self.has_ended = true;
            return Ok(());
        }
        let (kind, rest) = cut(line)?;
        match kind {
            "c" => self.take_condition(rest),
            "s" => self.take_file(rest),
            "t" => self.take_token(rest),
            "l" => self.take_leaf(rest),
            "n" => self.take_node(alloc, rest),
            "x" => self.take_choice(rest),
            "root" => self.take_root(rest),
            "f" => self.take_fault(rest),
            _ => bail!("no such line"),
        }
    }

    fn take_condition(&mut self, rest: &str) -> Result<()> {
        let (id, rest) = cut(rest)?;
        is_next(id, self.conditions.len())?;
        let (name, options) = cut(rest)?;
        let option = self.option_of(name)?;
        let mut found = None;
        for choice in options.split(' ') {
            let (text, condition) = choice.split_once(':').context("no option")?;
            let has = self.has(condition)?;
            if text == option {
                found = Some(has);
            }
        }
        self.conditions
            .push(found.context("the option is not there")?)?;
        Ok(())
    }

    /// The option that the configuration has of a variable.
    fn option_of(&self, name: &str) -> Result<&'a str> {
        for choice in self.choices {
            if choice.name.as_str() == name {
                return Ok(choice.option.as_str());
            }
        }
        bail!("the case names no option of {name}")
    }

    /// Whether a condition has the configuration.
    fn has(&self, condition: &str) -> Result<bool> {
        let index = number(condition)?;
        let has = self.conditions.get(index).context("no such condition")?;
        Ok(*has)
    }

    fn take_file(&mut self, rest: &'a str) -> Result<()> {
        let (id, name) = cut(rest)?;
        is_next(id, self.files.len())?;
        self.files.push(name)?;
        Ok(())
    }

    /// A place in a file that is there.
    fn known_place(&self, text: &str) -> Result<Place> {
        let place = read_place(text)?;
        if place.file >= self.files.len() {
            bail!("no such file");
        }
        Ok(place)
    }

    fn take_token(&mut self, rest: &'a str) -> Result<()> {
        let (condition, rest) = cut(rest)?;
        let (place, spelling) = cut(rest)?;
        let place = self.known_place(place)?;
        if self.has(condition)? {
            self.tokens.push(Leaf { place, spelling })?;
        }
        Ok(())
    }

    fn take_leaf(&mut self, rest: &'a str) -> Result<()> {
        let (id, rest) = cut(rest)?;
        is_next(id, self.trees.len())?;
        let (place, spelling) = cut(rest)?;
        let place = self.known_place(place)?;
        self.trees.push(Tree::Leaf(Leaf { place, spelling }))?;
        Ok(())
    }

    fn take_node(&mut self, alloc: Global, rest: &'a str) -> Result<()> {
        let (id, rest) = cut(rest)?;
        is_next(id, self.trees.len())?;
        let (production, rest) = rest.split_once(' ').unwrap_or((rest, ""));
        let mut children = Vec::new(alloc);
        if !rest.is_empty() {
            for child in rest.split(' ') {
                children.push(self.earlier(child)?)?;
            }
        }
        self.trees.push(Tree::Node(production, children))?;
        Ok(())
    }

    /// The number of a tree that is there.
    fn earlier(&self, text: &str) -> Result<usize> {
        let index = number(text)?;
        if index >= self.trees.len() {
            bail!("no such tree");
        }
        Ok(index)
    }

    fn take_choice(&mut self, rest: &str) -> Result<()> {
        let (id, rest) = cut(rest)?;
        is_next(id, self.trees.len())?;
        let mut found = Tree::Absent;
        for branch in rest.split(' ') {
            let (condition, child) = branch.split_once(':').context("no branch")?;
            let child = self.earlier(child)?;
            if self.has(condition)? {
                if !matches!(&found, Tree::Absent) {
                    bail!("two branches have one configuration");
                }
                found = Tree::Same(child);
            }
        }
        self.trees.push(found)?;
        Ok(())
    }

    fn take_root(&mut self, rest: &str) -> Result<()> {
        if self.root.is_some() {
            bail!("a second root");
        }
        self.root = Some(if rest == "-" {
            None
        } else {
            Some(self.earlier(rest)?)
        });
        Ok(())
    }

    fn take_fault(&mut self, rest: &'a str) -> Result<()> {
        let (condition, rest) = cut(rest)?;
        let (cause, place) = rest.rsplit_once(' ').context("too few words")?;
        let place = self.known_place(place)?;
        if self.has(condition)? {
            if self.fault.is_some() {
                bail!("a second fault of one configuration");
            }
            self.fault = Some(Fault { cause, place });
        }
        Ok(())
    }
}

/// A line has the next number.
fn is_next(id: &str, count: usize) -> Result<()> {
    if number(id)? != count {
        bail!("{id} in place of {count}");
    }
    Ok(())
}
