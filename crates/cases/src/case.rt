/// Files, and runs over them.
#[derive(Drop)]
pub struct Case {
    pub files: Vec<CaseFile>,
    pub runs: Vec<Run>,
}

#[derive(Drop)]
pub struct CaseFile {
    pub name: String,
    pub bytes: Vec<u8>,
}

/// The words of a run without the program's name, which calls fail in it, and what it must do.
#[derive(Drop)]
pub struct Run {
    /// The line of the case that begins it.
    pub line: usize,
    pub words: Vec<String>,
    pub failing: Failing,
    pub status: Option<u8>,
    pub wanted: Vec<Wanted>,
}

/// The numbers of the calls that fail, from 0.
#[derive(Drop)]
pub struct Failing {
    pub reads: Vec<u64>,
    pub outputs: Vec<u64>,
    pub errors: Vec<u64>,
}

/// What a run must write.
#[derive(Drop)]
pub struct Wanted {
    /// The line of the case that begins it.
    pub line: usize,
    pub part: Part,
    pub bytes: Vec<u8>,
}

/// Which part of what a run writes a text of the case speaks of.
#[derive(Drop)]
pub enum Part {
    /// The whole output.
    Output,
    /// The ends of some of its lines.
    OutputEnds,
    /// The whole error output.
    Error,
    /// The ends of some of its lines.
    ErrorEnds,
    /// The output, as it is at one configuration.
    At(Vec<Choice>),
}

/// A variable's option, by their texts.
#[derive(Drop)]
pub struct Choice {
    pub name: String,
    pub option: String,
}
