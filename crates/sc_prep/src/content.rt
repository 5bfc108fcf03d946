ghost use Rattle.std.specs.Prelude.{◌≡◌, ◌<◌, ◌≤◌, List, Some, None, length, slice_get, IfErr, IfOk, OnOk, ℕ};
ghost use Rattle.std.specs.Option.{option_and_then, option_map};
ghost use Rattle.sc_base.specs.Seen.{seen_place};
ghost use Rattle.sc_model.specs.Fault as model;
ghost use Rattle.sc_model.specs.Growth.{Extends};
ghost use Rattle.sc_model.specs.Outside.{Files as Outside};
ghost use Rattle.sc_prep.specs.Contents.{AreContents, IsContent, IsHeldContent, IsKept, IsReading, KeepsContents, content_at, end_place, known, ReadsSame};
ghost use Rattle.sc_prep.specs.Preprocesses.{ReadsNothing};

use sc_base::{Cause, FileId, Files, LARGEST_FILE, Names, OutOfMemory, Place, Stop, Token};
use sc_lex::{LexStop, end, tokens};
use sc_lines::{Line, NestStop, groups};
use sc_model::Standard;
use sc_source::Source;
use std::alloc::Global;
use std::rc::Rc;

/// What a file holds.
#[derive(Drop)]
pub enum Content {
    Lines(FileLines),
    /// Whoever enters the file is refused.
    Refused { cause: Cause, place: Place },
}

/// The tokens of a file, and its lines.
#[derive(Drop)]
pub struct FileLines {
    pub tokens: Vec<Token>,
    pub lines: Vec<Line>,
    /// Where the file ends.
    pub end: Place,
}

/// What is known of a name.
#[derive(Drop)]
enum Reading {
    Unread,
    /// No file has the name.
    Absent,
    Held(Rc<Content>),
}

/// What was read of files, by their ids: each is read and lexed once.
#[derive(Drop)]
pub struct Contents {
    readings: Vec<Reading>,
}

impl Contents {
    /// Nothing was read yet.
    pub fn new(alloc: Global) -> Contents
        ensures { (file : ℕ) → content_at result file ≡ None }
    {
        Contents {
            readings: Vec::new(alloc),
        }
    }

    /// What the file of this name holds, or `None` where no file has the name.
    pub fn read<S: Source>(
        &mut self,
        alloc: Global,
        src: &mut S,
        names: &mut Names,
        files: &Files,
        file: FileId,
        standard: Standard,
    ) -> Result<Option<Rc<Content>>, Stop>
        requires file { file.0 < length files.now }
        requires contents { AreContents standard names.old files.now (S.holds src.old) self.old }
        ensures content { IfOk result (λ shared. content_at self.new file.0 ≡ Some (option_map (λ held. held.value) shared)) }
        ensures contents { OnOk result (AreContents standard names.new files.now (S.holds src.new) self.new) }
        ensures keeps { OnOk result (KeepsContents self.old self.new) }
        ensures stops { IfErr result (ReadsNothing (S.faults src.old) (S.faults src.new)) }

        // at every outcome
        ensures kept { S.holds src.new ≡ S.holds src.old }
        ensures counted { S.faults src.old ≤ S.faults src.new }
        ensures names { Extends names.old names.new }
    {
        if let Some(known) = known(&self.readings, file)? {
            return Ok(known);
        }
        files.one_to_one();
        let content = read_file(alloc, src, names, files, file, standard)?;
        keep(&mut self.readings, file, &content)?;
        Ok(content)
    }
}

/// What the source has for a file's name.
fn read_file<S: Source>(
    alloc: Global,
    src: &mut S,
    names: &mut Names,
    files: &Files,
    file: FileId,
    standard: Standard,
) -> Result<Option<Rc<Content>>, Stop>
    requires { file.0 < length files.now }
    ensures reading { IfOk result (λ shared. IsReading standard names.new files.now (S.holds src.old) file (option_map (λ held. held.value) shared)) }
    ensures stops { IfErr result (ReadsNothing (S.faults src.old) (S.faults src.new)) }

    // at every outcome
    ensures kept { S.holds src.new ≡ S.holds src.old }
    ensures counted { S.faults src.old ≤ S.faults src.new }
    ensures names { Extends names.old names.new }
{
    let Some(bytes) = read_bytes(alloc, src, files.text(file))? else {
        return Ok(None);
    };
    let content = read_content(alloc, names, file, &bytes, standard)?;
    Ok(Some(Rc::new(alloc, content)?))
}

/// The bytes of the file of a name, or `None` where no file has it.
fn read_bytes<S: Source>(alloc: Global, src: &mut S, name: &str) -> Result<Option<Vec<u8>>, Stop>
    ensures answer { (outside : Outside) → S.holds src.old ≡ Some outside
        → IfOk result (λ found. option_map (λ bytes. bytes.items) found ≡ outside name.now) }
    ensures stops { IfErr result (ReadsNothing (S.faults src.old) (S.faults src.new)) }

    // at every outcome
    ensures kept { S.holds src.new ≡ S.holds src.old }
    ensures counted { S.faults src.old ≤ S.faults src.new }
{
    Ok(src.read(alloc, name)?)
}

/// What is known of a file's name.
fn known(readings: &[Reading], file: FileId) -> Result<Option<Option<Rc<Content>>>, OutOfMemory>
    ensures { IfOk result (λ found. option_map (option_map (λ shared. shared.value)) found ≡ option_and_then known (slice_get readings.now file.0)) }
{
    match readings.get(file.0) {
        None | Some(Reading::Unread) => Ok(None),
        Some(Reading::Absent) => Ok(Some(None)),
        Some(Reading::Held(content)) => Ok(Some(Some(content.clone()?))),
    }
}

/// Keeps what was read of a name that was not known.
fn keep(
    readings: &mut Vec<Reading>,
    file: FileId,
    content: &Option<Rc<Content>>,
) -> Result<(), OutOfMemory>
    ensures { OnOk result (IsKept readings.old.items file.0 (option_map (λ shared. shared.value) content.now) readings.new.items) }
{
    while readings.len() <= file.0 {
        readings.push(Reading::Unread)?;
    }
    readings[file.0] = reading_of(content)?;
    Ok(())
}

fn reading_of(content: &Option<Rc<Content>>) -> Result<Reading, OutOfMemory>
    ensures { IfOk result (λ reading. known reading ≡ Some (option_map (λ shared. shared.value) content.now)) }
{
    match content {
        None => Ok(Reading::Absent),
        Some(content) => Ok(Reading::Held(content.clone()?)),
    }
}

/// What a file with these bytes holds.
fn read_content(
    alloc: Global,
    names: &mut Names,
    file: FileId,
    bytes: &[u8],
    standard: Standard,
) -> Result<Content, OutOfMemory>
    ensures content { IfOk result (λ c. (files : List (List ℕ)) (name : List ℕ) → slice_get files file.0 ≡ Some name
        → IsContent standard names.new files name (Some bytes.now) (Some c)) }
    ensures held { IfOk result (λ c. (files : ℕ) → file.0 < files → IsHeldContent standard names.new files file c) }

    // at every outcome
    ensures names { Extends names.old names.new }
{
    if bytes.len() > LARGEST_FILE {
        return Ok(Content::Refused {
            cause: Cause::FileTooLarge,
            place: first_place(file),
        });
    }
    let tokens = match tokens(alloc, file, bytes, names) {
        Ok(tokens) => tokens,
        Err(LexStop::Comment(place)) => {
            return Ok(Content::Refused {
                cause: Cause::UnterminatedComment,
                place,
            });
        }
        Err(LexStop::OutOfMemory) => return Err(OutOfMemory),
    };
    match groups(alloc, names, &tokens, standard) {
        Ok(tree) => Ok(Content::Lines(FileLines {
            tokens,
            lines: tree.lines,
            end: end(file, bytes),
        })),
        Err(NestStop::Nesting(place)) => Ok(Content::Refused {
            cause: Cause::BadNesting,
            place,
        }),
        Err(NestStop::OutOfMemory) => Err(OutOfMemory),
    }
}

/// Where a file ends. Where it is refused, no place of it counts.
pub fn end_place(content: &Content) -> Place
    ensures { result ≡ end_place content.now }
{
    match content {
        Content::Lines(lines) => lines.end,
        Content::Refused { place, .. } => *place,
    }
}

/// Where a file begins.
pub fn first_place(file: FileId) -> Place
    ensures in_file { result.file ≡ file }
    ensures place { (files : List (List ℕ)) (name : List ℕ) → slice_get files file.0 ≡ Some name → seen_place files result ≡ model.first_place name }
{
    Place {
        file,
        line: 1,
        column: 1,
    }
}
