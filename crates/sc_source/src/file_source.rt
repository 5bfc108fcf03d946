ghost use Rattle.std.specs.Prelude.{◌≡◌, ◌≤◌, [], ◌∷◌, ◌↔◌, Contains, IfOk, IfSome, IsErrOf, IsTrue, None, take, vec_len};
ghost use Rattle.sc_model.specs.Outside.{Rose};

use crate::fault_plan::next_count;
use crate::{Source, SourceStop};
use sc_base::LARGEST_FILE;
use std::alloc::Global;
use std::fs::File;
use std::io::{ErrorKind, Read};
use std::rt::Files;

/// The most bytes that are read of one file: one more than a file may have.
pub const MOST_READ: usize = LARGEST_FILE + 1;

/// The files of the system. What they hold no contract can tell, so it tells nothing.
///
/// A file that is missing is `None`, and so is one whose name no file can have: with a zero byte,
/// with a component that is no directory, with more bytes than the system takes. Every other error
/// fails. Of a long file the first `MOST_READ` bytes are read.
#[derive(Drop)]
pub struct FileSource<R> {
    rt: R,
    faults: u64,
}

impl<R: Files> FileSource<R> {
    ghost use Rattle.sc_source.specs.FileSource.{faults_of};

    /// The files that `rt` reaches.
    pub fn new(rt: R) -> Self
        ensures { faults_of result ≡ 0 }
    {
        FileSource { rt, faults: 0 }
    }
}

impl<R: Files> Source for FileSource<R> {
    ghost use Rattle.sc_source.specs.FileSource.{faults_of};

    ghost holds = { λ _. None };

    ghost faults = { faults_of };

    fn read(&mut self, alloc: Global, name: &str) -> Result<Option<Vec<u8>>, SourceStop>
        ensures counted { faults_of self.old ≤ faults_of self.new }
        ensures failed { IsErrOf result SourceStop.Failed → Rose (faults_of self.old) (faults_of self.new) }
        ensures stays { (IsErrOf result SourceStop.Failed → ⊥) → faults_of self.new ≡ faults_of self.old }
        ensures bounded { IfOk result (λ text. IfSome text (λ bytes. vec_len bytes ≤ MOST_READ)) }
        ensures zero_byte { Contains name.now 0 → result ≡ Ok None }
    {
        let answer = read_file(&self.rt, alloc, name);
        if matches!(&answer, Err(SourceStop::Failed)) {
            self.faults = next_count(self.faults);
        }
        answer
    }
}

fn read_file<R: Files>(rt: &R, alloc: Global, name: &str) -> Result<Option<Vec<u8>>, SourceStop>
    ensures bounded { IfOk result (λ text. IfSome text (λ bytes. vec_len bytes ≤ MOST_READ)) }
    ensures zero_byte { Contains name.now 0 → result ≡ Ok None }
{
    if name.as_bytes().contains(&0) {
        return Ok(None);
    }
    match File::open(rt, name) {
        Ok(file) => Ok(Some(read_front(file, alloc, MOST_READ)?)),
        Err(e) if tells_absence(e.kind()) => Ok(None),
        Err(_) => Err(SourceStop::Failed),
    }
}

// Whether an error on opening a file says that there is no file of that name.
fn tells_absence(kind: ErrorKind) -> bool
    ensures { IsTrue result ↔ Contains (ErrorKind.NotFound ∷ ErrorKind.NotADirectory ∷ ErrorKind.InvalidFilename ∷ []) kind }
{
    matches!(
        kind,
        ErrorKind::NotFound | ErrorKind::NotADirectory | ErrorKind::InvalidFilename
    )
}

// The first bytes of a file, `most` or as many as it has.
fn read_front<F: Read + Drop>(file: F, alloc: Global, most: usize) -> Result<Vec<u8>, SourceStop>
    ensures bounded { IfOk result (λ bytes. vec_len bytes ≤ most) }
    ensures front { IfSome (F.remaining file) (λ all. IfOk result (λ bytes. bytes.items ≡ take most all)) }
{
    let mut bytes = Vec::new(alloc);
    match file.take(most as u64).read_to_end(&mut bytes) {
        Ok(_) => {
            // No more was read. The contract of `read_to_end` doesn't say so.
            bytes.truncate(most);
            Ok(bytes)
        }
        Err(e) if e.kind() == ErrorKind::OutOfMemory => Err(SourceStop::OutOfMemory),
        Err(_) => Err(SourceStop::Failed),
    }
}
