//! superc reads C11 with all its `#if` variants at once.
#![tactic(auto)]

use sc_core::{Status, run};
use sc_source::{FileSource, Sink, StdSink};
use std::alloc::Global;
use std::env;
use std::io::ErrorKind;
use std::process::ExitCode;

/// The words of the command line, the program's name first.
fn words(rt: &HostRuntime) -> Result<Vec<String>, Status> {
    match env::args(rt) {
        Ok(words) => Ok(words.collect(rt.alloc()).map_err(|_| Status::OutOfMemory)?),
        Err(e) if e.kind() == ErrorKind::OutOfMemory => Err(Status::OutOfMemory),
        Err(_) => Err(Status::BadWords),
    }
}

fn main(rt: HostRuntime) -> ExitCode {
    let mut err = StdSink::new(rt.stderr());
    let status = match words(&rt) {
        Ok(words) => run(
            rt.alloc(),
            &words,
            &mut FileSource::new(&rt),
            &mut StdSink::new(rt.stdout()),
            &mut err,
        ),
        Err(status) => {
            let _ = err.write(match status {
                Status::OutOfMemory => b"superc: out of memory\n".as_slice(),
                _ => b"superc: the words are no text\n".as_slice(),
            });
            status
        }
    };
    ExitCode::from(status.code())
}
