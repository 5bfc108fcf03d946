use sc_source::{Failed, FileSource, MemorySink, MemorySource, Sink, Source, SourceStop, StdSink};
use std::io::Write;
use std::test::Fail;
use std::{env, fs, io, process};

#[test]
fn memory_source(rt: HostRuntime) -> Result<(), Fail> {
    let mut source = MemorySource::new(rt.alloc());
    source.add("m.c", b"int x;")?;
    source.fail_at(1)?;
    let main = source.read(rt.alloc(), "m.c")?.ok_or("absent")?;
    assert_eq!(rt; main.as_slice(), b"int x;".as_slice());
    let failed = source.read(rt.alloc(), "m.c").err();
    assert_eq!(rt; failed, Some(SourceStop::Failed));
    Ok(())
}

#[test]
fn memory_sink(rt: HostRuntime) -> Result<(), Fail> {
    let mut sink = MemorySink::new(rt.alloc());
    sink.fail_at(1)?;
    sink.write(b"end\n")?;
    assert_eq!(rt; sink.write(b"root 5\n"), Err(Failed));
    assert_eq!(rt; sink.bytes(rt.alloc())?.as_slice(), b"end\nroo".as_slice());
    assert_eq!(rt; sink.writes().len(), 2);
    Ok(())
}

#[test]
fn file_source(rt: HostRuntime) -> Result<(), Fail> {
    let alloc = rt.alloc();
    let temp = env::temp_dir(&rt)?;
    let name = format!(in alloc;
        "{}/sc_source-{}.c",
        temp.as_str(),
        process::id(rt.process())
    )?;
    fs::write(&rt, name.as_str(), "int x;\n")?;
    let mut source = FileSource::new(&rt);
    let found = source.read(alloc, name.as_str())?.ok_or("absent")?;
    assert_eq!(rt; found.as_slice(), b"int x;\n".as_slice());
    let below = format!(in alloc; "{name}/h")?;
    let long = "h".repeat(alloc, 5000)?;
    for missing in [below.as_str(), long.as_str(), "short\0.c"] {
        assert!(rt; source.read(alloc, missing)?.is_none());
    }
    fs::remove_file(&rt, name.as_str())?;
    assert!(rt; source.read(alloc, name.as_str())?.is_none());
    let failed = source.read(alloc, temp.as_str()).err();
    assert_eq!(rt; failed, Some(SourceStop::Failed));
    Ok(())
}

// Takes two bytes at a time as long as it has room.
#[derive(Drop)]
struct Narrow {
    taken: Vec<u8>,
    room: usize,
    flushes: u8,
}

impl Write for Narrow {
    fn write(&mut self, buf: &[u8]) -> io::Result<usize> {
        let count = buf.len().min(2).min(self.room);
        self.taken.extend_from_slice(&buf[..count])?;
        self.room -= count;
        Ok(count)
    }

    fn flush(&mut self) -> io::Result<()> {
        self.flushes = self.flushes.saturating_add(1);
        Ok(())
    }
}

#[test]
fn std_sink(rt: HostRuntime) -> Result<(), Fail> {
    let mut to = Narrow {
        taken: Vec::new(rt.alloc()),
        room: 6,
        flushes: 0,
    };
    let mut sink = StdSink::new(&mut to);
    sink.write(b"end\n")?;
    assert_eq!(rt; sink.write(b"root -\n"), Err(Failed));
    let _ = sink;
    assert_eq!(rt; to.taken.as_slice(), b"end\nro".as_slice());
    assert_eq!(rt; to.flushes, 1);
    StdSink::new(rt.stdout()).write(b"written by a test\n")?;
    Ok(())
}
