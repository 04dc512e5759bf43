//! The real sink.
use outside::Sink;
use outside_real::RealSink;
use std::alloc::Global;
use std::fs;
use std::io::{self, ErrorKind, Write};
use std::test::Fail;
use test_support::{new_folder, remove_folder};

// A writer that a signal comes to once.
#[derive(Drop)]
struct Signalled {
    came: bool,
}

impl Write for Signalled {
    fn write(&mut self, piece: &[u8]) -> io::Result<usize> {
        if !self.came {
            self.came = true;
            return Err(io::Error::from(ErrorKind::Interrupted));
        }
        Ok(piece.len())
    }

    fn flush(&mut self) -> io::Result<()> {
        Ok(())
    }
}

// Whether a sink over a full device fails.
fn fails_when_full(rt: &HostRuntime) -> Result<bool, Fail> {
    let mut full = RealSink::new(rt.alloc(), fs::create(rt, "/dev/full")?);
    Ok(full.write(b"line\n").is_err())
}

// Whether a sink takes a line that a signal comes before.
fn outlasts_a_signal(alloc: Global) -> bool {
    let mut signalled = RealSink::new(alloc, Signalled { came: false });
    signalled.write(b"line\n") == Ok(5)
}

#[test]
fn a_sink_writes_or_fails(rt: HostRuntime) -> Result<(), Fail> {
    assert!(rt; fails_when_full(&rt)?);
    assert!(rt; outlasts_a_signal(rt.alloc()));
    let folder = new_folder(&rt, "sink")?;
    let place = format!(in rt.alloc(); "{folder}/out")?;
    let mut sink = RealSink::new(rt.alloc(), fs::create(&rt, place.as_str())?);
    assert!(rt; sink.write(b"") == Ok(0) && sink.write(b"line\n") == Ok(5));
    assert!(rt; fs::read(&rt, place.as_str())?.as_slice() == b"line\n".as_slice());
    remove_folder(&rt, folder.as_str())
}
