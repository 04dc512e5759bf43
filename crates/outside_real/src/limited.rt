//! The writers of a program, which keep to the limit of the size of files.
use crate::limits::check_room;
use std::io::{self, Write};
use std::rt::Files;

/// A stream that a program is given to write to.
#[derive(Clone, Copy, Debug, PartialEq, Eq)]
pub enum Stream {
    /// Standard output.
    Output,
    /// Standard error.
    Error,
}

impl Stream {
    // Its descriptor.
    fn descriptor(self) -> i32 {
        match self {
            Stream::Output => 1,
            Stream::Error => 2,
        }
    }

    // The place at which Linux shows what it is.
    fn place(self) -> &'static str {
        match self {
            Stream::Output => "/proc/self/fd/1",
            Stream::Error => "/proc/self/fd/2",
        }
    }
}

/// The writer of a stream. A write to a file that is at its limit is an error: the system would end the program by the signal
/// SIGXFSZ.
#[derive(Drop)]
pub struct LimitedWriter<R: Files + Drop, W: Write + Drop> {
    files: R,
    stream: Stream,
    writer: W,
}

impl<R: Files + Drop, W: Write + Drop> LimitedWriter<R, W> {
    /// This writer, which writes to the stream.
    pub fn new(files: R, stream: Stream, writer: W) -> LimitedWriter<R, W> {
        LimitedWriter {
            files,
            stream,
            writer,
        }
    }
}

impl<R: Files + Drop, W: Write + Drop> Write for LimitedWriter<R, W> {
    fn write(&mut self, buf: &[u8]) -> io::Result<usize> {
        if !buf.is_empty() {
            check_room(&self.files, self.stream.descriptor(), self.stream.place())?;
        }
        self.writer.write(buf)
    }

    fn flush(&mut self) -> io::Result<()> {
        self.writer.flush()
    }
}
