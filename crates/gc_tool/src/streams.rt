//! The edge of the program: a source and a sink over the readers and writers of std. What a reader tells of the bytes
//! that it has left, and a writer of those that it holds, they tell.

ghost use Rattle.std.specs.Prelude.{◌≡◌};

use crate::sink::{Sink, SinkFailed};
use crate::source::{Source, SourceFailed};
use std::io::{Read, Write};

/// A reader as a source.
#[derive(Drop)]
pub struct InputSource<R> {
    reader: R,
    faults: u64,
}

impl<R: Read> InputSource<R> {
    /// The reader as it is, and no faults.
    pub fn new(reader: R) -> InputSource<R>
        ensures reader { result.reader ≡ reader }
        ensures faults { result.faults ≡ 0 }
    {
        InputSource { reader, faults: 0 }
    }
}

impl<R: Read> Source for InputSource<R> {
    ghost left = { λ source. R.remaining source.reader };

    ghost faults = { λ source. source.faults };

    /// One call of the reader. Each error that it gives is a fault.
    fn take(&mut self, buffer: &mut [u8]) -> Result<usize, SourceFailed> {
        match self.reader.read(buffer) {
            Ok(count) => Ok(count),
            Err(_) => {
                self.faults = self.faults.saturating_add(1);
                Err(SourceFailed)
            }
        }
    }
}

/// A writer as a sink.
#[derive(Drop)]
pub struct OutputSink<W> {
    writer: W,
    faults: u64,
}

impl<W: Write> OutputSink<W> {
    /// The writer as it is, and no faults.
    pub fn new(writer: W) -> OutputSink<W>
        ensures writer { result.writer ≡ writer }
        ensures faults { result.faults ≡ 0 }
    {
        OutputSink { writer, faults: 0 }
    }
}

impl<W: Write> Sink for OutputSink<W> {
    ghost holds = { λ sink. W.contents sink.writer };

    ghost faults = { λ sink. sink.faults };

    /// One call of the writer. Each error that it gives is a fault, and so is a write of no byte of a piece
    /// that has some.
    fn give(&mut self, piece: &[u8]) -> Result<usize, SinkFailed> {
        match self.writer.write(piece) {
            Ok(count) if count > 0 || piece.is_empty() => Ok(count),
            _ => {
                self.faults = self.faults.saturating_add(1);
                Err(SinkFailed)
            }
        }
    }
}

#[cfg(test)]
mod tests {
    use super::*;
    use std::io::{self, Error, ErrorKind};

    // Fails in its first call, and reads or writes in the next ones.
    #[derive(Drop)]
    struct Late<T> {
        inner: T,
        is_ready: bool,
    }

    impl<T> Late<T> {
        fn new(inner: T) -> Late<T> {
            Late {
                inner,
                is_ready: false,
            }
        }

        fn wake(&mut self) -> io::Result<()> {
            if self.is_ready {
                return Ok(());
            }
            self.is_ready = true;
            Err(Error::from(ErrorKind::Other))
        }
    }

    impl<R: Read> Read for Late<R> {
        fn read(&mut self, buf: &mut [u8]) -> io::Result<usize> {
            self.wake()?;
            self.inner.read(buf)
        }
    }

    impl<W: Write> Write for Late<W> {
        fn write(&mut self, buf: &[u8]) -> io::Result<usize> {
            self.wake()?;
            self.inner.write(buf)
        }

        fn flush(&mut self) -> io::Result<()> {
            self.inner.flush()
        }
    }

    #[test]
    fn passes_bytes_and_errors_on(rt: HostRuntime) {
        let mut source = InputSource::new(Late::new(b"four".as_slice()));
        let mut buffer = [0; 3];
        assert_eq!(rt; source.take(&mut buffer), Err(SourceFailed));
        assert_eq!(rt; source.take(&mut buffer), Ok(3));
        assert_eq!(rt; buffer, *b"fou");
        assert_eq!(rt; source.take(&mut buffer), Ok(1));
        assert_eq!(rt; source.take(&mut buffer), Ok(0));

        let mut room = [0; 3];
        let mut sink = OutputSink::new(Late::new(room.as_mut_slice()));
        assert_eq!(rt; sink.give(b"four"), Err(SinkFailed));
        assert_eq!(rt; sink.give(b"four"), Ok(3));
        assert_eq!(rt; sink.give(b"r"), Err(SinkFailed));
        assert_eq!(rt; sink.give(b""), Ok(0));
    }
}
