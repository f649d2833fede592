// The standard streams: the trusted edge, which tells no contents.
ghost use Rattle.std.specs.Prelude.{◌≡◌, false, None};

use crate::{Sink, SinkError, Source, SourceFault};
use std::io::{Read, Write};
use vb_cause::raised;

/// A source over a stream, as standard input. It counts the reads that failed, and tells nothing of its bytes.
#[derive(Drop)]
pub struct StdSource<R> {
    reader: R,
    faults: u64,
    stopped: bool,
}

impl<R: Read> StdSource<R> {
    /// A source over this stream.
    pub fn new(reader: R) -> StdSource<R>
        ensures { result.faults ≡ 0 }
    {
        StdSource {
            reader,
            faults: 0,
            stopped: false,
        }
    }
}

impl<R: Read> Source for StdSource<R> {
    ghost left = { λ _. None };

    ghost faults = { λ source. source.faults };

    ghost stopped = { λ source. source.stopped };

    fn read(&mut self, into: &mut [u8]) -> Result<usize, SourceFault> {
        match self.reader.read(into) {
            Ok(count) => {
                self.stopped = false;
                Ok(count)
            }
            Err(_) => {
                self.stopped = true;
                self.faults = raised(self.faults);
                Err(SourceFault)
            }
        }
    }
}

/// A sink over a stream, as standard output. It counts the writes that failed, and tells nothing of its bytes.
#[derive(Drop)]
pub struct StdSink<W> {
    writer: W,
    faults: u64,
    stopped: bool,
}

impl<W: Write> StdSink<W> {
    /// A sink over this stream.
    pub fn new(writer: W) -> StdSink<W>
        ensures { result.faults ≡ 0 }
    {
        StdSink {
            writer,
            faults: 0,
            stopped: false,
        }
    }
}

impl<W: Write> Sink for StdSink<W> {
    ghost written = { λ _. None };

    ghost faults = { λ sink. sink.faults };

    ghost shortages = { λ _. 0 };

    ghost stopped = { λ sink. sink.stopped };

    fn write(&mut self, piece: &[u8]) -> Result<usize, SinkError> {
        match self.writer.write(piece) {
            Ok(count) if count > 0 || piece.is_empty() => {
                self.stopped = false;
                Ok(count)
            }
            _ => {
                self.stopped = true;
                self.faults = raised(self.faults);
                Err(SinkError::Failed)
            }
        }
    }
}
