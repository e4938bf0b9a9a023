//! The real devices: a source over a reader of std, and a sink over a writer of std.
//!
//! What they give and take is as std's contracts say: over bytes in memory these tell the content,
//! over standard input and output they tell nothing. What they count is exact over any reader and
//! any writer, by the clauses of `Source` and `Sink`.
ghost use Rattle.std.specs.Prelude.{◌≡◌};

use gv_base::{Failed, Sink, Source};
use std::io::{Read, Write};

/// A source over a reader.
#[derive(Drop)]
pub struct StdSource<R: Read + Drop> {
    reader: R,
    faults: u64,
    given: u64,
}

impl<R: Read + Drop> StdSource<R> {
    /// A source of what the reader gives. Nothing has failed, and nothing was given.
    pub fn new(reader: R) -> Self
        ensures left { R.remaining result.reader ≡ R.remaining reader }
        ensures faults { result.faults ≡ 0 }
        ensures given { result.given ≡ 0 }
    {
        StdSource {
            reader,
            faults: 0,
            given: 0,
        }
    }
}

impl<R: Read + Drop> Source for StdSource<R> {
    ghost view = { λ s. record { left = R.remaining s.reader; faults = s.faults; given = s.given } };

    fn read(&mut self, into: &mut [u8]) -> Result<usize, Failed> {
        match self.reader.read(into) {
            Ok(count) => {
                self.given = self.given.saturating_add(count as u64);
                Ok(count)
            }
            Err(_) => {
                self.faults = self.faults.saturating_add(1);
                Err(Failed)
            }
        }
    }
}

/// A sink over a writer.
#[derive(Drop)]
pub struct StdSink<W: Write + Drop> {
    writer: W,
    faults: u64,
    stalls: u64,
}

impl<W: Write + Drop> StdSink<W> {
    /// A sink to what the writer takes. Nothing has failed, and nothing was stuck.
    pub fn new(writer: W) -> Self
        ensures held { W.contents result.writer ≡ W.contents writer }
        ensures faults { result.faults ≡ 0 }
        ensures stalls { result.stalls ≡ 0 }
    {
        StdSink {
            writer,
            faults: 0,
            stalls: 0,
        }
    }
}

impl<W: Write + Drop> Sink for StdSink<W> {
    ghost view = { λ s. record { held = W.contents s.writer; faults = s.faults; stalls = s.stalls } };

    fn write(&mut self, bytes: &[u8]) -> Result<usize, Failed> {
        match self.writer.write(bytes) {
            Ok(count) => {
                if count == 0 && !bytes.is_empty() {
                    self.stalls = self.stalls.saturating_add(1);
                }
                Ok(count)
            }
            Err(_) => {
                self.faults = self.faults.saturating_add(1);
                Err(Failed)
            }
        }
    }
}
