//! A sink that takes little at a time.
ghost use Rattle.std.specs.Prelude.{◌≡◌, ◌≤◌, ◌<◌, ℕ, IfOk};
ghost use Rattle.std.specs.Io.{WritesAtMost};
ghost use Rattle.gv_base.specs.Sinks.{Writes};

use gv_base::{Failed, Sink};

/// A sink that takes at most so many bytes a write. It shows what the one below shows: the same
/// bytes are held, the same writes fail or take nothing.
#[derive(Drop)]
pub struct SlowSink<O: Sink + Drop> {
    sink: O,
    most: usize,
    ghost some: { 0 < most },
}

impl<O: Sink + Drop> SlowSink<O> {
    /// A sink over another that takes at most `most` bytes a write.
    pub fn new(sink: O, most: usize) -> Self
        requires { 0 < most }
        ensures sink { result.sink ≡ sink }
        ensures most { result.most ≡ most }
    {
        SlowSink { sink, most }
    }

    /// The sink below.
    pub fn sink(&self) -> &O
        ensures { result.now ≡ self.now.sink }
    {
        &self.sink
    }
}

impl<O: Sink + Drop> Sink for SlowSink<O> {
    ghost view = { λ s. O.view s.sink };

    fn write(&mut self, bytes: &[u8]) -> Result<usize, Failed>
        ensures bound { WritesAtMost result bytes.now }
        ensures writes { Writes (O.view self.old.sink) (O.view self.new.sink) result bytes.now }
        ensures slow { IfOk result (λ count. count ≤ self.old.most) }
        ensures most { self.new.most ≡ self.old.most }
    {
        let count = self.most.min(bytes.len());
        self.sink.write(&bytes[..count])
    }
}
