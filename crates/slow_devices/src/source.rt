//! A source that gives little at a time.
ghost use Rattle.std.specs.Prelude.{◌≡◌, ◌≤◌, ◌<◌, ℕ, IfOk};
ghost use Rattle.std.specs.Io.{ReadsAtMost};
ghost use Rattle.gv_base.specs.Sources.{Reads};

use gv_base::{Failed, Source};

/// A source that gives at most so many bytes a read. It shows what the one below shows: the same
/// bytes are left, the same reads fail.
#[derive(Drop)]
pub struct SlowSource<S: Source + Drop> {
    source: S,
    most: usize,
    ghost some: { 0 < most },
}

impl<S: Source + Drop> SlowSource<S> {
    /// A source over another that gives at most `most` bytes a read.
    pub fn new(source: S, most: usize) -> Self
        requires { 0 < most }
        ensures source { result.source ≡ source }
        ensures most { result.most ≡ most }
    {
        SlowSource { source, most }
    }

    /// The source below.
    pub fn source(&self) -> &S
        ensures { result.now ≡ self.now.source }
    {
        &self.source
    }
}

impl<S: Source + Drop> Source for SlowSource<S> {
    ghost view = { λ s. S.view s.source };

    fn read(&mut self, into: &mut [u8]) -> Result<usize, Failed>
        ensures bound { ReadsAtMost result into.new }
        ensures reads { Reads (S.view self.old.source) (S.view self.new.source) result into.new }
        ensures slow { IfOk result (λ count. count ≤ self.old.most) }
        ensures most { self.new.most ≡ self.old.most }
    {
        let count = self.most.min(into.len());
        self.source.read(&mut into[..count])
    }
}
