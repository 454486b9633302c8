//! A source in memory that gives a few bytes a call.
ghost use Rattle.std.specs.Prelude.{◌<◌, ◌≤◌};

use lr_bits::Failed;
use lr_io::{MemSource, Source};

/// A source of which each call takes at most `most` bytes.
#[derive(Drop)]
pub struct ShortSource {
    source: MemSource,
    most: usize,
    ghost some: { 0 < most },
}

impl ShortSource {
    /// The source, of which each read gives at most `most` bytes, and at least one where some are left.
    pub fn of(source: MemSource, most: usize) -> Self {
        ShortSource {
            source,
            most: most.max(1),
        }
    }
}

impl Source for ShortSource {
    ghost use Rattle.lr_io.specs.MemSource.{left_of, faults_of};

    ghost faults = { λ s. faults_of s.source };

    ghost tells = { λ _. Unit {0} };

    ghost left = { λ s. left_of s.source };

    fn take(&mut self, into: &mut [u8]) -> Result<usize, Failed> {
        let size = into.len().min(self.most);
        self.source.take(&mut into[..size])
    }
}
