//! Bytes that the caller lends, as a source.
use lr_bits::Failed;
use lr_io::Source;

/// The caller's bytes as a source that never fails. It copies none but to where they are wanted.
#[derive(Drop)]
pub struct LentSource<'a> {
    pub(crate) rest: &'a [u8],
}

impl<'a> Source for LentSource<'a> {
    ghost faults = { λ _. 0 };

    ghost tells = { λ _. Unit {0} };

    ghost left = { λ s. s.rest.now };

    /// It moves all that is wanted or left.
    fn take(&mut self, into: &mut [u8]) -> Result<usize, Failed> {
        let count = into.len().min(self.rest.len());
        let (now, later) = self.rest.split_at(count);
        into[..count].copy_from_slice(now);
        self.rest = later;
        Ok(count)
    }
}
