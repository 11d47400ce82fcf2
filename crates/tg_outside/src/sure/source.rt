ghost use Rattle.std.specs.Prelude.{◌≡◌, Some};

use crate::fault::Failed;
use crate::rest::Rest;
use crate::source::Source;

/// A source in memory that never fails.
#[derive(Clone, Copy, Debug)]
pub struct SureSource<'a> {
    rest: Rest<'a>,
}

impl<'a> SureSource<'a> {
    /// These bytes are left.
    pub fn new(bytes: &'a [u8]) -> SureSource<'a>
        ensures { ⟦<SureSource<'a> as Source>⟧.left result ≡ Some bytes.now }
    {
        SureSource {
            rest: Rest { bytes },
        }
    }
}

impl Source for SureSource<'_> {
    ghost left = { λ it. Some it.rest.bytes.now };

    ghost faults = { λ _. 0 };

    fn read(&mut self, buffer: &mut [u8]) -> Result<usize, Failed> {
        Ok(self.rest.take_front(buffer, usize::MAX))
    }
}
