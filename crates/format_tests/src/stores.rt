//! A store that tells nothing of what it holds, so that a test reads any bytes without a proof of them.

use std::alloc::Global;
use store_model::{ReadFault, Reader, SealFault, Store, StoreFault};

/// One file, which has these bytes again and again.
#[derive(Drop)]
pub struct Repeated {
    pub bytes: Vec<u8>,
}

#[derive(Drop)]
pub struct NoReader;

impl Reader for NoReader {
    ghost use Rattle.std.specs.Prelude.{None};

    ghost sealed = { λ r. record { file = 0; content = None; failed = 0 } };

    fn read_at(&mut self, _at: u64, _out: &mut [u8]) -> Result<(), ReadFault> {
        Ok(())
    }
}

impl Store for Repeated {
    type R = NoReader;

    ghost use Rattle.store_model.specs.Lawful.{AreLawful};
    ghost use Rattle.store_model.specs.Trace.{ReadsAreImages};
    ghost use Rattle.format_tests.specs.Silent.{silent, tells_nothing};

    ghost disk = { λ s. silent };

    ghost reads_are_images = { λ s. tells_nothing ReadsAreImages };

    ghost files_are_lawful = { λ s. tells_nothing AreLawful };

    fn files(&self) -> u32 {
        1
    }

    fn moment(&self) -> u64 {
        0
    }

    fn failed(&self, _file: u32) -> u64 {
        0
    }

    fn len(&mut self, _file: u32) -> Result<u64, StoreFault> {
        Ok(0)
    }

    fn read_at(&mut self, _file: u32, at: u64, out: &mut [u8]) -> Result<(), StoreFault> {
        for (k, byte) in out.iter_mut().enumerate() {
            let place = at.saturating_add(k as u64);
            if !self.bytes.is_empty() {
                *byte = self.bytes[place as usize % self.bytes.len()];
            }
        }
        Ok(())
    }

    fn write_at(&mut self, _file: u32, _at: u64, _bytes: &[u8]) -> Result<(), StoreFault> {
        Ok(())
    }

    fn grow(&mut self, _file: u32, _len: u64) -> Result<(), StoreFault> {
        Ok(())
    }

    fn sync(&mut self, _file: u32) -> Result<(), StoreFault> {
        Ok(())
    }

    fn seal(&mut self, _file: u32, _n: u32) -> Result<Vec<NoReader>, SealFault> {
        Err(SealFault::NoRoom)
    }
}
