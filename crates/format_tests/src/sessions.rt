//! A session of a file whose bytes changed behind its opening.

ghost use Rattle.std.specs.Prelude.{◌≡◌};
ghost use Rattle.vhdx_format.specs.FileParts.{HasNumbers};

use crate::asking::{ask, given, zeros};
use layer_session::Layer;
use log_write::SessionIds;
use std::alloc::Global;
use std::process::Abort;
use store_model::{ReadFault, Reader, SealFault, Store, StoreFault};
use vx_base::{Bytes, Geometry, Guid, Header, Parts, put_u64};

/// A store of one file, which has these bytes again and again, tells nothing, and isn't made longer. It counts that, and what is written.
#[derive(Drop)]
pub struct Bounded {
    pub bytes: Vec<u8>,
    pub failed: u64,
    pub written: u64,
}

#[derive(Drop)]
pub struct NoReader;

impl Reader for NoReader {
    ghost use Rattle.std.specs.Prelude.{None};

    ghost sealed = { λ r. record { file = 0; content = None; failed = 0 } };

    fn read_at(&mut self, _at: u64, _out: &mut [u8]) -> Result<(), ReadFault> {
        Ok(())
    }
}

impl Store for Bounded {
    type R = NoReader;

    ghost use Rattle.store_model.specs.Lawful.{AreLawful};
    ghost use Rattle.store_model.specs.Trace.{ReadsAreImages};
    ghost use Rattle.format_tests.specs.Silent.{bounded, bounded_tells_nothing};

    ghost disk = { λ s. bounded s.failed };

    ghost reads_are_images = { λ s. bounded_tells_nothing ReadsAreImages s.failed };

    ghost files_are_lawful = { λ s. bounded_tells_nothing AreLawful s.failed };

    fn files(&self) -> u32 {
        1
    }

    fn moment(&self) -> u64 {
        0
    }

    fn failed(&self, _file: u32) -> u64 {
        self.failed
    }

    fn len(&mut self, _file: u32) -> Result<u64, StoreFault> {
        Ok(1 << 30)
    }

    fn read_at(&mut self, _file: u32, at: u64, out: &mut [u8]) -> Result<(), StoreFault> {
        for (k, byte) in out.iter_mut().enumerate() {
            let place = at.saturating_add(k as u64);
            if !self.bytes.is_empty() {
                *byte = self.bytes[place as usize % self.bytes.len()];
            }
        }
        Ok(())
    }

    fn write_at(&mut self, _file: u32, _at: u64, _bytes: &[u8]) -> Result<(), StoreFault> {
        self.written = self.written.saturating_add(1);
        Ok(())
    }

    fn grow(&mut self, file: u32, _len: u64) -> Result<(), StoreFault> {
        self.failed = self.failed.saturating_add(1);
        Err(StoreFault {
            file,
            count: self.failed,
        })
    }

    fn sync(&mut self, _file: u32) -> Result<(), StoreFault> {
        Ok(())
    }

    fn seal(&mut self, _file: u32, _n: u32) -> Result<Vec<NoReader>, SealFault> {
        Err(SealFault::NoRoom)
    }
}

/// A file with a parent, of three blocks of 256 MB, so that the 17th entry is their bitmap's.
#[tactic(auto, unfolding(vhdx_format::specs::AllocationTables::table_entries))]
fn child(alloc: Global) -> Parts
    ensures numbers { HasNumbers result }
    ensures header { result.header.number ≡ 1 }
    ensures sector { result.geometry.sector ≡ 512 }
    ensures sectors { result.geometry.sectors ≡ 1572864 }
{
    Parts {
        header: Header {
            copy: 1,
            number: 1,
            file_write: Guid::zero(),
            data_write: Guid::zero(),
            log: Guid::zero(),
            log_version: 0,
            version: 1,
            log_len: 1_048_576,
            log_at: 1_048_576,
        },
        geometry: Geometry {
            sector: 512,
            sectors: 1_572_864,
        },
        disk: Guid::zero(),
        block: 268_435_456,
        leave: false,
        parent: true,
        bat_at: 3_145_728,
        bat_len: 1_048_576,
        meta_at: 2_097_152,
        meta_len: 1_048_576,
        locator: Some(Bytes::new(alloc)),
        retired: None,
    }
}

// A table by which the first block is partially present, and its sector bitmap block lies in the log.
fn table<R: Abort>(rt: &R, alloc: Global) -> Bounded {
    let mut bytes = zeros(rt, alloc, 4_096);
    put_u64(&mut bytes, 0, 0x0000_0000_0050_0007);
    put_u64(&mut bytes, 128, 0x0000_0000_0010_0006);
    Bounded {
        bytes,
        failed: 0,
        written: 0,
    }
}

#[test]
fn bits_in_the_log_break_the_session(rt: HostRuntime) {
    let alloc = rt.alloc();
    let parts = child(alloc);
    let mut store = table(&rt, alloc);
    let ids = SessionIds {
        file_write: Guid::zero(),
        data_write: None,
        log: Guid::zero(),
    };
    let mut layer = given(&rt, Layer::begin(alloc, &mut store, 0, &parts, ids, 1));
    given(&rt, layer.put(&mut store, 8, &[1; 512]));
    let before = store.written;
    ask(
        &rt,
        1,
        layer.commit(&mut store) == Err(StoreFault { file: 0, count: 1 }),
    );
    ask(&rt, 2, store.written == before);
}
