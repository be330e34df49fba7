//! Showing sectors.

ghost use Rattle.std.specs.Prelude.{◌≡◌, ◌⊎◌, codes, length};
ghost use Rattle.printing.specs.Answers.{IsGiven, sector_lines};
ghost use Rattle.printing.specs.Sent.{Sent};

use crate::line::{PAGE_LEN, send_sectors};
use crate::print::out_of_memory;
use crate::status::Status;
use std::alloc::Global;
use store_model::Sink;
use vx_base::zeroed;

// Prints the lines of sectors by pages of this room.
fn show_by<K: Sink>(out: &mut K, page: &mut [u8], first: u64, count: u64, sectors: &[u8]) -> Status
    requires page { length page.old ≡ 65536 }
    requires given { IsGiven first count sectors.now }
    ensures { Sent (K.written out.old) (K.written out.new) (K.faults out.old) (K.faults out.new) Status.Done (sector_lines 512 first sectors.now count) result }
{
    match send_sectors(out, page, first, count, sectors) {
        Ok(()) => Status::Done,
        Err(_) => Status::Fault,
    }
}

/// Prints the lines of sectors, or that memory ran out for a page of them.
pub fn show<K: Sink>(alloc: Global, out: &mut K, first: u64, count: u64, sectors: &[u8]) -> Status
    requires { IsGiven first count sectors.now }
    ensures { Sent (K.written out.old) (K.written out.new) (K.faults out.old) (K.faults out.new) Status.Done (sector_lines 512 first sectors.now count) result
        ⊎ Sent (K.written out.old) (K.written out.new) (K.faults out.old) (K.faults out.new) Status.NoMemory (codes "no memory\n") result }
{
    match zeroed(alloc, PAGE_LEN) {
        Ok(mut page) => show_by(out, page.as_mut_slice(), first, count, sectors),
        Err(_) => out_of_memory(out),
    }
}
