//! What the file shows with pages laid over it.

ghost use Rattle.std.specs.Prelude.{◌≡◌, ◌≤◌, ◌<◌, ◌+◌, ◌%◌, ◌/◌, ◌^◌, length, OnOk, IfErr};
ghost use Rattle.store_model.specs.Disk.{LeavesStore, WhereTold};
ghost use Rattle.vx_base.specs.Fields as fields;
ghost use Rattle.log_format.specs.PendingPages.{HasOnePageEach};
ghost use Rattle.meta_edit.specs.Edits.{fault_of};
ghost use Rattle.meta_edit.specs.Pages.{ArePages, laid_file, with_pages};
ghost use Rattle.meta_edit.specs.Steps as spec;
ghost use Rattle.meta_edit.specs.Steps.{IsLaid, IsFromOutside, WritesLaid};

use crate::MetaRefusal;
use crate::list::Updates;
use store_model::Store;
use vhdx_format::Page;
use vx_base::{Parts, put_bytes};

/// A file whose metadata are changed, with the pages of earlier updates laid over it.
#[derive(Clone, Copy)]
pub struct LaidFile<'a> {
    pub file: u32,
    pub parts: &'a Parts,
    pub over: &'a [Page],
}

// Lays a page over the bytes from a place on, where it lies among them.
fn lay_page(out: &mut [u8], at: u64, page: &Page)
    requires { at + length out.old < 2 ^ 64 }
    ensures { out.new ≡ spec.part_with at out.old page.now }
{
    let end = at + out.len() as u64;
    if at <= page.at && page.at < end && end - page.at >= 4096 {
        put_bytes(out, (page.at - at) as usize, &page.bytes);
    }
}

// The same of pages, one after another.
#[tactic(auto, using(crate::proofs::PageLaws::next_laid, crate::proofs::PageLaws::none_laid))]
fn lay(out: &mut [u8], at: u64, pages: &[Page])
    requires { at + length out.old < 2 ^ 64 }
    ensures { out.new ≡ spec.part_with_all at out.old pages.now }
{
    for page in pages {
        lay_page(out, at, page);
    }
}

/// Reads bytes of the metadata's region, with pages laid over the file: whole pages.
pub fn read_laid<S: Store>(
    store: &mut S,
    laid: &LaidFile<'_>,
    at: u64,
    out: &mut [u8],
) -> Result<(), MetaRefusal>
    requires laid { IsLaid laid.now (S.disk store.old) }
    requires at { at % 4096 ≡ 0 }
    requires len { length out.old % 4096 ≡ 0 }
    requires first { laid.now.parts.now.meta_at ≤ at }
    requires last { at + length out.old ≤ laid.now.parts.now.meta_at + laid.now.parts.now.meta_len }
    ensures bytes { OnOk result (WhereTold (S.disk store.old).told
        (λ trace. out.new ≡ fields.bytes_at (laid_file trace laid.now.file laid.now.over.now) at (length out.old))) }
    ensures err { IfErr result IsFromOutside }
    ensures store { LeavesStore fault_of laid.now.file (S.disk store.old) (S.disk store.new) result }
{
    store.read_at(laid.file, at, out)?;
    lay(out, at, laid.over);
    Ok(())
}

// The bytes of a page, with the pages of an update laid over too.
fn read_page<S: Store>(
    store: &mut S,
    laid: &LaidFile<'_>,
    updates: &Updates,
    at: u64,
    out: &mut [u8],
) -> Result<(), MetaRefusal>
    requires laid { IsLaid laid.now (S.disk store.old) }
    requires updates { ArePages laid.now.parts.now updates.now }
    requires at { at % 4096 ≡ 0 }
    requires out { length out.old ≡ 4096 }
    requires first { laid.now.parts.now.meta_at ≤ at }
    requires last { at + 4096 ≤ laid.now.parts.now.meta_at + laid.now.parts.now.meta_len }
    ensures apart { OnOk result (HasOnePageEach updates.now) }
    ensures bytes { OnOk result (WhereTold (S.disk store.old).told
        (λ trace. out.new ≡ fields.bytes_at (with_pages updates.now (laid_file trace laid.now.file laid.now.over.now)) at 4096)) }
    ensures err { IfErr result IsFromOutside }
    ensures store { LeavesStore fault_of laid.now.file (S.disk store.old) (S.disk store.new) result }
{
    read_laid(store, laid, at, out)?;
    lay(out, at, updates.as_slice());
    Ok(())
}

// Changes bytes of one page.
fn put_piece<S: Store>(
    store: &mut S,
    laid: &LaidFile<'_>,
    updates: &mut Updates,
    at: u64,
    bytes: &[u8],
) -> Result<(), MetaRefusal>
    requires laid { IsLaid laid.now (S.disk store.old) }
    requires updates { ArePages laid.now.parts.now updates.old }
    requires first { laid.now.parts.now.meta_at ≤ at }
    requires last { at < laid.now.parts.now.meta_at + laid.now.parts.now.meta_len }
    requires piece { at % 4096 + length bytes.now ≤ 4096 }
    ensures written { OnOk result (WritesLaid laid.now at bytes.now (S.disk store.old) updates.old updates.new) }
    ensures pages { OnOk result (ArePages laid.now.parts.now updates.new) }
    ensures few { OnOk result (length updates.new ≤ length updates.old + 1) }
    ensures err { IfErr result IsFromOutside }
    ensures store { LeavesStore fault_of laid.now.file (S.disk store.old) (S.disk store.new) result }
{
    let start = at - at % 4096;
    let mut page = Page {
        at: start,
        bytes: [0; 4096],
    };
    read_page(store, laid, updates, start, &mut page.bytes)?;
    put_bytes(&mut page.bytes, (at % 4096) as usize, bytes);
    updates.put(page)?;
    Ok(())
}

/// Changes bytes of the metadata's region.
pub fn put<S: Store>(
    store: &mut S,
    laid: &LaidFile<'_>,
    updates: &mut Updates,
    at: u64,
    bytes: &[u8],
) -> Result<(), MetaRefusal>
    requires laid { IsLaid laid.now (S.disk store.old) }
    requires updates { ArePages laid.now.parts.now updates.old }
    requires first { laid.now.parts.now.meta_at ≤ at }
    requires last { at + length bytes.now ≤ laid.now.parts.now.meta_at + laid.now.parts.now.meta_len }
    ensures written { OnOk result (WritesLaid laid.now at bytes.now (S.disk store.old) updates.old updates.new) }
    ensures pages { OnOk result (ArePages laid.now.parts.now updates.new) }
    ensures few { OnOk result (length updates.new ≤ length updates.old + length bytes.now / 4096 + 2) }
    ensures err { IfErr result IsFromOutside }
    ensures store { LeavesStore fault_of laid.now.file (S.disk store.old) (S.disk store.new) result }
{
    let mut done = 0;
    while done < bytes.len() {
        let from = at + done as u64;
        let n = (4096 - (from % 4096) as usize).min(bytes.len() - done);
        put_piece(store, laid, updates, from, &bytes[done..done + n])?;
        done += n;
    }
    Ok(())
}
