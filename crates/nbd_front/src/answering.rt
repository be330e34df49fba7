//! Answering requests.

ghost use Rattle.std.specs.Prelude.{◌≡◌, ◌≢◌, ◌+◌, ◌*◌, ◌≤◌, ◌<◌, ◌^◌, ◌++◌, ℕ, [], drop, length, take, IfErr, OnErr, OnOk};
ghost use Rattle.std.specs.Io.KnownBytes.{Appends};
ghost use Rattle.store_model.specs.Cause.{Rose};
ghost use Rattle.nbd_front.specs.Calls.{flush_behind, trim_calls};
ghost use Rattle.nbd_front.specs.Parts.{Asks, IsHandled, IsSector, read_part, refusal_in, reply_text};
ghost use Rattle.nbd_front.specs.Parts as parts;
ghost use Rattle.nbd_front.specs.Replies as spec;

use crate::asking::{judge, read_into, trim_range};
use crate::fields::put_reply_head;
use crate::request::Request;
use crate::sending::send;
use disk_calls::DiskCalls;
use guest_model::ChainRefusal;
use store_model::{Sink, SinkFault};
use vx_base::Geometry;

/// The error of a refused call.
pub fn error_of(refusal: ChainRefusal) -> u32
    ensures { result ≡ spec.error_of refusal }
{
    match refusal {
        ChainRefusal::ReadOnly => 1,
        ChainRefusal::Broken { .. } => 5,
        ChainRefusal::ReadFault { .. } => 5,
        ChainRefusal::Abandoned { .. } => 5,
        ChainRefusal::NoRoom => 12,
        ChainRefusal::FileFull { .. } => 28,
        ChainRefusal::Spent { .. } => 108,
        _ => 22,
    }
}

// The error of calls, or 0.
fn error_among(made: Result<(), ChainRefusal>) -> u32
    ensures { result ≡ spec.error_among (refusal_in made) }
{
    match made {
        Ok(()) => 0,
        Err(refusal) => error_of(refusal),
    }
}

// Trims, and makes it outlast a crash where that is asked for.
fn trim<D: DiskCalls>(disk: &mut D, sector: u64, request: &Request) -> Result<(), ChainRefusal>
    requires size { IsSector sector }
    requires sector { (D.size disk.old).sector ≡ sector }
    requires inside { request.now.offset + request.now.len < 2 ^ 64 }
    ensures asks { Asks D.tells (trim_calls sector request.now.offset request.now.len ++ flush_behind request.now) disk.old
        disk.new (refusal_in result) [] }
    ensures size { D.size disk.new ≡ D.size disk.old }
{
    trim_range(disk, sector, request.offset, request.len as u64)?;
    if request.flags == 1 && request.len != 0 {
        disk.flush()?;
    }
    Ok(())
}

/// Makes the calls of a request that has no data, and gives its error. A read goes behind the first 16 bytes of the page.
pub fn make_calls<D: DiskCalls>(
    disk: &mut D,
    geometry: Geometry,
    request: &Request,
    page: &mut [u8],
) -> u32
    requires size { IsSector geometry.sector }
    requires sector { (D.size disk.old).sector ≡ geometry.sector }
    requires few { geometry.sectors * geometry.sector < 2 ^ 64 }
    requires other { request.now.kind ≢ 1 }
    requires room { request.now.kind ≡ 0 → request.now.len ≤ 33554432 → 16 + request.now.len ≤ length page.old }
    ensures handled { IsHandled D.tells geometry request.now [] disk.old disk.new result (read_part request.now page.new) }
    ensures few { result ≡ 0 → request.now.kind ≡ 0 → request.now.len ≤ 33554432 }
    ensures size { D.size disk.new ≡ D.size disk.old }
    ensures room { length page.new ≡ length page.old }
{
    let error = judge(geometry, request);
    if error != 0 {
        return error;
    }
    let sector = geometry.sector as u64;
    let len = request.len as usize;
    if request.kind == 0 {
        return error_among(read_into(disk, sector, request.offset, &mut page[16..16 + len]));
    }
    if request.kind == 4 {
        return error_among(trim(disk, sector, request));
    }
    match disk.flush() {
        Ok(_) => 0,
        Err(refusal) => error_of(refusal),
    }
}

// How many bytes are sent for a request by its error.
fn reply_len(request: &Request, error: u32) -> usize
    ensures { result ≡ parts.reply_len request.now error }
{
    if request.kind == 0 && error == 0 {
        return 16 + request.len as usize;
    }
    16
}

/// Sends the reply to a request by its error, with the bytes of a read behind the first 16 of the page.
pub fn reply<K: Sink>(
    sink: &mut K,
    request: &Request,
    error: u32,
    page: &mut [u8],
) -> Result<(), SinkFault>
    requires head { 16 ≤ length page.old }
    requires room { parts.reply_len request.now error ≤ length page.old }
    ensures ok { OnOk result (Appends (K.written sink.old) (K.written sink.new) (reply_text request.now error (read_part request.now page.old))) }
    ensures cut { OnErr result ((n : ℕ) × Appends (K.written sink.old) (K.written sink.new) (take n (reply_text request.now error (read_part request.now page.old)))) }
    ensures quiet { OnOk result (K.faults sink.new ≡ K.faults sink.old) }
    ensures rose { OnErr result (Rose (K.faults sink.old) (K.faults sink.new)) }
    ensures told { IfErr result (λ fault. fault.count ≡ K.faults sink.new) }
{
    put_reply_head(page, error, request.cookie);
    send(sink, &page[..reply_len(request, error)])
}
