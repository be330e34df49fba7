//! The calls of a request.

ghost use Rattle.std.specs.Prelude.{◌≡◌, ◌+◌, ◌*◌, ◌<◌, ◌≤◌, ◌≢◌, ◌^◌, [], length};
ghost use Rattle.disk_calls.specs.Disks.{IsWhole};
ghost use Rattle.nbd_front.specs.Calls as spec;
ghost use Rattle.nbd_front.specs.Calls.{read_calls, trim_calls};
ghost use Rattle.nbd_front.specs.Parts.{Asks, IsSector, refusal_in};

use crate::request::Request;
use disk_calls::DiskCalls;
use guest_model::ChainRefusal;
use vx_base::Geometry;

/// The most bytes of one read or write.
pub const PIECE: usize = 1_048_576;

/// The most bytes of one trim.
const TRIM: u64 = 268_435_456;

/// The most bytes of a request's data.
pub const MOST_BYTES: u32 = 33_554_432;

/// The error of a request that makes no call, or 0.
#[tactic(auto, unfolding(crate::specs::Calls::judged))]
pub fn judge(geometry: Geometry, request: &Request) -> u32
    requires even { IsSector geometry.sector }
    requires few { geometry.sectors * geometry.sector < 2 ^ 64 }
    ensures judged { result ≡ spec.judged geometry request.now }
    ensures few { result ≡ 0 → request.now.kind ≡ 0 → request.now.len ≤ 33554432 }
    ensures even { result ≡ 0 → request.now.kind ≢ 3 → IsWhole geometry.sector request.now.len }
    ensures inside { result ≡ 0 → request.now.kind ≢ 3 → request.now.offset + request.now.len ≤ geometry.sectors * geometry.sector }
{
    let sector = geometry.sector as u64;
    let end = geometry.sectors * sector;
    if request.kind > 4 || request.flags > 1 {
        return 22;
    }
    if request.kind == 3 {
        return 0;
    }
    if request.kind == 0 && request.len > MOST_BYTES {
        return 22;
    }
    let len = request.len as u64;
    if request.offset % sector != 0 || len % sector != 0 {
        return 22;
    }
    if request.offset > end || len > end - request.offset {
        return if request.kind == 1 { 28 } else { 22 };
    }
    0
}

/// Reads by pieces, up to the first refusal.
pub fn read_into<D: DiskCalls>(
    disk: &mut D,
    sector: u64,
    offset: u64,
    out: &mut [u8],
) -> Result<(), ChainRefusal>
    requires size { IsSector sector }
    requires sector { (D.size disk.old).sector ≡ sector }
    requires even { IsWhole sector (length out.old) }
    requires inside { offset + length out.old < 2 ^ 64 }
    ensures asks { Asks D.tells (read_calls sector offset (length out.new)) disk.old disk.new (refusal_in result) out.new }
    ensures size { D.size disk.new ≡ D.size disk.old }
{
    let mut done = 0;
    while done < out.len() {
        let n = PIECE.min(out.len() - done);
        disk.read((offset + done as u64) / sector, &mut out[done..done + n])?;
        done += n;
    }
    Ok(())
}

/// Trims by pieces, up to the first refusal.
pub fn trim_range<D: DiskCalls>(
    disk: &mut D,
    sector: u64,
    offset: u64,
    len: u64,
) -> Result<(), ChainRefusal>
    requires size { IsSector sector }
    requires sector { (D.size disk.old).sector ≡ sector }
    requires inside { offset + len < 2 ^ 64 }
    ensures asks { Asks D.tells (trim_calls sector offset len) disk.old disk.new (refusal_in result) [] }
    ensures size { D.size disk.new ≡ D.size disk.old }
{
    let mut done = 0;
    while done < len {
        let n = TRIM.min(len - done);
        disk.trim((offset + done) / sector, n / sector)?;
        done += n;
    }
    Ok(())
}
