//! Taking the data of a write.

ghost use Rattle.std.specs.Prelude.{◌≡◌, ◌+◌, ◌*◌, ◌≤◌, ◌<◌, ◌^◌, length, IfErr, IfOk};
ghost use Rattle.disk_calls.specs.Disks.{IsWhole};
ghost use Rattle.nbd_front.specs.Parts.{error_after, unread, CountsSource, CutsWrite, IsPieceTaken, IsSector, TakesWrite};

use crate::answering::error_of;
use crate::asking::{PIECE, judge};
use crate::intake::Intake;
use crate::refusal::NbdRefusal;
use crate::request::Request;
use disk_calls::DiskCalls;
use guest_model::ChainRefusal;
use store_model::Source;
use vx_base::Geometry;

// The error of a call by its answer, or 0.
fn error_after(answered: Result<u64, ChainRefusal>) -> u32
    ensures { result ≡ error_after answered }
{
    match answered {
        Ok(_) => 0,
        Err(refusal) => error_of(refusal),
    }
}

// Writes a piece, unless an error came before, and gives the error behind it.
fn write_piece<D: DiskCalls>(
    disk: &mut D,
    sector: u64,
    is_forced: bool,
    error: u32,
    at: u64,
    piece: &[u8],
) -> u32
    requires size { IsSector sector }
    requires sector { (D.size disk.old).sector ≡ sector }
    requires even { error ≡ 0 → IsWhole sector (length piece.now) }
    ensures taken { IsPieceTaken D.tells sector is_forced at piece.now error result disk.old disk.new }
    ensures size { D.size disk.new ≡ D.size disk.old }
{
    if error != 0 {
        return error;
    }
    if is_forced {
        return error_after(disk.write_through(at / sector, piece));
    }
    error_after(disk.write(at / sector, piece))
}

/// Takes the data of a write by pieces, and writes each, up to the first refusal. Gives the write's error.
pub fn take_write<S: Source, D: DiskCalls>(
    disk: &mut D,
    source: &mut S,
    intake: &mut Intake,
    geometry: Geometry,
    request: &Request,
    page: &mut [u8],
) -> Result<u32, NbdRefusal>
    requires size { IsSector geometry.sector }
    requires sector { (D.size disk.old).sector ≡ geometry.sector }
    requires few { geometry.sectors * geometry.sector < 2 ^ 64 }
    requires kind { request.now.kind ≡ 1 }
    requires room { 1048576 ≤ length page.old }
    ensures taken { IfOk result (TakesWrite D.tells geometry request.now intake.old.at intake.new.at (unread intake.old (S.left source.old))
        (unread intake.new (S.left source.new)) disk.old disk.new) }
    ensures cut { IfErr result (CutsWrite D.tells geometry request.now intake.old.at (unread intake.old (S.left source.old))
        (unread intake.new (S.left source.new)) disk.old disk.new) }
    ensures size { D.size disk.new ≡ D.size disk.old }
    ensures count { CountsSource result (S.faults source.old) (S.faults source.new) }
    ensures room { length page.new ≡ length page.old }
{
    let sector = geometry.sector as u64;
    let is_forced = request.flags == 1;
    let mut error = judge(geometry, request);
    let mut at = request.offset;
    let mut left = request.len as usize;
    while left > 0 {
        let n = PIECE.min(left);
        intake.need(source, &mut page[..n])?;
        error = write_piece(disk, sector, is_forced, error, at, &page[..n]);
        at = at.saturating_add(n as u64);
        left -= n;
    }
    Ok(error)
}
