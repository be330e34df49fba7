//! A session.

ghost use Rattle.std.specs.Prelude.{◌≡◌, ◌≢◌, ◌+◌, ◌*◌, ◌≤◌, ◌<◌, ◌^◌, ◌-◌, length, true, Err, IfErr, IfOk};
ghost use Rattle.nbd_front.specs.Messages.{greeted, transmitting};
ghost use Rattle.nbd_front.specs.Parts.{phase_behind, read_part, stand, unread, CountsSource, CutsWrite, IsSector, Leads, Session, TakesData};

use crate::answering::{make_calls, reply};
use crate::desk::{Desk, make_room};
use crate::export::Export;
use crate::haggling::haggle;
use crate::intake::Intake;
use crate::refusal::NbdRefusal;
use crate::request::Request;
use crate::taking::{take_flags, take_request};
use crate::tally::MOST_MESSAGES;
use crate::writing::take_write;
use disk_calls::DiskCalls;
use store_model::{Sink, Source};
use vx_base::Geometry;

// Takes the data of a request, makes its calls, and gives its error.
fn handle<S: Source, D: DiskCalls>(
    disk: &mut D,
    source: &mut S,
    intake: &mut Intake,
    geometry: Geometry,
    request: &Request,
    page: &mut [u8],
) -> Result<u32, NbdRefusal>
    requires size { IsSector geometry.sector }
    requires sector { (D.size disk.old).sector ≡ geometry.sector }
    requires few { geometry.sectors * geometry.sector < 2 ^ 64 }
    requires piece { 1048592 ≤ length page.old }
    requires room { request.now.kind ≡ 0 → request.now.len ≤ 33554432 → 16 + request.now.len ≤ length page.old }
    ensures taken { IfOk result (TakesData D.tells geometry request.now intake.old.at intake.new.at (unread intake.old (S.left source.old))
        (unread intake.new (S.left source.new)) disk.old disk.new (read_part request.now page.new)) }
    ensures cut { IfErr result (CutsWrite D.tells geometry request.now intake.old.at (unread intake.old (S.left source.old))
        (unread intake.new (S.left source.new)) disk.old disk.new) }
    ensures few { IfOk result (λ error. error ≡ 0 → request.now.kind ≡ 0 → request.now.len ≤ 33554432) }
    ensures size { D.size disk.new ≡ D.size disk.old }
    ensures count { CountsSource result (S.faults source.old) (S.faults source.new) }
    ensures room { length page.new ≡ length page.old }
{
    if request.kind == 1 {
        return take_write(disk, source, intake, geometry, request, page);
    }
    Ok(make_calls(disk, geometry, request, page))
}

// Serves the next request, and tells whether another one may follow.
fn serve_request<S: Source, K: Sink, D: DiskCalls>(
    export: &Export,
    disk: &mut D,
    source: &mut S,
    sink: &mut K,
    desk: &mut Desk,
) -> Result<bool, NbdRefusal>
    requires size { IsSector export.now.geometry.sector }
    requires disk { D.size disk.old ≡ export.now.geometry }
    requires few { export.now.geometry.sectors * export.now.geometry.sector < 2 ^ 64 }
    requires more { desk.old.tally.messages < 2 ^ 48 }
    ensures on { IfOk result (λ on. Leads D.tells export.now transmitting
        (stand desk.old (S.left source.old) (S.faults source.old) (K.written sink.old) (K.faults sink.old) disk.old) (phase_behind on)
        (stand desk.new (S.left source.new) (S.faults source.new) (K.written sink.new) (K.faults sink.new) disk.new)) }
    ensures ended { IfErr result (λ refusal. Session D.tells export.now transmitting
        (stand desk.old (S.left source.old) (S.faults source.old) (K.written sink.old) (K.faults sink.old) disk.old)
        (stand desk.new (S.left source.new) (S.faults source.new) (K.written sink.new) (K.faults sink.new) disk.new) (Err refusal)) }
    ensures size { D.size disk.new ≡ D.size disk.old }
    ensures counted { IfOk result (λ on. on ≡ true → desk.new.tally.messages ≡ desk.old.tally.messages + 1) }
{
    let request = take_request(&mut desk.intake, source)?;
    if request.kind == 2 {
        return Ok(false);
    }
    make_room(&mut desk.page, &request);
    let error = handle(
        disk,
        source,
        &mut desk.intake,
        export.geometry,
        &request,
        desk.page.as_mut_slice(),
    )?;
    desk.tally.note(error);
    reply(sink, &request, error, desk.page.as_mut_slice())?;
    Ok(true)
}

// Serves requests, up to a disconnect.
fn transmit<S: Source, K: Sink, D: DiskCalls>(
    export: &Export,
    disk: &mut D,
    source: &mut S,
    sink: &mut K,
    desk: &mut Desk,
) -> Result<(), NbdRefusal>
    requires size { IsSector export.now.geometry.sector }
    requires disk { D.size disk.old ≡ export.now.geometry }
    requires few { export.now.geometry.sectors * export.now.geometry.sector < 2 ^ 64 }
    ensures session { Session D.tells export.now transmitting
        (stand desk.old (S.left source.old) (S.faults source.old) (K.written sink.old) (K.faults sink.old) disk.old)
        (stand desk.new (S.left source.new) (S.faults source.new) (K.written sink.new) (K.faults sink.new) disk.new) result }
{
    while desk.tally.messages < MOST_MESSAGES {
        if !serve_request(export, disk, source, sink, desk)? {
            return Ok(());
        }
    }
    Err(NbdRefusal::Spent)
}

/// Serves a session, behind the greeting.
pub fn serve_session<S: Source, K: Sink, D: DiskCalls>(
    export: &Export,
    disk: &mut D,
    source: &mut S,
    sink: &mut K,
    desk: &mut Desk,
) -> Result<(), NbdRefusal>
    requires size { IsSector export.now.geometry.sector }
    requires disk { D.size disk.old ≡ export.now.geometry }
    requires few { export.now.geometry.sectors * export.now.geometry.sector < 2 ^ 64 }
    ensures session { Session D.tells export.now greeted
        (stand desk.old (S.left source.old) (S.faults source.old) (K.written sink.old) (K.faults sink.old) disk.old)
        (stand desk.new (S.left source.new) (S.faults source.new) (K.written sink.new) (K.faults sink.new) disk.new) result }
{
    let flags = take_flags(&mut desk.intake, source)?;
    if !haggle::<S, K, D>(export, flags, source, sink, desk)? {
        return Ok(());
    }
    transmit(export, disk, source, sink, desk)
}
